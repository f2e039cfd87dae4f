//! Whether a script can be run.

ghost use Rattle.std.specs.Prelude.{◌≡◌, ◌↔◌, ◌+◌, ◌<◌, ◌≤◌, ◌^◌, true, length, IfNone, IfSome};
ghost use Rattle.jr_scripts.specs.AllRuns.{CanBeRun, lines_of_parts};

use jr_syntax::{Script, ThreadPart};

/// The line of a script on which its first thread's part begins.
pub(crate) const FIRST_PART: usize = 2;

/// The line behind a part that begins on a line, where it has a number.
fn line_behind(line: usize, part: &ThreadPart) -> Option<usize>
    ensures none { IfNone result (2 ^ 64 ≤ line + 1 + length part.now.commands) }
    ensures some { IfSome result (λ n. (n ≡ line + 1 + length part.now.commands) × (n < 2 ^ 64)) }
{
    line.checked_add(1)?
        .checked_add(part.commands.as_slice().len())
}

/// Whether the line behind all these parts has a number.
fn are_numbered(parts: &[ThreadPart]) -> bool
    ensures { (result ≡ true) ↔ (2 + lines_of_parts parts.now < 2 ^ 64) }
{
    let mut line = FIRST_PART;
    for part in parts {
        let Some(behind) = line_behind(line, part) else {
            return false;
        };
        line = behind;
    }
    true
}

/// Whether a script can be run.
pub(crate) fn can_be_run(script: &Script) -> bool
    ensures { (result ≡ true) ↔ CanBeRun script.now }
{
    let parts = script.threads.as_slice();
    parts.len() == script.config.threads as usize
        && script.config.in_limits()
        && script.posts_once()
        && are_numbered(parts)
}
