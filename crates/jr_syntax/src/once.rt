//! Whether a script posts each name once.

ghost use Rattle.std.specs.Prelude.{◌≡◌, ◌++◌, true, false};
ghost use Rattle.std.specs.List.{flat_map};
ghost use Rattle.jr_syntax.specs.Faults.{share};
ghost use Rattle.jr_syntax.specs.Script.{all_apart, posted, posts_of};

use crate::command::Command;
use crate::draft::{any_part_posts, any_posts};
use crate::script::Script;
use crate::thread::ThreadPart;
use crate::verb::OnName;

/// Whether a command posts a name that one of those behind it posts, or one of the later parts.
fn is_posted_again(command: &Command, behind: &[Command], later: &[ThreadPart]) -> bool
    ensures { result ≡ share (posted command.now) (flat_map posted behind.now ++ posts_of later.now) }
{
    match command {
        Command::OnName {
            verb: OnName::Post,
            name,
        } => any_posts(behind, name.as_slice()) || any_part_posts(later, name.as_slice()),
        _ => false,
    }
}

/// Whether no command posts a name that one behind it posts, or one of the later parts.
fn commands_post_once(commands: &[Command], later: &[ThreadPart]) -> bool
    ensures once { result ≡ true → all_apart (flat_map posted commands.now ++ posts_of later.now) ≡ all_apart (posts_of later.now) }
    ensures twice { result ≡ false → all_apart (flat_map posted commands.now ++ posts_of later.now) ≡ false }
{
    for (i, command) in commands.iter().enumerate() {
        if is_posted_again(command, &commands[i + 1..], later) {
            return false;
        }
    }
    true
}

impl Script {
    /// Whether no two commands post one name.
    pub fn posts_once(&self) -> bool
        ensures { result ≡ all_apart (posts_of self.now.threads) }
    {
        let parts = self.threads.as_slice();
        for (i, part) in parts.iter().enumerate() {
            if !commands_post_once(part.commands.as_slice(), &parts[i + 1..]) {
                return false;
            }
        }
        true
    }
}
