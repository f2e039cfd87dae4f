//! What the threads of a script have printed, put together.

ghost use Rattle.std.specs.Prelude.{◌≡◌, All, length, IfOk, IfErr};
ghost use Rattle.std.specs.List.{AllByRecursion};
ghost use Rattle.jr_word.specs.declared.fault.Fault.TheVariants.{Memory};
ghost use Rattle.jr_scripts.specs.Jobs.{board_noted, rank_noted, AreTold, AreToldAlike, IsOver, IsToldBy};
ghost use Rattle.jr_scripts.specs.Layouts.{layout_of};

use crate::board::Posts;
use crate::part::ThreadRun;
use crate::printed::heading;
use crate::sightings::Sightings;
use jr_rule::{Pass, PinnedNoteOf, Site};
use jr_syntax::ThreadPart;
use jr_word::Fault;
use std::alloc::{AllocError, Global};

/// A growth was refused.
fn out_of_memory(_: AllocError) -> Fault
    ensures { result ≡ Memory }
{
    Fault::Memory
}

/// The passes of threads that were not refused memory, and what the threads print. What each of them posted and saw is among all that was.
fn told_by<'a, Q: Site>(
    alloc: Global,
    parts: &[ThreadPart],
    mut runs: Vec<ThreadRun<'a, Q>>,
    all: &Sightings<'a, PinnedNoteOf<Q>>,
) -> Result<(Vec<Pass>, Vec<u8>), Fault>
    requires long { length runs.items ≡ length parts.now }
    requires over { All (IsOver (layout_of all.now.posts.now)) runs.items }
    ensures ok { IfOk result (λ r. AreTold parts.now runs.entry.items r.0.items r.1.items) }
    ensures noted { IfOk result (λ r. AllByRecursion (IsToldBy (board_noted all.now.posts.now.numbers.entries all.now.notes.items)
        (rank_noted all.now.posts.now.numbers.entries all.now.notes.items)) runs.entry.items) }
    ensures err { IfErr result (λ e. e ≡ Memory) }
{
    let mut passes = Vec::new(alloc);
    let mut text = Vec::new(alloc);
    for part in parts {
        if passes.reserve(1).is_err() {
            return Err(Fault::Memory);
        }
        let run = runs.remove(0);
        let Ok(()) = run.answer else {
            return Err(Fault::Memory);
        };
        if !all.has_all_of(&run.notes) {
            return Err(Fault::Memory);
        }
        let head = heading(alloc, &part.name).map_err(out_of_memory)?;
        text.extend_from_slice(&head).map_err(out_of_memory)?;
        text.extend_from_slice(&run.text).map_err(out_of_memory)?;
        let ThreadRun { pass, .. } = run;
        passes.push_reserved(pass);
    }
    Ok((passes, text))
}

/// The same, of threads that shared this board, and have ended.
pub(crate) fn told<'a, Q: Site>(
    alloc: Global,
    parts: &[ThreadPart],
    board: &'a Posts<PinnedNoteOf<Q>>,
    runs: Vec<ThreadRun<'a, Q>>,
) -> Result<(Vec<Pass>, Vec<u8>), Fault>
    requires long { length runs.items ≡ length parts.now }
    requires over { All (IsOver (layout_of board.now)) runs.items }
    ensures ok { IfOk result (λ r. AreToldAlike board.now.numbers.entries parts.now runs.entry.items r.0.items r.1.items) }
    ensures err { IfErr result (λ e. e ≡ Memory) }
{
    let all = Sightings::of_all(alloc, board);
    told_by(alloc, parts, runs, &all)
}
