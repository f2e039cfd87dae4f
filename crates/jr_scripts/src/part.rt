//! What one thread of a script does in the room that it shares.

ghost use Rattle.jr_scripts.specs.AllRuns.{RanPass};
ghost use Rattle.jr_scripts.specs.Layouts.{layout_of};
ghost use Rattle.jr_scripts.specs.Telling.{talk_told};
ghost use Rattle.jr_rule.specs.Rooms.{IsOfRoom};
ghost use Rattle.std.specs.Prelude.{◌≡◌, Some};
ghost use Rattle.jr_scripts.specs.Jobs.{IsFor};

use crate::board::Posts;
use crate::hold::Hold;
use crate::opening::opened_env;
use crate::sightings::Sightings;
use crate::task::Task;
use crate::to_end::run_to_end;
use jr_rule::{Pass, PinnedNoteOf, Room, RoomSteps, Site};
use jr_word::Fault;
use std::alloc::Global;

/// What a thread is given: what it runs, and its pass.
#[derive(Drop)]
pub(crate) struct Job<'a> {
    pub(crate) task: Task<'a>,
    pub(crate) pass: Pass,
}

/// What a thread gives back: its pass, its lines, whether memory was refused, and its notes of the board.
#[derive(Drop)]
pub(crate) struct ThreadRun<'a, Q: Site> {
    pub(crate) pass: Pass,
    pub(crate) text: Vec<u8>,
    pub(crate) answer: Result<(), Fault>,
    pub(crate) notes: Sightings<'a, PinnedNoteOf<Q>>,
}

/// Does a job, and frees the thread's local references at its end.
pub(crate) fn run_job<'a, Q: Site, H: Hold, const LAST: u32>(
    alloc: Global,
    room: &Room<LAST>,
    board: &'a Posts<PinnedNoteOf<Q>>,
    hold: &H,
    job: Job<'_>,
) -> ThreadRun<'a, Q>
    requires job { IsFor room.now.row job }
    requires site { Some room.now.row.table.shared.table_id ≡ Q.room }
    ensures ran { RanPass (talk_told result.notes.is_lost result.notes.posts.now.numbers.entries result.notes.notes.items)
        job.entry.task.turns job.entry.task.first job.entry.task.commands.now job.entry.pass result.pass result.answer result.text.items }
    ensures over { layout_of result.notes.posts.now ≡ layout_of board.now }
{
    let mut text = Vec::new(alloc);
    let mut env = opened_env(RoomSteps::new(room, job.pass));
    let mut notes = Sightings::new(alloc, board);
    let answer = run_to_end(alloc, &mut env, job.task, &mut notes, hold, &mut text);
    let steps = env.into_pass();
    ThreadRun {
        pass: steps.into_pass(),
        text,
        answer,
        notes,
    }
}
