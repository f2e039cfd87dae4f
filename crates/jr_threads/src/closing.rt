//! Places for what threads give back, and the close behind them: the first pass learns what the others have seen, and collects.
ghost use Rattle.std.specs.Prelude.{◌≡◌, [], ◌∷◌, All, map, IfOk, vec_capacity, vec_len};
ghost use Rattle.std.specs.List.{AllByRecursion};
ghost use mathlib.Core.List.{IsPrefix};
ghost use Rattle.jr_model.specs.declared.event.Role.TheVariants.{Outside};
ghost use Rattle.jr_steps.specs.Knowing.{Goes, Took, anything, keeps};
ghost use Rattle.jr_rule.specs.Passes.{HasEachPass, facts_of, holder_of, known_of, stands_of};
ghost use Rattle.jr_rule.specs.Rooms.{IsOfRoom, holder_over};
ghost use Rattle.jr_rule.specs.Rule.{stepping_pass};
ghost use Rattle.jr_weak.specs.Markers.{room_of};
ghost use Rattle.jr_threads.specs.Closing.{ClosesSwept, LearnsAll, LearnsAndSweeps};
ghost use Rattle.jr_threads.specs.Sites.{answers_in, ended_in, passes_in, HasPlace, HasReserve, HasStopped};

use crate::native::{Ended, LAST, Place};
use jr_model::Summary;
use jr_rule::{Pass, Room, RoomSteps};
use jr_weak::{Marker, collect};
use std::alloc::{AllocError, Global};

/// Where what threads give back is put: memory for all of it is taken before any of them starts.
#[derive(Drop)]
pub(crate) struct Places<A: Drop> {
    pub(crate) threads: Vec<Place<A>>,
    pub(crate) answers: Vec<A>,
    pub(crate) passes: Vec<Pass>,
}

impl<A: Drop> Places<A> {
    /// Places for threads with these passes, which wait there.
    pub(crate) fn new(alloc: Global, passes: Vec<Pass>) -> Result<Self, AllocError>
        ensures { IfOk result (λ p. HasPlace passes.items p) }
    {
        let count = passes.len();
        let mut threads = Vec::with_capacity(alloc, count)?;
        let answers = Vec::with_capacity(alloc, count)?;
        let left = Vec::with_capacity(alloc, count)?;
        for pass in passes {
            threads.push_reserved(Place {
                waiting: Some(pass),
                ended: None,
            });
        }
        Ok(Places {
            threads,
            answers,
            passes: left,
        })
    }

    /// Takes apart what the threads gave back.
    pub(crate) fn parted(self) -> (Vec<A>, Vec<Pass>)
        requires over { All (λ p. HasStopped p) self.threads.items }
        requires room { HasReserve self }
        ensures answers { result.0.items ≡ answers_in (ended_in self.threads.items) }
        ensures passes { result.1.items ≡ passes_in (ended_in self.threads.items) }
    {
        let Places {
            threads,
            mut answers,
            mut passes,
        } = self;
        for place in threads {
            let Place { ended, .. } = place;
            let Some(Ended { answer, pass }) = ended else {
                unreachable!();
            };
            answers.push_reserved(answer);
            passes.push_reserved(pass);
        }
        (answers, passes)
    }
}

/// The thread of steps learns all that the holder of another pass of the room has seen, which gets its pass back as it was.
fn learn_from(steps: &mut RoomSteps<'_, LAST>, other: Pass) -> Pass
    requires { IsOfRoom steps.old.place.now other }
    ensures room { steps.new.place ≡ steps.old.place }
    ensures step { Took facts_of (holder_over steps.old) (holder_over steps.new) [] anything keeps }
    ensures seen { Goes (stepping_pass steps.old.cells.seat.me) [] (stepping_pass steps.new.cells.seat.me) }
    ensures learned { IsPrefix (known_of other).seen (stepping_pass steps.new.cells.seat.me).seen }
    ensures other { stands_of result ≡ stands_of other }
{
    let mut others = RoomSteps::new(steps.place, other);
    let note = others.note();
    steps.learn(note);
    others.into_pass()
}

/// The thread of steps learns all that the holders of other passes of the room have seen, which get them back as they were.
pub(crate) fn learn_all(steps: &mut RoomSteps<'_, LAST>, mut others: Vec<Pass>) -> Vec<Pass>
    requires { All (λ p. IsOfRoom steps.old.place.now p) others.items }
    ensures room { steps.new.place ≡ steps.old.place }
    ensures stands { (facts_of (holder_over steps.new)).stands ≡ (facts_of (holder_over steps.old)).stands }
    ensures others { map stands_of result.items ≡ map stands_of others.items }
    ensures learned { LearnsAll (stepping_pass steps.old.cells.seat.me) (stepping_pass steps.new.cells.seat.me) (map known_of others.items) }
    ensures len { vec_len result ≡ vec_len others }
    ensures capacity { vec_capacity result ≡ vec_capacity others }
{
    let Some(other) = others.pop() else {
        return others;
    };
    let other = learn_from(steps, other);
    let mut others = learn_all(steps, others);
    others.push_reserved(other);
    others
}

/// The holder of a pass learns all that those of the others have seen, and collects.
fn sweep(
    room: &Room<LAST>,
    first: Pass,
    others: Vec<Pass>,
    marker: &mut Marker,
) -> (Pass, Vec<Pass>)
    requires first { IsOfRoom room.now first }
    requires others { All (λ p. IsOfRoom room.now p) others.items }
    requires outside { first.role ≡ Outside }
    requires marker { room_of marker.old ≡ room.now.row.config.objects }
    ensures first { IsOfRoom room.now result.0 }
    ensures outside { result.0.role ≡ Outside }
    ensures others { map stands_of result.1.items ≡ map stands_of others.items }
    ensures swept { LearnsAndSweeps (known_of first) (known_of result.0) (map known_of others.items) }
{
    let mut steps = RoomSteps::new(room, first);
    let others = learn_all(&mut steps, others);
    let _ = collect(&mut steps, marker);
    (steps.into_pass(), others)
}

/// Closes a room with the passes of its threads, which are outside, once the first has learned all that the others have seen, and has collected.
pub(crate) fn close(
    room: Room<LAST>,
    first: Pass,
    others: Vec<Pass>,
    marker: &mut Marker,
) -> Summary
    requires first { IsOfRoom room first }
    requires others { All (λ p. IsOfRoom room p) others.items }
    requires each { HasEachPass room.row.config (map known_of (first ∷ others.items)) }
    requires outside { AllByRecursion (λ p. p.role ≡ Outside) (first ∷ others.items) }
    requires marker { room_of marker.old ≡ room.row.config.objects }
    ensures { ClosesSwept (known_of first) (map known_of others.items) result }
{
    let (first, others) = sweep(&room, first, others, marker);
    let Ok(summary) = room.close_all(first, others) else {
        unreachable!();
    };
    summary
}
