//! A thread that others overtake each time, between its look at a word and its exchange: at the top, where another reserves words, and at the gate, where they go in or out, or announce.
ghost use Rattle.std.specs.Prelude.{◌≡◌};

use crate::courses::{By, Shown, overtakes};
use crate::envs::refuses;
use crate::plans::Planned;
use assertions::assert_same;
use jr_env::{Env, NativeInterface};
use jr_model::Summary;
use jr_rule::{Cells, Parts, StepKind, StepsOver};
use jr_steps::Steps;
use jr_word::{Config, Elem, Fault, GateWord, Handle, HeaderParts};
use std::process::Abort;
use std::test::Fail;

/// Two threads and eight words, with a third thread that takes no step.
const SMALL: Config = Config {
    threads: 3,
    slots: 1,
    objects: 4,
    words: 8,
    locals: 16,
};

/// Local, of thread 1, with serial 0 at the first place.
pub(crate) const FIRST: Handle = Handle(0x4_0000_0000_0001);

/// The gate is the first word of the row, and the top of the array space the second.
const GATE: usize = 0;

const TOP: usize = 1;

/// The exchange of a word before which another thread acts.
#[derive(Clone, Copy, PartialEq, Eq)]
pub(crate) enum Before {
    /// Of the top.
    Reservation,
    /// Of the gate, which announces that it will be shut.
    Announcement,
    /// Of the gate, which shuts it, as announced.
    Shut,
}

/// Which of them an exchange of one word for another is, if it is one.
fn kind_of(at: usize, old: u64, new: u64) -> Option<Before> {
    if at == TOP {
        return Some(Before::Reservation);
    }
    if at != GATE {
        return None;
    }
    if old == GateWord::ANNOUNCED {
        return Some(Before::Shut);
    }
    if new & GateWord::ANNOUNCED != 0 {
        return Some(Before::Announcement);
    }
    None
}

/// Who else is in the room, and what they do before a step of a thread.
#[derive(Drop)]
pub(crate) enum Others<U: Steps> {
    /// A thread makes an array before each reservation, the next one of so many elements.
    Maker(Env<U>, u32),
    /// Each of two threads does what it plans.
    Planners(Planned<U>, Planned<U>),
}

impl<U: Steps> Others<U> {
    /// They do what they do before an exchange of this kind, if it is of one.
    fn act(&mut self, before: Option<Before>) {
        match before {
            Some(before) => self.act_before(before),
            None => {}
        }
    }

    fn act_before(&mut self, before: Before) {
        match self {
            Others::Maker(env, length) => make_before(env, length, before),
            Others::Planners(first, second) => {
                first.act(before);
                second.act(before);
            }
        }
    }

    /// The first that plans takes its announcement back.
    pub(crate) fn give_way(&mut self) {
        if let Others::Planners(first, _) = self {
            first.give_way();
        }
    }
}

/// Makes an array before a reservation, of three elements and of two by turns.
fn make_before<U: Steps>(env: &mut Env<U>, length: &mut u32, before: Before) {
    if before == Before::Reservation {
        let _ = env.new_array::<i32>(*length);
        *length = if *length == 3 { 2 } else { 3 };
    }
}

/// Who steps on the words of a row. Before each exchange of the top, each announcement and each shut that was announced others act.
#[derive(Drop)]
pub(crate) struct Overtaken<C, U: Steps> {
    pub(crate) cells: C,
    pub(crate) others: Others<U>,
}

impl<P: Copy, C: Cells<P>, U: Steps> Cells<P> for Overtaken<C, U> {
    ghost sight = { λ s. C.sight s.cells };

    ghost goes = { λ s t acts. C.goes s.cells t.cells acts };

    ghost joints = { λ s. C.joints s.cells };

    ghost are_at = { λ s place. C.are_at s.cells place };

    ghost one = { λ s place. C.one s.cells place };

    fn config(&self, place: P) -> Config {
        self.cells.config(place)
    }

    fn last(&self, place: P) -> u32 {
        self.cells.last(place)
    }

    fn thread(&self, place: P) -> u8 {
        self.cells.thread(place)
    }

    fn headers(&self, place: P) -> usize {
        self.cells.headers(place)
    }

    fn elements(&self, place: P) -> usize {
        self.cells.elements(place)
    }

    fn load<T: StepKind>(&mut self, place: P, at: usize) -> u64 {
        self.cells.load::<T>(place, at)
    }

    fn store<T: StepKind>(&mut self, place: P, at: usize, new: u64) {
        self.cells.store::<T>(place, at, new);
    }

    fn add<T: StepKind>(&mut self, place: P, at: usize, more: u64) -> u64 {
        self.cells.add::<T>(place, at, more)
    }

    fn take<T: StepKind>(&mut self, place: P, at: usize, less: u64) -> u64 {
        self.cells.take::<T>(place, at, less)
    }

    fn exchange<T: StepKind>(&mut self, place: P, at: usize, old: u64, new: u64) -> u64 {
        self.others.act(kind_of(at, old, new));
        self.cells.exchange::<T>(place, at, old, new)
    }

    ghost sound = { λ s place at. C.sound s.cells place at };
}

impl<P: Copy, C: Parts<P>, U: Steps> Parts<P> for Overtaken<C, U> {
    fn load_part<E: Elem>(
        &mut self,
        place: P,
        object: u16,
        header: HeaderParts,
        start: u32,
        elements: &mut [E],
    ) {
        self.cells.load_part(place, object, header, start, elements);
    }
}

/// The steps of a thread, with others that overtake it.
pub(crate) fn with_others<C: Cells<P>, P: Copy, U: Steps>(
    steps: StepsOver<C, P>,
    others: Others<U>,
) -> StepsOver<Overtaken<C, U>, P>
    ensures { result.role ≡ steps.role }
{
    let StepsOver {
        cells,
        role,
        fresh,
        hint,
        place,
    } = steps;
    StepsOver {
        cells: Overtaken { cells, others },
        role,
        fresh,
        hint,
        place,
    }
}

/// Each call that reserves words is refused with E12, as another thread reserved some each time. It has left no local reference.
pub(crate) fn is_overtaken<S: Steps>(rt: &impl Abort, env: &mut Env<S>) -> Result<(), Fail> {
    refuses(rt, env.new_array::<i32>(3), Fault::Raced(0, 3));
    refuses(rt, env.new_string(&[1, 2]), Fault::Raced(3, 5));
    refuses(
        rt,
        env.new_object_array(3, Handle::NULL),
        Fault::Raced(5, 8),
    );
    assert_same!(rt; env.held.steps.thread(), 1);
    assert_same!(rt; env.get_object_ref_type(FIRST), Ok(0));
    Ok(())
}

// A call that E12 refused has left no local reference, no object and no word.
#[test]
fn another_thread_is_always_faster(rt: HostRuntime) -> Result<(), Fail> {
    // Three arrays of the other thread, with three, two and three elements.
    let summary = Summary {
        globals: 0,
        weaks: 0,
        live: 3,
        used: 8,
    };
    let left = Some(summary);
    overtakes(&rt, rt.alloc(), SMALL, By::Maker, Shown::IsOvertaken, left)
}
