//! Two threads that are inside at once, in a room with few objects and words: what one makes and reserves the other finds.
ghost use Rattle.std.specs.Prelude.{◌≡◌, IfOk};
ghost use Rattle.jr_model.specs.declared.event.Role.TheVariants.{Outside, Within};
ghost use Rattle.jr_steps.specs.Knowing.{MayKnow};
ghost use Rattle.jr_heap.specs.Heap.{HasKind};

use crate::heap::{comes_in, is_full, made, made_plain, read_answers, write_answers};
use crate::shared::{PairTest, in_a_room};
use assertions::assert_same;
use jr_heap::{Numbers, header, reserve};
use jr_model::Summary;
use jr_steps::{Steps, TopLoad};
use jr_word::{Config, Fault, HeaderParts, Kind};
use std::process::Abort;
use std::test::Fail;

/// A room of two threads for two objects and eight words.
const FEW: Config = Config {
    threads: 2,
    slots: 4,
    objects: 2,
    words: 8,
    locals: 16,
};

/// Checks the header of an object of the kind.
fn has_header<S: Steps>(
    rt: &impl Abort,
    steps: &mut S,
    object: u16,
    _kind: Kind,
    wanted: HeaderParts,
)
    requires role { (S.facts steps.old).stands.role ≡ Within }
    requires object { MayKnow S.facts steps.old (HasKind object _kind) }
    ensures stands { (S.facts steps.new).stands ≡ (S.facts steps.old).stands }
    ensures object { MayKnow S.facts steps.new (HasKind object _kind) }
{
    assert_same!(rt; header(steps, object), wanted);
}

/// Makes an array of three numbers at the first place, and writes and reads there. Then six more words don't fit.
fn makes_an_array<S: Steps>(
    rt: &impl Abort,
    steps: &mut S,
    numbers: &mut Numbers,
) -> Result<(), Fail>
    requires { (S.facts steps.old).stands.role ≡ Within }
    ensures { (S.facts steps.new).stands ≡ (S.facts steps.old).stands }
{
    let array = made(steps, numbers, Kind::Int, 3, 0)?;
    let wanted = HeaderParts {
        kind: Kind::Int,
        length: 3,
        place: 0,
    };
    has_header(rt, steps, array, Kind::Int, wanted);
    write_answers(rt, steps, array, Kind::Int, 2, 7, Ok(()));
    read_answers(rt, steps, array, Kind::Int, 2, Ok(7));
    write_answers(rt, steps, array, Kind::Int, 3, 1, Err(Fault::Range));
    write_answers(
        rt,
        steps,
        array,
        Kind::Int,
        0,
        4_294_967_296,
        Err(Fault::Value),
    );
    is_full(rt, reserve(steps, 6), 3);
    Ok(())
}

/// Thread 1 looks at the top, thread 0 reserves two words, and so thread 1, which would reserve one beside what it saw, does not.
fn is_overtaken<S: Steps>(rt: &impl Abort, first: &mut S, second: &mut S) -> Result<(), Fail>
    requires first { (S.facts first.old).stands.role ≡ Within }
    requires second { (S.facts second.old).stands.role ≡ Within }
    ensures first { (S.facts first.new).stands ≡ (S.facts first.old).stands }
    ensures second { (S.facts second.new).stands ≡ (S.facts second.old).stands }
{
    let used = second.see_top(TopLoad::Look);
    assert_same!(rt; used, 3);
    let _range = reserve(first, 2)?;
    if used >= second.config().words {
        return Err("the room has other sizes")?;
    }
    assert_same!(rt; second.claim_top(used, 1), Err(5));
    Ok(())
}

/// One plain object more takes the last number.
fn takes_the_last_number<S: Steps>(
    rt: &impl Abort,
    steps: &mut S,
    numbers: &mut Numbers,
) -> Result<(), Fail>
    requires { (S.facts steps.old).stands.role ≡ Within }
    ensures { (S.facts steps.new).stands ≡ (S.facts steps.old).stands }
{
    made_plain(steps, numbers)?;
    assert_same!(rt; made_plain(steps, numbers), Err(Fault::ObjectsFull));
    Ok(())
}

/// Thread 0 makes an array, reserves more words than thread 1 knows of, and makes the last object, while both are inside.
struct ShareWhatIsLeft;

impl PairTest for ShareWhatIsLeft {
    fn run<S: Steps, R: Abort>(rt: &R, first: &mut S, second: &mut S) -> Result<(), Fail> {
        let mut numbers = comes_in(first)?;
        assert!(rt; second.go_in());
        makes_an_array(rt, first, &mut numbers)?;
        is_overtaken(rt, first, second)?;
        takes_the_last_number(rt, first, &mut numbers)?;
        first.go_out();
        second.go_out();
        Ok(())
    }
}

#[test]
fn two_threads_share_the_last_words_and_numbers(rt: HostRuntime) -> Result<(), Fail> {
    let left = Summary {
        globals: 0,
        weaks: 0,
        live: 2,
        used: 5,
    };
    in_a_room::<ShareWhatIsLeft, _>(&rt, rt.alloc(), FEW, left)
}
