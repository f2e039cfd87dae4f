//! The heap at its limits, words that are none of a kind, and ranges and headers that serve later.
ghost use Rattle.std.specs.Prelude.{◌≡◌, ◌≢◌, IfOk};
ghost use Rattle.jr_word.specs.declared.kind.Kind.TheVariants.{Int, Plain};
ghost use Rattle.jr_model.specs.declared.event.Role.TheVariants.{Outside, Within};
ghost use Rattle.jr_steps.specs.declared.known.Known.{Known};
ghost use Rattle.jr_steps.specs.Knowing.{HasObject, IsWordNow, MayKnow};
ghost use Rattle.jr_heap.specs.Heap.{HasKind, IsReady, MayBeNamed};
ghost use Rattle.jr_heap.specs.Ranges.{place_of, size_of, AreReady};

use crate::plain::{FirstWord, WordsTest, alone};
use crate::shared::{PairTest, in_a_room};
use assertions::assert_same;
use jr_heap::{Numbers, Range, fill, header, publish, read, read_element, reserve, write};
use jr_model::Summary;
use jr_steps::Steps;
use jr_word::{Config, Fault, Kind};
use std::process::Abort;
use std::test::Fail;

/// A room of one thread for arrays of every kind.
const WIDE: Config = Config {
    threads: 1,
    slots: 1,
    objects: 8,
    words: 16,
    locals: 16,
};

/// The sizes at their limits.
const LARGE: Config = Config {
    objects: Config::MOST_OBJECTS,
    words: Config::MOST_WORDS,
    ..Config::LEAST
};

/// A room of two threads for ten objects and 20 words.
const SHARED: Config = Config {
    threads: 2,
    slots: 1,
    objects: 10,
    words: 20,
    locals: 16,
};

/// Comes in, and looks for free numbers from the first one on.
pub(crate) fn comes_in<S: Steps>(steps: &mut S) -> Result<Numbers, Fail>
    requires { (S.facts steps.old).stands.role ≡ Outside }
    ensures { IfOk result (λ _. (S.facts steps.new).stands.role ≡ Within) }
{
    if !steps.go_in() {
        return Err("nobody collects")?;
    }
    Ok(Numbers::new())
}

/// A new object with so many elements, each of which is the word.
pub(crate) fn made<S: Steps>(
    steps: &mut S,
    numbers: &mut Numbers,
    kind: Kind,
    length: u32,
    word: u64,
) -> Result<u16, Fault>
    requires role { (S.facts steps.old).stands.role ≡ Within }
    requires plain { kind ≡ Plain → length ≡ 0 }
    requires word { (k : Known) → IsWordNow kind word k }
    ensures stands { (S.facts steps.new).stands ≡ (S.facts steps.old).stands }
    ensures object { IfOk result (λ o. MayKnow S.facts steps.new (HasKind o kind)) }
{
    let range = reserve(steps, u64::from(length))?;
    fill(steps, &range, word);
    publish(steps, numbers, kind, range)
}

/// The element at an index of an object of the kind.
fn got<S: Steps>(steps: &mut S, object: u16, _kind: Kind, index: u32) -> Result<u64, Fault>
    requires role { (S.facts steps.old).stands.role ≡ Within }
    requires object { MayKnow S.facts steps.old (HasKind object _kind) }
    ensures stands { (S.facts steps.new).stands ≡ (S.facts steps.old).stands }
    ensures object { MayKnow S.facts steps.new (HasKind object _kind) }
{
    read(steps, object, index)
}

/// Writes the element at an index of an object of the kind.
fn put<S: Steps>(
    steps: &mut S,
    object: u16,
    _kind: Kind,
    index: u32,
    word: u64,
) -> Result<(), Fault>
    requires role { (S.facts steps.old).stands.role ≡ Within }
    requires object { MayKnow S.facts steps.old (HasKind object _kind) }
    requires named { (k : Known) → MayBeNamed _kind word k }
    ensures stands { (S.facts steps.new).stands ≡ (S.facts steps.old).stands }
    ensures object { MayKnow S.facts steps.new (HasKind object _kind) }
{
    write(steps, object, index, word)
}

/// Reading the element at an index of an object of the kind answers what is wanted.
pub(crate) fn read_answers<S: Steps>(
    rt: &impl Abort,
    steps: &mut S,
    object: u16,
    _kind: Kind,
    index: u32,
    wanted: Result<u64, Fault>,
)
    requires role { (S.facts steps.old).stands.role ≡ Within }
    requires object { MayKnow S.facts steps.old (HasKind object _kind) }
    ensures stands { (S.facts steps.new).stands ≡ (S.facts steps.old).stands }
    ensures object { MayKnow S.facts steps.new (HasKind object _kind) }
{
    assert_same!(rt; got(steps, object, _kind, index), wanted);
}

/// Writing the element at an index of an object of the kind answers what is wanted.
pub(crate) fn write_answers<S: Steps>(
    rt: &impl Abort,
    steps: &mut S,
    object: u16,
    _kind: Kind,
    index: u32,
    word: u64,
    wanted: Result<(), Fault>,
)
    requires role { (S.facts steps.old).stands.role ≡ Within }
    requires object { MayKnow S.facts steps.old (HasKind object _kind) }
    requires named { (k : Known) → MayBeNamed _kind word k }
    ensures stands { (S.facts steps.new).stands ≡ (S.facts steps.old).stands }
    ensures object { MayKnow S.facts steps.new (HasKind object _kind) }
{
    assert_same!(rt; put(steps, object, _kind, index, word), wanted);
}

/// A new plain object.
pub(crate) fn made_plain<S: Steps>(steps: &mut S, numbers: &mut Numbers) -> Result<u16, Fault>
    requires { (S.facts steps.old).stands.role ≡ Within }
    ensures stands { (S.facts steps.new).stands ≡ (S.facts steps.old).stands }
    ensures object { IfOk result (λ o. MayKnow S.facts steps.new (HasKind o Plain)) }
{
    let empty = reserve(steps, 0)?;
    publish(steps, numbers, Kind::Plain, empty)
}

/// A word that is one too large is refused, and an index past the length before it.
fn refuses_past<S: Steps>(
    rt: &impl Abort,
    steps: &mut S,
    numbers: &mut Numbers,
    kind: Kind,
    past: u64,
) -> Result<(), Fail>
    requires role { (S.facts steps.old).stands.role ≡ Within }
    requires kind { kind ≢ Plain }
    requires least { (k : Known) → IsWordNow kind 0 k }
    requires named { (k : Known) → MayBeNamed kind past k }
    ensures { (S.facts steps.new).stands ≡ (S.facts steps.old).stands }
{
    let object = made(steps, numbers, kind, 1, 0)?;
    write_answers(rt, steps, object, kind, 0, past, Err(Fault::Value));
    write_answers(rt, steps, object, kind, 1, past, Err(Fault::Range));
    read_answers(rt, steps, object, kind, 0, Ok(0));
    Ok(())
}

/// The same for each kind of numbers of fewer bits than a word.
struct EachKindRefusesPast;

impl WordsTest for EachKindRefusesPast {
    fn run<S: Steps + FirstWord, R: Abort>(rt: &R, steps: &mut S) -> Result<(), Fail> {
        let numbers = &mut comes_in(steps)?;
        refuses_past(rt, steps, numbers, Kind::Boolean, 2)?;
        refuses_past(rt, steps, numbers, Kind::Byte, 0x100)?;
        refuses_past(rt, steps, numbers, Kind::Char, 0x1_0000)?;
        refuses_past(rt, steps, numbers, Kind::Short, 0x1_0000)?;
        refuses_past(rt, steps, numbers, Kind::Int, 0x1_0000_0000)?;
        Ok(())
    }
}

#[test]
fn a_word_past_the_kind_is_refused(rt: HostRuntime) -> Result<(), Fail> {
    alone::<EachKindRefusesPast, _>(&rt, rt.alloc(), WIDE)
}

/// Makes so many objects without elements. The sum of their numbers.
fn make_many<S: Steps>(steps: &mut S, numbers: &mut Numbers, count: u32) -> Result<u64, Fail>
    requires { (S.facts steps.old).stands.role ≡ Within }
    ensures { (S.facts steps.new).stands ≡ (S.facts steps.old).stands }
{
    let mut sum = 0u64;
    for _ in 0..count {
        let object = made(steps, numbers, Kind::Int, 0, 0)?;
        sum = sum.saturating_add(u64::from(object));
    }
    Ok(sum)
}

/// An array of three words, made of a range that stays filled while another is reserved.
fn made_beside<S: Steps>(steps: &mut S, numbers: &mut Numbers) -> Result<u16, Fault>
    requires { (S.facts steps.old).stands.role ≡ Within }
    ensures stands { (S.facts steps.new).stands ≡ (S.facts steps.old).stands }
    ensures object { IfOk result (λ o. MayKnow S.facts steps.new (HasObject o)) }
{
    let first = reserve(steps, 3)?;
    fill(steps, &first, 7);
    let _second = reserve(steps, 2)?;
    publish(steps, numbers, Kind::Int, first)
}

/// The first element of an object, read by a header that was looked up before another pass published and the object was looked up again.
fn read_again<S: Steps>(
    steps: &mut S,
    other: &mut S,
    numbers: &mut Numbers,
    object: u16,
) -> Result<u64, Fault>
    requires role { (S.facts steps.old).stands.role ≡ Within }
    requires beside { (S.facts other.old).stands.role ≡ Within }
    requires object { MayKnow S.facts steps.old (HasObject object) }
    ensures stands { (S.facts steps.new).stands ≡ (S.facts steps.old).stands }
    ensures beside { (S.facts other.new).stands ≡ (S.facts other.old).stands }
{
    let found = header(steps, object);
    made_plain(other, numbers)?;
    read(steps, object, 0)?;
    read_element(steps, object, found, 0)
}

/// Publishes a range, and reads its object's first element by the header that was built for it.
fn published<S: Steps>(steps: &mut S, numbers: &mut Numbers, range: Range) -> Result<u64, Fault>
    requires role { (S.facts steps.old).stands.role ≡ Within }
    requires ready { MayKnow S.facts steps.old (IsReady Int (place_of range) (size_of range)) }
    ensures stands { (S.facts steps.new).stands ≡ (S.facts steps.old).stands }
{
    let header = range.header(Kind::Int);
    let object = publish(steps, numbers, Kind::Int, range)?;
    read_element(steps, object, header, 0)
}

/// The same beside another range, which stays ready.
fn published_beside<S: Steps>(
    steps: &mut S,
    numbers: &mut Numbers,
    range: Range,
    _other: &Range,
) -> Result<u64, Fault>
    requires role { (S.facts steps.old).stands.role ≡ Within }
    requires ready { MayKnow S.facts steps.old (AreReady range _other.now) }
    requires apart { place_of range ≢ place_of _other.now }
    ensures stands { (S.facts steps.new).stands ≡ (S.facts steps.old).stands }
    ensures other { MayKnow S.facts steps.new (IsReady Int (place_of _other.now) (size_of _other.now)) }
{
    let header = range.header(Kind::Int);
    let object = publish(steps, numbers, Kind::Int, range)?;
    read_element(steps, object, header, 0)
}

/// Two ranges are reserved and filled, one after the other, and published in either order while another pass publishes. The first elements of their objects.
fn both_published<S: Steps>(
    steps: &mut S,
    other: &mut S,
    numbers: &mut Numbers,
    later_first: bool,
) -> Result<(u64, u64), Fault>
    requires role { (S.facts steps.old).stands.role ≡ Within }
    requires beside { (S.facts other.old).stands.role ≡ Within }
    ensures stands { (S.facts steps.new).stands ≡ (S.facts steps.old).stands }
    ensures beside { (S.facts other.new).stands ≡ (S.facts other.old).stands }
{
    let first = reserve(steps, 3)?;
    fill(steps, &first, 7);
    let second = reserve(steps, 2)?;
    fill(steps, &second, 8);
    made_plain(other, numbers)?;
    if later_first {
        let two = published_beside(steps, numbers, second, &first)?;
        let one = published(steps, numbers, first)?;
        return Ok((one, two));
    }
    let one = published_beside(steps, numbers, first, &second)?;
    let two = published(steps, numbers, second)?;
    Ok((one, two))
}

/// Checks the elements that were read by two headers.
fn reads(rt: &impl Abort, found: Result<(u64, u64), Fault>, wanted: (u64, u64)) {
    assert_same!(rt; found, Ok(wanted));
}

/// A range stays filled while another is reserved, and a header serves after another pass published and after other reads of the object.
fn serve_later<S: Steps>(
    rt: &impl Abort,
    steps: &mut S,
    other: &mut S,
    numbers: &mut Numbers,
) -> Result<(), Fail>
    requires role { (S.facts steps.old).stands.role ≡ Within }
    requires beside { (S.facts other.old).stands.role ≡ Within }
    ensures stands { (S.facts steps.new).stands ≡ (S.facts steps.old).stands }
    ensures beside { (S.facts other.new).stands ≡ (S.facts other.old).stands }
{
    let object = made_beside(steps, numbers)?;
    assert_same!(rt; read_again(steps, other, numbers, object)?, 7);
    reads(rt, both_published(steps, other, numbers, false), (7, 8));
    reads(rt, both_published(steps, other, numbers, true), (7, 8));
    Ok(())
}

/// The same, in a stay of each.
struct ServeInStays;

impl PairTest for ServeInStays {
    fn run<S: Steps, R: Abort>(rt: &R, first: &mut S, second: &mut S) -> Result<(), Fail> {
        let mut numbers = comes_in(first)?;
        assert!(rt; second.go_in());
        serve_later(rt, first, second, &mut numbers)?;
        first.go_out();
        second.go_out();
        Ok(())
    }
}

#[test]
fn ranges_and_headers_serve_later(rt: HostRuntime) -> Result<(), Fail> {
    let left = Summary {
        globals: 0,
        weaks: 0,
        live: 8,
        used: 15,
    };
    in_a_room::<ServeInStays, _>(&rt, rt.alloc(), SHARED, left)
}

/// Checks that no further word is reserved, since so many are used.
pub(crate) fn is_full(rt: &impl Abort, answer: Result<Range, Fault>, used: u32) {
    assert_same!(rt; answer.err(), Some(Fault::SpaceFull(used)));
}

/// More words than the room has are refused, and none is reserved. Then one array takes the whole space of the largest room.
struct OneTakesAll;

impl WordsTest for OneTakesAll {
    fn run<S: Steps + FirstWord, R: Abort>(rt: &R, steps: &mut S) -> Result<(), Fail> {
        let numbers = &mut comes_in(steps)?;
        is_full(rt, reserve(steps, 1_048_577), 0);
        is_full(rt, reserve(steps, 4_294_967_297), 0);
        is_full(rt, reserve(steps, u64::MAX), 0);
        let array = made(steps, numbers, Kind::Long, 1_048_576, u64::MAX)?;
        read_answers(rt, steps, array, Kind::Long, 0, Ok(u64::MAX));
        read_answers(rt, steps, array, Kind::Long, 1_048_575, Ok(u64::MAX));
        read_answers(rt, steps, array, Kind::Long, 1_048_576, Err(Fault::Range));
        is_full(rt, reserve(steps, 1), 1_048_576);
        Ok(())
    }
}

#[test]
fn one_array_takes_the_whole_space(rt: HostRuntime) -> Result<(), Fail> {
    alone::<OneTakesAll, _>(&rt, rt.alloc(), LARGE)
}

/// Checks that no object is left.
fn are_given<S: Steps>(rt: &impl Abort, steps: &mut S, numbers: &mut Numbers)
    requires { (S.facts steps.old).stands.role ≡ Within }
    ensures { (S.facts steps.new).stands ≡ (S.facts steps.old).stands }
{
    assert_same!(rt; made(steps, numbers, Kind::Int, 0, 0), Err(Fault::ObjectsFull));
}

/// Each number is given once, and then none, wherever a look begins.
struct EachIsGivenOnce;

impl WordsTest for EachIsGivenOnce {
    fn run<S: Steps + FirstWord, R: Abort>(rt: &R, steps: &mut S) -> Result<(), Fail> {
        let mut numbers = comes_in(steps)?;
        let sum = make_many(steps, &mut numbers, 65_535)?;
        assert_same!(rt; sum, 65_535 * 65_536 / 2);
        are_given(rt, steps, &mut numbers);
        are_given(rt, steps, &mut Numbers::new());
        Ok(())
    }
}

#[test]
fn each_number_is_given_once(rt: HostRuntime) -> Result<(), Fail> {
    alone::<EachIsGivenOnce, _>(&rt, rt.alloc(), LARGE)
}
