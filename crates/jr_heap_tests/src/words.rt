//! Words, elements, refusals and sizes, with values worked out by hand from the layouts. Those of handles `.ci/run-program` has, by `jrefs word` and `jrefs widen`.
ghost use Rattle.std.specs.Prelude.{◌≡◌, Some};

use assertions::assert_same;
use jr_word::{
    Config, Elem, Fault, GateParts, GateState, GateWord, Handle, Header, HeaderParts, Kind,
    LocalParts, LocalWord, SlotParts, SlotWord, TopParts, TopWord,
};
use std::alloc::Global;
use std::fmt::Debug;
use std::process::Abort;
use std::test::Fail;

/// Asserts what a word is read as.
fn reads<P: Copy + Debug + PartialEq>(
    rt: &impl Abort,
    word: u64,
    found: Option<P>,
    wanted: Option<P>,
) {
    assert_same!(rt; found, wanted; at word);
}

/// Asserts which word is written.
fn writes(rt: &impl Abort, written: u64, wanted: u64) {
    assert_same!(rt; written, wanted);
}

/// Asserts what a word is read as.
fn reads_slot(rt: &impl Abort, word: u64, wanted: Option<SlotParts>) {
    reads(rt, word, SlotWord::parts(word), wanted);
}

#[test]
fn slot_words_have_their_layout(rt: HostRuntime) {
    let global = SlotParts::Global {
        serial: 5,
        object: 3,
    };
    writes(&rt, SlotWord::pack(global).0, 0xc_0000_0016);
    reads_slot(&rt, 0xc_0000_0016, Some(global));
    reads_slot(&rt, 0, Some(SlotParts::Free { serial: 0 }));
    let retired = SlotParts::Retired { serial: 2 };
    writes(&rt, SlotWord::pack(retired).0, 9);
    reads_slot(&rt, 9, Some(retired));
    let cleared = SlotParts::Weak {
        serial: u32::MAX,
        object: None,
    };
    writes(&rt, SlotWord::pack(cleared).0, 0x3_ffff_ffff);
    reads_slot(&rt, 0x3_ffff_ffff, Some(cleared));
    reads_slot(&rt, u64::MAX, None);
}

#[test]
fn each_bit_of_a_slot_word_is_read(rt: HostRuntime) {
    for k in 0..64_u32 {
        let alone = match k {
            0 => Some(SlotParts::Retired { serial: 0 }),
            2..=33 => Some(SlotParts::Free {
                serial: 1 << (k - 2),
            }),
            _ => None,
        };
        reads_slot(&rt, 1 << k, alone);
    }
    for k in 34..50_u32 {
        let object = 1 << (k - 34);
        let global = SlotParts::Global { serial: 0, object };
        let weak = SlotParts::Weak {
            serial: 0,
            object: Some(object),
        };
        reads_slot(&rt, 1 | 1 << k, None);
        reads_slot(&rt, 2 | 1 << k, Some(global));
        reads_slot(&rt, 3 | 1 << k, Some(weak));
    }
}

/// Asserts what a word is read as.
fn reads_gate(rt: &impl Abort, word: u64, wanted: Option<GateParts>) {
    reads(rt, word, GateWord::parts(word), wanted);
}

fn gate(count: u16, state: GateState) -> Option<GateParts> {
    Some(GateParts { count, state })
}

#[test]
fn gate_words_have_their_layout(rt: HostRuntime) {
    let barred = GateParts {
        count: 1,
        state: GateState::Shut,
    };
    writes(&rt, GateWord::pack(barred).0, 65_537);
    let announced = GateParts {
        count: 2,
        state: GateState::Announced,
    };
    writes(&rt, GateWord::pack(announced).0, 131_074);
    writes(&rt, GateWord::SHUT, 65_536);
    writes(&rt, GateWord::ANNOUNCED, 131_072);
    reads_gate(&rt, 0, gate(0, GateState::Open));
    reads_gate(&rt, 65_537, gate(1, GateState::Shut));
    reads_gate(&rt, 0x1_ffff, gate(65_535, GateState::Shut));
    reads_gate(&rt, 131_073, gate(1, GateState::Announced));
    reads_gate(&rt, 0x2_ffff, gate(65_535, GateState::Announced));
    reads_gate(&rt, 196_608, None);
    reads_gate(&rt, 196_609, None);
    for k in 0..64_u32 {
        let alone = match k {
            0..=15 => gate(1 << k, GateState::Open),
            16 => gate(0, GateState::Shut),
            17 => gate(0, GateState::Announced),
            _ => None,
        };
        reads_gate(&rt, 1 << k, alone);
    }
}

/// Asserts what a word is read as.
fn reads_top(rt: &impl Abort, word: u64, wanted: Option<TopParts>) {
    reads(rt, word, TopWord::parts(word), wanted);
}

#[test]
fn top_words_have_their_layout(rt: HostRuntime) {
    let full = TopParts { used: 0xff_ffff };
    writes(&rt, TopWord::pack(full).0, 0xff_ffff);
    reads_top(&rt, 0, Some(TopParts { used: 0 }));
    reads_top(&rt, 0xff_ffff, Some(full));
    for k in 0..64_u32 {
        let alone = match k {
            0..=23 => Some(TopParts { used: 1 << k }),
            _ => None,
        };
        reads_top(&rt, 1 << k, alone);
    }
}

/// Asserts what a word is read as.
fn reads_header(rt: &impl Abort, word: u64, wanted: Option<HeaderParts>) {
    reads(rt, word, Header::parts(word), wanted);
}

fn header(kind: Kind, length: u32, place: u32) -> Option<HeaderParts> {
    Some(HeaderParts {
        kind,
        length,
        place,
    })
}

#[test]
fn headers_have_their_layout(rt: HostRuntime) {
    let ints = HeaderParts {
        kind: Kind::Int,
        length: 4,
        place: 5,
    };
    writes(&rt, Header::pack(ints).0, 1_342_177_350);
    reads_header(&rt, 1_342_177_350, Some(ints));
    let most = header(Kind::Text, 0xff_ffff, 0xff_ffff);
    reads_header(&rt, 0xf_ffff_ffff_fff9, most);
    for word in [0, 10, 15, 17, 0x1000_0001, 0x1000_0002, u64::MAX] {
        reads_header(&rt, word, None);
    }
    let kinds = [
        Kind::Plain,
        Kind::Boolean,
        Kind::Byte,
        Kind::Char,
        Kind::Short,
        Kind::Int,
        Kind::Long,
        Kind::Objects,
        Kind::Text,
    ];
    for (i, kind) in kinds.iter().enumerate() {
        reads_header(&rt, i as u64 + 1, header(*kind, 0, 0));
    }
}

#[test]
fn each_bit_of_a_header_is_read(rt: HostRuntime) {
    for k in 0..64_u32 {
        let alone = match k {
            0 => header(Kind::Plain, 0, 0),
            1 => header(Kind::Boolean, 0, 0),
            2 => header(Kind::Char, 0, 0),
            3 => header(Kind::Objects, 0, 0),
            _ => None,
        };
        reads_header(&rt, 1 << k, alone);
        let text = match k {
            0 | 3 | 4 => header(Kind::Text, 1, 0),
            5..=27 => header(Kind::Text, 1 | 1 << (k - 4), 0),
            28..=51 => header(Kind::Text, 1, 1 << (k - 28)),
            _ => None,
        };
        reads_header(&rt, 0x19 | 1 << k, text);
    }
}

/// Asserts what a word is read as.
fn reads_local(rt: &impl Abort, word: u64, wanted: Option<LocalParts>) {
    reads(rt, word, LocalWord::parts(word), wanted);
}

#[test]
fn local_words_have_their_layout(rt: HostRuntime) {
    writes(&rt, LocalWord::pack(LocalParts::Free).0, 0);
    writes(&rt, LocalWord::pack(LocalParts::Object(65_535)).0, 65_535);
    reads_local(&rt, 0, Some(LocalParts::Free));
    for k in 0..64_u32 {
        let alone = match k {
            0..=15 => Some(LocalParts::Object(1 << k)),
            _ => None,
        };
        reads_local(&rt, 1 << k, alone);
    }
}

/// The word of an element, and what it is read as.
fn word_and_back<E: Elem>(value: E) -> (u64, Option<E>)
    ensures { result.1 ≡ Some value }
{
    let word = value.to_word();
    (word, E::from_word(word))
}

/// Asserts the word of an element. That it is read as the element again is proved.
fn is_written<E: Elem>(rt: &impl Abort, value: E, word: u64) {
    let (written, back) = word_and_back(value);
    assert_same!(rt; (written, back.is_some()), (word, true));
}

#[test]
fn elements_are_written_as_their_words(rt: HostRuntime) {
    is_written(&rt, false, 0);
    is_written(&rt, true, 1);
    is_written(&rt, -128_i8, 128);
    is_written(&rt, -1_i8, 255);
    is_written(&rt, 127_i8, 127);
    is_written(&rt, 0_u16, 0);
    is_written(&rt, 65_535_u16, 65_535);
    is_written(&rt, i16::MIN, 32_768);
    is_written(&rt, i16::MAX, 32_767);
    is_written(&rt, i32::MIN, 2_147_483_648);
    is_written(&rt, i32::MAX, 2_147_483_647);
    is_written(&rt, i64::MIN, 0x8000_0000_0000_0000);
    is_written(&rt, i64::MAX, 0x7fff_ffff_ffff_ffff);
    is_written(&rt, -1_i64, u64::MAX);
}

fn is_kind(rt: &impl Abort, kind: Kind, wanted: Kind) {
    assert_same!(rt; kind, wanted);
}

/// Asserts that a word is that of no element of this type.
fn is_none<E: Elem>(rt: &impl Abort, word: u64) {
    assert_same!(rt; E::from_word(word).is_none(), true; at word);
}

#[test]
fn a_word_past_the_range_is_no_element(rt: HostRuntime) {
    for past in [0, 1 << 32, u64::MAX - 0xffff_ffff] {
        is_none::<bool>(&rt, past | 2);
        is_none::<i8>(&rt, past | 0x100);
        is_none::<u16>(&rt, past | 0x1_0000);
        is_none::<i16>(&rt, past | 0x1_0000);
    }
    is_none::<i32>(&rt, 1 << 32);
    is_none::<i32>(&rt, u64::MAX);
    is_kind(&rt, bool::KIND, Kind::Boolean);
    is_kind(&rt, i8::KIND, Kind::Byte);
    is_kind(&rt, u16::KIND, Kind::Char);
    is_kind(&rt, i16::KIND, Kind::Short);
    is_kind(&rt, i32::KIND, Kind::Int);
    is_kind(&rt, i64::KIND, Kind::Long);
}

#[test]
fn an_answer_of_none_is_null(rt: HostRuntime) {
    assert_same!(&rt; Handle::or_null(None), Handle::NULL);
    assert_same!(&rt; Handle::or_null(Some(Handle(10))), Handle(10));
    for (word, shared) in [
        (0, false),
        (1, false),
        (2, true),
        (3, true),
        (2 + (1 << 50), false),
    ] {
        assert_same!(&rt; Handle(word).is_shared(), shared; at word);
    }
}

/// Each refusal, in the order of the numbers, and what a log says of it.
const REFUSALS: [(Fault, &str); 23] = [
    (
        Fault::Null,
        "E1: null, where an object is needed. Hand in a reference to an object.",
    ),
    (
        Fault::Stale,
        "E2: no reference of this word stands. Let go of the word: a deleted reference never stands again.",
    ),
    (
        Fault::Foreign,
        "E3: the word is a local reference of another thread. Hand a global reference from thread to thread.",
    ),
    (
        Fault::WrongKind,
        "E4: the word names something of another kind than the call is for. Ask get_object_ref_type or kind_of, and make the call for that.",
    ),
    (
        Fault::NotArray,
        "E5: the object is not an array. Ask kind_of, and make the call for that kind of object.",
    ),
    (
        Fault::WrongElement,
        "E6: the array's elements are of another kind than the call is for. Ask kind_of, and make the call for that kind of object.",
    ),
    (
        Fault::Range,
        "E7: an index, a part or a length doesn't fit the object. Ask for the length, which an object keeps.",
    ),
    (
        Fault::RowFull,
        "E8: the search found no free slot. Delete global or weak references, cleared ones first.",
    ),
    (
        Fault::LocalsFull,
        "E9: the thread has too little room for local references. Delete local references or pop a frame.",
    ),
    (
        Fault::SpaceFull(7),
        "E10: the request doesn't fit beside the words in use. 7 words are in use. Collect, and make the call again.",
    ),
    (
        Fault::ObjectsFull,
        "E11: every object number is present. Collect, and make the call again.",
    ),
    (
        Fault::Raced(7, 8),
        "E12: another thread reserved words meanwhile. 7 words were looked at, 8 found. Make the call again.",
    ),
    (
        Fault::Barred,
        "E13: a collection keeps threads from coming in. Let other threads run, and make the call again.",
    ),
    (
        Fault::Busy(1),
        "E14: other threads keep the collection from coming in. 1 thread is inside, knocking, announcing or collecting. Let them leave, and collect again.",
    ),
    (
        Fault::NoFrame,
        "E15: the base frame can't be popped. Pop only frames that were pushed.",
    ),
    (
        Fault::Memory,
        "E16: the system refused memory or a thread. Give memory back, and make the call again.",
    ),
    (
        Fault::Size,
        "E17: a size or a count is outside of its limits. Keep to the limits of Config and to sixteen levels.",
    ),
    (
        Fault::Value,
        "E18: the word is none of the array's element kind. Give a word of the kind.",
    ),
    (
        Fault::InCritical,
        "E19: the command is not allowed where the thread stands. End the critical region first, or open one.",
    ),
    (
        Fault::Turns,
        "E20: the turns ran out. Run the script with more turns.",
    ),
    (
        Fault::NotFresh,
        "E21: the pass had an env already. Make one env of each pass.",
    ),
    (
        Fault::LeftInside(7),
        "E22: other threads kept the room from being closed. 7 threads are inside, knocking, announcing or collecting. Let them leave, and close the room that was handed back.",
    ),
    (
        Fault::Moved(7, 8),
        "E23: a thread went in or out before the announcement. 7 threads were looked at, 8 found. Let other threads run, and announce again.",
    ),
];

/// What a refusal prints.
fn shown(alloc: Global, fault: Fault) -> Result<String, Fail> {
    Ok(format!(in alloc; "{fault}")?)
}

/// The answer of JNI for a refusal by its number: those two that are for want of memory have one.
fn jni_code(number: usize) -> Option<i32> {
    if number == 9 || number == 16 {
        Some(-4)
    } else {
        None
    }
}

/// Asserts a refusal's number, and its answer of JNI.
fn has_number(rt: &impl Abort, fault: Fault, number: usize) {
    assert_same!(rt; usize::from(fault.number()), number; at number);
    assert_same!(rt; fault.jni_code(), jni_code(number); at number);
}

#[test]
fn each_refusal_tells_its_number_and_its_remedy(rt: HostRuntime) -> Result<(), Fail> {
    for (i, (fault, text)) in REFUSALS.iter().enumerate() {
        let wanted = format!(in rt.alloc(); "E{}", i + 1)?;
        assert_same!(&rt; shown(rt.alloc(), *fault)?.as_str(), wanted.as_str(); at i);
        let report = fault.report();
        let said = format!(in rt.alloc(); "{report}")?;
        assert_same!(&rt; said.as_str(), *text; at i);
        has_number(&rt, *fault, i + 1);
    }
    Ok(())
}

fn config(sizes: [u32; 5]) -> Config {
    let [threads, slots, objects, words, locals] = sizes;
    Config {
        threads,
        slots,
        objects,
        words,
        locals,
    }
}

#[test]
fn sizes_within_the_limits_are_allowed_alone(rt: HostRuntime) {
    let least = [1, 1, 1, 0, 16];
    let greatest = [64, 65_536, 65_535, 1_048_576, 4_096];
    assert_same!(&rt; config(least).in_limits(), true);
    assert_same!(&rt; config(greatest).in_limits(), true);
    for i in 0..5 {
        let mut above = greatest;
        above[i] += 1;
        assert_same!(&rt; config(above).in_limits(), false; at i);
        let mut below = least;
        below[i] = below[i].saturating_sub(1);
        assert_same!(&rt; config(below).in_limits(), i == 3; at i);
    }
}

#[test]
fn a_row_has_so_many_words(rt: HostRuntime) {
    let rows = [
        ([1, 4, 8, 9, 16], 39),
        ([1, 1, 1, 0, 16], 20),
        ([64, 65_536, 65_535, 1_048_576, 4_096], 1_441_793),
    ];
    for (sizes, words) in rows {
        let config = config(sizes);
        assert!(rt; config.in_limits());
        assert_same!(&rt; config.row_words(), words; at sizes);
    }
}
