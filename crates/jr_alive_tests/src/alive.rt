//! A dump of six objects, and what it says, worked out by hand.
use assertions::assert_same;
use jr_alive::{Dump, Path};
use jr_word::{Handle, HeaderParts, Kind, LocalParts, SlotParts};
use std::alloc::{AllocError, Global};
use std::process::Abort;
use std::test::Fail;

/// The header of an object.
fn header(kind: Kind, place: u32, length: u32) -> Option<HeaderParts> {
    Some(HeaderParts {
        kind,
        length,
        place,
    })
}

/// Slot 0 has a weak reference to object 4, and slot 1 a global one to object 1, with serial 5. Place 1 of thread 1 names object 5.
///
/// - Object 1 names 2 and 3, and 2 names 3 and, last, 6. So 3 is one edge from 1, and 6 two.
/// - Object 5 names itself and 6.
/// - Object 4 is a string, which the weak reference alone names, and 3 and 6 are arrays of integers.
fn six_objects(alloc: Global) -> Result<Dump, AllocError> {
    let weak = SlotParts::Weak {
        serial: 7,
        object: Some(4),
    };
    let global = SlotParts::Global {
        serial: 5,
        object: 1,
    };
    let (free, local) = (LocalParts::Free, LocalParts::Object(5));
    Ok(Dump {
        slots: Vec::from_array(alloc, [weak, global])?,
        places: 2,
        locals: Vec::from_array(alloc, [free, free, free, local])?,
        headers: Vec::from_array(
            alloc,
            [
                header(Kind::Objects, 0, 2),
                header(Kind::Objects, 2, 3),
                header(Kind::Int, 5, 4),
                header(Kind::Text, 9, 6),
                header(Kind::Objects, 15, 2),
                header(Kind::Int, 17, 3),
                None,
            ],
        )?,
        words: Vec::from_array(
            alloc,
            [2, 3, 3, 0, 6, 9, 9, 9, 9, 1, 2, 3, 4, 5, 6, 5, 6, 9, 9, 9],
        )?,
    })
}

/// How many edges a path has, and the handle that it begins with; none where there is none.
fn told(path: &Option<Path>) -> Option<(usize, Option<Handle>)> {
    match path {
        None => None,
        Some(path) => Some((path.edges.len(), path.root.handle())),
    }
}

/// Object 3 is at one edge from the global reference, 6 at one from the local one, and 4 at none. Object 7 isn't there.
fn tells_paths(rt: &impl Abort, alloc: Global, dump: &Dump) -> Result<(), AllocError> {
    let (third, sixth) = (dump.path_to(alloc, 3)?, dump.path_to(alloc, 6)?);
    let (fourth, seventh) = (dump.path_to(alloc, 4)?, dump.path_to(alloc, 7)?);
    // serial 5, index 1, kind 2
    let global = Handle(17_179_869_206);
    assert_same!(rt; told(&third), Some((1, Some(global))));
    assert_same!(rt; told(&sixth), Some((1, None)));
    assert_same!(rt; told(&fourth), None);
    assert_same!(rt; told(&seventh), None);
    Ok(())
}

/// Object 1 retains itself, 2 and 3, with 2 + 3 + 4 words. Object 2 retains its own 3, since 1 names 3 too. Object 5 retains its own 2, since 6 is reached by 2. Nothing reaches 4.
fn tells_retained(rt: &impl Abort, alloc: Global, dump: &Dump) -> Result<(), AllocError> {
    let (first, second) = (
        dump.retained_words(alloc, 1)?,
        dump.retained_words(alloc, 2)?,
    );
    let (fifth, fourth) = (
        dump.retained_words(alloc, 5)?,
        dump.retained_words(alloc, 4)?,
    );
    assert_same!(rt; first, 9);
    assert_same!(rt; second, 3);
    assert_same!(rt; fifth, 2);
    assert_same!(rt; fourth, 0);
    Ok(())
}

/// Three object arrays and two of integers have 7 words each, and the string 6, which makes it the largest object.
fn tells_largest(rt: &impl Abort, alloc: Global, dump: &Dump) -> Result<(), AllocError> {
    let largest = dump.largest(alloc, 1)?;
    let all = dump.largest(alloc, 100)?;
    let [first, second, third, ..] = dump.groups();
    assert_same!(rt; largest.as_slice(), [4].as_slice());
    assert_same!(rt; all.len(), 6);
    assert_same!(rt; [first.words, second.words], [7, 7]);
    assert_same!(rt; first.count.checked_add(second.count), Some(5));
    assert_same!(rt; (third.words, third.count), (6, 1));
    Ok(())
}

/// A weak and a global reference are looked up with their serial, and a local one by its place.
fn tells_objects(rt: &impl Abort, dump: &Dump) {
    // serial 7, index 0, kind 3; then serial 5, index 1, kind 2; then another serial; then owner 1, index 1, kind 1, and owner 0; and NULL
    assert_same!(rt; dump.object_of(Handle(31)), Some(4));
    assert_same!(rt; dump.object_of(Handle(17_179_869_206)), Some(1));
    assert_same!(rt; dump.object_of(Handle(17_179_869_202)), None);
    assert_same!(rt; dump.object_of(Handle(1_125_917_086_711_809)), Some(5));
    assert_same!(rt; dump.object_of(Handle(17_179_869_185)), None);
    assert_same!(rt; dump.object_of(Handle::NULL), None);
}

/// All that is tried.
fn tells_all(rt: &impl Abort, alloc: Global, dump: &Dump) -> Result<(), AllocError> {
    tells_objects(rt, dump);
    tells_paths(rt, alloc, dump)?;
    tells_retained(rt, alloc, dump)?;
    tells_largest(rt, alloc, dump)
}

#[test]
fn a_dump_tells_why_objects_are_alive(rt: HostRuntime) -> Result<(), Fail> {
    let dump = six_objects(rt.alloc())?;
    tells_all(&rt, rt.alloc(), &dump)?;
    Ok(())
}
