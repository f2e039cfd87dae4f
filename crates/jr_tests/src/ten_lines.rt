//! The ten lines of README.md, by one thread in a room of its own.
ghost use Rattle.jr_rule.specs.Passes.{IsOpened};

use assertions::assert_same;
use jr::{Collected, Config, Env, Fault, Handle, NativeInterface, Pass, Room, RoomSteps};
use jr_fixtures::{LAST, next_pass, refusal};
use std::alloc::Global;
use std::test::Fail;

/// The sizes of the room.
const SIZES: Config = Config {
    threads: 1,
    slots: 16,
    objects: 16,
    words: 64,
    locals: 16,
};

/// What a collection did, whether the weak reference was cleared by it, and what a deleted one is refused with.
type Seen = (Collected, bool, Result<u32, Fault>);

/// The lines.
fn ten_lines(alloc: Global, room: &Room<LAST>, pass: Pass) -> Result<Seen, Fault>
    requires { IsOpened room.now.row pass }
{
    let mut env = Env::new(RoomSteps::new(&room, pass)).map_err(|refused| refused.1)?;
    let mut marker = env.marker(alloc)?;
    let array = env.new_array::<i32>(2)?;
    env.set_array_region(array, 0, &[3, 4])?;
    let weak = Handle::or_null(env.new_weak_global_ref(array)?);
    env.delete_local_ref(array)?;
    let collected = env.collect(&mut marker)?;
    let cleared = env.is_same_object(weak, Handle::NULL)?;
    env.delete_weak_global_ref(weak)?;
    let stale = env.get_array_length(weak);
    Ok((collected, cleared, stale))
}

#[test]
fn the_ten_lines_of_the_first_page_do_what_they_say(rt: HostRuntime) -> Result<(), Fail> {
    let (room, mut passes) = Room::<LAST>::open(rt.alloc(), SIZES)?;
    let pass = next_pass(&room, &mut passes)?;
    let (collected, cleared, stale) = ten_lines(rt.alloc(), &room, pass)?;
    assert_same!(&rt; collected.cleared, 1);
    assert_same!(&rt; collected.dropped, 1);
    assert_same!(&rt; collected.used, 0);
    assert!(rt; cleared);
    assert_same!(&rt; refusal(stale), Some(Fault::Stale));
    Ok(())
}
