//! Words and places that run short, as a warner is told of them.

use assertions::assert_same;
use jr_env::{
    Checked, Env, Explains, NativeCaller, NativeInterface, Refusal, Reserve, Scarce, Shortage,
    Warned, Warner, Watcher,
};
use jr_fixtures::{EnvTest, alone};
use jr_steps::Steps;
use jr_word::{Config, Fault};
use std::alloc::Global;
use std::process::Abort;
use std::test::Fail;

/// A room with 16 local places, and 8 words of array space.
const SIZES: Config = Config {
    objects: 8,
    words: 8,
    ..Config::LEAST
};

/// Keeps the last shortage, and counts them.
#[derive(Drop)]
struct Keeps {
    times: u32,
    last: Option<Shortage>,
}

impl Warner for Keeps {
    ghost warns = { λ old new shortage. Unit {0} };

    fn runs_short(&mut self, shortage: Shortage) {
        self.times = self.times.wrapping_add(1);
        self.last = Some(shortage);
    }
}

/// Hears no refusal.
#[derive(Drop)]
struct Deaf;

impl Watcher for Deaf {
    ghost hears = { λ old new refusal. Unit {0} };

    fn refused(&mut self, _refusal: Refusal) {}
}

/// Nothing yet.
fn nothing_told() -> Keeps {
    Keeps {
        times: 0,
        last: None,
    }
}

/// Checks how often something ran short, and the line of the last time.
fn said(
    rt: &impl Abort,
    alloc: Global,
    keeps: &Keeps,
    times: u32,
    wanted: &str,
) -> Result<(), Fail> {
    assert_same!(rt; keeps.times, times);
    match keeps.last {
        Some(shortage) => assert_same!(rt; format!(in alloc; "{shortage}")?.as_str(), wanted),
        None => assert_same!(rt; "", wanted),
    }
    Ok(())
}

/// An array of four is refused by E10, also with a watcher over the warner.
fn is_refused<S: Steps, N: NativeCaller<S> + Explains>(rt: &impl Abort, caller: &mut N) {
    let mut checked = Checked::new(caller, Deaf);
    assert_same!(rt; checked.new_array::<i8>(4), Err(Fault::SpaceFull(5)));
}

/// With a reserve of 4 of 8 words it is told behind the call that leaves 3, and behind each that takes words from then on, be it refused by E10; of a call that takes none it isn't.
fn words_run_short<S: Steps>(rt: &impl Abort, alloc: Global, env: &mut Env<S>) -> Result<(), Fail> {
    let reserve = Reserve {
        words: 4,
        locals: 0,
    };
    let mut warned = Warned::new(env, nothing_told(), reserve);
    let array = warned.new_array::<i64>(4)?;
    said(rt, alloc, warned.warner(), 0, "")?;
    warned.new_string(&[7])?;
    let string = "thread 0: NewString: words of array space run short (left: 3)";
    said(rt, alloc, warned.warner(), 1, string)?;
    warned.get_array_length(array)?;
    warned.new_plain()?;
    warned.new_array::<i32>(0)?;
    warned.new_global_ref(array)?;
    said(rt, alloc, warned.warner(), 1, string)?;
    is_refused(rt, &mut warned);
    let refused = "thread 0: NewByteArray: words of array space run short (left: 3)";
    said(rt, alloc, warned.warner(), 2, refused)?;
    warned.new_array::<i32>(3)?;
    let last = "thread 0: NewIntArray: words of array space run short (left: 0)";
    said(rt, alloc, warned.warner(), 3, last)?;
    assert_same!(rt; warned.into_parts().1.times, 3);
    Ok(())
}

/// Checks that it was places that ran short.
fn is_of_places(rt: &impl Abort, last: Option<Shortage>) -> Result<(), Fail> {
    let Some(last) = last else {
        return Err("nothing was told")?;
    };
    assert_same!(rt; last.scarce, Scarce::Locals);
    Ok(())
}

/// With a reserve of 2 of 16 places it is told behind the call that leaves 1, and behind the next; E9 comes behind that, of which it isn't told, nor of a call that takes no place.
fn places_run_short<S: Steps>(
    rt: &impl Abort,
    alloc: Global,
    env: &mut Env<S>,
) -> Result<(), Fail> {
    env.free_locals()?;
    let reserve = Reserve {
        words: 0,
        locals: 2,
    };
    let mut warned = Warned::new(env, nothing_told(), reserve);
    let object = warned.new_plain()?;
    for _ in 0..13 {
        warned.new_local_ref(object)?;
    }
    said(rt, alloc, warned.warner(), 0, "")?;
    let handle = warned.new_local_ref(object)?;
    let one = "thread 0: NewLocalRef: places for local references run short (left: 1)";
    said(rt, alloc, warned.warner(), 1, one)?;
    warned.is_same_object(object, object)?;
    warned.new_array::<i32>(0)?;
    let none = "thread 0: NewIntArray: places for local references run short (left: 0)";
    said(rt, alloc, warned.warner(), 2, none)?;
    assert_same!(rt; warned.new_local_ref(object), Err(Fault::LocalsFull));
    if let Some(handle) = handle {
        warned.delete_local_ref(handle)?;
    }
    said(rt, alloc, warned.warner(), 2, none)?;
    is_of_places(rt, warned.warner().last)
}

/// A warner is told before E9 and E10.
#[derive(Drop)]
struct IsWarned;

impl<R: Abort> EnvTest<R> for IsWarned {
    fn run<S: Steps>(self, rt: &R, alloc: Global, env: &mut Env<S>) -> Result<(), Fail> {
        words_run_short(rt, alloc, env)?;
        places_run_short(rt, alloc, env)
    }
}

#[test]
fn a_warner_is_told_before_e9_and_e10(rt: HostRuntime) -> Result<(), Fail> {
    alone(&rt, rt.alloc(), SIZES, IsWarned)
}
