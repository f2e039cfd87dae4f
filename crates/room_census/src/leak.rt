//! A small room that leaks.
use jr_env::{Env, NativeInterface};
use jr_rule::Steps;
use jr_weak::Marker;
use jr_word::{Fault, Handle};

/// Makes an object without elements and an array of each of four kinds, each with one element more than the one before. It keeps a local reference to each.
pub(crate) fn keep_some<S: Steps>(env: &mut Env<S>) -> Result<(), Fault> {
    env.new_plain()?;
    env.new_array::<bool>(1)?;
    env.new_array::<i8>(2)?;
    env.new_array::<u16>(3)?;
    env.new_array::<i16>(4)?;
    Ok(())
}

/// Leaves a string that nothing reaches but a weak reference.
fn leave_text<S: Steps>(env: &mut Env<S>) -> Result<(), Fault> {
    let text = env.new_string(&[76, 117, 116, 104])?;
    env.new_weak_global_ref(text)?;
    env.delete_local_ref(text)
}

/// Makes a shelf that a global reference keeps, which keeps a cache, which keeps two pages. One of these has a global reference of its own, and nothing else names the other.
/// Tells the shelf's global reference.
fn keep_shelf<S: Steps>(env: &mut Env<S>) -> Result<Handle, Fault> {
    let cache = env.new_object_array(3, Handle::NULL)?;
    let shelf = env.new_object_array(1, cache)?;
    let kept = Handle::or_null(env.new_global_ref(shelf)?);
    env.delete_local_ref(shelf)?;
    for index in 0..2 {
        let page = env.new_array::<i32>(4)?;
        env.set_object_array_element(cache, index, page)?;
        if index == 0 {
            env.new_global_ref(page)?;
        }
        env.delete_local_ref(page)?;
    }
    env.delete_local_ref(cache)?;
    Ok(kept)
}

/// Leaves a string, which a collection drops, and so its weak reference cleared; a shelf; another string; and a local reference.
/// Then the room has no number for an object more, and the words of one that is refused for that are lost. Tells the local reference, and the shelf's global one.
pub(crate) fn leak<S: Steps>(
    env: &mut Env<S>,
    marker: &mut Marker,
) -> Result<(Handle, Handle), Fault> {
    leave_text(env)?;
    env.collect(marker)?;
    let shelf = keep_shelf(env)?;
    leave_text(env)?;
    let local = env.new_array::<i64>(3)?;
    let _refused = env.new_array::<i64>(2);
    Ok((local, shelf))
}
