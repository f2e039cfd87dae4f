//! Native code, with the mistakes that native code has.

use jr::{Fault, Handle, NativeInterface, Steps};

/// Words that name nothing in a room of eight slots: one of a reference beyond them, and one of a reference that was not given yet.
const NAMELESS: [Handle; 2] = [Handle(0x20_0000_0002), Handle(0x1c_0000_0102)];

/// Makes a few right calls, and goes on behind each that is refused. It is handed a local reference of another thread, too.
///
/// # Errors
///
/// Those of the calls that are right.
pub(crate) fn native_code<S: Steps, N: NativeInterface<S>>(
    env: &mut N,
    foreign: Handle,
) -> Result<(), Fault> {
    let text = env.new_string(&[72, 105])?;
    let ints = env.new_array::<i32>(3)?;
    let weak = Handle::or_null(env.new_weak_global_ref(ints)?);
    let gone = Handle::or_null(env.new_global_ref(ints)?);
    env.delete_global_ref(gone)?;
    let _refused = env.delete_global_ref(gone);
    let _refused = env.delete_global_ref(weak);
    let _refused = env.get_array_length(text);
    let _refused = env.get_array_length(Handle::NULL);
    let _refused = env.get_string_length(Handle(u64::MAX));
    let _refused = env.get_string_length(foreign);
    for word in NAMELESS {
        let _refused = env.new_local_ref(word);
    }
    let _refused = env.set_array_region(ints, 0, &[7i64]);
    let _refused = env.get_array_region(ints, 2, &mut [0i32, 0]);
    let _refused = env.is_same_object(weak, gone);
    let _refused = env.is_same_object(ints, gone);
    let _refused = env.new_array::<u16>(1_000);
    env.delete_weak_global_ref(weak)?;
    env.free_locals()
}
