//! What holds of each call, one of an embedder's own too.
ghost use Rattle.std.specs.Prelude.{ℕ};
ghost use Rattle.jr_word.specs.declared.config.Config.{Config};
ghost use Rattle.jr_env.specs.Identities.{IdentityLasts, OneIdentityEach};
ghost use Rattle.jr_env.specs.Moving.{RequestMovesFrames};

use crate::native_call::NativeCall;
use jr_steps::Steps;

/// A call does with the frames of its thread what a thread may do with them, whatever it requests. So it gives no local handle that was given before, and one that is gone stays gone.
pub fn requests_move_frames<S: Steps, C: NativeCall<S>>(_call: &C)
    ensures { RequestMovesFrames (C.request _call.now) }
{}

/// Two references have one identity exactly where `is_same_object` says that they are to one object, in one state.
pub fn identities_tell_objects_apart()
    ensures { (c : Config) (last : ℕ) → OneIdentityEach c last }
{}

/// A reference that has an identity at two moments has the same one at both, whatever happened in between, a collection too:
/// no handle is to another object later, and no move changes an object's number.
pub fn identities_last()
    ensures { (c : Config) (last : ℕ) → IdentityLasts c last }
{}
