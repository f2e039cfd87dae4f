//! The calls of the Java Native Interface for references, over any steps.
ghost use Rattle.std.specs.Prelude.{◌≡◌, ◌≢◌};
ghost use Rattle.jr_word.specs.declared.handle.RefKind.TheVariants.{Local};
ghost use Rattle.jr_gate.specs.Stays.{IsOwnStay};
ghost use Rattle.jr_model.specs.declared.event.Role.TheVariants.{Within};
ghost use Rattle.jr_model.specs.Frames.{Frames as LocalFrames};
ghost use Rattle.jr_model.specs.Checks.{Parts};
ghost use Rattle.jr_model.specs.References.{removal};
ghost use Rattle.jr_frames.specs.OverSteps.{Calls};
ghost use Rattle.jr_frames.specs.Ready.{StandsReady};
ghost use Rattle.jr_env.specs.Requests.{for_delete_reference, for_is_same_object, for_new_reference};
ghost use Rattle.jr_env.specs.Works.{Serves};

use crate::demand::Demand;
use crate::env::Env;
use crate::native_call::{Handed, NativeCall};
use crate::patience::Patience;
use jr_frames::{
    Frames, Reference, delete_local, lies_outside, names_kind, new_local, resolve, resolve_both,
    type_of,
};
use jr_gate::Inside;
use jr_heap::Numbers;
use jr_row::{create, delete};
use jr_steps::Steps;
use jr_word::{Fault, Handle, HandleParts, RefKind};

impl<S: Steps> Env<S> {
    ghost use Rattle.jr_env.specs.Envs.{Does};
    ghost use Rattle.jr_env.specs.Remedies.{deleting_cleared};

    /// Deletes a weak global reference where it is cleared, and tells whether it was. It compares it with NULL first, and makes both calls as `retry` does.
    /// Behind a collection it gives slots back, where all were held (E8). NULL counts as cleared, and nothing is deleted for it.
    ///
    /// # Errors
    ///
    /// Those of `is_same_object` with NULL at its last try, and where the reference is cleared those of `delete_weak_global_ref` at its last try.
    ///
    /// Nothing has changed then, and the thread stands outside.
    ///
    /// # Operations
    ///
    /// Those of each try of the two calls.
    pub fn delete_cleared(&mut self, weak: Handle, patience: Patience) -> Result<bool, Fault>
        ensures { Does self.old self.new (deleting_cleared patience.waits_for_room patience.more weak.0) result }
    {
        if self.retry(IsSameObject(weak, Handle::NULL), patience)? {
            self.retry(DeleteWeakGlobalRef(weak), patience)?;
            return Ok(true);
        }
        Ok(false)
    }
}

/// A global reference to what a handle names, none for NULL.
#[derive(Clone, Copy)]
pub struct NewGlobalRef(pub Handle);

impl<S: Steps> NativeCall<S> for NewGlobalRef {
    ghost use Rattle.jr_word.specs.declared.handle.RefKind.TheVariants.{Global};
    ghost use Rattle.jr_env.specs.Requests.{for_new_reference};

    type Answer = Option<Handle>;

    ghost request = { λ c. for_new_reference Global c.0.0 };

    #[inline(always)]
    fn name(&self) -> &'static str {
        "NewGlobalRef"
    }

    #[inline(always)]
    fn handed(&self) -> Handed {
        Handed::One(self.0)
    }

    #[inline(always)]
    fn demand(&self) -> Demand {
        Demand::Slot
    }

    #[inline(always)]
    fn work(
        self,
        steps: &mut S,
        inside: &Inside,
        frames: &mut Frames,
        _numbers: &mut Numbers,
    ) -> Result<Option<Handle>, Fault> {
        new_reference(steps, inside, frames, RefKind::Global, self.0)
    }
}

/// A weak global reference to what a handle names, none for NULL.
#[derive(Clone, Copy)]
pub struct NewWeakGlobalRef(pub Handle);

impl<S: Steps> NativeCall<S> for NewWeakGlobalRef {
    ghost use Rattle.jr_word.specs.declared.handle.RefKind.TheVariants.{Weak};
    ghost use Rattle.jr_env.specs.Requests.{for_new_reference};

    type Answer = Option<Handle>;

    ghost request = { λ c. for_new_reference Weak c.0.0 };

    #[inline(always)]
    fn name(&self) -> &'static str {
        "NewWeakGlobalRef"
    }

    #[inline(always)]
    fn handed(&self) -> Handed {
        Handed::One(self.0)
    }

    #[inline(always)]
    fn demand(&self) -> Demand {
        Demand::Slot
    }

    #[inline(always)]
    fn work(
        self,
        steps: &mut S,
        inside: &Inside,
        frames: &mut Frames,
        _numbers: &mut Numbers,
    ) -> Result<Option<Handle>, Fault> {
        new_reference(steps, inside, frames, RefKind::Weak, self.0)
    }
}

/// A local reference to what a handle names, none for NULL.
#[derive(Clone, Copy)]
pub struct NewLocalRef(pub Handle);

impl<S: Steps> NativeCall<S> for NewLocalRef {
    ghost use Rattle.jr_env.specs.Requests.{for_new_local_ref};

    type Answer = Option<Handle>;

    ghost request = { λ c. for_new_local_ref c.0.0 };

    #[inline(always)]
    fn name(&self) -> &'static str {
        "NewLocalRef"
    }

    #[inline(always)]
    fn handed(&self) -> Handed {
        Handed::One(self.0)
    }

    #[inline(always)]
    fn demand(&self) -> Demand {
        Demand::Nothing
    }

    #[inline(always)]
    fn work(
        self,
        steps: &mut S,
        inside: &Inside,
        frames: &mut Frames,
        _numbers: &mut Numbers,
    ) -> Result<Option<Handle>, Fault> {
        let target = Reference::of(self.0);
        let object = resolve(steps, inside, frames, target)?;
        let made = new_local(steps, inside, frames, object)?;
        Ok(made.map(Handle::pack))
    }
}

/// Deletes a global reference.
#[derive(Clone, Copy)]
pub struct DeleteGlobalRef(pub Handle);

impl<S: Steps> NativeCall<S> for DeleteGlobalRef {
    ghost use Rattle.jr_word.specs.declared.handle.RefKind.TheVariants.{Global};
    ghost use Rattle.jr_env.specs.Requests.{for_delete_reference};

    type Answer = ();

    ghost request = { λ c. for_delete_reference Global c.0.0 };

    #[inline(always)]
    fn name(&self) -> &'static str {
        "DeleteGlobalRef"
    }

    #[inline(always)]
    fn handed(&self) -> Handed {
        Handed::One(self.0)
    }

    #[inline(always)]
    fn demand(&self) -> Demand {
        Demand::Nothing
    }

    #[inline(always)]
    fn work(
        self,
        steps: &mut S,
        inside: &Inside,
        _frames: &mut Frames,
        _numbers: &mut Numbers,
    ) -> Result<(), Fault> {
        delete_reference(steps, inside, RefKind::Global, self.0)
    }
}

/// Deletes a weak global reference.
#[derive(Clone, Copy)]
pub struct DeleteWeakGlobalRef(pub Handle);

impl<S: Steps> NativeCall<S> for DeleteWeakGlobalRef {
    ghost use Rattle.jr_word.specs.declared.handle.RefKind.TheVariants.{Weak};
    ghost use Rattle.jr_env.specs.Requests.{for_delete_reference};

    type Answer = ();

    ghost request = { λ c. for_delete_reference Weak c.0.0 };

    #[inline(always)]
    fn name(&self) -> &'static str {
        "DeleteWeakGlobalRef"
    }

    #[inline(always)]
    fn handed(&self) -> Handed {
        Handed::One(self.0)
    }

    #[inline(always)]
    fn demand(&self) -> Demand {
        Demand::Nothing
    }

    #[inline(always)]
    fn work(
        self,
        steps: &mut S,
        inside: &Inside,
        _frames: &mut Frames,
        _numbers: &mut Numbers,
    ) -> Result<(), Fault> {
        delete_reference(steps, inside, RefKind::Weak, self.0)
    }
}

/// Deletes a local reference.
#[derive(Clone, Copy)]
pub struct DeleteLocalRef(pub Handle);

impl<S: Steps> NativeCall<S> for DeleteLocalRef {
    ghost use Rattle.jr_env.specs.Requests.{for_delete_local_ref};

    type Answer = ();

    ghost request = { λ c. for_delete_local_ref c.0.0 };

    #[inline(always)]
    fn name(&self) -> &'static str {
        "DeleteLocalRef"
    }

    #[inline(always)]
    fn handed(&self) -> Handed {
        Handed::One(self.0)
    }

    #[inline(always)]
    fn demand(&self) -> Demand {
        Demand::Nothing
    }

    #[inline(always)]
    fn work(
        self,
        steps: &mut S,
        inside: &Inside,
        frames: &mut Frames,
        _numbers: &mut Numbers,
    ) -> Result<(), Fault> {
        let target = Reference::of(self.0);
        match target {
            Reference::Null => Ok(()),
            Reference::Malformed => Err(Fault::Stale),
            Reference::Parts(handle) => delete_local(steps, inside, frames, handle),
        }
    }
}

/// Whether two handles name one object, or both none.
#[derive(Clone, Copy)]
pub struct IsSameObject(pub Handle, pub Handle);

impl<S: Steps> NativeCall<S> for IsSameObject {
    ghost use Rattle.jr_env.specs.Requests.{for_is_same_object};

    type Answer = bool;

    ghost request = { λ c. for_is_same_object c.0.0 c.1.0 };

    #[inline(always)]
    fn name(&self) -> &'static str {
        "IsSameObject"
    }

    #[inline(always)]
    fn handed(&self) -> Handed {
        Handed::Both(self.0, self.1)
    }

    #[inline(always)]
    fn demand(&self) -> Demand {
        Demand::Nothing
    }

    #[inline(always)]
    fn work(
        self,
        steps: &mut S,
        inside: &Inside,
        frames: &mut Frames,
        _numbers: &mut Numbers,
    ) -> Result<bool, Fault> {
        compare(steps, inside, frames, self.0, self.1)
    }
}

/// The type of a reference.
#[derive(Clone, Copy)]
pub struct GetObjectRefType(pub Handle);

impl<S: Steps> NativeCall<S> for GetObjectRefType {
    ghost use Rattle.jr_env.specs.Requests.{for_get_object_ref_type};

    type Answer = u8;

    ghost request = { λ c. for_get_object_ref_type c.0.0 };

    #[inline(always)]
    fn name(&self) -> &'static str {
        "GetObjectRefType"
    }

    #[inline(always)]
    fn handed(&self) -> Handed {
        Handed::One(self.0)
    }

    #[inline(always)]
    fn demand(&self) -> Demand {
        Demand::Nothing
    }

    #[inline(always)]
    fn work(
        self,
        steps: &mut S,
        inside: &Inside,
        frames: &mut Frames,
        _numbers: &mut Numbers,
    ) -> Result<u8, Fault> {
        let target = Reference::of(self.0);
        Ok(type_of(steps, inside, frames, target))
    }
}

/// Whether two handles name one object, or both none.
#[inline(always)]
fn compare<S: Steps>(
    steps: &mut S,
    inside: &Inside,
    frames: &Frames,
    left: Handle,
    right: Handle,
) -> Result<bool, Fault>
    requires stay { IsOwnStay inside.now (S.facts steps.old).stands }
    requires ready { StandsReady S.facts Within steps.old frames.now }
    ensures { Serves S.facts steps.old steps.new frames.now.frames frames.now.frames (for_is_same_object left.0 right.0) result }
{
    let left = Reference::of(left);
    let right = Reference::of(right);
    let (first, second) = resolve_both(steps, inside, frames, left, right)?;
    Ok(first == second)
}

/// Makes a reference of the kind to what a handle names, none for NULL.
#[inline(always)]
fn new_reference<S: Steps>(
    steps: &mut S,
    inside: &Inside,
    frames: &Frames,
    kind: RefKind,
    handle: Handle,
) -> Result<Option<Handle>, Fault>
    requires stay { IsOwnStay inside.now (S.facts steps.old).stands }
    requires ready { StandsReady S.facts Within steps.old frames.now }
    requires kind { kind ≢ Local }
    ensures { Serves S.facts steps.old steps.new frames.now.frames frames.now.frames (for_new_reference kind handle.0) result }
{
    let target = Reference::of(handle);
    let Some(object) = resolve(steps, inside, frames, target)? else {
        return Ok(None);
    };
    let made = create(steps, inside, kind, object)?;
    Ok(Some(Handle::pack(made)))
}

/// Deletes the reference that a handle names by the call for the kind.
#[inline(always)]
fn delete_reference<S: Steps>(
    steps: &mut S,
    inside: &Inside,
    kind: RefKind,
    handle: Handle,
) -> Result<(), Fault>
    requires stay { IsOwnStay inside.now (S.facts steps.old).stands }
    requires kind { kind ≢ Local }
    ensures { (f : LocalFrames) → Serves S.facts steps.old steps.new f f (for_delete_reference kind handle.0) result }
{
    let target = Reference::of(handle);
    match target {
        Reference::Null => Ok(()),
        Reference::Malformed => Err(Fault::Stale),
        Reference::Parts(parts) => delete_parts(steps, inside, kind, parts),
    }
}

/// Deletes the reference of a handle, if it is of the kind.
#[inline(always)]
fn delete_parts<S: Steps>(
    steps: &mut S,
    inside: &Inside,
    kind: RefKind,
    handle: HandleParts,
) -> Result<(), Fault>
    requires stay { IsOwnStay inside.now (S.facts steps.old).stands }
    requires kind { kind ≢ Local }
    requires fits { handle.kind ≢ Local → handle.owner ≡ 0 }
    ensures { (f : LocalFrames) → Calls S.facts steps.old steps.new f f (removal (S.facts steps.old).stands.config kind (Parts handle)) result }
{
    if !names_kind(kind, handle) {
        return Err(Fault::WrongKind);
    }
    if lies_outside(steps.config(), handle) {
        return Err(Fault::Stale);
    }
    delete(steps, inside, handle)
}
