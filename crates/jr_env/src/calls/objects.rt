//! The calls of the Java Native Interface for objects of any kind, over any steps: a plain one is made, and a kind is told.
ghost use Rattle.std.specs.Prelude.{◌≡◌, ℕ, List, IfOk};
ghost use Rattle.jr_word.specs.declared.handle.RefKind.TheVariants.{Local};
ghost use Rattle.jr_word.specs.declared.kind.Kind.TheVariants.{Plain};
ghost use Rattle.jr_model.specs.declared.event.Role.TheVariants.{Within};
ghost use Rattle.jr_steps.specs.Knowing.{MayKnow};
ghost use Rattle.jr_heap.specs.Heap.{IsReady};
ghost use Rattle.jr_heap.specs.Ranges.{place_of, size_of};
ghost use Rattle.jr_frames.specs.Ready.{StandsReady, KeepsOwner};
ghost use Rattle.jr_frames.specs.Table.{IsNext};
ghost use Rattle.jr_env.specs.Works.{Refers};

use crate::demand::Demand;
use crate::native_call::{Handed, NativeCall};
use jr_frames::{Frames, Reference, find};
use jr_gate::Inside;
use jr_heap::{Numbers, Range, publish};
use jr_steps::Steps;
use jr_word::{Fault, Handle, HandleParts, Kind};

/// A plain object and a local reference to it.
#[derive(Clone, Copy)]
pub struct NewPlain;

impl<S: Steps> NativeCall<S> for NewPlain {
    ghost use Rattle.jr_env.specs.Requests.{for_new_plain};

    type Answer = Handle;

    ghost request = { λ _. for_new_plain };

    #[inline(always)]
    fn name(&self) -> &'static str {
        "NewPlain"
    }

    #[inline(always)]
    fn handed(&self) -> Handed {
        Handed::Nothing
    }

    #[inline(always)]
    fn demand(&self) -> Demand {
        Demand::Object(0)
    }

    #[inline(always)]
    fn work(
        self,
        steps: &mut S,
        _inside: &Inside,
        frames: &mut Frames,
        numbers: &mut Numbers,
    ) -> Result<Handle, Fault> {
        let Some(handle) = frames.next() else {
            return Err(Fault::LocalsFull);
        };
        let made = refer(steps, frames, numbers, handle, Kind::Plain, Range::empty())?;
        Ok(Handle::pack(made))
    }
}

/// The kind of what a handle names.
#[derive(Clone, Copy)]
pub struct KindOf(pub Handle);

impl<S: Steps> NativeCall<S> for KindOf {
    ghost use Rattle.jr_env.specs.Requests.{for_kind_of};

    type Answer = Kind;

    ghost request = { λ c. for_kind_of c.0.0 };

    #[inline(always)]
    fn name(&self) -> &'static str {
        "KindOf"
    }

    #[inline(always)]
    fn handed(&self) -> Handed {
        Handed::One(self.0)
    }

    #[inline(always)]
    fn demand(&self) -> Demand {
        Demand::Nothing
    }

    #[inline(always)]
    fn work(
        self,
        steps: &mut S,
        inside: &Inside,
        frames: &mut Frames,
        _numbers: &mut Numbers,
    ) -> Result<Kind, Fault> {
        let target = Reference::of(self.0);
        let (_, header) = find(steps, inside, frames, target)?;
        Ok(header.kind)
    }
}

/// Publishes a range of the pass's own as a new object, and makes the local reference of a handle to it.
#[inline(always)]
pub(crate) fn refer<S: Steps>(
    steps: &mut S,
    frames: &mut Frames,
    numbers: &mut Numbers,
    handle: HandleParts,
    kind: Kind,
    range: Range,
) -> Result<HandleParts, Fault>
    requires ready { StandsReady S.facts Within steps.old frames.old }
    requires next { IsNext frames.old handle }
    requires plain { kind ≡ Plain → size_of range ≡ 0 }
    requires filled { MayKnow S.facts steps.old (IsReady kind (place_of range) (size_of range)) }
    ensures call { (words : List ℕ) → Refers S.facts steps.old steps.new frames.old.frames frames.new.frames kind (place_of range) (size_of range) words result }
    ensures same { KeepsOwner frames.old frames.new }
    ensures given { IfOk result (λ h. (h.kind ≡ Local) × (h.owner ≡ (S.facts steps.old).stands.thread)) }
{
    let object = publish(steps, numbers, kind, range)?;
    steps.put_local(handle.index, Some(object));
    frames.add(handle, object);
    Ok(handle)
}
