//! The calls of the Java Native Interface that make arrays, tell their length, and read and write the elements of those of objects, over any steps.
ghost use Rattle.std.specs.Prelude.{◌≡◌, ◌≢◌, ◌<◌, ◌^◌, replicate, IfOk};
ghost use Rattle.jr_word.specs.declared.handle.RefKind.TheVariants.{Local};
ghost use Rattle.jr_word.specs.declared.kind.Kind.TheVariants.{Plain};
ghost use Rattle.jr_model.specs.declared.event.Role.TheVariants.{Within};
ghost use Rattle.jr_model.specs.Checks.{element_word, object_of_word};
ghost use Rattle.jr_model.specs.Tests.{refused_by};
ghost use Rattle.jr_model.specs.CallPrograms.{element_tests};
ghost use Rattle.jr_steps.specs.Knowing.{IsWordNow, MayKnow};
ghost use Rattle.jr_frames.specs.Ready.{StandsReady, KeepsOwner};
ghost use Rattle.jr_env.specs.Works.{MakesArray};

use crate::calls::names;
use crate::calls::objects::refer;
use crate::demand::Demand;
use crate::native_call::{Handed, NativeCall};
use crate::span::Span;
use jr_frames::{Frames, Reference, find, new_local, resolve, resolve_both};
use jr_gate::Inside;
use jr_heap::{Numbers, fill, header, is_array, is_objects, reserve};
use jr_steps::Steps;
use jr_word::{Elem, Fault, Handle, HandleParts, HeaderParts, Kind};
use std::marker::PhantomData;

/// An array of the elements of a type, so many, each zero, and a local reference to it.
#[derive(Clone, Copy)]
pub struct NewArray<E> {
    length: u32,
    element: PhantomData<E>,
}

impl<E: Elem> NewArray<E> {
    ghost use Rattle.std.specs.Prelude.{◌≡◌};

    /// The call that makes an array of so many elements.
    pub fn of(length: u32) -> NewArray<E>
        ensures { result.length ≡ length }
    {
        let element = PhantomData;
        NewArray { length, element }
    }
}

impl<S: Steps, E: Elem> NativeCall<S> for NewArray<E> {
    ghost use Rattle.jr_env.specs.Requests.{for_new_array};

    type Answer = Handle;

    ghost request = { λ c. for_new_array E.KIND c.length };

    #[inline(always)]
    fn name(&self) -> &'static str {
        names::new_array(E::KIND)
    }

    #[inline(always)]
    fn handed(&self) -> Handed {
        Handed::Nothing
    }

    #[inline(always)]
    fn demand(&self) -> Demand {
        Demand::Object(u64::from(self.length))
    }

    #[inline(always)]
    fn work(
        self,
        steps: &mut S,
        _inside: &Inside,
        frames: &mut Frames,
        numbers: &mut Numbers,
    ) -> Result<Handle, Fault> {
        let kind = E::KIND;
        let made = make_array(steps, frames, numbers, kind, self.length, 0)?;
        Ok(Handle::pack(made))
    }
}

/// An array of so many object references, each to what a handle names, and a local reference to it.
#[derive(Clone, Copy)]
pub struct NewObjectArray(pub u32, pub Handle);

impl<S: Steps> NativeCall<S> for NewObjectArray {
    ghost use Rattle.jr_env.specs.Requests.{for_new_object_array};

    type Answer = Handle;

    ghost request = { λ c. for_new_object_array c.0 c.1.0 };

    #[inline(always)]
    fn name(&self) -> &'static str {
        "NewObjectArray"
    }

    #[inline(always)]
    fn handed(&self) -> Handed {
        Handed::One(self.1)
    }

    #[inline(always)]
    fn demand(&self) -> Demand {
        Demand::Object(u64::from(self.0))
    }

    #[inline(always)]
    fn work(
        self,
        steps: &mut S,
        inside: &Inside,
        frames: &mut Frames,
        numbers: &mut Numbers,
    ) -> Result<Handle, Fault> {
        let initial = Reference::of(self.1);
        let object = resolve(steps, inside, frames, initial)?;
        let word = element_word(object);
        let made = make_array(steps, frames, numbers, Kind::Objects, self.0, word)?;
        Ok(Handle::pack(made))
    }
}

/// How many elements an array has.
#[derive(Clone, Copy)]
pub struct GetArrayLength(pub Handle);

impl<S: Steps> NativeCall<S> for GetArrayLength {
    ghost use Rattle.jr_env.specs.Requests.{for_get_array_length};

    type Answer = u32;

    ghost request = { λ c. for_get_array_length c.0.0 };

    #[inline(always)]
    fn name(&self) -> &'static str {
        "GetArrayLength"
    }

    #[inline(always)]
    fn handed(&self) -> Handed {
        Handed::One(self.0)
    }

    #[inline(always)]
    fn demand(&self) -> Demand {
        Demand::Nothing
    }

    #[inline(always)]
    fn work(
        self,
        steps: &mut S,
        inside: &Inside,
        frames: &mut Frames,
        _numbers: &mut Numbers,
    ) -> Result<u32, Fault> {
        let target = Reference::of(self.0);
        let (_, header) = find(steps, inside, frames, target)?;
        if !is_array(header.kind) {
            return Err(Fault::NotArray);
        }
        Ok(header.length)
    }
}

/// A local reference to the element of an array of objects at an index, none where it is NULL.
#[derive(Clone, Copy)]
pub struct GetObjectArrayElement(pub Handle, pub u32);

impl<S: Steps> NativeCall<S> for GetObjectArrayElement {
    ghost use Rattle.jr_env.specs.Requests.{for_get_object_array_element};

    type Answer = Option<Handle>;

    ghost request = { λ c. for_get_object_array_element c.0.0 c.1 };

    #[inline(always)]
    fn name(&self) -> &'static str {
        "GetObjectArrayElement"
    }

    #[inline(always)]
    fn handed(&self) -> Handed {
        Handed::OneAt(self.0, Span::at(self.1))
    }

    #[inline(always)]
    fn demand(&self) -> Demand {
        Demand::Nothing
    }

    #[inline(always)]
    fn work(
        self,
        steps: &mut S,
        inside: &Inside,
        frames: &mut Frames,
        _numbers: &mut Numbers,
    ) -> Result<Option<Handle>, Fault> {
        let target = Reference::of(self.0);
        let (array, header) = find(steps, inside, frames, target)?;
        has_element(header, self.1)?;
        let word = steps.see_element(array, header, self.1);
        let object = object_in(word);
        let made = new_local(steps, inside, frames, object)?;
        Ok(made.map(Handle::pack))
    }
}

/// Makes what the second handle names the element of an array of objects at an index.
#[derive(Clone, Copy)]
pub struct SetObjectArrayElement(pub Handle, pub u32, pub Handle);

impl<S: Steps> NativeCall<S> for SetObjectArrayElement {
    ghost use Rattle.jr_env.specs.Requests.{for_set_object_array_element};

    type Answer = ();

    ghost request = { λ c. for_set_object_array_element c.0.0 c.1 c.2.0 };

    #[inline(always)]
    fn name(&self) -> &'static str {
        "SetObjectArrayElement"
    }

    #[inline(always)]
    fn handed(&self) -> Handed {
        Handed::BothAt(self.0, self.2, Span::at(self.1))
    }

    #[inline(always)]
    fn demand(&self) -> Demand {
        Demand::Nothing
    }

    #[inline(always)]
    fn work(
        self,
        steps: &mut S,
        inside: &Inside,
        frames: &mut Frames,
        _numbers: &mut Numbers,
    ) -> Result<(), Fault> {
        let target = Reference::of(self.0);
        let value = Reference::of(self.2);
        let (array, object) = resolve_both(steps, inside, frames, target, value)?;
        let Some(array) = array else {
            return Err(Fault::Null);
        };
        let header = header(steps, array);
        has_element(header, self.1)?;
        let word = element_word(object);
        steps.put_element(array, header, self.1, word);
        Ok(())
    }
}

/// Whether an object with this header is an object array with an element at the index.
///
/// # Errors
///
/// E5 where it is no array, E6 where it is one of other elements, E7 past its length.
fn has_element(header: HeaderParts, index: u32) -> Result<(), Fault>
    ensures { refused_by (element_tests index header.kind header.length) ≡ result }
{
    if !is_array(header.kind) {
        return Err(Fault::NotArray);
    }
    if !is_objects(header.kind) {
        return Err(Fault::WrongElement);
    }
    if header.length <= index {
        return Err(Fault::Range);
    }
    Ok(())
}

/// The object that an element of an object array names, none for 0.
fn object_in(word: u64) -> Option<u16>
    requires { word < 2 ^ 16 }
    ensures { result ≡ object_of_word word }
{
    if word == 0 { None } else { Some(word as u16) }
}

/// The element of an object array that names the object, 0 for none.
fn element_word(object: Option<u16>) -> u64
    ensures { result ≡ element_word object }
{
    match object {
        Some(object) => u64::from(object),
        None => 0,
    }
}

/// Makes an array whose elements are all one word, and a local reference to it.
fn make_array<S: Steps>(
    steps: &mut S,
    frames: &mut Frames,
    numbers: &mut Numbers,
    kind: Kind,
    length: u32,
    word: u64,
) -> Result<HandleParts, Fault>
    requires ready { StandsReady S.facts Within steps.old frames.old }
    requires kind { kind ≢ Plain }
    requires word { MayKnow S.facts steps.old (IsWordNow kind word) }
    ensures call { MakesArray S.facts steps.old steps.new frames.old.frames frames.new.frames kind (replicate length word) (IsWordNow kind word) result }
    ensures same { KeepsOwner frames.old frames.new }
    ensures given { IfOk result (λ h. (h.kind ≡ Local) × (h.owner ≡ (S.facts steps.old).stands.thread)) }
{
    let Some(handle) = frames.next() else {
        return Err(Fault::LocalsFull);
    };
    let range = reserve(steps, u64::from(length))?;
    fill(steps, &range, word);
    refer(steps, frames, numbers, handle, kind, range)
}
