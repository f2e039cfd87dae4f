//! The calls of the Java Native Interface that copy all elements of an array out, and back, over any steps.
use crate::calls::array_parts::has_elements;
use crate::calls::names;
use crate::demand::Demand;
use crate::env::Env;
use crate::native_call::{Handed, NativeCall, NativeCaller};
use crate::span::Span;
use crate::work::outside;
use jr_elements::{Elements, elements_of, put_back, read_all};
use jr_frames::{Frames, Reference, find};
use jr_gate::Inside;
use jr_heap::Numbers;
use jr_model::Mode;
use jr_steps::Steps;
use jr_word::{Elem, Fault, Handle};
use std::alloc::Global;
use std::marker::PhantomData;

impl<S: Steps> Env<S> {
    ghost use Rattle.std.specs.Prelude.{◌≡◌, IfOk, IfErr, map};
    ghost use Rattle.jr_elements.specs.Copies.{kept};
    ghost use Rattle.jr_env.specs.Envs.{Does};
    ghost use Rattle.jr_env.specs.Deeds.{release_answer, release_array_elements};

    /// Releases copied elements by a mode. To copy writes them to the whole array, one after the other, rising, and gives them up; to commit writes them and hands them back, as they were;
    /// to abort gives them up, enters no gate, looks at no reference and is never refused. (JNI Specification, chapter 4, "Release<PrimitiveType>ArrayElements Routines")
    ///
    /// # Errors
    ///
    /// That of the gate; those of a handle to an object; E5 where it is to a plain object or a string; E6 where it is to an array of other elements; E7 where the array has another number of elements.
    ///
    /// The elements are handed back as they were, nothing is written, and the thread stands outside.
    ///
    /// # Operations
    ///
    /// At most 4, and one for each element: the entry, a look at the slot of a global or weak handle, one at the array's header, a store for each element, and the exit. To abort takes none.
    pub fn release_array_elements<E: Elem>(
        &mut self,
        array: Handle,
        elements: Elements<E>,
        mode: Mode,
    ) -> Result<Option<Elements<E>>, (Elements<E>, Fault)>
        ensures call { Does self.old self.new (release_array_elements E.KIND array.0 (map E.word_of elements) mode) (release_answer (map E.word_of) result) }
        ensures ok { IfOk result (λ left. left ≡ kept mode elements) }
        ensures err { IfErr result (λ refused. refused.0 ≡ elements) }
    {
        if !mode.copies_back() {
            outside(&mut self.held);
            elements.discard();
            return Ok(None);
        }
        let call = CopyBack {
            array,
            elements: &elements,
        };
        match self.make(call) {
            Ok(()) => Ok(elements.kept(mode)),
            Err(fault) => Err((elements, fault)),
        }
    }
}

/// A copy of all elements of an array.
#[derive(Clone, Copy)]
pub struct GetArrayElements<E> {
    /// What the memory is taken from.
    pub alloc: Global,
    /// The array.
    pub array: Handle,
    /// The type of its elements.
    pub element: PhantomData<E>,
}

impl<E: Elem> GetArrayElements<E> {
    ghost use Rattle.std.specs.Prelude.{◌≡◌};

    /// The call that copies the elements of an array.
    pub fn of(alloc: Global, array: Handle) -> GetArrayElements<E>
        ensures { result.array ≡ array }
    {
        let element = PhantomData::<E>;
        GetArrayElements {
            alloc,
            array,
            element,
        }
    }
}

impl<S: Steps, E: Elem> NativeCall<S> for GetArrayElements<E> {
    ghost use Rattle.std.specs.Prelude.{map};
    ghost use Rattle.jr_env.specs.Requests.{for_get_array_elements, told_by};

    type Answer = Elements<E>;

    ghost request = { λ c. told_by (map E.word_of) (for_get_array_elements E.KIND c.array.0) };

    #[inline(always)]
    fn name(&self) -> &'static str {
        names::get_elements(E::KIND)
    }

    #[inline(always)]
    fn handed(&self) -> Handed {
        Handed::One(self.array)
    }

    #[inline(always)]
    fn demand(&self) -> Demand {
        Demand::Nothing
    }

    #[inline(always)]
    fn work(
        self,
        steps: &mut S,
        inside: &Inside,
        frames: &mut Frames,
        _numbers: &mut Numbers,
    ) -> Result<Elements<E>, Fault> {
        let array = Reference::of(self.array);
        let (object, header) = find(steps, inside, frames, array)?;
        has_elements(E::KIND, header.kind)?;
        let items = read_all(self.alloc, steps, object, header)?;
        Ok(elements_of(items))
    }
}

/// Writes elements to the whole array, which has to have as many.
#[derive(Clone, Copy)]
pub struct CopyBack<'a, E: Elem> {
    /// The array.
    pub array: Handle,
    /// The elements.
    pub elements: &'a Elements<E>,
}

impl<S: Steps, E: Elem> NativeCall<S> for CopyBack<'_, E> {
    ghost use Rattle.std.specs.Prelude.{map};
    ghost use Rattle.jr_env.specs.Requests.{for_copy_back};

    type Answer = ();

    ghost request = { λ c. for_copy_back E.KIND c.array.0 (map E.word_of c.elements.now) };

    #[inline(always)]
    fn name(&self) -> &'static str {
        names::release_elements(E::KIND)
    }

    #[inline(always)]
    fn handed(&self) -> Handed {
        Handed::OneAt(
            self.array,
            Span {
                start: 0,
                count: self.elements.length() as usize,
            },
        )
    }

    #[inline(always)]
    fn demand(&self) -> Demand {
        Demand::Nothing
    }

    #[inline(always)]
    fn work(
        self,
        steps: &mut S,
        inside: &Inside,
        frames: &mut Frames,
        _numbers: &mut Numbers,
    ) -> Result<(), Fault> {
        let CopyBack {
            array: handle,
            elements,
        } = self;
        let array = Reference::of(handle);
        let (object, header) = find(steps, inside, frames, array)?;
        has_elements(E::KIND, header.kind)?;
        if header.length != elements.length() {
            return Err(Fault::Range);
        }
        put_back(steps, object, header, elements);
        Ok(())
    }
}
