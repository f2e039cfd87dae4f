//! The calls that copy all elements of an array back, in a stay, over any steps.
use crate::calls::CopyBack;
use crate::native_call::NativeCaller;
use crate::stay::Stay;
use jr_elements::Elements;
use jr_model::Mode;
use jr_steps::Steps;
use jr_word::{Elem, Fault, Handle};

impl<S: Steps> Stay<'_, S> {
    ghost use Rattle.std.specs.Prelude.{◌≡◌, IfOk, IfErr, map};
    ghost use Rattle.jr_elements.specs.Copies.{kept};
    ghost use Rattle.jr_env.specs.Deeds.{release_answer, release_within};
    ghost use Rattle.jr_env.specs.LentStays.{DoesWithin};

    /// Releases copied elements by a mode. To copy writes them to the whole array, one after the other, rising, and gives them up; to commit writes them and hands them back, as they were;
    /// to abort gives them up, enters no gate, looks at no reference and is never refused. (JNI Specification, chapter 4, "Release<PrimitiveType>ArrayElements Routines")
    ///
    /// # Errors
    ///
    /// Those of a handle to an object; E5 where it is to a plain object or a string; E6 where it is to an array of other elements; E7 where the array has another number of elements.
    ///
    /// The elements are handed back as they were, nothing is written, and the stay stands.
    ///
    /// # Operations
    ///
    /// At most 2, and one for each element: a look at the slot of a global or weak handle, one at the array's header, and a store for each element. To abort takes none.
    pub fn release_array_elements<E: Elem>(
        &mut self,
        array: Handle,
        elements: Elements<E>,
        mode: Mode,
    ) -> Result<Option<Elements<E>>, (Elements<E>, Fault)>
        ensures call { DoesWithin self.old self.new (release_within E.KIND array.0 (map E.word_of elements) mode) (release_answer (map E.word_of) result) }
        ensures ok { IfOk result (λ left. left ≡ kept mode elements) }
        ensures err { IfErr result (λ refused. refused.0 ≡ elements) }
    {
        if !mode.copies_back() {
            elements.discard();
            return Ok(None);
        }
        let call = CopyBack {
            array,
            elements: &elements,
        };
        match self.make(call) {
            Ok(()) => Ok(elements.kept(mode)),
            Err(fault) => Err((elements, fault)),
        }
    }
}
