//! The calls of the Java Native Interface that enter the gate, by their names: of an env, and of a stay.
ghost use Rattle.jr_env.specs.Requests.{for_is_same_object};

use crate::calls::{
    DeleteGlobalRef, DeleteLocalRef, DeleteWeakGlobalRef, FreeLocals, GetArrayElements,
    GetArrayLength, GetObjectArrayElement, GetObjectRefType, GetStringChars, GetStringLength,
    IdentityOf, IsSameObject, KindOf, NewArray, NewGlobalRef, NewLocalRef, NewObjectArray,
    NewPlain, NewString, NewWeakGlobalRef, PopLocalFrame, SetArrayRegion, SetObjectArrayElement,
};
use crate::native_call::NativeCaller;
use jr_elements::Elements;
use jr_steps::Steps;
use jr_word::{Elem, Fault, Handle, Kind};
use std::alloc::Global;
use std::marker::PhantomData;

/// The calls of the Java Native Interface that enter the gate, by their names, of an env and of a stay.
/// An env makes each by an entry and an exit of its own, which are two operations more than are told here.
/// Before the refusals that are told it has E13, where a thread is collecting at the entry, or has announced that it will. Afterwards its thread stands outside. A stay goes on.
///
/// What several calls are refused by they cite:
///
/// - that of the gate is that of the gate;
/// - those of a handle are E2 where it is malformed or lies outside the room, E3 where it is a local one of another thread, and E2 where its reference does not stand;
/// - those of a handle to an object are these, and E1 where it is to null;
/// - those of space are E10 with how many words are reserved, where so many more don't fit, E12 with how many words were looked at and how many were found,
///   where another thread reserved some in between, and E11 where every object number was present at one moment of the call.
pub trait NativeInterface<S: Steps>: NativeCaller<S> {
    ghost use Rattle.std.specs.Prelude.{◌≡◌, IfErr, length, map};
    ghost use Rattle.jr_word.specs.declared.handle.RefKind.TheVariants as ref_kind;
    ghost use Rattle.jr_env.specs.Copying.{CopiesThrough};
    ghost use Rattle.jr_env.specs.Deeds.{read_answer};
    ghost use Rattle.jr_env.specs.Requests.{for_delete_local_ref, for_delete_reference, for_free_locals, for_get_array_elements, for_get_array_length, for_get_array_region};
    ghost use Rattle.jr_env.specs.Requests.{for_get_object_array_element, for_get_object_ref_type, for_get_string_chars, for_get_string_length, for_identity_of, for_is_same_object, for_kind_of};
    ghost use Rattle.jr_env.specs.Requests.{for_new_array, for_new_local_ref, for_new_object_array, for_new_plain, for_new_reference, for_new_string, for_pop_local_frame, for_set_array_region};
    ghost use Rattle.jr_env.specs.Requests.{for_set_object_array_element, told_by};

    /// Makes a global reference to what the handle names, none for NULL and for a weak one that is cleared. (JNI Specification, chapter 4, "NewGlobalRef")
    ///
    /// # Errors
    ///
    /// Those of a handle;
    /// E8 where each slot was occupied when it was tried, or later in the call.
    ///
    /// Nothing has changed then.
    ///
    /// # Operations
    ///
    /// Just its events: a look at the slot of a global or weak handle, a look at each slot that is tried and the exchange of each that was free, which are two for each slot of the room at the most.
    fn new_global_ref(&mut self, handle: Handle) -> Result<Option<Handle>, Fault>
        ensures { Self.made self.old self.new (for_new_reference ref_kind.Global handle.0) result };

    /// Makes a weak global reference to what the handle names, none for NULL and for a weak one that is cleared. (JNI Specification, chapter 4, "NewWeakGlobalRef")
    ///
    /// # Errors
    ///
    /// Those of a handle;
    /// E8 where each slot was occupied when it was tried, or later in the call.
    ///
    /// Nothing has changed then.
    ///
    /// # Operations
    ///
    /// Just its events: a look at the slot of a global or weak handle, a look at each slot that is tried and the exchange of each that was free, which are two for each slot of the room at the most.
    fn new_weak_global_ref(&mut self, handle: Handle) -> Result<Option<Handle>, Fault>
        ensures { Self.made self.old self.new (for_new_reference ref_kind.Weak handle.0) result };

    /// Makes a local reference to what the handle names, none for NULL and for a weak one that is cleared, which needs no place. (JNI Specification, chapter 4, "NewLocalRef")
    ///
    /// # Errors
    ///
    /// Those of a handle; E9 where no local place is free.
    ///
    /// Nothing has changed then.
    ///
    /// # Operations
    ///
    /// Just its events, at most 2: a look at the slot of a global or weak handle, and the store of the local word.
    fn new_local_ref(&mut self, handle: Handle) -> Result<Option<Handle>, Fault>
        ensures { Self.made self.old self.new (for_new_local_ref handle.0) result };

    /// Makes a local reference to what a weak one names, none where that is cleared: `new_local_ref`, by the name of what it is for. (JNI Specification, chapter 4, "NewLocalRef")
    ///
    /// # Errors
    ///
    /// Those of a handle; E9 where no local place is free.
    ///
    /// Nothing has changed then.
    ///
    /// # Operations
    ///
    /// Just its events, at most 2: a look at the slot of a global or weak handle, and the store of the local word.
    fn upgrade_local(&mut self, weak: Handle) -> Result<Option<Handle>, Fault>
        ensures { Self.made self.old self.new (for_new_local_ref weak.0) result };

    /// Makes a global reference to what a weak one names, none where that is cleared: `new_global_ref`, by the name of what it is for. (JNI Specification, chapter 4, "NewGlobalRef")
    ///
    /// # Errors
    ///
    /// Those of a handle;
    /// E8 where each slot was occupied when it was tried, or later in the call.
    ///
    /// Nothing has changed then.
    ///
    /// # Operations
    ///
    /// Just its events: a look at the slot of a global or weak handle, a look at each slot that is tried and the exchange of each that was free, which are two for each slot of the room at the most.
    fn upgrade_global(&mut self, weak: Handle) -> Result<Option<Handle>, Fault>
        ensures { Self.made self.old self.new (for_new_reference ref_kind.Global weak.0) result };

    /// Deletes a global reference. For NULL it deletes nothing, and is not refused. (JNI Specification, chapter 4, "DeleteGlobalRef")
    ///
    /// # Errors
    ///
    /// E2 where the handle is malformed; E4 where it is of another kind; E2 where it lies outside the room, its reference does not stand, or another thread deletes it first.
    ///
    /// Nothing has changed then.
    ///
    /// # Operations
    ///
    /// Just its events, at most 2: a look at the slot, and the exchange of a word that stands there.
    fn delete_global_ref(&mut self, handle: Handle) -> Result<(), Fault>
        ensures { Self.made self.old self.new (for_delete_reference ref_kind.Global handle.0) result };

    /// Deletes a weak global reference, cleared or not. For NULL it deletes nothing, and is not refused. (JNI Specification, chapter 4, "DeleteWeakGlobalRef")
    ///
    /// # Errors
    ///
    /// E2 where the handle is malformed; E4 where it is of another kind; E2 where it lies outside the room, its reference does not stand, or another thread deletes it first.
    ///
    /// Nothing has changed then.
    ///
    /// # Operations
    ///
    /// Just its events, at most 2: a look at the slot, and the exchange of a word that stands there.
    fn delete_weak_global_ref(&mut self, handle: Handle) -> Result<(), Fault>
        ensures { Self.made self.old self.new (for_delete_reference ref_kind.Weak handle.0) result };

    /// Deletes a local reference of the thread, whichever frame has it. For NULL it deletes nothing, and is not refused. (JNI Specification, chapter 4, "DeleteLocalRef")
    ///
    /// # Errors
    ///
    /// E2 where the handle is malformed; E4 where it is of another kind; E2 where it lies outside the room; E3 where it is one of another thread; E2 where its reference does not stand.
    ///
    /// Nothing has changed then.
    ///
    /// # Operations
    ///
    /// Just its event, at most one: the store of the local word.
    fn delete_local_ref(&mut self, handle: Handle) -> Result<(), Fault>
        ensures { Self.made self.old self.new (for_delete_local_ref handle.0) result };

    /// Whether two references are to one object, or both to null. The look at the first and the look at the second are two moments.
    /// Each check is made of the first handle and then of the second, before the next check. (JNI Specification, chapter 4, "IsSameObject")
    ///
    /// # Errors
    ///
    /// E2 where a handle is malformed or lies outside the room; E3 where one is a local one of another thread; E2 where the reference of one does not stand.
    ///
    /// Nothing has changed then.
    ///
    /// # Operations
    ///
    /// Just its events, at most 2: a look at the slot of each handle that is global or weak.
    fn is_same_object(&mut self, left: Handle, right: Handle) -> Result<bool, Fault>
        ensures { Self.made self.old self.new (for_is_same_object left.0 right.0) result };

    /// The type of a reference: 1 local, 2 global, 3 weak global, be it cleared, and 0 for NULL, a malformed handle, one that lies outside the room, a local one of another thread,
    /// and one whose reference does not stand. (JNI Specification, chapter 4, "GetObjectRefType")
    ///
    /// # Errors
    ///
    /// None but an env's E13: in a stay it answers Ok in any case.
    ///
    /// # Operations
    ///
    /// Just its event, at most one: a look at the slot of a global or weak handle.
    fn get_object_ref_type(&mut self, handle: Handle) -> Result<u8, Fault>
        ensures { Self.made self.old self.new (for_get_object_ref_type handle.0) result };

    /// Tells the identity of what the handle names: a number, at least 1, that all references to one object share, and that no other object has while that one is present.
    /// A collection leaves it, be the object moved or not. Once a collection has dropped the object, another may have its number. So it is a key for what an embedder keeps beside its objects.
    /// The Java Native Interface has no such call.
    ///
    /// # Errors
    ///
    /// Those of a handle to an object.
    ///
    /// Nothing has changed then.
    ///
    /// # Operations
    ///
    /// Just its events, at most 1: a look at the slot of a global or weak handle.
    fn identity_of(&mut self, handle: Handle) -> Result<u16, Fault>
        ensures { Self.made self.old self.new (for_identity_of handle.0) result };

    /// Takes the newest frame away with its local references, and makes one in the frame below to what the handle names, none for NULL and for a weak one that is cleared, which needs no place.
    /// (JNI Specification, chapter 4, "PopLocalFrame")
    ///
    /// # Errors
    ///
    /// E15 where no frame was pushed; those of a handle;
    /// E9 where no place would be free for the result, once those of the frame are.
    ///
    /// Nothing is taken away then.
    ///
    /// # Operations
    ///
    /// Just its events: a look at the slot of a global or weak handle, a store for each local reference of the frame, and one for the result.
    fn pop_local_frame(&mut self, kept: Handle) -> Result<Option<Handle>, Fault>
        ensures { Self.made self.old self.new (for_pop_local_frame kept.0) result }
    {
        self.make(PopLocalFrame(kept))
    }

    /// Frees all local references of the thread, as at the end of a native method. One empty frame is left. (JNI Specification, chapter 2, "Global and Local References")
    ///
    /// # Errors
    ///
    /// None but an env's E13: in a stay it answers Ok in any case.
    ///
    /// # Operations
    ///
    /// Just its events, a store for each local reference.
    fn free_locals(&mut self) -> Result<(), Fault>
        ensures { Self.made self.old self.new for_free_locals result }
    {
        self.make(FreeLocals)
    }

    /// The kind of what the handle names. The Java Native Interface has no such call.
    ///
    /// # Errors
    ///
    /// Those of a handle to an object.
    ///
    /// Nothing has changed then.
    ///
    /// # Operations
    ///
    /// At most 2: a look at the slot of a global or weak handle, and one at the object's header.
    fn kind_of(&mut self, handle: Handle) -> Result<Kind, Fault>
        ensures { Self.made self.old self.new (for_kind_of handle.0) result };

    /// How many elements an array has. (JNI Specification, chapter 4, "GetArrayLength")
    ///
    /// # Errors
    ///
    /// Those of a handle to an object;
    /// E5 where it is to a plain object or a string.
    ///
    /// Nothing has changed then.
    ///
    /// # Operations
    ///
    /// At most 2: a look at the slot of a global or weak handle, and one at the array's header.
    fn get_array_length(&mut self, array: Handle) -> Result<u32, Fault>
        ensures { Self.made self.old self.new (for_get_array_length array.0) result };

    /// How many UTF-16 units a string has. (JNI Specification, chapter 4, "GetStringLength")
    ///
    /// # Errors
    ///
    /// Those of a handle to an object;
    /// E4 where it is to no string.
    ///
    /// Nothing has changed then.
    ///
    /// # Operations
    ///
    /// At most 2: a look at the slot of a global or weak handle, and one at the string's header.
    fn get_string_length(&mut self, string: Handle) -> Result<u32, Fault>
        ensures { Self.made self.old self.new (for_get_string_length string.0) result };

    /// An element of an object array, as a local reference, none for null, which needs no place. A negative index can't be handed in. (JNI Specification, chapter 4, "GetObjectArrayElement")
    ///
    /// # Errors
    ///
    /// Those of a handle to an object; E5 where it is to a plain object or a string; E6 where it is to an array of other elements than objects; E7 where the index is not below the length;
    /// E9 where the element is to an object and no local place is free.
    ///
    /// Nothing has changed then.
    ///
    /// # Operations
    ///
    /// At most 4: a look at the slot of a global or weak handle, one at the array's header, the load of the element, and the store of the local word.
    fn get_object_array_element(
        &mut self,
        array: Handle,
        index: u32,
    ) -> Result<Option<Handle>, Fault>
        ensures { Self.made self.old self.new (for_get_object_array_element array.0 index) result };

    /// Sets an element of an object array to what the second handle names, to null for NULL and for a weak one that is cleared.
    /// Each check of a reference is made of the array and then of the value, before the next, and all of them before E1. A negative index can't be handed in.
    /// (JNI Specification, chapter 4, "SetObjectArrayElement")
    ///
    /// # Errors
    ///
    /// E2 where a handle is malformed or lies outside the room; E3 where one is a local one of another thread; E2 where the reference of one does not stand; E1 where the array's is to null;
    /// E5 where it is to a plain object or a string; E6 where it is to an array of other elements than objects; E7 where the index is not below the length.
    ///
    /// Nothing has changed then.
    ///
    /// # Operations
    ///
    /// At most 4: a look at the slot of each handle that is global or weak, one at the array's header, and the store of the element.
    fn set_object_array_element(
        &mut self,
        array: Handle,
        index: u32,
        value: Handle,
    ) -> Result<(), Fault>
        ensures { Self.made self.old self.new (for_set_object_array_element array.0 index value.0) result };

    /// Makes a plain object, which has no elements, and a local reference to it. The Java Native Interface has no such call.
    ///
    /// # Errors
    ///
    /// E9 where no local place is free; E11 where every object number was present at one moment of the call.
    ///
    /// Nothing has changed then.
    ///
    /// # Operations
    ///
    /// At most 2, and one for each object number of the room: its events (the exchange of a header, and the store of the local word), and an exchange for each number that is found present.
    fn new_plain(&mut self) -> Result<Handle, Fault>
        ensures { Self.made self.old self.new for_new_plain result }
    {
        self.make(NewPlain)
    }

    /// Makes an array of so many elements, each zero (false), and a local reference to it. (JNI Specification, chapter 4, "New<PrimitiveType>Array Routines")
    ///
    /// # Errors
    ///
    /// E9 where no local place is free; E10 with how many words are reserved, where so many more don't fit;
    /// E12 with how many words were looked at and how many were found, where another thread reserved some in between; E11 where every object number was present at one moment of the call.
    ///
    /// Nothing has changed then; but after E11 the words of the array stay reserved until the next collection.
    ///
    /// # Operations
    ///
    /// At most 4, and one for each element and for each object number of the room:
    /// its events (the exchange of the top, that of a header, and the store of the local word), the look at the top, a store for each element, and an exchange for each number that is found present.
    /// Without elements nothing is reserved.
    fn new_array<E: Elem>(&mut self, length: u32) -> Result<Handle, Fault>
        ensures { Self.made self.old self.new (for_new_array E.KIND length) result }
    {
        self.make(NewArray::<E>::of(length))
    }

    /// Makes an array of so many object references, each to what the handle names, null for NULL and for a weak one that is cleared, and a local reference to it.
    /// (JNI Specification, chapter 4, "NewObjectArray")
    ///
    /// # Errors
    ///
    /// Those of a handle; E9 where no local place is free; E10 with how many words are reserved, where so many more don't fit;
    /// E12 with how many words were looked at and how many were found, where another thread reserved some in between; E11 where every object number was present at one moment of the call.
    ///
    /// Nothing has changed then; but after E11 the words of the array stay reserved until the next collection.
    ///
    /// # Operations
    ///
    /// At most 5, and one for each element and for each object number of the room:
    /// its events (a look at the slot of a global or weak handle, the exchange of the top, that of a header, and the store of the local word), the look at the top, a store for each element,
    /// and an exchange for each number that is found present. Without elements nothing is reserved.
    fn new_object_array(&mut self, length: u32, initial: Handle) -> Result<Handle, Fault>
        ensures { Self.made self.old self.new (for_new_object_array length initial.0) result }
    {
        self.make(NewObjectArray(length, initial))
    }

    /// Makes a string of these UTF-16 units, and a local reference to it. (JNI Specification, chapter 4, "NewString")
    ///
    /// # Errors
    ///
    /// E9 where no local place is free; E10 with how many words are reserved, where so many more don't fit;
    /// E12 with how many words were looked at and how many were found, where another thread reserved some in between; E11 where every object number was present at one moment of the call.
    ///
    /// Nothing has changed then; but after E11 the words of the string stay reserved until the next collection.
    ///
    /// # Operations
    ///
    /// At most 4, and one for each unit and for each object number of the room:
    /// its events (the exchange of the top, that of a header, and the store of the local word), the look at the top, a store for each unit, and an exchange for each number that is found present.
    /// Without units nothing is reserved.
    fn new_string(&mut self, units: &[u16]) -> Result<Handle, Fault>
        ensures { Self.made self.old self.new (for_new_string units.now) result }
    {
        self.make(NewString(units))
    }

    /// Copies a part of an array out, from an index on: as many elements as the slice has room for, one after the other, rising. No elements are in range up to the end of the array.
    /// (JNI Specification, chapter 4, "Get<PrimitiveType>ArrayRegion Routines")
    ///
    /// # Errors
    ///
    /// Those of a handle to an object; E5 where it is to a plain object or a string; E6 where it is to an array of other elements; E7 where the part does not lie in the array.
    ///
    /// The slice is as it was, and nothing has changed.
    ///
    /// # Operations
    ///
    /// At most 2, and one for each element: a look at the slot of a global or weak handle, one at the array's header, and a load for each element.
    fn get_array_region<E: Elem>(
        &mut self,
        array: Handle,
        start: u32,
        elements: &mut [E],
    ) -> Result<(), Fault>
        ensures call { Self.made self.old self.new (for_get_array_region E.KIND array.0 start (length elements.old)) (read_answer result (map E.word_of elements.new)) }
        ensures size { length elements.new ≡ length elements.old }
        ensures err { IfErr result (λ _. elements.new ≡ elements.old) }
    {
        self.copy_part(array, start, elements)
    }

    /// Copies elements into a part of an array, from an index on, one after the other, rising. No elements are in range up to the end of the array.
    /// (JNI Specification, chapter 4, "Set<PrimitiveType>ArrayRegion Routines")
    ///
    /// # Errors
    ///
    /// Those of a handle to an object; E5 where it is to a plain object or a string; E6 where it is to an array of other elements; E7 where the part does not lie in the array.
    ///
    /// Nothing is written then.
    ///
    /// # Operations
    ///
    /// At most 2, and one for each element: a look at the slot of a global or weak handle, one at the array's header, and a store for each element.
    fn set_array_region<E: Elem>(
        &mut self,
        array: Handle,
        start: u32,
        elements: &[E],
    ) -> Result<(), Fault>
        ensures { Self.made self.old self.new (for_set_array_region E.KIND array.0 start (map E.word_of elements.now)) result }
    {
        self.make(SetArrayRegion(array, start, elements))
    }

    /// Copies elements from a part of an array to a part of an array of the same elements, through a buffer, which is as long as the part. All are read before the first is written.
    /// So the arrays may be one, and the parts may overlap: what is written is what was read, as if through a temporary array.
    /// It is `get_array_region` into the buffer, and then `set_array_region` of it, of an env two calls. Others may write between two of its operations. (Java's `System.arraycopy`)
    ///
    /// # Errors
    ///
    /// E2 where the first handle is malformed or lies outside the room; E3 where it is a local one of another thread; E2 where its reference does not stand; E1 where it is to null;
    /// E5 where it is to a plain object or a string; E6 where it is to an array of other elements; E7 where the part does not lie in the array;
    /// E2 where the second handle is malformed or lies outside the room; E3 where it is a local one of another thread; E2 where its reference does not stand; E1 where it is to null;
    /// E5 where it is to a plain object or a string; E6 where it is to an array of other elements; E7 where the part does not lie in the array.
    ///
    /// Nothing is written then. Where the second array refused, the buffer has what was read, and else it is as it was.
    ///
    /// # Operations
    ///
    /// Those of `get_array_region` and of `set_array_region`.
    fn copy_array<E: Elem>(
        &mut self,
        from: Handle,
        start: u32,
        to: Handle,
        target: u32,
        buffer: &mut [E],
    ) -> Result<(), Fault>
        ensures size { length buffer.new ≡ length buffer.old }
        ensures call { CopiesThrough Self.made Self.made (for_get_array_region E.KIND from.0 start (length buffer.old)) (map E.word_of buffer.new)
            (for_set_array_region E.KIND to.0 target (map E.word_of buffer.new)) (buffer.new ≡ buffer.old) self.old self.new result }
    {
        self.copy_part(from, start, buffer)?;
        self.make(SetArrayRegion(to, target, buffer))
    }

    /// Copies all elements of an array, one after the other, rising. (JNI Specification, chapter 4, "Get<PrimitiveType>ArrayElements Routines")
    ///
    /// # Errors
    ///
    /// Those of a handle to an object; E5 where it is to a plain object or a string; E6 where it is to an array of other elements; E16 where the memory for them was refused.
    ///
    /// No element is read then, and nothing has changed.
    ///
    /// # Operations
    ///
    /// At most 2, and one for each element: a look at the slot of a global or weak handle, one at the array's header, and a load for each element.
    fn get_array_elements<E: Elem>(
        &mut self,
        alloc: Global,
        array: Handle,
    ) -> Result<Elements<E>, Fault>
        ensures { Self.made self.old self.new (told_by (map E.word_of) (for_get_array_elements E.KIND array.0)) result }
    {
        let element = PhantomData;
        self.make(GetArrayElements {
            alloc,
            array,
            element,
        })
    }

    /// Copies all UTF-16 units of a string, one after the other, rising. (JNI Specification, chapter 4, "GetStringChars")
    ///
    /// # Errors
    ///
    /// Those of a handle to an object;
    /// E4 where it is to no string; E16 where the memory for them was refused.
    ///
    /// No unit is read then, and nothing has changed.
    ///
    /// # Operations
    ///
    /// At most 2, and one for each unit: a look at the slot of a global or weak handle, one at the string's header, and a load for each unit.
    fn get_string_chars(&mut self, alloc: Global, string: Handle) -> Result<Vec<u16>, Fault>
        ensures { Self.made self.old self.new (told_by (λ units. units.items) (for_get_string_chars string.0)) result }
    {
        self.make(GetStringChars { alloc, string })
    }
}

/// Compares any two handles. It is a function of its own, so that a comparison of two shared ones stays apart from it.
#[inline(never)]
fn compare_any<S: Steps, N: NativeCaller<S>>(
    caller: &mut N,
    left: Handle,
    right: Handle,
) -> Result<bool, Fault>
    ensures { N.made caller.old caller.new (for_is_same_object left.0 right.0) result }
{
    caller.make(IsSameObject(left, right))
}

// (a body in the trait is not written into its callers, and these are to be)
impl<S: Steps, N: NativeCaller<S>> NativeInterface<S> for N {
    #[inline(always)]
    fn new_global_ref(&mut self, handle: Handle) -> Result<Option<Handle>, Fault> {
        self.make(NewGlobalRef(handle))
    }

    #[inline(always)]
    fn new_weak_global_ref(&mut self, handle: Handle) -> Result<Option<Handle>, Fault> {
        self.make(NewWeakGlobalRef(handle))
    }

    #[inline(always)]
    fn new_local_ref(&mut self, handle: Handle) -> Result<Option<Handle>, Fault> {
        self.make(NewLocalRef(handle))
    }

    #[inline(always)]
    fn upgrade_local(&mut self, weak: Handle) -> Result<Option<Handle>, Fault> {
        self.new_local_ref(weak)
    }

    #[inline(always)]
    fn upgrade_global(&mut self, weak: Handle) -> Result<Option<Handle>, Fault> {
        self.new_global_ref(weak)
    }

    #[inline(always)]
    fn delete_global_ref(&mut self, handle: Handle) -> Result<(), Fault> {
        self.make(DeleteGlobalRef(handle))
    }

    #[inline(always)]
    fn delete_weak_global_ref(&mut self, handle: Handle) -> Result<(), Fault> {
        self.make(DeleteWeakGlobalRef(handle))
    }

    #[inline(always)]
    fn delete_local_ref(&mut self, handle: Handle) -> Result<(), Fault> {
        self.make(DeleteLocalRef(handle))
    }

    #[inline(always)]
    fn is_same_object(&mut self, left: Handle, right: Handle) -> Result<bool, Fault> {
        if left.is_shared() && right.is_shared() {
            // (the same, in a place of its own: there the compiler knows how most of the tests end)
            return self.make(IsSameObject(left, right));
        }
        compare_any(self, left, right)
    }

    #[inline(always)]
    fn get_object_ref_type(&mut self, handle: Handle) -> Result<u8, Fault> {
        self.make(GetObjectRefType(handle))
    }

    #[inline(always)]
    fn identity_of(&mut self, handle: Handle) -> Result<u16, Fault> {
        self.make(IdentityOf(handle))
    }

    #[inline(always)]
    fn kind_of(&mut self, handle: Handle) -> Result<Kind, Fault> {
        self.make(KindOf(handle))
    }

    #[inline(always)]
    fn get_array_length(&mut self, array: Handle) -> Result<u32, Fault> {
        self.make(GetArrayLength(array))
    }

    #[inline(always)]
    fn get_string_length(&mut self, string: Handle) -> Result<u32, Fault> {
        self.make(GetStringLength(string))
    }

    #[inline(always)]
    fn get_object_array_element(
        &mut self,
        array: Handle,
        index: u32,
    ) -> Result<Option<Handle>, Fault> {
        self.make(GetObjectArrayElement(array, index))
    }

    #[inline(always)]
    fn set_object_array_element(
        &mut self,
        array: Handle,
        index: u32,
        value: Handle,
    ) -> Result<(), Fault> {
        self.make(SetObjectArrayElement(array, index, value))
    }
}
