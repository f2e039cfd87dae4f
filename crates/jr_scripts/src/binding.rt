//! What a name of a script stands for.

ghost use Rattle.std.specs.Prelude.{◌≡◌, OnOk, Ok, Err, IfErr, MatchResult};
ghost use Rattle.jr_scripts.specs.Names.{buffer_in, getting, putting, reference_in, wanted, word_of_reference};

use crate::buffer::Buffer;
use jr_word::{Fault, Handle};

/// What a name stands for.
#[derive(Drop)]
pub enum Binding {
    /// For nothing, as once its buffer was freed.
    Nothing,
    /// For a reference.
    Reference(Handle),
    /// For copied elements.
    Buffer(Buffer),
}

impl Binding {
    /// The reference that stands there, none where nothing stands.
    ///
    /// # Errors
    ///
    /// E4 where a buffer stands there.
    pub fn reference(&self) -> Result<Option<Handle>, Fault>
        ensures { result ≡ reference_in self.now }
    {
        match self {
            Binding::Nothing => Ok(None),
            Binding::Reference(handle) => Ok(Some(*handle)),
            Binding::Buffer(_) => Err(Fault::WrongKind),
        }
    }

    /// The reference that is wanted there.
    ///
    /// # Errors
    ///
    /// E2 where nothing stands there, E4 where a buffer does.
    pub fn wanted(&self) -> Result<Handle, Fault>
        ensures { result ≡ wanted self.now }
    {
        match self {
            Binding::Nothing => Err(Fault::Stale),
            Binding::Reference(handle) => Ok(*handle),
            Binding::Buffer(_) => Err(Fault::WrongKind),
        }
    }

    /// The word of the reference that stands there, 0 where none does.
    pub fn word(&self) -> u64
        ensures { result ≡ word_of_reference self.now }
    {
        match self {
            Binding::Reference(handle) => handle.0,
            _ => 0,
        }
    }

    /// The buffer that is wanted there.
    ///
    /// # Errors
    ///
    /// E2 where nothing stands there, E4 where a reference does.
    pub fn buffer(&self) -> Result<&Buffer, Fault>
        ensures { MatchResult result (λ buffer. buffer_in self.now ≡ Ok buffer.now) (λ e. buffer_in self.now ≡ Err e) }
    {
        match self {
            Binding::Nothing => Err(Fault::Stale),
            Binding::Reference(_) => Err(Fault::WrongKind),
            Binding::Buffer(buffer) => Ok(buffer),
        }
    }

    /// The number at an index of the buffer that stands there.
    ///
    /// # Errors
    ///
    /// E2 where nothing stands there, E4 where a reference does, and E7 past the buffer's end.
    pub fn get(&self, index: u32) -> Result<i64, Fault>
        ensures { result ≡ getting index self.now }
    {
        match self {
            Binding::Nothing => Err(Fault::Stale),
            Binding::Reference(_) => Err(Fault::WrongKind),
            Binding::Buffer(buffer) => buffer.get(index),
        }
    }

    /// Makes a number the element at an index of the buffer that stands there.
    ///
    /// # Errors
    ///
    /// E2 where nothing stands there, E4 where a reference does, and the buffer's own: what stands there is as it was.
    pub fn put(&mut self, index: u32, number: i64) -> Result<(), Fault>
        ensures ok { OnOk result (putting index number self.old ≡ Ok self.new) }
        ensures err { IfErr result (λ e. (putting index number self.old ≡ Err e) × (self.new ≡ self.old)) }
    {
        match self {
            Binding::Nothing => Err(Fault::Stale),
            Binding::Reference(_) => Err(Fault::WrongKind),
            Binding::Buffer(buffer) => buffer.put(index, number),
        }
    }
}
