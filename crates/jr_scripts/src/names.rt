//! What the names of a thread stand for.

use crate::binding::Binding;
use crate::buffer::Buffer;
use jr_syntax::{Name, Reference};
use jr_word::{Fault, Handle};
use std::alloc::{AllocError, Global};
use std::collections::BTreeMap;
use std::marker::Model;
use std::mem;

/// What the names of a thread stand for: each for a reference, a buffer, or nothing.
#[derive(Drop)]
pub struct Names {
    /// What each name was set to last.
    bindings: BTreeMap<Name, Binding>,
}

impl Model for Names {
    ghost use Rattle.std.specs.Coded.{coded_ℕ, coded_list};
    ghost use Rattle.std.specs.FinMap as map;
    ghost use Rattle.jr_scripts.specs.Names.{Names as NamesView, coded_binding};

    ghost Value = { NamesView };

    ghost coded = { map.code (coded_list coded_ℕ) coded_binding };

    ghost view = { λ n. map.from_entries n.bindings.entries };
}

impl Names {
    ghost use Rattle.std.specs.Prelude.{◌≡◌, Ok, Err, OnOk, OnErr, MatchResult};
    ghost use Rattle.jr_elements.specs.Copies.{answer_in};
    ghost use Rattle.jr_scripts.specs.declared.binding.Binding.TheVariants.{Nothing};
    ghost use Rattle.jr_scripts.specs.Names.{IsSet, buffer_in, getting, names_put, no_names, putting, reference_in, referent, binding, wanted, with_name, word_posted};

    /// No name stands for anything; takes no memory.
    pub fn new(alloc: Global) -> Names
        ensures { result ≡ no_names }
    {
        Names {
            bindings: BTreeMap::new(alloc),
        }
    }

    /// The reference that a name stands for, none where it stands for nothing.
    ///
    /// # Errors
    ///
    /// E4 where it stands for a buffer.
    pub fn reference(&self, name: &Name) -> Result<Option<Handle>, Fault>
        ensures { result ≡ reference_in (binding self.now name.now) }
    {
        match self.bindings.get(name) {
            Some(binding) => binding.reference(),
            None => Ok(None),
        }
    }

    /// The reference that a name is wanted to stand for.
    ///
    /// # Errors
    ///
    /// E2 where it stands for nothing, E4 where it stands for a buffer.
    pub fn handle(&self, name: &Name) -> Result<Handle, Fault>
        ensures { result ≡ wanted (binding self.now name.now) }
    {
        match self.bindings.get(name) {
            Some(binding) => binding.wanted(),
            None => Err(Fault::Stale),
        }
    }

    /// The word of the reference that a name stands for, 0 where it stands for none.
    pub fn word(&self, name: &Name) -> u64
        ensures { result ≡ word_posted self.now name.now }
    {
        match self.bindings.get(name) {
            Some(binding) => binding.word(),
            None => 0,
        }
    }

    /// The buffer that a name is wanted to stand for.
    ///
    /// # Errors
    ///
    /// E2 where it stands for nothing, E4 where it stands for a reference.
    pub fn buffer(&self, name: &Name) -> Result<&Buffer, Fault>
        ensures { MatchResult result (λ buffer. buffer_in (binding self.now name.now) ≡ Ok buffer.now) (λ e. buffer_in (binding self.now name.now) ≡ Err e) }
    {
        match self.bindings.get(name) {
            Some(binding) => binding.buffer(),
            None => Err(Fault::Stale),
        }
    }

    /// The number at an index of the buffer that a name stands for.
    ///
    /// # Errors
    ///
    /// E2 where it stands for nothing, E4 where it stands for a reference, and E7 past the buffer's end.
    pub fn get(&self, name: &Name, index: u32) -> Result<i64, Fault>
        ensures { result ≡ getting index (binding self.now name.now) }
    {
        match self.bindings.get(name) {
            Some(binding) => binding.get(index),
            None => Err(Fault::Stale),
        }
    }

    /// Makes a number the element at an index of the buffer that a name stands for.
    ///
    /// # Errors
    ///
    /// E2 where it stands for nothing, E4 where it stands for a reference, E18 and E7 as the buffer's: the names are as they were.
    pub fn put(&mut self, name: &Name, index: u32, number: i64) -> Result<(), Fault>
        ensures answer { result ≡ answer_in (λ _. tt) (putting index number (binding self.old name.now)) }
        ensures names { self.new ≡ names_put self.old name.now (putting index number (binding self.old name.now)) }
    {
        match self.bindings.get_mut(name) {
            Some(binding) => binding.put(index, number),
            None => Err(Fault::Stale),
        }
    }

    /// What a name stands for is handed out, and the name, if it was set, stands for nothing.
    pub fn take(&mut self, name: &Name) -> Binding
        ensures old { result ≡ binding self.old name.now }
        ensures new { IsSet self.old name.now → self.new ≡ with_name self.old name.now Nothing }
        ensures unset { (IsSet self.old name.now → ⊥) → self.new ≡ self.old }
    {
        match self.bindings.get_mut(name) {
            Some(binding) => mem::replace(binding, Binding::Nothing),
            None => Binding::Nothing,
        }
    }

    /// Sets a name; a buffer that it stood for is freed.
    ///
    /// # Errors
    ///
    /// Memory was refused, as it may be for a name that was never set: the names are as they were.
    pub fn set(&mut self, name: &Name, binding: Binding) -> Result<(), AllocError>
        ensures ok { OnOk result (self.new ≡ with_name self.old name.now binding) }
        ensures err { OnErr result (self.new ≡ self.old) }
        ensures absent { OnErr result (IsSet self.old name.now → ⊥) }
    {
        self.bindings.insert(name.copy(), binding)?;
        Ok(())
    }

    /// The reference that a command refers to, none where nothing stands.
    ///
    /// # Errors
    ///
    /// E4 where a buffer stands.
    pub fn referent(&self, reference: &Reference) -> Result<Option<Handle>, Fault>
        ensures { result ≡ reference_in (referent self.now reference.now) }
    {
        match reference {
            Reference::Null => Ok(Some(Handle::NULL)),
            Reference::Named(name) => self.reference(name),
        }
    }

    /// The reference that a command wants.
    ///
    /// # Errors
    ///
    /// E2 where nothing stands, E4 where a buffer stands.
    pub fn wanted(&self, reference: &Reference) -> Result<Handle, Fault>
        ensures { result ≡ wanted (referent self.now reference.now) }
    {
        match reference {
            Reference::Null => Ok(Handle::NULL),
            Reference::Named(name) => self.handle(name),
        }
    }
}
