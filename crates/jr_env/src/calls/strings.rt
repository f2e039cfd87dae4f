//! The calls of the Java Native Interface for strings, over any steps, and strings of the machine from a text of Rust's and back.
ghost use Rattle.std.specs.Prelude.{◌≡◌, length, IfOk};
ghost use Rattle.jr_word.specs.declared.handle.RefKind.TheVariants.{Local};
ghost use Rattle.jr_word.specs.declared.kind.Kind.TheVariants.{Text};
ghost use Rattle.jr_model.specs.declared.event.Role.TheVariants.{Within};
ghost use Rattle.jr_steps.specs.Knowing.{anything};
ghost use Rattle.jr_frames.specs.Ready.{StandsReady, KeepsOwner};
ghost use Rattle.jr_env.specs.Works.{MakesArray};

use crate::calls::objects::refer;
use crate::demand::Demand;
use crate::env::Env;
use crate::native_call::{Handed, NativeCall};
use crate::native_interface::NativeInterface;
use jr_elements::{read_all, text_of, utf16_of};
use jr_frames::{Frames, Reference, find};
use jr_gate::Inside;
use jr_heap::{Numbers, fill_from, is_text, reserve};
use jr_steps::Steps;
use jr_word::{Fault, Handle, HandleParts, Kind};
use std::alloc::Global;

impl<S: Steps> Env<S> {
    ghost use Rattle.jr_env.specs.Texts.{MakesText, ReadsText, text_in};

    /// Makes a string of a text, in UTF-16, and a local reference to it. (JNI Specification, chapter 4, "NewString")
    ///
    /// # Errors
    ///
    /// E16 where the memory for the units was refused, of which an empty text needs none; that of the gate; E9 where no local place is free; those of space.
    ///
    /// Nothing has changed then, and the thread stands outside; but after E11 the words of the string stay reserved until the next collection.
    ///
    /// # Operations
    ///
    /// Those of `new_string`.
    pub fn new_string_of(&mut self, alloc: Global, text: &str) -> Result<Handle, Fault>
        ensures { MakesText self.old self.new text.now result }
    {
        let units = utf16_of(alloc, text)?;
        self.new_string(&units)
    }

    /// Reads a string as a text. None where a surrogate among its units has no partner, since no text of Rust's has one. (JNI Specification, chapter 4, "GetStringChars")
    ///
    /// # Errors
    ///
    /// That of the gate; those of a handle to an object; E4 where it is to no string; E16 where the memory for the units or the text was refused, of which an empty string needs none.
    ///
    /// Nothing has changed then, and the thread stands outside.
    ///
    /// # Operations
    ///
    /// Those of `get_string_chars`.
    pub fn string_of(&mut self, alloc: Global, string: Handle) -> Result<Option<String>, Fault>
        ensures { ReadsText self.old self.new string.0 (text_in result) }
    {
        let units = self.get_string_chars(alloc, string)?;
        text_of(alloc, &units)
    }
}

/// A string of these units, and a local reference to it.
#[derive(Clone, Copy)]
pub struct NewString<'a>(pub &'a [u16]);

impl<S: Steps> NativeCall<S> for NewString<'_> {
    ghost use Rattle.jr_env.specs.Requests.{for_new_string};

    type Answer = Handle;

    ghost request = { λ c. for_new_string c.0.now };

    #[inline(always)]
    fn name(&self) -> &'static str {
        "NewString"
    }

    #[inline(always)]
    fn handed(&self) -> Handed {
        Handed::Nothing
    }

    #[inline(always)]
    fn demand(&self) -> Demand {
        Demand::Object(count(self.0))
    }

    #[inline(always)]
    fn work(
        self,
        steps: &mut S,
        _inside: &Inside,
        frames: &mut Frames,
        numbers: &mut Numbers,
    ) -> Result<Handle, Fault> {
        let made = make_string(steps, frames, numbers, self.0)?;
        Ok(Handle::pack(made))
    }
}

/// How many units a string has.
#[derive(Clone, Copy)]
pub struct GetStringLength(pub Handle);

impl<S: Steps> NativeCall<S> for GetStringLength {
    ghost use Rattle.jr_env.specs.Requests.{for_get_string_length};

    type Answer = u32;

    ghost request = { λ c. for_get_string_length c.0.0 };

    #[inline(always)]
    fn name(&self) -> &'static str {
        "GetStringLength"
    }

    #[inline(always)]
    fn handed(&self) -> Handed {
        Handed::One(self.0)
    }

    #[inline(always)]
    fn demand(&self) -> Demand {
        Demand::Nothing
    }

    #[inline(always)]
    fn work(
        self,
        steps: &mut S,
        inside: &Inside,
        frames: &mut Frames,
        _numbers: &mut Numbers,
    ) -> Result<u32, Fault> {
        let target = Reference::of(self.0);
        let (_, header) = find(steps, inside, frames, target)?;
        if !is_text(header.kind) {
            return Err(Fault::WrongKind);
        }
        Ok(header.length)
    }
}

/// A copy of all units of a string.
#[derive(Clone, Copy)]
pub struct GetStringChars {
    /// What the memory is taken from.
    pub alloc: Global,
    /// The string.
    pub string: Handle,
}

impl<S: Steps> NativeCall<S> for GetStringChars {
    ghost use Rattle.jr_env.specs.Requests.{for_get_string_chars, told_by};

    type Answer = Vec<u16>;

    ghost request = { λ c. told_by (λ units. units.items) (for_get_string_chars c.string.0) };

    #[inline(always)]
    fn name(&self) -> &'static str {
        "GetStringChars"
    }

    #[inline(always)]
    fn handed(&self) -> Handed {
        Handed::One(self.string)
    }

    #[inline(always)]
    fn demand(&self) -> Demand {
        Demand::Nothing
    }

    #[inline(always)]
    fn work(
        self,
        steps: &mut S,
        inside: &Inside,
        frames: &mut Frames,
        _numbers: &mut Numbers,
    ) -> Result<Vec<u16>, Fault> {
        let string = Reference::of(self.string);
        let (object, header) = find(steps, inside, frames, string)?;
        if !is_text(header.kind) {
            return Err(Fault::WrongKind);
        }
        read_all(self.alloc, steps, object, header)
    }
}

/// How many units there are.
fn count(units: &[u16]) -> u64
    ensures { result ≡ length units.now }
{
    units.len() as u64
}

/// Makes a string of these units, and a local reference to it.
fn make_string<S: Steps>(
    steps: &mut S,
    frames: &mut Frames,
    numbers: &mut Numbers,
    units: &[u16],
) -> Result<HandleParts, Fault>
    requires ready { StandsReady S.facts Within steps.old frames.old }
    ensures call { MakesArray S.facts steps.old steps.new frames.old.frames frames.new.frames Text units.now anything result }
    ensures same { KeepsOwner frames.old frames.new }
    ensures given { IfOk result (λ h. (h.kind ≡ Local) × (h.owner ≡ (S.facts steps.old).stands.thread)) }
{
    let Some(handle) = frames.next() else {
        return Err(Fault::LocalsFull);
    };
    let range = reserve(steps, count(units))?;
    fill_from(steps, &range, units);
    refer(steps, frames, numbers, handle, Kind::Text, range)
}
