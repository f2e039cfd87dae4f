//! The first line of a script.

ghost use Rattle.std.specs.Prelude.{◌≡◌, true, false, IfNone, IfSome, MatchOption, ◌∷◌};
ghost use Rattle.jr_syntax.specs.Kind.{reading, Reads};
ghost use Rattle.jr_syntax.specs.Number.{is_number as number_word};
ghost use Rattle.jr_syntax.specs.Script.{is_pair, vm};
ghost use Rattle.jr_syntax.specs.VmLine.{vm_words, AreNumbers};

use crate::argument::LineError;
use crate::number::{is_number, number_up_to};
use crate::word::LineWords;
use jr_word::Config;

/// Reads a key and a number.
fn pair<'a>(words: &mut LineWords<'a>, key: &[u8]) -> Option<&'a [u8]>
    ensures none { IfNone result (is_pair key.now words.old ≡ false) }
    ensures some { IfSome result (λ n. (words.old ≡ key.now ∷ n.now ∷ words.new) × (number_word n.now ≡ true)) }
{
    let word = words.next()?;
    let number = words.next()?;
    if word == key && is_number(number) {
        Some(number)
    } else {
        None
    }
}

/// The words of the sizes.
#[derive(Clone, Copy)]
struct SizeWords<'a> {
    threads: &'a [u8],
    slots: &'a [u8],
    objects: &'a [u8],
    words: &'a [u8],
    locals: &'a [u8],
}

/// The words of the sizes, where words have the form of a first line.
fn size_words<'a>(mut words: LineWords<'a>) -> Option<SizeWords<'a>>
    ensures none { IfNone result (vm.has_form words.entry ≡ false) }
    ensures some { IfSome result (λ s. words.entry ≡ vm_words s.threads.now s.slots.now s.objects.now s.words.now s.locals.now) }
    ensures numbers { IfSome result (λ s. AreNumbers s.threads.now s.slots.now s.objects.now s.words.now s.locals.now) }
{
    let first = words.next()?;
    if first != b"vm".as_slice() {
        return None;
    }
    let sizes = SizeWords {
        threads: pair(&mut words, b"threads")?,
        slots: pair(&mut words, b"slots")?,
        objects: pair(&mut words, b"objects")?,
        words: pair(&mut words, b"words")?,
        locals: pair(&mut words, b"locals")?,
    };
    if words.next().is_some() {
        return None;
    }
    Some(sizes)
}

/// The sizes that such words say, where each is a number of at most 32 bits.
fn sizes(words: &SizeWords) -> Option<Config>
    requires { AreNumbers words.now.threads.now words.now.slots.now words.now.objects.now words.now.words.now words.now.locals.now }
    ensures { let ws = vm_words words.now.threads.now words.now.slots.now words.now.objects.now words.now.words.now words.now.locals.now in
        MatchOption result (vm.in_range ws ≡ false) (λ c. c ≡ vm.value ws) }
{
    Some(Config {
        threads: number_up_to(words.threads, u32::MAX)?,
        slots: number_up_to(words.slots, u32::MAX)?,
        objects: number_up_to(words.objects, u32::MAX)?,
        words: number_up_to(words.words, u32::MAX)?,
        locals: number_up_to(words.locals, u32::MAX)?,
    })
}

/// The sizes that the words of the first line say.
pub fn config_of(words: LineWords) -> Result<Config, LineError>
    ensures { Reads (reading vm) words.entry result }
{
    let Some(words) = size_words(words) else {
        return Err(LineError::Form);
    };
    let Some(config) = sizes(&words) else {
        return Err(LineError::Range);
    };
    if !config.in_limits() {
        return Err(LineError::Range);
    }
    Ok(config)
}
