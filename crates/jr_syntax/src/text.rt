//! A name with units behind it, as the line of a string has them.

ghost use Rattle.std.specs.Prelude.{◌≡◌, ◌∷◌, ◌++◌, OnOk};
ghost use Rattle.std.specs.List.{flat_map};
ghost use Rattle.jr_syntax.specs.Kind.{reading, Reads, before, name as name_word};
ghost use Rattle.jr_syntax.specs.Line.{line};
ghost use Rattle.jr_syntax.specs.Units.{unit as unit_word, units as unit_words};

use crate::argument::{Argument, LineError, put_one};
use crate::name::{Name, is_name};
use crate::units::Units;
use crate::word::LineWords;
use std::alloc::AllocError;

/// Reads words that are units.
fn units_of(mut words: LineWords) -> Result<Units, LineError>
    ensures { Reads (reading unit_words) words.entry result }
{
    let mut units = Units::new();
    let mut in_range = true;
    while let Some(word) = words.next() {
        if units.is_full() || !u16::has_form(word) {
            return Err(LineError::Form);
        }
        let unit = u16::read(word);
        in_range = in_range && unit.is_some();
        units.push(unit.unwrap_or(0));
    }
    if in_range {
        Ok(units)
    } else {
        Err(LineError::Range)
    }
}

/// Reads words that are a name and units.
pub fn named_units(mut words: LineWords) -> Result<(Name, Units), LineError>
    ensures { Reads (reading (before name_word unit_words)) words.entry result }
{
    let Some(word) = words.next() else {
        return Err(LineError::Form);
    };
    if !is_name(word) {
        return Err(LineError::Form);
    }
    let units = units_of(words)?;
    Ok((Name::new(word), units))
}

/// Writes units, a space before each.
fn put_units(out: &mut Vec<u8>, units: &[u16]) -> Result<(), AllocError>
    ensures { OnOk result (out.new.items ≡ out.old.items ++ flat_map (λ u. 32 ∷ unit_word.spell u) units.now) }
{
    for unit in units {
        out.push(b' ')?;
        unit.put(out)?;
    }
    Ok(())
}

/// Writes a word, and a name and units behind it.
pub fn put_named_units(
    out: &mut Vec<u8>,
    word: &[u8],
    name: &Name,
    units: &Units,
) -> Result<(), AllocError>
    ensures { OnOk result (out.new.items ≡ out.old.items ++ line (word.now ∷ (before name_word unit_words).spell (name.now, units.now))) }
{
    put_one(out, word, name)?;
    put_units(out, units.as_slice())?;
    Ok(())
}
