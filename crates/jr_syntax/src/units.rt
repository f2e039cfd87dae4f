//! Units of strings.

ghost use Rattle.std.specs.Prelude.{◌≡◌, ◌++◌, ◌∷◌, [], ◌<◌, ◌≤◌, length, nat_le};

use std::marker::Model;

/// How many units a string of a script may have.
const MOST_UNITS: usize = 64;

/// Units in order, at most 64, each 0 to 65,535; they take no memory.
#[derive(Debug, Drop)]
pub struct Units {
    units: [u16; 64],
    len: usize,
}

impl Model for Units {
    ghost use Rattle.std.specs.Prelude.{List, ℕ, take};
    ghost use Rattle.jr_syntax.specs.Units.{AreKept};

    ghost Value = { List ℕ };

    ghost view = { λ u. take u.len u.units };

    ghost invariant = { λ u. AreKept u.units u.len };
}

impl Units {
    ghost use Rattle.jr_syntax.specs.Units.{most_units};

    /// No units.
    pub fn new() -> Units
        ensures { result ≡ [] }
    {
        Units {
            units: [0; 64],
            len: 0,
        }
    }

    /// The units.
    pub fn as_slice(&self) -> &[u16]
        ensures units { result.now ≡ self.now }
        ensures few { length self.now ≤ most_units }
    {
        &self.units[..self.len]
    }

    /// Whether there are 64.
    pub fn is_full(&self) -> bool
        ensures { result ≡ nat_le most_units (length self.now) }
    {
        self.len >= MOST_UNITS
    }

    /// Adds a unit at the end.
    pub fn push(&mut self, unit: u16)
        requires { length self.old < most_units }
        ensures { self.new ≡ self.old ++ unit ∷ [] }
    {
        self.units[self.len] = unit;
        self.len += 1;
    }
}

impl PartialEq for Units {
    ghost use Rattle.std.proofs.Common.{rules};
    ghost use Rattle.std.specs.Str.{bytes_eq};
    ghost use Rattle.std.specs.Cmp.Rules.{comparing};

    ghost eq = { λ a b. bytes_eq a b };

    ghost laws = { Prim.search (comparing, rules) };

    fn eq(&self, other: &Units) -> bool {
        self.as_slice() == other.as_slice()
    }
}

impl Eq for Units {
    ghost use Rattle.std.proofs.Common.{rules};
    ghost use Rattle.std.specs.Cmp.Rules.{comparing};

    ghost laws = { Prim.search (comparing, rules) };
}
