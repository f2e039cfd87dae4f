//! The units of a string, copied out.

ghost use Rattle.std.specs.Prelude.{◌≡◌};

use std::marker::Model;

/// The units of a string. A contract sees them as a list.
#[derive(Drop)]
pub struct CopiedUnits {
    units: Vec<u16>,
}

impl Model for CopiedUnits {
    ghost use Rattle.std.specs.Prelude.{List, ℕ};

    ghost Value = { List ℕ };

    ghost view = { λ u. u.units.items };
}

impl CopiedUnits {
    /// The units that were copied.
    pub fn of(units: Vec<u16>) -> CopiedUnits
        ensures { result ≡ units.items }
    {
        CopiedUnits { units }
    }

    /// The units.
    pub fn as_slice(&self) -> &[u16]
        ensures { result.now ≡ self.now }
    {
        &self.units
    }
}
