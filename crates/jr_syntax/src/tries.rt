//! How often a command may try.

ghost use Rattle.std.specs.Prelude.{◌≡◌, true, ◌≤◌};
ghost use Rattle.jr_syntax.specs.Count.{most_count, is_tries};

use std::marker::Model;

/// How often a command may try: 1 to 16,777,215.
#[derive(Clone, Copy, Debug, PartialEq, Eq)]
pub struct Tries {
    count: u32,
}

impl Model for Tries {
    ghost use Rattle.std.specs.Prelude.{◌≡◌, true, ℕ};
    ghost use Rattle.jr_syntax.specs.Count.{is_tries};

    ghost Value = { ℕ };

    ghost view = { λ t. t.count };

    ghost invariant = { λ t. is_tries t.count ≡ true };

    ghost inverse = { λ n. record { count = n } };
}

impl Tries {
    /// So many tries.
    pub fn new(count: u32) -> Tries
        requires { is_tries count ≡ true }
        ensures { result ≡ count }
    {
        Tries { count }
    }

    /// How many they are.
    pub fn count(self) -> u32
        ensures count { result ≡ self }
        ensures some { 1 ≤ result }
        ensures few { result ≤ most_count }
    {
        self.count
    }
}
