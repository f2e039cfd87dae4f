//! What was posted, as a thread knows it.

ghost use Rattle.std.specs.Prelude.{◌≡◌};

use std::sync::OnceToken;

/// What was posted: a word, what was told with it, and its stamp, above the stamps of all that its thread had posted and heard: so that no wait hears what hangs on it.
#[derive(Drop)]
pub(crate) struct Posted<T> {
    pub(crate) word: u64,
    pub(crate) told: T,
    pub(crate) stamp: u64,
}

/// What shows that something stays where a thread posted it, or saw it.
#[derive(Drop)]
pub(crate) struct Sighting<'a, T> {
    pub(crate) token: OnceToken<'a, Posted<T>>,
}

impl<'a, T> Sighting<'a, T> {
    /// Two notes of one cell are of one word, and of what was told with it.
    pub(crate) fn agrees(&self, other: &Sighting<'a, T>)
        requires { self.now.token.of ≡ other.now.token.of }
        ensures { self.now.token.value ≡ other.now.token.value }
    {
        self.token.agrees(&other.token);
    }
}
