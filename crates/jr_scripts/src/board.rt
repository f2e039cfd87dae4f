//! What the threads of a script post to each other, by name.

use crate::sighting::Posted;
use jr_steps::Steps;
use jr_syntax::{Command, Name, OnName};
use std::alloc::{AllocError, Global};
use std::collections::BTreeMap;
use std::sync::OnceLock;

/// Where a thread posts words under names, and looks for those that were posted. What a board tells, once it does, it tells from then on.
pub trait Board<S: Steps> {
    ghost use Rattle.std.specs.Prelude.{ℕ, List, Option};
    ghost use Rattle.jr_scripts.specs.Layouts.{Layout};
    ghost use Rattle.jr_scripts.specs.Posting.{Account, Follows, HasLookedFor, HasPosted, Keeps, ThreadWords, words_found, words_with};

    /// How the board is laid out, which nothing changes.
    ghost layout: { Self → Layout };

    /// Whom the board serves, and which words were posted there and heard of, with what had been seen.
    ghost tells: { Self → Account };

    /// The thread of the board has these words, which it posted and heard there.
    ghost follows: { Self → ThreadWords → Type 0 };

    /// A look for this name found this, and left the board so.
    ghost looked: { Self → List ℕ → Option ℕ → Self → Type 0 };

    /// Posts a word under a name, with what its thread has seen. The thread's steps stay as they were.
    ///
    /// # Operations
    ///
    /// None that a clause counts.
    fn post(&mut self, steps: &mut S, name: &Name, word: u64)
        requires { (tells self.old).serves (S.facts steps.old).stands.room }
        ensures posted { (words : ThreadWords) → follows self.old words → HasPosted S.facts steps.old steps.new (tells self.new) words name.now word }
        ensures follows { Follows follows self.old self.new (λ words. words_with words name.now word) }
        ensures kept { Keeps layout tells self.old self.new };

    /// The word that was posted under a name, if one is seen: then the thread learns what was told with it.
    ///
    /// # Operations
    ///
    /// At most one where it finds a word, and else none.
    fn look(&mut self, steps: &mut S, name: &Name) -> Option<u64>
        requires { (tells self.old).serves (S.facts steps.old).stands.room }
        ensures found { HasLookedFor S.facts steps.old steps.new (tells self.new) name.now result }
        ensures follows { Follows follows self.old self.new (words_found name.now result) }
        ensures once { looked self.old name.now result self.new }
        ensures kept { Keeps layout tells self.old self.new };
}

/// A board with a cell for each name that may be posted, which is written once: the first word that is posted under a name stays, with what is told there. No thread waits for another there.
#[derive(Drop)]
pub struct Posts<T> {
    pub(crate) numbers: BTreeMap<Name, usize>,
    pub(crate) cells: Vec<OnceLock<Posted<T>>>,
}

impl<T: Drop> Posts<T> {
    ghost use Rattle.std.specs.Prelude.{◌≡◌, ◌<◌, ◌∷◌, [], Some, IfSome, OnOk, length};
    ghost use Rattle.jr_scripts.specs.Layouts.{cell_number};
    ghost use Rattle.jr_scripts.specs.PostedNames.{AddsPosted};

    /// A board without names; takes no memory.
    pub fn new(alloc: Global) -> Posts<T>
        ensures { result.numbers.entries ≡ [] }
    {
        Posts {
            numbers: BTreeMap::new(alloc),
            cells: Vec::new(alloc),
        }
    }

    /// Lets the names be posted that commands post.
    ///
    /// # Errors
    ///
    /// Memory was refused.
    pub fn add(&mut self, commands: &[Command]) -> Result<(), AllocError>
        ensures { OnOk result (AddsPosted commands.now self.old.numbers.entries self.new.numbers.entries) }
    {
        for command in commands {
            self.add_command(command)?;
        }
        Ok(())
    }

    /// The same, of one command.
    fn add_command(&mut self, command: &Command) -> Result<(), AllocError>
        ensures { OnOk result (AddsPosted (command.now ∷ []) self.old.numbers.entries self.new.numbers.entries) }
    {
        if let Command::OnName {
            verb: OnName::Post,
            name,
        } = command
        {
            let number = self.cells.len();
            self.cells.push(OnceLock::new())?;
            self.numbers.insert(name.copy(), number)?;
        }
        Ok(())
    }

    /// The number of the cell of a name, if it has one.
    pub(crate) fn number(&self, name: &Name) -> Option<usize>
        ensures { IfSome result (λ i. (cell_number self.now.numbers.entries name.now ≡ Some i) × (i < length self.now.cells.items)) }
    {
        let number = *self.numbers.get(name)?;
        if number < self.cells.len() {
            Some(number)
        } else {
            None
        }
    }
}
