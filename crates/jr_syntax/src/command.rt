//! Commands, and the lines that they are.

ghost use Rattle.std.specs.Prelude.{◌≡◌, ◌∷◌, ◌++◌, true, OnOk};
ghost use Rattle.jr_syntax.specs.Kind.{Reads};
ghost use Rattle.jr_syntax.specs.Line.{line};
ghost use Rattle.jr_syntax.specs.declared.verb.Verb.TheVariants as with;
ghost use Rattle.jr_syntax.specs.Command.{behind_verb, spelling_of, words_of_command, ReadsLine};
ghost use Rattle.jr_syntax.specs.Printing.{has_three_arguments, arguments_of};

use crate::argument::{LineError, none, one, put_none, put_one, put_three, put_two, three, two};
use crate::name::{Name, Reference};
use crate::text::{named_units, put_named_units};
use crate::tries::Tries;
use crate::units::Units;
use crate::verb::{
    CloseLevel, Make, MakeAt, MakeFilled, MakeFrom, MakeSized, MakeText, OfRoom, On, OnAt, OnBoth,
    OnName, OnNameAt, OpenLevel, PutAt, Release, SetAt, StoreAt, Verb, WithCount, WithTries,
};
use crate::word::LineWords;
use jr_model::Mode;
use std::alloc::AllocError;

/// A command of a thread: a verb, and the arguments of its shape.
#[derive(Debug, Drop, PartialEq, Eq)]
pub enum Command {
    /// `VERB N`: makes something that the name then stands for.
    Make {
        verb: Make,
        name: Name,
    },
    /// `VERB N REF`: makes something from what a reference names, for which the name then stands.
    MakeFrom {
        verb: MakeFrom,
        name: Name,
        target: Reference,
    },
    /// `VERB REF`: is about one reference.
    On {
        verb: On,
        target: Reference,
    },
    /// `VERB REF REF`: is about two references.
    OnBoth {
        verb: OnBoth,
        left: Reference,
        right: Reference,
    },
    /// `VERB N`: is about what a name stands for, and sets no name.
    OnName {
        verb: OnName,
        name: Name,
    },
    /// `VERB K`: is about so many local references; 0 to 16,777,215.
    WithCount {
        verb: WithCount,
        count: u32,
    },
    /// `VERB N LEN`: makes an array of a length, for which the name then stands; 0 to 16,777,215.
    MakeSized {
        verb: MakeSized,
        name: Name,
        length: u32,
    },
    /// `VERB N LEN REF`: makes an array of a length, each element what a reference names.
    MakeFilled {
        verb: MakeFilled,
        name: Name,
        length: u32,
        target: Reference,
    },
    /// `VERB N UNIT ..`: makes something of units, for which the name then stands.
    MakeText {
        verb: MakeText,
        name: Name,
        units: Units,
    },
    /// `VERB N REF I`: makes something from an element, for which the name then stands; index 0 to 16,777,215.
    MakeAt {
        verb: MakeAt,
        name: Name,
        target: Reference,
        index: u32,
    },
    /// `VERB REF I`: is about an element.
    OnAt {
        verb: OnAt,
        target: Reference,
        index: u32,
    },
    /// `VERB REF I REF`: makes what a reference names an element.
    SetAt {
        verb: SetAt,
        target: Reference,
        index: u32,
        value: Reference,
    },
    /// `VERB REF I VALUE`: makes a value an element.
    StoreAt {
        verb: StoreAt,
        target: Reference,
        index: u32,
        value: i64,
    },
    /// `VERB N I`: is about an element of what a name stands for, and sets no name; index 0 to 16,777,215.
    OnNameAt {
        verb: OnNameAt,
        name: Name,
        index: u32,
    },
    /// `VERB N I VALUE`: makes a value an element of what a name stands for.
    PutAt {
        verb: PutAt,
        name: Name,
        index: u32,
        value: i64,
    },
    /// `VERB N REF MODE`: hands what a name stands for back to what a reference names.
    Release {
        verb: Release,
        name: Name,
        target: Reference,
        mode: Mode,
    },
    /// `VERB N REF`: opens a level of a critical region at what a reference names, for which the name then stands among levels.
    OpenLevel {
        verb: OpenLevel,
        name: Name,
        target: Reference,
    },
    /// `VERB MODE`: ends a level of a critical region.
    CloseLevel {
        verb: CloseLevel,
        mode: Mode,
    },
    /// `VERB`: is about the room as a whole.
    OfRoom {
        verb: OfRoom,
    },
    /// `VERB K`: is about the room as a whole, and may try so often; 1 to 16,777,215.
    WithTries {
        verb: WithTries,
        tries: Tries,
    },
}

impl Command {
    /// The command that a verb and the words behind it are.
    #[tactic(auto, unfolding(crate::specs::Command::behind_verb))]
    fn read(verb: Verb, words: LineWords) -> Result<Command, LineError>
        ensures { Reads (behind_verb verb) words.entry result }
    {
        match verb {
            Verb::Make(verb) => {
                let name = one(words)?;
                Ok(Command::Make { verb, name })
            }
            Verb::MakeFrom(verb) => {
                let (name, target) = two(words)?;
                Ok(Command::MakeFrom { verb, name, target })
            }
            Verb::On(verb) => {
                let target = one(words)?;
                Ok(Command::On { verb, target })
            }
            Verb::OnBoth(verb) => {
                let (left, right) = two(words)?;
                Ok(Command::OnBoth { verb, left, right })
            }
            Verb::OnName(verb) => {
                let name = one(words)?;
                Ok(Command::OnName { verb, name })
            }
            Verb::WithCount(verb) => {
                let count = one(words)?;
                Ok(Command::WithCount { verb, count })
            }
            Verb::MakeSized(verb) => Command::read_sized(verb, words),
            Verb::MakeFilled(verb) => Command::read_filled(verb, words),
            Verb::MakeText(verb) => Command::read_text(verb, words),
            Verb::MakeAt(verb) => Command::read_made_at(verb, words),
            Verb::OnAt(verb) => Command::read_at(verb, words),
            Verb::SetAt(verb) => Command::read_set(verb, words),
            Verb::StoreAt(verb) => Command::read_stored(verb, words),
            Verb::OnNameAt(verb) => Command::read_name_at(verb, words),
            Verb::PutAt(verb) => Command::read_put(verb, words),
            Verb::Release(verb) => Command::read_release(verb, words),
            Verb::OpenLevel(verb) => Command::read_opening(verb, words),
            Verb::CloseLevel(verb) => Command::read_closing(verb, words),
            Verb::OfRoom(verb) => Command::read_of_room(verb, words),
            Verb::WithTries(verb) => Command::read_with_tries(verb, words),
        }
    }

    #[tactic(auto, unfolding(crate::specs::Command::behind_verb))]
    fn read_sized(verb: MakeSized, words: LineWords) -> Result<Command, LineError>
        ensures { Reads (behind_verb (with.MakeSized verb)) words.entry result }
    {
        let (name, length) = two(words)?;
        Ok(Command::MakeSized { verb, name, length })
    }

    #[tactic(auto, unfolding(crate::specs::Command::behind_verb))]
    fn read_filled(verb: MakeFilled, words: LineWords) -> Result<Command, LineError>
        ensures { Reads (behind_verb (with.MakeFilled verb)) words.entry result }
    {
        let (name, length, target) = three(words)?;
        Ok(Command::MakeFilled {
            verb,
            name,
            length,
            target,
        })
    }

    #[tactic(auto, unfolding(crate::specs::Command::behind_verb))]
    fn read_text(verb: MakeText, words: LineWords) -> Result<Command, LineError>
        ensures { Reads (behind_verb (with.MakeText verb)) words.entry result }
    {
        let (name, units) = named_units(words)?;
        Ok(Command::MakeText { verb, name, units })
    }

    #[tactic(auto, unfolding(crate::specs::Command::behind_verb))]
    fn read_made_at(verb: MakeAt, words: LineWords) -> Result<Command, LineError>
        ensures { Reads (behind_verb (with.MakeAt verb)) words.entry result }
    {
        let (name, target, index) = three(words)?;
        Ok(Command::MakeAt {
            verb,
            name,
            target,
            index,
        })
    }

    #[tactic(auto, unfolding(crate::specs::Command::behind_verb))]
    fn read_at(verb: OnAt, words: LineWords) -> Result<Command, LineError>
        ensures { Reads (behind_verb (with.OnAt verb)) words.entry result }
    {
        let (target, index) = two(words)?;
        Ok(Command::OnAt {
            verb,
            target,
            index,
        })
    }

    #[tactic(auto, unfolding(crate::specs::Command::behind_verb))]
    fn read_set(verb: SetAt, words: LineWords) -> Result<Command, LineError>
        ensures { Reads (behind_verb (with.SetAt verb)) words.entry result }
    {
        let (target, index, value) = three(words)?;
        Ok(Command::SetAt {
            verb,
            target,
            index,
            value,
        })
    }

    #[tactic(auto, unfolding(crate::specs::Command::behind_verb))]
    fn read_stored(verb: StoreAt, words: LineWords) -> Result<Command, LineError>
        ensures { Reads (behind_verb (with.StoreAt verb)) words.entry result }
    {
        let (target, index, value) = three(words)?;
        Ok(Command::StoreAt {
            verb,
            target,
            index,
            value,
        })
    }

    #[tactic(auto, unfolding(crate::specs::Command::behind_verb))]
    fn read_name_at(verb: OnNameAt, words: LineWords) -> Result<Command, LineError>
        ensures { Reads (behind_verb (with.OnNameAt verb)) words.entry result }
    {
        let (name, index) = two(words)?;
        Ok(Command::OnNameAt { verb, name, index })
    }

    #[tactic(auto, unfolding(crate::specs::Command::behind_verb))]
    fn read_put(verb: PutAt, words: LineWords) -> Result<Command, LineError>
        ensures { Reads (behind_verb (with.PutAt verb)) words.entry result }
    {
        let (name, index, value) = three(words)?;
        Ok(Command::PutAt {
            verb,
            name,
            index,
            value,
        })
    }

    #[tactic(auto, unfolding(crate::specs::Command::behind_verb))]
    fn read_release(verb: Release, words: LineWords) -> Result<Command, LineError>
        ensures { Reads (behind_verb (with.Release verb)) words.entry result }
    {
        let (name, target, mode) = three(words)?;
        Ok(Command::Release {
            verb,
            name,
            target,
            mode,
        })
    }

    #[tactic(auto, unfolding(crate::specs::Command::behind_verb))]
    fn read_opening(verb: OpenLevel, words: LineWords) -> Result<Command, LineError>
        ensures { Reads (behind_verb (with.OpenLevel verb)) words.entry result }
    {
        let (name, target) = two(words)?;
        Ok(Command::OpenLevel { verb, name, target })
    }

    #[tactic(auto, unfolding(crate::specs::Command::behind_verb))]
    fn read_closing(verb: CloseLevel, words: LineWords) -> Result<Command, LineError>
        ensures { Reads (behind_verb (with.CloseLevel verb)) words.entry result }
    {
        let mode = one(words)?;
        Ok(Command::CloseLevel { verb, mode })
    }

    #[tactic(auto, unfolding(crate::specs::Command::behind_verb))]
    fn read_of_room(verb: OfRoom, words: LineWords) -> Result<Command, LineError>
        ensures { Reads (behind_verb (with.OfRoom verb)) words.entry result }
    {
        none(words)?;
        Ok(Command::OfRoom { verb })
    }

    #[tactic(auto, unfolding(crate::specs::Command::behind_verb))]
    fn read_with_tries(verb: WithTries, words: LineWords) -> Result<Command, LineError>
        ensures { Reads (behind_verb (with.WithTries verb)) words.entry result }
    {
        let tries = one(words)?;
        Ok(Command::WithTries { verb, tries })
    }

    /// Its verb.
    #[tactic(auto, unfolding(crate::specs::Command::spelling_of))]
    fn verb(&self) -> Verb
        ensures { result ≡ (spelling_of self.now).verb }
    {
        match self {
            Command::Make { verb, .. } => Verb::Make(*verb),
            Command::MakeFrom { verb, .. } => Verb::MakeFrom(*verb),
            Command::On { verb, .. } => Verb::On(*verb),
            Command::OnBoth { verb, .. } => Verb::OnBoth(*verb),
            Command::OnName { verb, .. } => Verb::OnName(*verb),
            Command::WithCount { verb, .. } => Verb::WithCount(*verb),
            Command::MakeSized { verb, .. } => Verb::MakeSized(*verb),
            Command::MakeFilled { verb, .. } => Verb::MakeFilled(*verb),
            Command::MakeText { verb, .. } => Verb::MakeText(*verb),
            Command::MakeAt { verb, .. } => Verb::MakeAt(*verb),
            Command::OnAt { verb, .. } => Verb::OnAt(*verb),
            Command::SetAt { verb, .. } => Verb::SetAt(*verb),
            Command::StoreAt { verb, .. } => Verb::StoreAt(*verb),
            Command::OnNameAt { verb, .. } => Verb::OnNameAt(*verb),
            Command::PutAt { verb, .. } => Verb::PutAt(*verb),
            Command::Release { verb, .. } => Verb::Release(*verb),
            Command::OpenLevel { verb, .. } => Verb::OpenLevel(*verb),
            Command::CloseLevel { verb, .. } => Verb::CloseLevel(*verb),
            Command::OfRoom { verb } => Verb::OfRoom(*verb),
            Command::WithTries { verb, .. } => Verb::WithTries(*verb),
        }
    }

    /// Writes its line, without the line feed.
    #[tactic(auto, unfolding(crate::specs::Command::spelling_of))]
    pub(crate) fn put(&self, out: &mut Vec<u8>) -> Result<(), AllocError>
        ensures { OnOk result (out.new.items ≡ out.old.items ++ line (words_of_command self.now)) }
    {
        let word = self.verb().word();
        match self {
            Command::Make { name, .. } => put_one(out, word, name),
            Command::MakeFrom { name, target, .. } => put_two(out, word, name, target),
            Command::On { target, .. } => put_one(out, word, target),
            Command::OnBoth { left, right, .. } => put_two(out, word, left, right),
            Command::OnName { name, .. } => put_one(out, word, name),
            Command::WithCount { count, .. } => put_one(out, word, count),
            Command::MakeSized { name, length, .. } => put_two(out, word, name, length),
            Command::MakeText { name, units, .. } => put_named_units(out, word, name, units),
            Command::OnAt { target, index, .. } => put_two(out, word, target, index),
            Command::OnNameAt { name, index, .. } => put_two(out, word, name, index),
            Command::OpenLevel { name, target, .. } => put_two(out, word, name, target),
            Command::CloseLevel { mode, .. } => put_one(out, word, mode),
            Command::OfRoom { .. } => put_none(out, word),
            Command::WithTries { tries, .. } => put_one(out, word, tries),
            Command::MakeFilled { .. }
            | Command::MakeAt { .. }
            | Command::SetAt { .. }
            | Command::StoreAt { .. }
            | Command::PutAt { .. }
            | Command::Release { .. } => self.put_longer(out, word),
        }
    }

    /// Writes a word and the three arguments of a command that has three behind it.
    #[tactic(auto, unfolding(crate::specs::Command::spelling_of))]
    fn put_longer(&self, out: &mut Vec<u8>, word: &[u8]) -> Result<(), AllocError>
        requires { has_three_arguments self.now ≡ true }
        ensures { OnOk result (out.new.items ≡ out.old.items ++ line (word.now ∷ arguments_of self.now)) }
    {
        match self {
            Command::MakeFilled {
                name,
                length,
                target,
                ..
            } => put_three(out, word, name, length, target),
            Command::MakeAt {
                name,
                target,
                index,
                ..
            } => put_three(out, word, name, target, index),
            Command::SetAt {
                target,
                index,
                value,
                ..
            } => put_three(out, word, target, index, value),
            Command::StoreAt {
                target,
                index,
                value,
                ..
            } => put_three(out, word, target, index, value),
            Command::PutAt {
                name,
                index,
                value,
                ..
            } => put_three(out, word, name, index, value),
            Command::Release {
                name,
                target,
                mode,
                ..
            } => put_three(out, word, name, target, mode),
            _ => Ok(()),
        }
    }
}

/// The command that a line is.
#[tactic(auto, unfolding(crate::specs::Command::line_has_form, crate::specs::Command::line_in_range, crate::specs::Command::line_command))]
pub fn command_of(mut words: LineWords) -> Result<Command, LineError>
    ensures { ReadsLine words.entry result }
{
    let Some(word) = words.next() else {
        return Err(LineError::Form);
    };
    let Some(verb) = Verb::of(word) else {
        return Err(LineError::Form);
    };
    Command::read(verb, words)
}
