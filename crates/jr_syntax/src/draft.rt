//! A script as it is read, line by line.

ghost use Rattle.std.specs.Prelude.{◌≡◌, false, true, OnOk, IfOk, [], nat_le, is_none, length};
ghost use Rattle.std.specs.List.{list_any};
ghost use Rattle.std.specs.Str.{bytes_eq};
ghost use Rattle.jr_syntax.specs.Name.{is_name as name_word};
ghost use Rattle.jr_syntax.specs.Command.{line_command};
ghost use Rattle.jr_syntax.specs.Script.{names_of, posted, posts_of};
ghost use Rattle.jr_syntax.specs.Faults.{share};
ghost use Rattle.jr_syntax.specs.Draft.{Gave, GaveSome, parts_of, ReadsThreadLine, Adds, Grown, rows, command_rows, with_command};

use crate::argument::LineError;
use crate::command::{Command, command_of};
use crate::fault::Reason;
use crate::line::is_printable;
use crate::name::Name;
use crate::script::Script;
use crate::sequence::Sequence;
use crate::thread::{ThreadPart, thread_of};
use crate::verb::OnName;
use crate::word::LineWords;
use jr_word::Config;
use std::alloc::{AllocError, Global};

/// How many lines a script may have.
const MOST_LINES: usize = 4096;

/// Why a line was not taken.
#[derive(Clone, Copy)]
pub enum LineFault {
    /// The line has a fault.
    Fault(Reason),
    /// Memory was refused.
    Memory,
}

impl From<AllocError> for LineFault {
    ghost use Rattle.std.specs.Prelude.{◌≡◌};
    ghost use Rattle.jr_syntax.specs.declared.draft.LineFault.TheVariants.{Memory};

    ghost from_gives = { λ _ e. e ≡ Memory };

    fn from(_e: AllocError) -> LineFault {
        LineFault::Memory
    }
}

impl From<Reason> for LineFault {
    ghost use Rattle.std.specs.Prelude.{◌≡◌};
    ghost use Rattle.jr_syntax.specs.declared.draft.LineFault.TheVariants.{Fault};

    ghost from_gives = { λ r e. e ≡ Fault r };

    fn from(reason: Reason) -> LineFault {
        LineFault::Fault(reason)
    }
}

/// What was read so far: the parts that are whole, and the last one.
#[derive(Drop)]
pub struct Draft {
    /// The sizes that the first line says.
    pub config: Config,
    /// The parts that are whole.
    pub whole: Sequence<ThreadPart>,
    /// The part that may get more commands, if one has begun.
    pub last: Option<ThreadPart>,
}

impl Draft {
    /// A script with no part.
    pub fn new(alloc: Global, config: Config) -> Draft
        ensures { (result.config ≡ config) × (parts_of result ≡ []) × (is_none result.last ≡ true) }
    {
        Draft {
            config,
            whole: Sequence::new(alloc),
            last: None,
        }
    }

    /// Whether there are as many parts as threads.
    pub fn is_full(&self) -> bool
        ensures { result ≡ nat_le self.now.config.threads (length (parts_of self.now)) }
    {
        let threads = self.config.threads as usize;
        let whole = self.whole.as_slice().len();
        match &self.last {
            None => threads <= whole,
            Some(_) => threads.saturating_sub(1) <= whole,
        }
    }

    /// Whether a part has a name.
    #[tactic(auto, using(crate::proofs::PartLaws::any_names, crate::proofs::PartLaws::any_names_one))]
    fn has_name(&self, word: &[u8]) -> bool
        ensures { result ≡ list_any (bytes_eq word.now) (names_of (parts_of self.now)) }
    {
        any_named(self.whole.as_slice(), word)
            || match &self.last {
                None => false,
                Some(part) => part.name.is(word),
            }
    }

    /// Whether a command posts a name.
    #[tactic(auto, using(crate::proofs::PartLaws::posts_split, crate::proofs::PartLaws::posts_last))]
    fn has_posted(&self, name: &[u8]) -> bool
        ensures { result ≡ list_any (bytes_eq name.now) (posts_of (parts_of self.now)) }
    {
        any_part_posts(self.whole.as_slice(), name)
            || match &self.last {
                None => false,
                Some(part) => any_posts(part.commands.as_slice(), name),
            }
    }

    /// Whether a command posts a name that one before it posts.
    fn posts_again(&self, command: &Command) -> bool
        ensures { result ≡ share (posted command.now) (posts_of (parts_of self.now)) }
    {
        match command {
            Command::OnName {
                verb: OnName::Post,
                name,
            } => self.has_posted(name.as_slice()),
            _ => false,
        }
    }

    /// Begins a thread's part.
    fn begin(&mut self, alloc: Global, word: &[u8]) -> Result<(), LineFault>
        requires { name_word word.now ≡ true }
        ensures { ReadsThreadLine self.old word.now result self.new }
    {
        if self.is_full() {
            return Err(LineFault::Fault(Reason::TooManyThreads));
        }
        if self.has_name(word) {
            return Err(LineFault::Fault(Reason::NameUsedTwice));
        }
        let part = ThreadPart {
            name: Name::new(word),
            commands: Sequence::new(alloc),
        };
        if let Some(before) = self.last.replace(part) {
            self.whole.push(before)?;
        }
        Ok(())
    }

    /// The command that a line's words are, where it may stand behind what was read.
    fn command(&self, words: LineWords) -> Result<Command, Reason>
        ensures { GaveSome (command_rows self.now words.entry) result (line_command words.entry) }
    {
        if self.last.is_none() {
            return Err(Reason::ThreadLineExpected);
        }
        match command_of(words) {
            Ok(command) if self.posts_again(&command) => Err(Reason::PostedTwice),
            Ok(command) => Ok(command),
            Err(LineError::Form) => Err(Reason::CommandExpected),
            Err(LineError::Range) => Err(Reason::NumberOutOfRange),
        }
    }

    /// Adds a command to the last part.
    #[tactic(auto, using(crate::proofs::PartLaws::with_command_last))]
    fn push(&mut self, command: Command) -> Result<(), AllocError>
        requires { is_none self.old.last ≡ false }
        ensures { OnOk result ((self.new.config ≡ self.old.config) × (parts_of self.new ≡ with_command (parts_of self.old) command) × (is_none self.new.last ≡ false)) }
    {
        if let Some(part) = &mut self.last {
            part.commands.push(command)?;
        }
        Ok(())
    }

    /// Adds the command that a line's words are.
    fn add(&mut self, words: LineWords) -> Result<(), LineFault>
        ensures { Adds self.old words.entry result self.new }
    {
        let command = self.command(words)?;
        self.push(command)?;
        Ok(())
    }

    /// Takes a line behind the first.
    pub fn take(
        &mut self,
        alloc: Global,
        number: usize,
        line: &[u8],
        finished: bool,
    ) -> Result<(), LineFault>
        ensures { Gave (rows number self.old (line.now, finished)) result (Grown self.old line.now self.new) }
    {
        if number > MOST_LINES {
            return Err(LineFault::Fault(Reason::TooLong));
        }
        if !finished {
            return Err(LineFault::Fault(Reason::UnfinishedLine));
        }
        if !is_printable(line) {
            return Err(LineFault::Fault(Reason::NotAscii));
        }
        match thread_of(LineWords::new(line)) {
            Some(name) => self.begin(alloc, name),
            None => self.add(LineWords::new(line)),
        }
    }

    /// The script.
    pub fn into_script(self) -> Result<Script, AllocError>
        ensures { IfOk result (λ s. s ≡ record { config = self.config; threads = parts_of self }) }
    {
        let Draft {
            config,
            whole: mut threads,
            last,
        } = self;
        if let Some(part) = last {
            threads.push(part)?;
        }
        Ok(Script { config, threads })
    }
}

fn any_named(parts: &[ThreadPart], word: &[u8]) -> bool
    ensures { result ≡ list_any (λ p. bytes_eq word.now p.name) parts.now }
{
    parts.iter().any(|part| part.name.is(word))
}

#[tactic(auto, using(crate::proofs::PartLaws::any_one))]
fn posts(command: &Command, word: &[u8]) -> bool
    ensures { result ≡ list_any (bytes_eq word.now) (posted command.now) }
{
    match command {
        Command::OnName {
            verb: OnName::Post,
            name,
        } => name.is(word),
        _ => false,
    }
}

pub(crate) fn any_posts(commands: &[Command], word: &[u8]) -> bool
    ensures { result ≡ list_any (λ c. list_any (bytes_eq word.now) (posted c)) commands.now }
{
    commands.iter().any(|command| posts(command, word))
}

pub(crate) fn any_part_posts(parts: &[ThreadPart], word: &[u8]) -> bool
    ensures { result ≡ list_any (λ p. list_any (λ c. list_any (bytes_eq word.now) (posted c)) p.commands) parts.now }
{
    parts
        .iter()
        .any(|part| any_posts(part.commands.as_slice(), word))
}
