//! Why a text is no script.

ghost use Rattle.std.specs.Prelude.{◌≡◌};
ghost use Rattle.jr_syntax.specs.Faults.{reason_text};

/// What is wrong with a line.
#[derive(Clone, Copy, Debug, PartialEq, Eq)]
pub enum Reason {
    /// It is line 4,097, or the input has more than 65,536 bytes.
    TooLong,
    /// The input has no byte.
    EmptyInput,
    /// It has no line feed.
    UnfinishedLine,
    /// It has a byte other than 32 to 126.
    NotAscii,
    /// It is line 1 and has another form.
    VmLineExpected,
    /// It is line 2 and no thread line, or it follows the last line and a thread's part is missing.
    ThreadLineExpected,
    /// It is a thread line past the threads that line 1 says.
    TooManyThreads,
    /// It repeats a thread's name.
    NameUsedTwice,
    /// It has none of the forms of a command.
    CommandExpected,
    /// It has a number outside its bounds.
    NumberOutOfRange,
    /// It posts a name that an earlier line posts, of whichever thread.
    PostedTwice,
}

impl Reason {
    /// Its text, as the program prints it.
    pub fn text(self) -> &'static str
        ensures { result.now ≡ reason_text self }
    {
        match self {
            Reason::TooLong => "too long",
            Reason::EmptyInput => "empty input",
            Reason::UnfinishedLine => "unfinished line",
            Reason::NotAscii => "not ASCII text",
            Reason::VmLineExpected => "vm line expected",
            Reason::ThreadLineExpected => "thread line expected",
            Reason::TooManyThreads => "too many threads",
            Reason::NameUsedTwice => "name used twice",
            Reason::CommandExpected => "command expected",
            Reason::NumberOutOfRange => "number out of range",
            Reason::PostedTwice => "posted twice",
        }
    }
}

/// Why a text was not read.
#[derive(Clone, Copy, Debug, PartialEq, Eq)]
pub enum ScriptFault {
    /// The number of the first line with a fault, counted from 1, and the fault.
    At(usize, Reason),
    /// Memory was refused.
    Memory,
}
