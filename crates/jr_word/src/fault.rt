//! Refusals.

use crate::report::FaultReport;
use thiserror::Error;

/// Why a call is refused.
#[derive(Clone, Copy, Debug, PartialEq, Eq, Error)]
pub enum Fault {
    /// NULL or a cleared weak reference, where an object is needed.
    ///
    /// Hand in a reference to an object. Any collection may clear a weak one: make a local or global one of it first, and see whether that is NULL.
    #[error("E1")]
    Null,
    /// A malformed handle, an index past the row, an owner past the threads, or a handle that is not valid now.
    ///
    /// Let go of the handle. One that was deleted never stands again.
    #[error("E2")]
    Stale,
    /// A local handle of another thread of the room.
    ///
    /// Make a global reference in the thread that owns it, and hand that over.
    #[error("E3")]
    Foreign,
    /// A delete call was given another kind of reference; a string call an object that is no string.
    ///
    /// Delete by the call for the kind, which `get_object_ref_type` tells. Ask `kind_of` what an object is.
    #[error("E4")]
    WrongKind,
    /// A plain object or a string where an array is needed; a write to a string.
    ///
    /// Ask `kind_of` what an object is. Make another string in place of writing to one.
    #[error("E5")]
    NotArray,
    /// An array whose element kind is not the one asked for; an object array in a critical call.
    ///
    /// Ask `kind_of` for the kind, and make the call with its elements.
    #[error("E6")]
    WrongElement,
    /// An index or part outside the array, string or buffer; a buffer whose length is not the array's.
    ///
    /// Ask for the length, which an object keeps while it is present.
    #[error("E7")]
    Range,
    /// Each slot was occupied when the search came to it, or a moment later.
    ///
    /// Delete global or weak references that are not needed, and make the call again. Slots that gave their last handle never come back: a room that lasts needs more of them.
    #[error("E8")]
    RowFull,
    /// No local place left, too few for a frame or a capacity, or 256 frames open.
    ///
    /// Delete local references, pop a frame, or return from the native method. JNI's status for it is JNI_ENOMEM.
    #[error("E9")]
    LocalsFull,
    /// So many words are reserved, and the request does not fit beside them.
    ///
    /// Collect, and make the call again. Where it is refused then too, let go of arrays, or open rooms with more words.
    #[error("E10")]
    SpaceFull(u32),
    /// Every object number is present.
    ///
    /// Collect, and make the call again. Where it is refused then too, let go of objects, or open rooms with more of them.
    #[error("E11")]
    ObjectsFull,
    /// Another thread reserved space between the look and the exchange: what was looked at, and what was found.
    ///
    /// Make the call again.
    #[error("E12")]
    Raced(u32, u32),
    /// The entry found the gate shut, or that it was announced to be.
    ///
    /// Make the call again, and let other threads run in between. That it is ever let in is not promised.
    #[error("E13")]
    Barred,
    /// The shut step found so many threads inside, knocking, announcing or collecting: at least 1.
    ///
    /// Make the call again, once threads have left their calls and critical regions. That a collection is ever let in is not promised.
    #[error("E14")]
    Busy(u32),
    /// Pop of the base frame.
    ///
    /// Pop only frames that were pushed.
    #[error("E15")]
    NoFrame,
    /// A growth was refused, or a thread could not be started.
    ///
    /// Give memory back, and make the call again. JNI's status for it is JNI_ENOMEM.
    #[error("E16")]
    Memory,
    /// A configuration outside the limits, a seventeenth level, or a script of several threads where one is asked for.
    ///
    /// Keep to the limits of `Config` and to sixteen levels. Scripts of several threads are for `run_all`.
    #[error("E17")]
    Size,
    /// A word that is not of the array's element kind.
    ///
    /// Give a word of the kind. No call of `Env` or `Region` is refused by it, since these take elements by their type.
    #[error("E18")]
    Value,
    /// A JNI command in a critical region, or a region command outside one.
    ///
    /// Scripts and users of the static library meet it: end the region first, or open one. In Rust no such call compiles while a `Region` stands.
    /// The library answers it too where the place of an attached thread is to be freed.
    #[error("E19")]
    InCritical,
    /// The turns ran out.
    ///
    /// Scripts alone meet it: run them with more turns, and see that what they wait for is posted.
    #[error("E20")]
    Turns,
    /// An env is asked for over a pass that is not fresh.
    ///
    /// Make one env of each pass. A pass that was spent still serves to meet and to close.
    #[error("E21")]
    NotFresh,
    /// The room was closed with so many threads inside, knocking, announcing or collecting.
    ///
    /// Let them leave, and close the room that was handed back.
    #[error("E22")]
    LeftInside(u32),
    /// Another thread went in or out between the look at the gate and the exchange that announces: the threads inside or knocking that were looked at, and those that were found.
    ///
    /// Make the call again.
    #[error("E23")]
    Moved(u32, u32),
}

/// JNI's status where memory is out (JNI Specification, chapter 4, "Constants").
const JNI_ENOMEM: i32 = -4;

impl Fault {
    ghost use Rattle.std.specs.Prelude.{◌≡◌};
    ghost use Rattle.jr_word.specs.Fault.{fault_number, jni_code_of};

    /// The number of the refusal, 1 to 23.
    pub fn number(self) -> u8
        ensures { result ≡ fault_number self }
    {
        match self {
            Fault::Null => 1,
            Fault::Stale => 2,
            Fault::Foreign => 3,
            Fault::WrongKind => 4,
            Fault::NotArray => 5,
            Fault::WrongElement => 6,
            Fault::Range => 7,
            Fault::RowFull => 8,
            Fault::LocalsFull => 9,
            Fault::SpaceFull(_) => 10,
            Fault::ObjectsFull => 11,
            Fault::Raced(_, _) => 12,
            Fault::Barred => 13,
            Fault::Busy(_) => 14,
            Fault::NoFrame => 15,
            Fault::Memory => 16,
            Fault::Size => 17,
            Fault::Value => 18,
            Fault::InCritical => 19,
            Fault::Turns => 20,
            Fault::NotFresh => 21,
            Fault::LeftInside(_) => 22,
            Fault::Moved(_, _) => 23,
        }
    }

    /// What the refusal says, in one clause of English without its numbers.
    pub fn meaning(self) -> &'static str {
        match self {
            Fault::Null => "null, where an object is needed",
            Fault::Stale => "no reference of this word stands",
            Fault::Foreign => "the word is a local reference of another thread",
            Fault::WrongKind => "the word names something of another kind than the call is for",
            Fault::NotArray => "the object is not an array",
            Fault::WrongElement => "the array's elements are of another kind than the call is for",
            Fault::Range => "an index, a part or a length doesn't fit the object",
            Fault::RowFull => "the search found no free slot",
            Fault::LocalsFull => "the thread has too little room for local references",
            Fault::SpaceFull(_) => "the request doesn't fit beside the words in use",
            Fault::ObjectsFull => "every object number is present",
            Fault::Raced(_, _) => "another thread reserved words meanwhile",
            Fault::Barred => "a collection keeps threads from coming in",
            Fault::Busy(_) => "other threads keep the collection from coming in",
            Fault::NoFrame => "the base frame can't be popped",
            Fault::Memory => "the system refused memory or a thread",
            Fault::Size => "a size or a count is outside of its limits",
            Fault::Value => "the word is none of the array's element kind",
            Fault::InCritical => "the command is not allowed where the thread stands",
            Fault::Turns => "the turns ran out",
            Fault::NotFresh => "the pass had an env already",
            Fault::LeftInside(_) => "other threads kept the room from being closed",
            Fault::Moved(_, _) => "a thread went in or out before the announcement",
        }
    }

    /// What to do about the refusal, in a sentence.
    pub fn advice(self) -> &'static str {
        match self {
            Fault::Null => "Hand in a reference to an object.",
            Fault::Stale => "Let go of the word: a deleted reference never stands again.",
            Fault::Foreign => "Hand a global reference from thread to thread.",
            Fault::WrongKind => "Ask get_object_ref_type or kind_of, and make the call for that.",
            Fault::NotArray | Fault::WrongElement => {
                "Ask kind_of, and make the call for that kind of object."
            }
            Fault::Range => "Ask for the length, which an object keeps.",
            Fault::RowFull => "Delete global or weak references, cleared ones first.",
            Fault::LocalsFull => "Delete local references or pop a frame.",
            Fault::SpaceFull(_) => "Collect, and make the call again.",
            Fault::ObjectsFull => "Collect, and make the call again.",
            Fault::Raced(_, _) => "Make the call again.",
            Fault::Barred => "Let other threads run, and make the call again.",
            Fault::Busy(_) => "Let them leave, and collect again.",
            Fault::NoFrame => "Pop only frames that were pushed.",
            Fault::Memory => "Give memory back, and make the call again.",
            Fault::Size => "Keep to the limits of Config and to sixteen levels.",
            Fault::Value => "Give a word of the kind.",
            Fault::InCritical => "End the critical region first, or open one.",
            Fault::Turns => "Run the script with more turns.",
            Fault::NotFresh => "Make one env of each pass.",
            Fault::LeftInside(_) => "Let them leave, and close the room that was handed back.",
            Fault::Moved(_, _) => "Let other threads run, and announce again.",
        }
    }

    /// The refusal as a log tells it: `{report}` prints the number, what it says with the numbers that it carries, and what to do.
    pub fn report(self) -> FaultReport {
        FaultReport { fault: self }
    }

    /// The status that JNI has for the refusal, if it has one.
    pub fn jni_code(self) -> Option<i32>
        ensures { result ≡ jni_code_of self }
    {
        match self {
            Fault::LocalsFull | Fault::Memory => Some(JNI_ENOMEM),
            _ => None,
        }
    }
}
