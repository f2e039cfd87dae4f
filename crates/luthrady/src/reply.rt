//! What a call answers, as C and Rust see it.
ghost use Rattle.std.specs.Prelude.{◌≡◌, Ok, Err};
ghost use Rattle.jr_critical.specs.Levels.{in_words};
ghost use Rattle.luthrady.specs.Replies.{told_beside, found_beside, reply_of, the_number, the_word, word_or_null, zero_or_one, nothing_told};

use jr_word::{Elem, Fault, Handle};

/// A call's answer.
#[repr(C)]
#[derive(Clone, Copy)]
pub struct Reply {
    /// What it answers, 0 where it is refused.
    pub value: u64,
    /// The number of the refusal, 0 where there is none.
    pub fault: u32,
    /// The number that the refusal tells beside its own, the first where it tells two, 0 where it tells none.
    pub told: u32,
    /// The second number that the refusal tells, 0 where it has none.
    pub found: u32,
}

/// The first number that a refusal tells beside its own.
fn told(fault: Fault) -> u32
    ensures { result ≡ told_beside fault }
{
    match fault {
        Fault::SpaceFull(told) => told,
        Fault::Raced(told, _) => told,
        Fault::Busy(told) => told,
        Fault::LeftInside(told) => told,
        Fault::Moved(told, _) => told,
        _ => 0,
    }
}

/// The second number that a refusal tells beside its own.
fn found(fault: Fault) -> u32
    ensures { result ≡ found_beside fault }
{
    match fault {
        Fault::Raced(_, found) => found,
        Fault::Moved(_, found) => found,
        _ => 0,
    }
}

/// The answer of a call that was made.
pub(crate) fn answered(value: u64) -> Reply
    ensures { result ≡ reply_of the_number (Ok value) }
{
    Reply {
        value,
        fault: 0,
        told: 0,
        found: 0,
    }
}

/// The answer of a call that was refused.
pub(crate) fn refused(fault: Fault) -> Reply
    ensures { result ≡ reply_of the_number (Err fault) }
{
    Reply {
        value: 0,
        fault: u32::from(fault.number()),
        told: told(fault),
        found: found(fault),
    }
}

/// The answer of a call that gives a number.
pub(crate) fn number_reply(answer: Result<u32, Fault>) -> Reply
    ensures { result ≡ reply_of the_number answer }
{
    match answer {
        Ok(number) => answered(u64::from(number)),
        Err(fault) => refused(fault),
    }
}

/// The answer of a call that gives a count.
pub(crate) fn count_reply(answer: Result<usize, Fault>) -> Reply
    ensures { result ≡ reply_of the_number answer }
{
    match answer {
        Ok(number) => answered(number as u64),
        Err(fault) => refused(fault),
    }
}

/// The answer of a call that gives a reference's type.
pub(crate) fn type_reply(answer: Result<u8, Fault>) -> Reply
    ensures { result ≡ reply_of the_number answer }
{
    match answer {
        Ok(number) => answered(u64::from(number)),
        Err(fault) => refused(fault),
    }
}

/// The answer of a call that gives an element: its word.
pub(crate) fn element_reply<E: Elem>(answer: Result<E, Fault>) -> Reply
    ensures { result ≡ reply_of the_number (in_words E.word_of answer) }
{
    match answer {
        Ok(element) => answered(element.to_word()),
        Err(fault) => refused(fault),
    }
}

/// The answer of a call that gives a reference.
pub(crate) fn reference_reply(answer: Result<Handle, Fault>) -> Reply
    ensures { result ≡ reply_of the_word answer }
{
    match answer {
        Ok(handle) => answered(handle.0),
        Err(fault) => refused(fault),
    }
}

/// The answer of a call that gives a reference, or NULL.
pub(crate) fn optional_reply(answer: Result<Option<Handle>, Fault>) -> Reply
    ensures { result ≡ reply_of word_or_null answer }
{
    match answer {
        Ok(Some(handle)) => answered(handle.0),
        Ok(None) => answered(0),
        Err(fault) => refused(fault),
    }
}

/// The answer of a call that gives a yes or a no.
pub(crate) fn bool_reply(answer: Result<bool, Fault>) -> Reply
    ensures { result ≡ reply_of zero_or_one answer }
{
    match answer {
        Ok(true) => answered(1),
        Ok(false) => answered(0),
        Err(fault) => refused(fault),
    }
}

/// The answer of a call that gives nothing.
pub(crate) fn nothing_reply(answer: Result<(), Fault>) -> Reply
    ensures { result ≡ reply_of nothing_told answer }
{
    match answer {
        Ok(()) => answered(0),
        Err(fault) => refused(fault),
    }
}
