//! What commands print.

ghost use Rattle.std.specs.Prelude.{◌≡◌, ◌∷◌, ◌++◌, [], IfOk, OnOk, codes, map};
ghost use Rattle.std.specs.Fmt.{decimal, signed_decimal};
ghost use Rattle.jr_syntax.specs.Command.{verb_word};
ghost use Rattle.jr_syntax.specs.declared.command.Command.TheVariants as commands;
ghost use Rattle.jr_scripts.specs.Text.{text_line, verdict, says as what_is_said, said_of_collection, refused as refusal, printed as text_printed, heading as text_heading, ending as text_ending};

use crate::reply::Reply;
use jr_model::Summary;
use jr_syntax::{Command, Name, On, Reference, Verb};
use jr_weak::Collected;
use jr_word::Fault;
use std::alloc::{AllocError, Global};

/// Adds a space and a word.
fn add_word(text: &mut Vec<u8>, word: &[u8]) -> Result<(), AllocError>
    ensures { OnOk result (text.new.items ≡ text.old.items ++ 32 ∷ word.now) }
{
    text.push(b' ')?;
    text.extend_from_slice(word)?;
    Ok(())
}

/// A line of three words.
fn line_of_three(
    alloc: Global,
    first: &[u8],
    second: &[u8],
    third: &[u8],
) -> Result<Vec<u8>, AllocError>
    ensures { IfOk result (λ text. text.items ≡ text_line (first.now ∷ second.now ∷ third.now ∷ [])) }
{
    let mut text = Vec::from_slice(alloc, first)?;
    add_word(&mut text, second)?;
    add_word(&mut text, third)?;
    text.push(b'\n')?;
    Ok(text)
}

/// A line of four words.
fn line_of_four(
    alloc: Global,
    first: &[u8],
    second: &[u8],
    third: &[u8],
    fourth: &[u8],
) -> Result<Vec<u8>, AllocError>
    ensures { IfOk result (λ text. text.items ≡ text_line (first.now ∷ second.now ∷ third.now ∷ fourth.now ∷ [])) }
{
    let mut text = Vec::from_slice(alloc, first)?;
    add_word(&mut text, second)?;
    add_word(&mut text, third)?;
    add_word(&mut text, fourth)?;
    text.push(b'\n')?;
    Ok(text)
}

/// The word of an answer.
fn word_of(answer: bool) -> &'static [u8]
    ensures { result.now ≡ verdict answer }
{
    if answer { b"true" } else { b"false" }
}

/// A line of two words, and units behind them.
fn line_of_units(
    alloc: Global,
    word: &[u8],
    subject: &[u8],
    units: &[u16],
) -> Result<Vec<u8>, AllocError>
    ensures { IfOk result (λ text. text.items ≡ text_line (word.now ∷ subject.now ∷ map decimal units.now)) }
{
    let mut text = Vec::from_slice(alloc, word)?;
    add_word(&mut text, subject)?;
    for unit in units {
        let number = unit.to_string(alloc)?;
        add_word(&mut text, number.as_bytes())?;
    }
    text.push(b'\n')?;
    Ok(text)
}

/// What is printed for a command on a reference that was not refused.
fn says_on(
    alloc: Global,
    verb: On,
    target: &Reference,
    reply: &Reply,
) -> Result<Vec<u8>, AllocError>
    ensures { IfOk result (λ text. text.items ≡ what_is_said (commands.On verb target.now) reply.now) }
{
    let word = Verb::On(verb).word();
    match reply {
        Reply::Type(number) => {
            let number = number.to_string(alloc)?;
            line_of_three(alloc, word, target.word(), number.as_bytes())
        }
        Reply::Length(length) => {
            let length = length.to_string(alloc)?;
            line_of_three(alloc, word, target.word(), length.as_bytes())
        }
        Reply::Units(units) => line_of_units(alloc, word, target.word(), units.as_slice()),
        _ => Ok(Vec::new(alloc)),
    }
}

/// The line of a number at an index.
fn line_of_value(
    alloc: Global,
    verb: Verb,
    subject: &[u8],
    index: u32,
    value: i64,
) -> Result<Vec<u8>, AllocError>
    ensures { IfOk result (λ text. text.items ≡ text_line (verb_word verb ∷ subject.now ∷ decimal index ∷ signed_decimal value ∷ [])) }
{
    let index = index.to_string(alloc)?;
    let value = value.to_string(alloc)?;
    let (index, value) = (index.as_bytes(), value.as_bytes());
    line_of_four(alloc, verb.word(), subject, index, value)
}

/// The line of a collection.
fn line_of_collection(alloc: Global, collected: Collected) -> Result<Vec<u8>, AllocError>
    ensures { IfOk result (λ text. text.items ≡ text_line (codes "gc" ∷ codes "cleared" ∷ decimal collected.cleared ∷ codes "dropped" ∷ decimal collected.dropped ∷ codes "used" ∷ decimal
        collected.used ∷ [])) }
{
    let Collected {
        cleared,
        dropped,
        used,
    } = collected;
    let text = format!(in alloc; "gc cleared {cleared} dropped {dropped} used {used}\n")?;
    Ok(text.into_bytes())
}

/// What is printed of a collection that was not refused.
fn says_of_collection(alloc: Global, reply: &Reply) -> Result<Vec<u8>, AllocError>
    ensures { IfOk result (λ text. text.items ≡ said_of_collection reply.now) }
{
    match reply {
        Reply::Collected(collected) => line_of_collection(alloc, *collected),
        Reply::Busy(count) => {
            let text = format!(in alloc; "gc busy {count}\n")?;
            Ok(text.into_bytes())
        }
        _ => Ok(Vec::new(alloc)),
    }
}

/// What is printed for a command that was not refused.
fn says(alloc: Global, command: &Command, reply: &Reply) -> Result<Vec<u8>, AllocError>
    ensures { IfOk result (λ text. text.items ≡ what_is_said command.now reply.now) }
{
    match (command, reply) {
        (Command::MakeFrom { verb, name, .. }, Reply::Made(None)) => {
            let word = Verb::MakeFrom(*verb).word();
            line_of_three(alloc, word, name.as_slice(), b"null")
        }
        (Command::MakeAt { verb, name, .. }, Reply::Made(None)) => {
            let word = Verb::MakeAt(*verb).word();
            line_of_three(alloc, word, name.as_slice(), b"null")
        }
        (Command::On { verb, target }, reply) => says_on(alloc, *verb, target, reply),
        (Command::OnBoth { verb, left, right }, Reply::Same(same)) => {
            let word = Verb::OnBoth(*verb).word();
            line_of_four(alloc, word, left.word(), right.word(), word_of(*same))
        }
        (
            Command::OnAt {
                verb,
                target,
                index,
            },
            Reply::Value(value),
        ) => { line_of_value(alloc, Verb::OnAt(*verb), target.word(), *index, *value) }
        (Command::OnNameAt { verb, name, index }, Reply::Value(value)) => {
            let verb = Verb::OnNameAt(*verb);
            line_of_value(alloc, verb, name.as_slice(), *index, *value)
        }
        (Command::OfRoom { .. } | Command::WithTries { .. }, reply) => {
            says_of_collection(alloc, reply)
        }
        _ => Ok(Vec::new(alloc)),
    }
}

/// What is printed for a command that was refused.
fn refused(alloc: Global, line: usize, fault: Fault) -> Result<Vec<u8>, AllocError>
    ensures { IfOk result (λ text. text.items ≡ refusal line fault) }
{
    let number = fault.number();
    let text = match fault {
        Fault::SpaceFull(found) => format!(in alloc; "{line} ! E{number} {found}\n")?,
        _ => format!(in alloc; "{line} ! E{number}\n")?,
    };
    Ok(text.into_bytes())
}

/// The text of a command on a line of the script.
pub fn printed(
    alloc: Global,
    line: usize,
    command: &Command,
    answer: &Result<Reply, Fault>,
) -> Result<Vec<u8>, AllocError>
    ensures { IfOk result (λ text. text.items ≡ text_printed line command.now answer.now) }
{
    match answer {
        Ok(reply) => says(alloc, command, reply),
        Err(fault) => refused(alloc, line, *fault),
    }
}

/// The line before a thread's lines.
pub fn heading(alloc: Global, name: &Name) -> Result<Vec<u8>, AllocError>
    ensures { IfOk result (λ text. text.items ≡ text_heading name.now) }
{
    let mut text = Vec::from_slice(alloc, b"[")?;
    text.extend_from_slice(name.as_slice())?;
    text.extend_from_slice(b"]\n")?;
    Ok(text)
}

/// The last two lines.
pub fn ending(alloc: Global, summary: Summary) -> Result<Vec<u8>, AllocError>
    ensures { IfOk result (λ text. text.items ≡ text_ending summary) }
{
    let Summary {
        globals,
        weaks,
        live,
        used,
    } = summary;
    let text = format!(in alloc;
        "[end]\nglobals {globals} weaks {weaks} live {live} used {used}\n"
    )?;
    Ok(text.into_bytes())
}
