//! The words that a thread posted and heard, by name.

ghost use Rattle.std.specs.Prelude.{◌≡◌, OnOk};
ghost use Rattle.jr_world.specs.Board.{word_under as word_of_name};
ghost use Rattle.jr_scripts.specs.Posting.{words_after, words_with};

use crate::names::Names;
use crate::reply::Reply;
use jr_syntax::{Command, Make, Name};
use jr_word::Fault;
use std::alloc::AllocError;

/// The word that a thread has under a name.
pub(crate) fn word_under(words: &[(Name, u64)], name: &Name) -> Option<u64>
    ensures { result ≡ word_of_name words.now name.now }
{
    for entry in words {
        if entry.0.is(name.as_slice()) {
            return Some(entry.1);
        }
    }
    None
}

/// Adds a word under a name that has none.
fn add(words: &mut Vec<(Name, u64)>, name: &Name, word: u64) -> Result<(), AllocError>
    ensures { OnOk result (words.new.items ≡ words_with words.old.items name.now word) }
{
    if word_under(words.as_slice(), name).is_none() {
        words.push((name.copy(), word))?;
    }
    Ok(())
}

/// Adds the word that a command posted or heard.
pub(crate) fn keep_word(
    words: &mut Vec<(Name, u64)>,
    names: &Names,
    command: &Command,
    answer: &Result<Reply, Fault>,
) -> Result<(), AllocError>
    ensures { OnOk result (words.new.items ≡ words_after names.now command.now answer.now words.old.items) }
{
    match command {
        Command::OnName { name, .. } => add(words, name, names.word(name)),
        Command::Make {
            verb: Make::Wait,
            name,
        } => match answer {
            Ok(Reply::Made(Some(handle))) => add(words, name, handle.0),
            _ => Ok(()),
        },
        _ => Ok(()),
    }
}
