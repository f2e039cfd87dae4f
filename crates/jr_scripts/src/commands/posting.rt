//! What the names of a thread are handed to other threads for, by a board.

ghost use Rattle.std.specs.Prelude.{◌≡◌, ℕ, Option, IfNone, Ok};
ghost use Rattle.jr_world.specs.Board.{word_under as word_of_name};
ghost use Rattle.jr_scripts.specs.declared.reply.Reply.TheVariants.{Done};
ghost use Rattle.jr_scripts.specs.Posting.{reply_to_wait, words_found, words_with, Follows, HasLookedFor, HasPosted, HasWaited, Keeps, WasInVain, ThreadWords};

use crate::board::Board;
use crate::reply::Reply;
use crate::words::word_under;
use jr_env::Env;
use jr_steps::Steps;
use jr_syntax::Name;
use jr_word::{Fault, Handle};
use std::thread;

/// Looks for a posted word, up to `turns` times, and lets other threads run between two looks.
fn word_awaited<S: Steps, B: Board<S>>(
    board: &mut B,
    steps: &mut S,
    name: &Name,
    turns: u64,
) -> Option<u64>
    requires { (B.tells board.old).serves (S.facts steps.old).stands.room }
    ensures found { HasLookedFor S.facts steps.old steps.new (B.tells board.new) name.now result }
    ensures vain { IfNone result (WasInVain B.looked turns name.now) }
    ensures follows { Follows B.follows board.old board.new (words_found name.now result) }
    ensures kept { Keeps B.layout B.tells board.old board.new }
{
    for _ in 0..turns {
        match board.look(steps, name) {
            Some(word) => return Some(word),
            None => thread::yield_now(),
        }
    }
    None
}

/// The reply to a wait: a name is set to the word that was found, and the turns ran out where there was none.
fn reply_of(found: Option<u64>) -> Result<Reply, Fault>
    ensures { result ≡ reply_to_wait found }
{
    match found {
        Some(word) => Ok(Reply::Made(Some(Handle(word)))),
        None => Err(Fault::Turns),
    }
}

/// The word that the thread has under a name; where it has none, waits until the name was posted, for `turns` looks, and learns what was told with it.
///
/// # Errors
///
/// E20: each look found nothing.
pub(crate) fn wait<S: Steps, B: Board<S>>(
    board: &mut B,
    env: &mut Env<S>,
    words: &[(Name, u64)],
    name: &Name,
    turns: u64,
) -> Result<Reply, Fault>
    requires there { (B.tells board.old).serves (S.facts env.old.held.steps).stands.room }
    requires follows { B.follows board.old words.now }
    ensures waited { HasWaited S.facts env.old.held.steps env.new.held.steps (B.tells board.new) (WasInVain B.looked turns name.now) name.now (word_of_name words.now name.now) result }
    ensures frames { env.new.held.frames ≡ env.old.held.frames }
    ensures follows { (found : Option ℕ) × (result ≡ reply_to_wait found) × B.follows board.new (words_found name.now found words.now) }
    ensures kept { Keeps B.layout B.tells board.old board.new }
{
    if let Some(word) = word_under(words, name) {
        return reply_of(Some(word));
    }
    let held = &mut env.held;
    reply_of(word_awaited(board, &mut held.steps, name, turns))
}

/// Posts a word under a name, with what the thread has seen.
pub(crate) fn post<S: Steps, B: Board<S>>(
    board: &mut B,
    env: &mut Env<S>,
    name: &Name,
    word: u64,
) -> Result<Reply, Fault>
    requires there { (B.tells board.old).serves (S.facts env.old.held.steps).stands.room }
    requires follows { (words : ThreadWords) × B.follows board.old words }
    ensures done { result ≡ Ok Done }
    ensures posted { (words : ThreadWords) → B.follows board.old words → HasPosted S.facts env.old.held.steps env.new.held.steps (B.tells board.new) words name.now word }
    ensures frames { env.new.held.frames ≡ env.old.held.frames }
    ensures follows { Follows B.follows board.old board.new (λ words. words_with words name.now word) }
    ensures kept { Keeps B.layout B.tells board.old board.new }
{
    let held = &mut env.held;
    board.post(&mut held.steps, name, word);
    Ok(Reply::Done)
}
