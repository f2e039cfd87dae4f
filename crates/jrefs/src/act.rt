//! What the program does, over any reader and writers.

ghost use Rattle.std.specs.Prelude.{◌≡◌, ◌≢◌, ◌⊎◌, map, ℕ, Some, IfSome, IsSome, IfOk, IfErr, OnOk, IsErrAnd};
ghost use Rattle.std.specs.Io.KnownBytes.{Keeps};
ghost use Rattle.jr_syntax.specs.Faults.{first_fault};
ghost use Rattle.jrefs.specs.Act.{IsOutput, IsOutputFor, Stops, Prevents, Answers, AnswersWords, LeavesWritten, Fails, ReadsAtMost};
ghost use Rattle.jrefs.specs.Describe.{Describes, SaysWidened};
ghost use Rattle.jrefs.specs.Meant.{WritesWhatIsMeant};
ghost use Rattle.jrefs.specs.Request.{Asks, AskNothing, AsksOfScript, asked_for};
ghost use Rattle.jrefs.specs.declared.request.Request.{Request as AnyRequest};
ghost use Rattle.jrefs.specs.declared.request.Request.TheVariants.{Word, Widen};
ghost use Rattle.jrefs.specs.Trouble.{status_of};
ghost use Rattle.jrefs.specs.declared.trouble.Trouble.TheVariants.{Memory, Usage};

use crate::answer::answer_of;
use crate::check::check_of;
use crate::describe::{description_of, widened_of};
use crate::input::input_of;
use crate::output::{tell, write_out};
use crate::request::{Request, request_of};
use crate::trouble::Trouble;
use std::alloc::Global;
use std::io::{Read, Write};
use std::sync::Wait;
use std::thread::Threads;

/// Does what the words ask for, and gives the exit status. Output is written only once all of it is there; a fault's line goes to the second writer.
pub(crate) fn act<'a, T: Threads + Wait, R: Read + Drop, W: Write + Drop, F: Write + Drop>(
    rt: &T,
    alloc: Global,
    words: &'a [&'a str],
    reader: &mut R,
    writer: &mut W,
    faults: &mut F,
) -> u8
    // Status 0: what was written answers what the words ask for, and nothing is told.
    ensures answered { result ≡ 0 → AnswersWords (map (λ w. w.now) words.entry.now) (R.remaining reader.old) (W.contents writer.old) (W.contents writer.new)
        × Keeps (F.contents faults.old) (F.contents faults.new) }
    // Any other status: that of a trouble. A beginning of its line is told, and nothing is written but, where a write fails, a beginning of the answer.
    ensures failed { result ≢ 0 → Fails result (map (λ w. w.now) words.entry.now) (R.remaining reader.old) (R.remaining reader.new)
        (W.contents writer.old) (W.contents writer.new) (F.contents faults.old) (F.contents faults.new) }
    // Each request is taken, and is answered at status 0.
    ensures taken { (r : AnyRequest) → Asks r (map (λ w. w.now) words.entry.now)
        → (result ≢ 2) × (result ≡ 0 → Answers r (R.remaining reader.old) (W.contents writer.old) (W.contents writer.new)) }
    // Words that ask for nothing are refused, unless memory runs out.
    ensures refused { AskNothing (map (λ w. w.now) words.entry.now) → (result ≡ 2) ⊎ (result ≡ 3) }
    // Where a text with a fault was there to be read, the status is 1, unless memory runs out or the reader fails.
    ensures faulty { (r : AnyRequest) → Asks r (map (λ w. w.now) words.entry.now) → AsksOfScript r
        → IfSome (R.remaining reader.old) (λ text. IsSome (first_fault text)
        → (result ≡ 1) ⊎ (result ≡ 3) ⊎ ((result ≡ 4) × Keeps (W.contents writer.old) (W.contents writer.new))) }
    // A script, of one thread or of several, is answered by a text that it means: all of it at status 0, nothing at 3, and a beginning or nothing at 4. There is no other status.
    ensures means { WritesWhatIsMeant (map (λ w. w.now) words.entry.now) (R.remaining reader.old) (W.contents writer.old) (W.contents writer.new) result }
    // No more is read than a script may have, and one byte.
    ensures reads { ReadsAtMost 65537 (R.remaining reader.old) (R.remaining reader.new) }
    // A word is described, or widened, without reading.
    ensures unread { (w : ℕ) → asked_for (map (λ w. w.now) words.entry.now) ≡ Some (Word w) → R.remaining reader.new ≡ R.remaining reader.old }
    ensures unread_narrow { (w : ℕ) → asked_for (map (λ w. w.now) words.entry.now) ≡ Some (Widen w) → R.remaining reader.new ≡ R.remaining reader.old }
    // Nor is anything read where the words ask for nothing.
    ensures unasked { AskNothing (map (λ w. w.now) words.entry.now) → R.remaining reader.new ≡ R.remaining reader.old }
{
    match carried_out(rt, alloc, words, reader, writer) {
        Ok(()) => 0,
        Err(trouble) => tell(&trouble, faults),
    }
}

/// Does what the words ask for.
fn carried_out<'a, T: Threads + Wait, R: Read + Drop, W: Write + Drop>(
    rt: &T,
    alloc: Global,
    words: &'a [&'a str],
    reader: &mut R,
    writer: &mut W,
) -> Result<(), Trouble>
    ensures refused { AskNothing (map (λ w. w.now) words.entry.now) → IsErrAnd result (λ t. (t ≡ Memory) ⊎ (t ≡ Usage)) }
    ensures ok { OnOk result (AnswersWords (map (λ w. w.now) words.entry.now) (R.remaining reader.old) (W.contents writer.old) (W.contents writer.new)) }
    ensures err { IfErr result (λ t. LeavesWritten t (map (λ w. w.now) words.entry.now) (R.remaining reader.old) (R.remaining reader.new) (W.contents writer.old) (W.contents writer.new)) }
    ensures taken { (r : AnyRequest) → Asks r (map (λ w. w.now) words.entry.now) → IfErr result (λ t. status_of t ≢ 2) }
    ensures reads { ReadsAtMost 65537 (R.remaining reader.old) (R.remaining reader.new) }
    ensures unread { (w : ℕ) → asked_for (map (λ w. w.now) words.entry.now) ≡ Some (Word w) → R.remaining reader.new ≡ R.remaining reader.old }
    ensures unread_narrow { (w : ℕ) → asked_for (map (λ w. w.now) words.entry.now) ≡ Some (Widen w) → R.remaining reader.new ≡ R.remaining reader.old }
    ensures unasked { AskNothing (map (λ w. w.now) words.entry.now) → R.remaining reader.new ≡ R.remaining reader.old }
{
    let output = output_of(rt, alloc, words, reader)?;
    write_out(writer, &output)
}

/// The output of what the words ask for.
fn output_of<'a, T: Threads + Wait, R: Read + Drop>(
    rt: &T,
    alloc: Global,
    words: &'a [&'a str],
    reader: &mut R,
) -> Result<Vec<u8>, Trouble>
    ensures refused { AskNothing (map (λ w. w.now) words.entry.now) → IsErrAnd result (λ t. (t ≡ Memory) ⊎ (t ≡ Usage)) }
    ensures ok { IfOk result (λ output. IsOutputFor (map (λ w. w.now) words.entry.now) (R.remaining reader.old) output.items) }
    ensures err { IfErr result (λ t. Prevents t (map (λ w. w.now) words.entry.now) (R.remaining reader.old) (R.remaining reader.new)) }
    ensures taken { (r : AnyRequest) → Asks r (map (λ w. w.now) words.entry.now) → IfErr result (λ t. status_of t ≢ 2) }
    ensures reads { ReadsAtMost 65537 (R.remaining reader.old) (R.remaining reader.new) }
    ensures unread { (w : ℕ) → asked_for (map (λ w. w.now) words.entry.now) ≡ Some (Word w) → R.remaining reader.new ≡ R.remaining reader.old }
    ensures unread_narrow { (w : ℕ) → asked_for (map (λ w. w.now) words.entry.now) ≡ Some (Widen w) → R.remaining reader.new ≡ R.remaining reader.old }
    ensures unasked { AskNothing (map (λ w. w.now) words.entry.now) → R.remaining reader.new ≡ R.remaining reader.old }
{
    let request = request_of(alloc, words)?;
    reply_to(rt, alloc, request, reader)
}

/// The output of a request.
fn reply_to<T: Threads + Wait, R: Read + Drop>(
    rt: &T,
    alloc: Global,
    request: Request,
    reader: &mut R,
) -> Result<Vec<u8>, Trouble>
    ensures ok { IfOk result (λ output. IsOutput request (R.remaining reader.old) output.items) }
    ensures err { IfErr result (λ t. Stops t request (R.remaining reader.old) (R.remaining reader.new)) }
    ensures reads { ReadsAtMost 65537 (R.remaining reader.old) (R.remaining reader.new) }
    ensures unread { (w : ℕ) → request ≡ Word w → R.remaining reader.new ≡ R.remaining reader.old }
    ensures unread_narrow { (w : ℕ) → request ≡ Widen w → R.remaining reader.new ≡ R.remaining reader.old }
{
    match request {
        Request::Run => {
            let input = input_of(alloc, reader)?;
            answer_of(rt, alloc, &input)
        }
        Request::Check => {
            let input = input_of(alloc, reader)?;
            check_of(alloc, &input)
        }
        Request::Word(word) => line_of_word(alloc, word),
        Request::Widen(word) => line_of_widened(alloc, word),
    }
}

/// The line of a word.
fn line_of_word(alloc: Global, word: u64) -> Result<Vec<u8>, Trouble>
    ensures ok { IfOk result (λ output. Describes word output.items) }
    ensures err { IfErr result (λ t. t ≡ Memory) }
{
    match description_of(alloc, word) {
        Ok(text) => Ok(text.into_bytes()),
        Err(_) => Err(Trouble::Memory),
    }
}

/// The line of a word of the earlier layout.
fn line_of_widened(alloc: Global, word: u64) -> Result<Vec<u8>, Trouble>
    ensures ok { IfOk result (λ output. SaysWidened word output.items) }
    ensures err { IfErr result (λ t. t ≡ Memory) }
{
    let Ok(text) = widened_of(alloc, word) else {
        return Err(Trouble::Memory);
    };
    Ok(text.into_bytes())
}
