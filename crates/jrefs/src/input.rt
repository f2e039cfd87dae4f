//! The program's input.

ghost use Rattle.std.specs.Prelude.{◌≡◌, ◌≤◌, ◌<◌, ◌-◌, ◌++◌, ◌⊎◌, ℕ, List, length, take, IfOk, IfErr, IfSome, OnErr};
ghost use Rattle.std.specs.Io.KnownBytes.{Consumes, IsAtEnd, Keeps};
ghost use Rattle.jrefs.specs.Act.{ReadsAtMost};
ghost use Rattle.jrefs.specs.declared.trouble.Trouble.TheVariants.{Memory, Input};

use crate::trouble::Trouble;
use std::alloc::Global;
use std::io::{ErrorKind, Read};

/// How many bytes of the input are read at most: one more than a script may have.
const MOST_INPUT: usize = 65_537;

/// How many bytes are asked for at a time.
const PIECE: usize = 4_096;

/// Reads into a buffer, and gives how many bytes that took. A read that was interrupted is made again.
fn read_into<R: Read + Drop>(reader: &mut R, buffer: &mut [u8]) -> Result<usize, Trouble>
    ensures ok { IfOk result (λ n. (n ≤ length buffer.new) × Consumes (R.remaining reader.old) (R.remaining reader.new) (take n buffer.new)) }
    ensures end { IfOk result (λ n. n ≡ 0 → 0 < length buffer.new → IsAtEnd (R.remaining reader.new)) }
    ensures err { IfErr result (λ t. t ≡ Input) }
    ensures failed { OnErr result (Keeps (R.remaining reader.old) (R.remaining reader.new)) }
{
    for _ in 0..u64::MAX {
        match reader.read(buffer) {
            Ok(count) => return Ok(count),
            Err(error) if error.kind() == ErrorKind::Interrupted => {}
            Err(_) => return Err(Trouble::Input),
        }
    }
    Err(Trouble::Input)
}

/// Reads once, appends what was read, and gives how many bytes that was: 0 at the end of the input.
fn read_piece<R: Read + Drop>(reader: &mut R, input: &mut Vec<u8>) -> Result<usize, Trouble>
    requires { length input.old.items < MOST_INPUT }
    ensures ok { IfOk result (λ n. (more : List ℕ) × (length more ≡ n) × (input.new.items ≡ input.old.items ++ more)
        × Consumes (R.remaining reader.old) (R.remaining reader.new) more) }
    ensures most { IfOk result (λ n. length input.new.items ≤ MOST_INPUT) }
    ensures end { IfOk result (λ n. n ≡ 0 → IsAtEnd (R.remaining reader.new)) }
    ensures err { IfErr result (λ t. (t ≡ Memory) ⊎ (t ≡ Input)) }
    // A read that fails takes nothing.
    ensures failed { IfErr result (λ t. t ≡ Input → Keeps (R.remaining reader.old) (R.remaining reader.new)) }
    ensures refused { OnErr result (ReadsAtMost (MOST_INPUT - length input.old.items) (R.remaining reader.old) (R.remaining reader.new)) }
{
    let mut piece = [0u8; PIECE];
    let room = (MOST_INPUT - input.len()).min(PIECE);
    let count = read_into(reader, &mut piece[..room])?;
    if input.extend_from_slice(&piece[..count]).is_err() {
        return Err(Trouble::Memory);
    }
    Ok(count)
}

/// What a reader gives, as far as a script may go and one byte more.
pub(crate) fn input_of<R: Read + Drop>(alloc: Global, reader: &mut R) -> Result<Vec<u8>, Trouble>
    ensures ok { IfOk result (λ input. IfSome (R.remaining reader.old) (λ bytes. input.items ≡ take MOST_INPUT bytes)) }
    ensures err { IfErr result (λ t. (t ≡ Memory) ⊎ (t ≡ Input)) }
    ensures reads { ReadsAtMost MOST_INPUT (R.remaining reader.old) (R.remaining reader.new) }
    // A read that fails is one before the limit.
    ensures failed { IfErr result (λ t. t ≡ Input → ReadsAtMost (MOST_INPUT - 1) (R.remaining reader.old) (R.remaining reader.new)) }
{
    let mut input = Vec::new(alloc);
    while input.len() < MOST_INPUT {
        if read_piece(reader, &mut input)? == 0 {
            return Ok(input);
        }
    }
    Ok(input)
}
