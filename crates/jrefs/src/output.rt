//! What the program writes.

ghost use Rattle.std.specs.Prelude.{◌≡◌, ◌≤◌, length, take, IfOk, IfErr, OnOk, OnErr};
ghost use Rattle.std.specs.Io.KnownBytes.{Appends, Keeps};
ghost use Rattle.jrefs.specs.Act.{AppendsBeginning};
ghost use Rattle.jrefs.specs.Trouble.{status_of, trouble_line};
ghost use Rattle.jrefs.specs.declared.trouble.Trouble.TheVariants.{Output};

use crate::trouble::Trouble;
use arrayvec::ArrayVec;
use std::io::{ErrorKind, Write};

/// How many bytes the line of a trouble has at most.
const LINE: usize = 80;

/// Writes once, and gives how many bytes that took: none where it was interrupted.
fn write_piece<W: Write + Drop>(writer: &mut W, bytes: &[u8]) -> Result<usize, Trouble>
    ensures most { IfOk result (λ n. n ≤ length bytes.now) }
    ensures ok { IfOk result (λ n. Appends (W.contents writer.old) (W.contents writer.new) (take n bytes.now)) }
    ensures failed { OnErr result (Keeps (W.contents writer.old) (W.contents writer.new)) }
    ensures err { IfErr result (λ t. t ≡ Output) }
{
    match writer.write(bytes) {
        Ok(0) => Err(Trouble::Output),
        Ok(count) => Ok(count),
        Err(error) if error.kind() == ErrorKind::Interrupted => Ok(0),
        Err(_) => Err(Trouble::Output),
    }
}

/// Writes all of the bytes, and flushes. Where that fails, a beginning of them was written.
pub(crate) fn write_out<W: Write + Drop>(writer: &mut W, bytes: &[u8]) -> Result<(), Trouble>
    ensures ok { OnOk result (Appends (W.contents writer.old) (W.contents writer.new) bytes.now) }
    ensures cut_off { OnErr result (AppendsBeginning (W.contents writer.old) (W.contents writer.new) bytes.now) }
    ensures err { IfErr result (λ t. t ≡ Output) }
{
    let mut done = 0;
    for _ in 0..u64::MAX {
        if done == bytes.len() {
            return writer.flush().map_err(|_| Trouble::Output);
        }
        done += write_piece(writer, &bytes[done..])?;
    }
    Err(Trouble::Output)
}

/// Writes why the program failed, in a line. It takes no memory.
fn write_trouble<F: Write + Drop>(trouble: &Trouble, faults: &mut F) -> Result<(), Trouble>
    ensures { AppendsBeginning (F.contents faults.old) (F.contents faults.new) (trouble_line trouble.now) }
{
    let mut line = ArrayVec::<u8, LINE>::new();
    writeln!(line, "{trouble}").map_err(|_| Trouble::Output)?;
    write_out(faults, line.as_slice())
}

/// Writes why the program failed, and gives its exit status, also where the writer fails.
pub(crate) fn tell<F: Write + Drop>(trouble: &Trouble, faults: &mut F) -> u8
    ensures status { result ≡ status_of trouble.now }
    ensures told { AppendsBeginning (F.contents faults.old) (F.contents faults.new) (trouble_line trouble.now) }
{
    let _ = write_trouble(trouble, faults);
    trouble.status()
}
