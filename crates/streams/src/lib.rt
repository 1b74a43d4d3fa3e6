// Reading a table from standard input and writing to standard output, for both programs. At most 4,449 bytes are read, one more than the longest
// table has, so that a longer input is refused for its length and not cut to a table. The reader and the writers are the caller's. Of one whose bytes
// are known it is proved which bytes are read and written; of the system's own streams no contract can say that. Here it is proved of each that the
// count fits and that reading ends.
#![tactic(auto)]

ghost use Rattle.std.specs.Prelude.{◌≡◌, ◌≢◌, ◌⊎◌, length, take, OnOk, IfOk, IfErr};
ghost use Rattle.std.specs.Io.KnownBytes.{Appends, Consumes, IsAtEnd};
ghost use Rattle.std.specs.IoError.{error_kind};
ghost use Rattle.io.specs.Counts.{IsPrefixLen};
ghost use Rattle.streams.specs.Counted.{count_of, part_of, PartCounts};
ghost use Rattle.streams.specs.Known.{PartReads, PartReason};
ghost use Rattle.streams.specs.declared.Failed.TheVariants.{Reading, Writing};

use std::io;
use std::io::{ErrorKind, Write};

// A read that failed: so many bytes came before it, and they are no table.
#[derive(Clone, Copy)]
pub struct Unread {
    pub count: usize,
    pub reason: io::Error,
}

// Why a program failed: in reading its table, or in writing what it made of it.
#[derive(Clone, Copy)]
pub enum Failed {
    Reading(Unread),
    Writing(io::Error),
}

impl From<Unread> for Failed {
    ghost from_gives = { λ unread failed. failed ≡ Reading unread };

    fn from(unread: Unread) -> Failed {
        Failed::Reading(unread)
    }
}

impl From<io::Error> for Failed {
    ghost from_gives = { λ reason failed. failed ≡ Writing reason };

    fn from(reason: io::Error) -> Failed {
        Failed::Writing(reason)
    }
}

// What one read brought, or why it brought nothing.
#[derive(Clone, Copy)]
enum Part {
    Bytes(usize),
    End,
    Interrupted(io::Error),
    Failed(io::Error),
}

// What a read answers that brought bytes or none, or that failed, perhaps because a signal interrupted it.
fn part_of(read: io::Result<usize>) -> Part
    ensures value { result ≡ part_of read }
    ensures part_counts { IfOk read (λ n. PartCounts result n) }
    ensures reason { PartReason result }
{
    match read {
        Ok(0) => Part::End,
        Ok(n) => Part::Bytes(n),
        Err(reason) if reason.kind() == ErrorKind::Interrupted => Part::Interrupted(reason),
        Err(reason) => Part::Failed(reason),
    }
}

// Reads once. A pipe may deliver fewer bytes than there is room for.
fn read_part<R: io::Read>(input: &mut R, part: &mut [u8]) -> Part
    ensures counts { PartCounts result (length part.old) }
    ensures bytes { PartReads (R.remaining input.old) (R.remaining input.new) result part.new }
    ensures reason { PartReason result }
{
    part_of(input.read(part))
}

// Reads until the input ends or the buffer is full, and answers how many bytes came. A read that a signal interrupts is made again, and is never
// the reason of a failure. A proved loop has to end, so its turns are counted, up to a number that no run reaches.
fn read_all<R: io::Read>(input: &mut R, table: &mut [u8; 4449]) -> Result<usize, Unread>
    ensures counts { IsPrefixLen (count_of result) table.new }
    ensures bytes { Consumes (R.remaining input.old) (R.remaining input.new) (take (count_of result) table.new) }
    ensures all { IfOk result (λ n. (n ≡ 4449) ⊎ IsAtEnd (R.remaining input.new)) }
    ensures retried { IfErr result (λ unread. error_kind unread.reason ≢ ErrorKind.Interrupted) }
{
    let bytes: &mut [u8] = table;
    let mut count = 0;
    for _ in 0..u64::MAX {
        if bytes.len() <= count {
            return Ok(count);
        }
        match read_part(input, &mut bytes[count..]) {
            Part::Bytes(n) => count += n,
            Part::End => return Ok(count),
            Part::Interrupted(_) => continue,
            Part::Failed(reason) => return Err(Unread { count, reason }),
        }
    }
    let reason = io::Error::from(ErrorKind::TimedOut);
    Err(Unread { count, reason })
}

// Writes the line `why` with the reason.
fn tell<E: io::Write>(errors: &mut E, why: &[u8], reason: io::Error) -> io::Result<()> {
    errors.write_all(why)?;
    writeln!(errors, ": {reason}")
}

// Reads a table into the program's buffer, which is not on the heap, and answers how many bytes came. Where that fails, the line `why` with the
// system's reason goes to `errors`; where that fails too, there is nobody left to tell.
pub fn read_table<R: io::Read, E: io::Write>(
    input: &mut R,
    errors: &mut E,
    table: &mut [u8; 4449],
    why: &[u8],
) -> Result<usize, Unread>
    ensures counts { IsPrefixLen (count_of result) table.new }
    ensures bytes { Consumes (R.remaining input.old) (R.remaining input.new) (take (count_of result) table.new) }
    ensures all { IfOk result (λ n. (n ≡ 4449) ⊎ IsAtEnd (R.remaining input.new)) }
    ensures retried { IfErr result (λ unread. error_kind unread.reason ≢ ErrorKind.Interrupted) }
    ensures quiet { OnOk result (errors.new ≡ errors.old) }
{
    let read = read_all(input, table);
    if let Err(unread) = &read {
        let _ = tell(errors, why, unread.reason);
    }
    read
}

// Writes the bytes. Where that fails, the line `why` with the system's reason goes to `errors`, as above.
pub fn write_all<W: io::Write, E: io::Write>(
    output: &mut W,
    errors: &mut E,
    bytes: &[u8],
    why: &[u8],
) -> io::Result<()>
    ensures bytes { OnOk result (Appends (W.contents output.old) (W.contents output.new) bytes.now) }
    ensures quiet { OnOk result (errors.new ≡ errors.old) }
{
    let written = output.write_all(bytes);
    if let Err(reason) = &written {
        let _ = tell(errors, why, *reason);
    }
    written
}
