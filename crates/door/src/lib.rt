// The door of a program: what it reads its input with, and the last word that it ends with.
#![tactic(auto)]

ghost use Rattle.std.specs.Prelude.{◌≡◌, ◌+◌, ◌<◌, IfOk, length, take};
ghost use Rattle.std.specs.Io.KnownBytes.{Consumes, IsAtEnd};
ghost use Rattle.io.specs.Counts.{IsPrefixLen};
ghost use Rattle.door.specs.Words.{status_of};
ghost use Rattle.door.specs.Reads.{count_read};

use std::io::Read;

pub mod turn;

// ---- in

// A read failed, after so many bytes had been read.
#[derive(Clone, Copy, Debug, PartialEq, Eq)]
pub struct ReadFailed {
    pub after: usize,
}

// What a reader gives, a program's standard input, until it ends, the buffer is full or a read fails: how many bytes
// stand at the start of the buffer. A read that fails is not the end of the input.
pub fn read_input<R: Read>(from: &mut R, buf: &mut [u8]) -> Result<usize, ReadFailed>
    ensures bound { IsPrefixLen (count_read result) buf.new }
    ensures bytes { Consumes (R.remaining from.old) (R.remaining from.new) (take (count_read result) buf.new) }
    ensures end { IfOk result (λ n. n < length buf.new → IsAtEnd (R.remaining from.new)) }
{
    let mut n = 0;
    while n < buf.len() {
        match from.read(&mut buf[n..]) {
            Ok(0) => break,
            Ok(more) => n += more,
            Err(_) => return Err(ReadFailed { after: n }),
        }
    }
    Ok(n)
}

// ---- out

// The output could not be written to its end.
#[derive(Clone, Copy, Debug, PartialEq, Eq)]
pub struct WriteFailed;

// The first bytes of a text, and all of it if there are no more, on standard output.
pub fn write_first(text: &[u8], n: usize) -> Result<(), WriteFailed> {
    let first = text.get(..n).unwrap_or(text);
    if io::write_all(1, first) {
        return Ok(());
    }
    Err(WriteFailed)
}

// ---- the last word

// How a program ended: all was read, answered and written; something is refused, or the answer is no; the input
// could not be read; the output could not be written to its end.
#[derive(Clone, Copy, Debug, PartialEq, Eq)]
pub enum LastWord {
    Complete,
    Refused,
    Unread,
    Cut,
}

// The figure of a last word, which is also the status that `run` ends with.
fn figure(word: LastWord) -> u8
    ensures { result ≡ 48 + status_of word }
{
    b'0' + word as u8
}

// Says what went wrong, in a line on standard error, and then the word's figure on descriptor 9. Every program ends
// with this, after its last write: where no figure comes, what it wrote is cut.
pub fn close(word: LastWord) {
    match word {
        LastWord::Complete | LastWord::Refused => {}
        LastWord::Unread => {
            io::write_all(2, b"standard input could not be read\n");
        }
        LastWord::Cut => {
            io::write_all(2, b"the output could not be written to its end\n");
        }
    }
    io::write_all(9, &[figure(word)]);
}
