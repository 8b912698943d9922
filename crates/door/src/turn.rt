// Programs that answer a row of questions: whether there is a next one, and with which word they end where there is
// none.
ghost use Rattle.std.specs.Prelude.{◌≡◌, length};
ghost use Rattle.door.specs.Reads.{ReadsThen};
ghost use Rattle.door.specs.Turns.{begun, gone_on, next_if};

use crate::{LastWord, ReadFailed, WriteFailed, read_input};
use std::io::Read;
use std::ops::ControlFlow;

// A program that answers a row of questions.
pub trait Answers {
    // Reads the next question and answers it; breaks with the last word where there is none, and where it could not
    // be read or answered.
    fn answer_next(&mut self) -> ControlFlow<LastWord>;

    // Answers question after question, up to the last word.
    fn answer_all(&mut self) -> LastWord {
        for _ in 0..u64::MAX {
            if let ControlFlow::Break(word) = self.answer_next() {
                return word;
            }
        }
        LastWord::Cut
    }
}

// After the first bytes of a question were read, which has so many: the input may end before it, and nowhere in it.
pub fn begin(input: Result<usize, ReadFailed>, whole: usize) -> ControlFlow<LastWord>
    ensures { result ≡ begun input whole }
{
    match input {
        Ok(0) => ControlFlow::Break(LastWord::Complete),
        _ => go_on(input, whole),
    }
}

// After further bytes of the same question were read.
pub fn go_on(input: Result<usize, ReadFailed>, whole: usize) -> ControlFlow<LastWord>
    ensures { result ≡ gone_on input whole }
{
    match input {
        Ok(n) if n < whole => ControlFlow::Break(LastWord::Refused),
        Ok(_) => ControlFlow::Continue(()),
        Err(_) => ControlFlow::Break(LastWord::Unread),
    }
}

// Reads the first bytes of a question, as many as the buffer has.
pub fn read_first<R: Read>(from: &mut R, buf: &mut [u8]) -> ControlFlow<LastWord>
    ensures { ReadsThen begun (length buf.old) (R.remaining from.old) (R.remaining from.new) buf.new result }
{
    let whole = buf.len();
    begin(read_input(from, buf), whole)
}

// Reads further bytes of the same question, as many as the buffer has.
pub fn read_further<R: Read>(from: &mut R, buf: &mut [u8]) -> ControlFlow<LastWord>
    ensures { ReadsThen gone_on (length buf.old) (R.remaining from.old) (R.remaining from.new) buf.new result }
{
    let whole = buf.len();
    go_on(read_input(from, buf), whole)
}

// After an answer: nothing follows one that could not be written.
pub fn next_if(written: Result<(), WriteFailed>) -> ControlFlow<LastWord>
    ensures { result ≡ next_if written }
{
    match written {
        Ok(()) => ControlFlow::Continue(()),
        Err(WriteFailed) => ControlFlow::Break(LastWord::Cut),
    }
}
