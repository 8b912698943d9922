// Reads an order sheet: the sheet on standard input, the same bytes or `refused 11` and the line that is wrong on
// standard output.
#![tactic(auto)]

ghost use Rattle.sheet_main.specs.LastWord.{SaidOfSheet};

use door::LastWord;
use sheet::output::output;
use sheet::reading::read;

// The last word of bytes whose output was written.
fn last_word(s: &[u8]) -> LastWord
    ensures { SaidOfSheet s.now result }
{
    match read(s) {
        Ok(_) => LastWord::Complete,
        Err(_) => LastWord::Refused,
    }
}

// Writes the sheet, or what is wrong with it.
fn write_output(s: &[u8], text: &mut [u8]) -> LastWord
    ensures { SaidOfSheet s.now result }
{
    let end = output(s, text);
    match door::write_first(text, end) {
        Ok(()) => last_word(s),
        Err(_) => LastWord::Cut,
    }
}

// One byte more than the longest sheet is read, and nothing that is written is longer than the buffer. Nothing is
// written of an input that could not be read.
fn main(rt: HostRuntime) {
    let mut stdin = rt.stdin();
    let mut bytes = [0; 85];
    let mut text = [0; 200];
    let word = match door::read_input(&mut stdin, &mut bytes) {
        Ok(n) => write_output(&bytes[..n], &mut text),
        Err(_) => LastWord::Unread,
    };
    door::close(word);
}
