// Replays a closed bench log: the log on standard input, its listing or the line `refused N` on standard output.
#![tactic(auto)]

ghost use Rattle.std.specs.Prelude.{◌≡◌};
ghost use Rattle.replay.specs.LastWord.{word_on, SaidOfLog};

use door::LastWord;
use listing::output::{Rest, next_part, whole};

// The last word where nothing more is written: by whether the log is accepted if nothing is left, and cut if something is.
fn last_word(rest: Rest) -> LastWord
    ensures { result ≡ word_on rest }
{
    match rest {
        Rest::Over(Ok(_)) => LastWord::Complete,
        Rest::Over(Err(_)) => LastWord::Refused,
        _ => LastWord::Cut,
    }
}

// Writes the output of a log, part by part. 18 parts are always all of it. Where one cannot be written none
// follows, so that what is written is the beginning of the output and never has a hole.
fn write_parts(s: &[u8], text: &mut [u8]) -> LastWord
    ensures { SaidOfLog s.now result }
{
    let mut rest = whole(s);
    for _ in 0..18u32 {
        if let Rest::Over(_) = rest {
            return last_word(rest);
        }
        let part = next_part(s, rest, text);
        if door::write_first(text, part.end).is_err() {
            return LastWord::Cut;
        }
        rest = part.rest;
    }
    last_word(rest)
}

// One byte more than the longest log is read, and the buffer for the text holds every part. Nothing is written of
// an input that could not be read.
fn main(rt: HostRuntime) {
    let mut stdin = rt.stdin();
    let mut log = [0; 64161];
    let mut text = [0; 8192];
    let word = match door::read_input(&mut stdin, &mut log) {
        Ok(n) => write_parts(&log[..n], &mut text),
        Err(_) => LastWord::Unread,
    };
    door::close(word);
}
