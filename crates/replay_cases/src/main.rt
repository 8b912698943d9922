// Answers the log cases on standard input, as docs/LOG_CASES.md lays them out, each by its listing or a line
// `refused N`.
#![tactic(auto)]

use door::turn::{Answers, next_if, read_first, read_further};
use door::{LastWord, WriteFailed, write_first};
use listing::listing::listing;
use std::io::Stdin;
use std::ops::ControlFlow;
use text::Text;
use words::Order;
use words::word::word_at;

// Writes the answer to one log and one room.
fn answer(log: &[u8], text: &mut [u8]) -> Result<(), WriteFailed> {
    let listed = listing(log, text);
    match listed {
        Ok(n) => write_first(text, n),
        Err(why) => {
            let mut bytes = [0; 16];
            let mut line = Text::new(&mut bytes, 0);
            line.refused_line(why);
            let n = line.end();
            write_first(&bytes, n)
        }
    }
}

// The cases on standard input, and room for the longest log and the longest text that one may have.
#[derive(Drop)]
struct Cases {
    stdin: Stdin,
    log: [u8; 65535],
    text: [u8; 138057],
}

impl Answers for Cases {
    // A case is read and answered, up to one that asks nothing known.
    fn answer_next(&mut self) -> ControlFlow<LastWord> {
        let mut head = [0; 8];
        read_first(&mut self.stdin, &mut head)?;
        let length = word_at::<u32, 4>(Order::Big, &head, 0) as usize;
        let room = word_at::<u32, 4>(Order::Big, &head, 4) as usize;
        match (self.log.get_mut(..length), self.text.get_mut(..room)) {
            (Some(log), Some(text)) => {
                read_further(&mut self.stdin, log)?;
                next_if(answer(log, text))
            }
            _ => ControlFlow::Break(LastWord::Refused),
        }
    }
}

fn main(rt: HostRuntime) {
    let mut cases = Cases {
        stdin: rt.stdin(),
        log: [0; 65535],
        text: [0; 138057],
    };
    door::close(cases.answer_all());
}
