// Answers the sheet cases on standard input, as docs/SHEET_CASES.md lays them out.
#![tactic(auto, using(show::proofs::Adding::added_twice))]

ghost use Rattle.std.specs.Prelude.{◌≡◌};
ghost use Rattle.show.specs.Lines.{Adds};
ghost use Rattle.sheet_cases.specs.Lines.{setting_text, sheet_line, wrong_text, WrongAnswer, SheetAnswer, after_buffer, settings_asked};

use door::turn::{Answers, next_if, read_first, read_further};
use door::{LastWord, WriteFailed, write_first};
use maintenance_pages::setting::Settings;
use refusal::Refusal;
use sheet::reading::{WrongLine, judge, read};
use sheet::writing::write;
use show::Line;
use std::io::Stdin;
use std::ops::ControlFlow;
use words::Order;
use words::word::{Word, word_at};

// ---- to be read

// A setting in eight hexadecimal digits after one space.
fn setting(line: &mut Line, value: u32)
    ensures { Adds line.old (setting_text value) line.new }
{
    line.byte(b' ');
    line.hex8(value);
}

fn settings(line: &mut Line, k: Settings)
    ensures { Adds line.old (sheet_line k) line.new }
{
    line.text(b"sheet");
    setting(line, k.receive);
    setting(line, k.transmit);
    setting(line, k.speed);
    setting(line, k.voltage);
    setting(line, k.warning);
    setting(line, k.fault);
    line.end();
}

fn wrong(line: &mut Line, judged: Result<Settings, WrongLine>)
    ensures { Adds line.old (wrong_text judged) line.new }
{
    match judged {
        Ok(_) => line.text(b" no line is wrong"),
        Err(place) => line.value(place.0 as u32),
    }
}

// The number of the refusal and the first line that is wrong.
fn refused(line: &mut Line, why: Refusal, s: &[u8])
    ensures { WrongAnswer s.now why line.old line.new }
{
    line.decimal(u32::from(u8::from(why)));
    wrong(line, judge(s));
    line.end();
}

fn answer_read(line: &mut Line, s: &[u8])
    ensures { SheetAnswer s.now line.old line.new }
{
    match read(s) {
        Ok(k) => settings(line, k),
        Err(why) => refused(line, why, s),
    }
}

// ---- to be written

// What follows the buffer. A text has at most 84 bytes.
fn after_buffer(line: &mut Line, answer: Result<usize, Refusal>)
    ensures { Adds line.old (after_buffer answer) line.new }
{
    line.end();
    match answer {
        Ok(n) => {
            line.text(b"text");
            line.value((n % 65536) as u32);
        }
        Err(why) => line.refused(why),
    }
    line.end();
}

// Writes the whole buffer as it is after the call, then the answer.
fn answer_written(k: Settings, out: &mut [u8]) -> Result<(), WriteFailed> {
    let mut line = Line::empty();
    after_buffer(&mut line, write(k, out));
    write_first(out, out.len())?;
    line.write()
}

fn settings_in(r: [u8; 26]) -> Settings
    ensures { result ≡ settings_asked r }
{
    Settings {
        receive: word_at(Order::Big, &r, 0),
        transmit: word_at(Order::Big, &r, 4),
        speed: word_at(Order::Big, &r, 8),
        voltage: word_at(Order::Big, &r, 12),
        warning: word_at(Order::Big, &r, 16),
        fault: word_at(Order::Big, &r, 20),
    }
}

// A buffer of full stops is lent. A function that may return before it makes a buffer clears it first, so this one is apart.
fn answer_room(r: [u8; 26]) -> ControlFlow<LastWord> {
    let mut stops = [46; 4095];
    let room = usize::from(word_at::<u16, 2>(Order::Big, &r, 24));
    let Some(out) = stops.get_mut(..room) else {
        return ControlFlow::Break(LastWord::Refused);
    };
    next_if(answer_written(settings_in(r), out))
}

// ---- each case

// The cases on standard input, and room for the longest bytes to be read.
#[derive(Drop)]
struct Cases {
    stdin: Stdin,
    longest: [u8; 4095],
}

impl Cases {
    // Bytes to be read are answered.
    fn answer_bytes(&mut self) -> ControlFlow<LastWord> {
        let mut head = [0; 2];
        read_further(&mut self.stdin, &mut head)?;
        let length = usize::from(u16::from_bytes(Order::Big, head));
        let Some(s) = self.longest.get_mut(..length) else {
            return ControlFlow::Break(LastWord::Refused);
        };
        read_further(&mut self.stdin, s)?;
        let mut line = Line::empty();
        answer_read(&mut line, s);
        next_if(line.write())
    }

    // Settings to be written are answered.
    fn answer_settings(&mut self) -> ControlFlow<LastWord> {
        let mut r = [0; 26];
        read_further(&mut self.stdin, &mut r)?;
        answer_room(r)
    }
}

impl Answers for Cases {
    // A case is read and answered, up to one that asks nothing known.
    fn answer_next(&mut self) -> ControlFlow<LastWord> {
        let mut kind = [0; 1];
        read_first(&mut self.stdin, &mut kind)?;
        match kind[0] {
            0 => self.answer_bytes(),
            1 => self.answer_settings(),
            _ => ControlFlow::Break(LastWord::Refused),
        }
    }
}

fn main(rt: HostRuntime) {
    let mut cases = Cases {
        stdin: rt.stdin(),
        longest: [0; 4095],
    };
    door::close(cases.answer_all());
}
