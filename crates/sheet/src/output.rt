// What the program writes: the sheet, or which line is wrong and what was expected there.
ghost use Rattle.std.specs.Prelude.{◌≡◌};
ghost use Rattle.text.specs.Puts.{Puts};
ghost use Rattle.sheet.specs.Output.{expected_at, expected_line, output_by, Outputs};

use crate::reading::{WrongLine, judge};
use crate::writing::sheet;
use maintenance_pages::setting::Settings;
use refusal::Refusal;
use text::Text;

// What was expected at a line.
fn expected(line: WrongLine) -> &'static [u8]
    ensures { result.now ≡ expected_at line.0 }
{
    match line.0 {
        1 => b"'rx', one space, eight capital hex digits at most 1FFFFFFF, and a line feed",
        2 => b"'tx', one space, eight capital hex digits at most 1FFFFFFF, and a line feed",
        3 => b"'speed', one space, 250 or 500, and a line feed",
        4 =>
            b"'voltage', one space, whole volts from 0 to 65534 (no comma or dot, no leading zero), and a line feed",
        5 =>
            b"'warning', one space, whole Ohm/V from 1 to 2147483647 (no comma or dot, no leading zero), and a line feed",
        6 =>
            b"'fault', one space, whole Ohm/V from 1 to 2147483647 (no comma or dot, no leading zero), and a line feed",
        _ => b"nothing: a sheet has six lines",
    }
}

fn expected_line(text: &mut Text, line: WrongLine)
    ensures { Puts text.old (expected_line line.0) text.new }
{
    text.bytes(b"line ");
    text.decimal(line.0 as u32);
    text.bytes(b": expected ");
    text.bytes(expected(line));
    text.byte(b'\n');
}

// The sheet, or the line of the refusal and what was expected at the line that is wrong.
fn judged_text(text: &mut Text, judged: Result<Settings, WrongLine>)
    ensures { Puts text.old (output_by judged) text.new }
{
    match judged {
        Ok(k) => sheet(text, k),
        Err(line) => {
            text.refused_line(Refusal::WrongSheet);
            expected_line(text, line);
        }
    }
}

// The sheet written back, or what is wrong with it, from the start of a buffer.
pub fn output(s: &[u8], out: &mut [u8]) -> usize
    ensures { Outputs s.now out.old result out.new }
{
    let mut text = Text::new(out, 0);
    judged_text(&mut text, judge(s));
    text.end()
}
