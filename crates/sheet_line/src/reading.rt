// A line of a sheet looked for in bytes.
ghost use Rattle.text.specs.Put.{Put};
ghost use Rattle.sheet_line.specs.Lines.{line_text};
ghost use Rattle.sheet_line.specs.Reading.{ReadsLine};

use crate::line::{line, may_hold};
use crate::number::value_in;
use maintenance_pages::setting::Setting;
use text::Text;

// A line that is there: its value, and the place after it.
#[derive(Clone, Copy, PartialEq, Eq, Debug)]
pub struct Line {
    pub value: u32,
    pub next: usize,
}

// The line of a value in a lent buffer from its start, and where it ends.
fn written(out: &mut [u8], setting: Setting, value: u32) -> usize
    ensures { Put out.old 0 (line_text setting value) result out.new }
{
    let mut text = Text::new(out, 0);
    line(&mut text, setting, value);
    text.end()
}

// The line of a setting from a place on: the line of the value that its figures stand for, if that line stands there.
pub fn read_line(s: &[u8], at: usize, setting: Setting) -> Option<Line>
    ensures { ReadsLine setting s.now at result }
{
    let rest = s.get(at..)?;
    let value = value_in(rest, setting)?;
    let mut text = [0; 20];
    let n = written(&mut text, setting, value);
    let same = rest.starts_with(&text[..n]);
    if may_hold(setting, value) & same {
        Some(Line {
            value,
            next: at + n,
        })
    } else {
        None
    }
}
