// The value that the figures of a line stand for. What is found is written back and compared, so nothing is accepted here.
ghost use Rattle.std.specs.Prelude.{◌≡◌, true, List, ◌++◌, ℕ, ◌≤◌, Some};
ghost use Rattle.sheet_line.specs.Lines.{may_hold, line_text};
ghost use Rattle.sheet_line.specs.Number.{base_of, value_for, Counts};

use crate::line::name;
use maintenance_pages::setting::Setting;

fn base_of(setting: Setting) -> u32
    ensures base { result ≡ base_of setting }
    ensures least { 2 ≤ result }
    ensures most { result ≤ 36 }
{
    match setting {
        Setting::ReceiveId | Setting::TransmitId => 16,
        _ => 10,
    }
}

// The number of the figures before the first line feed. Nothing is looked at past a byte that is no figure, or past a
// figure that makes more than 32 bits, so that a long row of bytes takes no longer than a line.
fn number(s: &[u8], setting: Setting) -> Option<u32>
    ensures { Counts (base_of setting) s.now result }
{
    let base = base_of(setting);
    let mut n: u32 = 0;
    for byte in s {
        if *byte == b'\n' {
            return Some(n);
        }
        let figure = char::from(*byte).to_digit(base)?;
        n = n.checked_mul(base)?.checked_add(figure)?;
    }
    None
}

// The value that is shown as a number.
fn value_for(setting: Setting, number: u32) -> u32
    ensures { result ≡ value_for setting number }
{
    match setting {
        Setting::Speed if number == 250 => 0x00CA0250,
        Setting::Speed => 0x00CA0500,
        _ => number,
    }
}

// The value of the line that the bytes begin with; where they begin with none, any value or none.
pub(crate) fn value_in(s: &[u8], setting: Setting) -> Option<u32>
    ensures { (v : ℕ) (rest : List ℕ) → may_hold setting v ≡ true → s.now ≡ line_text setting v ++ rest → result ≡ Some v }
{
    let figures = s.get(name(setting).len() + 1..)?;
    let shown = number(figures, setting)?;
    Some(value_for(setting, shown))
}
