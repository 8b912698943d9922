// Settings written into a lent buffer.
ghost use Rattle.std.specs.Prelude.{◌≡◌};
ghost use Rattle.text.specs.Put.{Put};
ghost use Rattle.text.specs.Puts.{Puts};
ghost use Rattle.sheet.specs.Sheet.{is_legal, sheet_text, SheetWritten};

use maintenance::setting::value_of;
use maintenance_pages::setting::{Setting, Settings};
use refusal::Refusal;
use sheet_line::line::{line, may_hold};
use text::Text;

// The settings in the order of their lines.
const LINES: [Setting; 6] = [
    Setting::ReceiveId,
    Setting::TransmitId,
    Setting::Speed,
    Setting::Voltage,
    Setting::WarningLevel,
    Setting::FaultLevel,
];

// Whether a sheet may hold the settings.
pub fn is_legal(k: Settings) -> bool
    ensures { result ≡ is_legal k }
{
    LINES
        .iter()
        .all(|&setting| may_hold(setting, value_of(k, setting)))
}

// The text of a sheet.
pub(crate) fn sheet(text: &mut Text, k: Settings)
    ensures { Puts text.old (sheet_text k) text.new }
{
    for setting in LINES {
        line(text, setting, value_of(k, setting));
    }
}

// The text of a sheet in a buffer from its start, and where it ends.
fn written(k: Settings, out: &mut [u8]) -> usize
    ensures { Put out.old 0 (sheet_text k) result out.new }
{
    let mut text = Text::new(out, 0);
    sheet(&mut text, k);
    text.end()
}

// The settings as a sheet in a lent buffer: 11 for values that no sheet may hold, then 12 where the buffer is shorter than the text.
pub fn write(k: Settings, out: &mut [u8]) -> Result<usize, Refusal>
    ensures { SheetWritten k out.old result out.new }
{
    if !is_legal(k) {
        return Err(Refusal::WrongSheet);
    }
    let mut longest = [0; 84];
    let n = written(k, &mut longest);
    if out.len() < n {
        return Err(Refusal::ShortBuffer);
    }
    out[..n].copy_from_slice(&longest[..n]);
    Ok(n)
}
