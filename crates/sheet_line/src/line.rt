// One line of a sheet: the name of a setting, one space, its value, a line feed.
ghost use Rattle.std.specs.Prelude.{◌≡◌};
ghost use Rattle.text.specs.Puts.{Puts};
ghost use Rattle.sheet_line.specs.Lines.{name_of, figures_of, line_text, may_hold};

use maintenance::setting::{is_legal, speed_number};
use maintenance_pages::setting::Setting;
use text::Text;

// Whether a sheet may hold the value.
pub fn may_hold(setting: Setting, value: u32) -> bool
    ensures { result ≡ may_hold setting value }
{
    match setting {
        Setting::Voltage => value <= 65534,
        _ => is_legal(65535, setting, value),
    }
}

pub(crate) fn name(setting: Setting) -> &'static [u8]
    ensures { result.now ≡ name_of setting }
{
    match setting {
        Setting::ReceiveId => b"rx",
        Setting::TransmitId => b"tx",
        Setting::Speed => b"speed",
        Setting::Voltage => b"voltage",
        Setting::WarningLevel => b"warning",
        Setting::FaultLevel => b"fault",
    }
}

fn figures(text: &mut Text, setting: Setting, value: u32)
    ensures { Puts text.old (figures_of setting value) text.new }
{
    match setting {
        Setting::ReceiveId | Setting::TransmitId => text.hex8(value),
        Setting::Speed => text.decimal(speed_number(value)),
        _ => text.decimal(value),
    }
}

// Compiled into its callers: each line that is read is put again, to be compared.
#[inline(always)]
pub fn line(text: &mut Text, setting: Setting, value: u32)
    ensures { Puts text.old (line_text setting value) text.new }
{
    text.bytes(name(setting));
    text.byte(b' ');
    figures(text, setting, value);
    text.byte(b'\n');
}
