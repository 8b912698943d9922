// A sheet read: the six settings, or the first line that is wrong.
ghost use Rattle.sheet.specs.Sheet.{Judges, Reads};

use maintenance_pages::setting::{Setting, Settings};
use refusal::Refusal;
use sheet_line::reading::read_line;

// The first line that is wrong, counted from 1; 7 is what stands after the sixth.
#[derive(Clone, Copy, PartialEq, Eq, Debug)]
pub struct WrongLine(pub u8);

// The settings of a sheet, or its first wrong line. Six lines, and nothing after.
pub fn judge(s: &[u8]) -> Result<Settings, WrongLine>
    ensures { Judges s.now result }
{
    let receive = read_line(s, 0, Setting::ReceiveId).ok_or(WrongLine(1))?;
    let transmit = read_line(s, receive.next, Setting::TransmitId).ok_or(WrongLine(2))?;
    let speed = read_line(s, transmit.next, Setting::Speed).ok_or(WrongLine(3))?;
    let voltage = read_line(s, speed.next, Setting::Voltage).ok_or(WrongLine(4))?;
    let warning = read_line(s, voltage.next, Setting::WarningLevel).ok_or(WrongLine(5))?;
    let fault = read_line(s, warning.next, Setting::FaultLevel).ok_or(WrongLine(6))?;
    if fault.next < s.len() {
        return Err(WrongLine(7));
    }
    Ok(Settings {
        receive: receive.value,
        transmit: transmit.value,
        speed: speed.value,
        voltage: voltage.value,
        warning: warning.value,
        fault: fault.value,
    })
}

// A sheet's settings, or 11.
pub fn read(s: &[u8]) -> Result<Settings, Refusal>
    ensures { Reads s.now result }
{
    judge(s).map_err(|_| Refusal::WrongSheet)
}
