// The six settings: their codes, which values are legal, and those that power-on accepts.
ghost use Rattle.std.specs.Prelude.{◌≡◌};
ghost use Rattle.maintenance_pages.specs.Settings.{setting_of, legal, accepted, value_of, with_value, speed_number};

use maintenance_pages::setting::{Setting, Settings};
use std::hint::select_unpredictable;

pub(crate) fn setting_of(code: u8) -> Option<Setting>
    ensures { result ≡ setting_of code }
{
    match code {
        0x15 => Some(Setting::ReceiveId),
        0x16 => Some(Setting::TransmitId),
        0x17 => Some(Setting::Speed),
        0x18 => Some(Setting::Voltage),
        0x19 => Some(Setting::WarningLevel),
        0x20 => Some(Setting::FaultLevel),
        _ => None,
    }
}

// ---- by the setting, without a branch: which setting a message is about cannot be foreseen, and a branch on it is taken wrongly more often than not

// Whether a write of the value is legal, for a monitor of that rating.
pub fn is_legal(rating: u16, setting: Setting, value: u32) -> bool
    ensures { result ≡ legal rating setting value }
{
    let identifier = value <= 0x1FFFFFFF;
    let speed = (value == 0x00CA0250) | (value == 0x00CA0500);
    let voltage = (value >= 1) & (value < rating as u32);
    let level = (value >= 1) & (value <= 2147483647);
    let above = select_unpredictable(setting == Setting::Voltage, voltage, level);
    let other = select_unpredictable(setting == Setting::Speed, speed, above);
    let second = select_unpredictable(setting == Setting::TransmitId, identifier, other);
    select_unpredictable(setting == Setting::ReceiveId, identifier, second)
}

// Whether power-on accepts the rating with these settings.
pub fn is_accepted(rating: u16, settings: Settings) -> bool
    ensures { result ≡ accepted rating settings }
{
    (rating >= 1)
        & is_legal(rating, Setting::ReceiveId, settings.receive)
        & is_legal(rating, Setting::TransmitId, settings.transmit)
        & is_legal(rating, Setting::Speed, settings.speed)
        & (settings.voltage < rating as u32)
        & is_legal(rating, Setting::WarningLevel, settings.warning)
        & is_legal(rating, Setting::FaultLevel, settings.fault)
}

pub fn value_of(settings: Settings, setting: Setting) -> u32
    ensures { result ≡ value_of settings setting }
{
    let level = select_unpredictable(
        setting == Setting::WarningLevel,
        settings.warning,
        settings.fault,
    );
    let above = select_unpredictable(setting == Setting::Voltage, settings.voltage, level);
    let other = select_unpredictable(setting == Setting::Speed, settings.speed, above);
    let more = select_unpredictable(setting == Setting::TransmitId, settings.transmit, other);
    select_unpredictable(setting == Setting::ReceiveId, settings.receive, more)
}

pub fn with_value(settings: Settings, setting: Setting, value: u32) -> Settings
    ensures { result ≡ with_value settings setting value }
{
    Settings {
        receive: select_unpredictable(setting == Setting::ReceiveId, value, settings.receive),
        transmit: select_unpredictable(setting == Setting::TransmitId, value, settings.transmit),
        speed: select_unpredictable(setting == Setting::Speed, value, settings.speed),
        voltage: select_unpredictable(setting == Setting::Voltage, value, settings.voltage),
        warning: select_unpredictable(setting == Setting::WarningLevel, value, settings.warning),
        fault: select_unpredictable(setting == Setting::FaultLevel, value, settings.fault),
    }
}

// The speed as it is shown: its number in texts.
pub fn speed_number(speed: u32) -> u32
    ensures { result ≡ speed_number speed }
{
    if speed == 0x00CA0250 { 250 } else { 500 }
}
