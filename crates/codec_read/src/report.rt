// What a report says, and when its status is wrong.
ghost use Rattle.std.specs.Prelude.{◌≡◌};
ghost use Rattle.codec_pages.specs.Reports.{has_status, wrong_status, report_of};

use crate::parts::{battery_in, estimates_in, flags_in, voltages_in, word_in};
use codec_pages::frame::Frame;
use codec_pages::report::Report;
use codec_pages::rows::{Kind, Row};
use codec_rows::status::bad_status;
use words::Order;
use words::word::{Word, word_at};

pub(crate) fn report_of(kind: Kind, row: Row, f: Frame) -> Report
    ensures { result ≡ report_of kind row f.bytes }
{
    match row {
        Row::MuxE0 => Report::IsolationState(estimates_in(f)),
        Row::MuxE1 => Report::Resistances(estimates_in(f)),
        Row::MuxE2 => Report::Capacitances(estimates_in(f)),
        Row::MuxE3 => Report::PoleVoltages(voltages_in(kind, f)),
        Row::MuxE4 => Report::BatteryVoltage(battery_in(kind, f)),
        Row::MuxE5 => Report::Errors(flags_in(kind, f)),
        Row::Mux01To0B => Report::Word(f.bytes[0], word_in(f)),
        Row::Mux80 => Report::Temperature(word_in(f).signed()),
        Row::MuxF0 => Report::WorkingVoltage(word_at(Order::Big, &f.bytes, 1)),
    }
}

// Whether a row has a status byte.
fn has_status(row: Row) -> bool
    ensures { result ≡ has_status row }
{
    !matches!(row, Row::Mux01To0B | Row::Mux80 | Row::MuxF0)
}

// Refusal 5.
pub(crate) fn wrong_status(kind: Kind, row: Row, status: u8) -> bool
    ensures { result ≡ wrong_status kind row status }
{
    has_status(row) & bad_status(kind, status)
}
