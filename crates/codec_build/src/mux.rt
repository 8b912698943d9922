// The multiplexers of reports and requests: byte 0, the same in both.
ghost use Rattle.std.specs.Prelude.{◌≡◌};
ghost use Rattle.codec_pages.specs.Told.{report_mux, request_mux};

use codec_pages::report::Report;
use codec_pages::request::Request;

pub(crate) fn report_mux(report: Report) -> u8
    ensures { result ≡ report_mux report }
{
    match report {
        Report::IsolationState(_) => 0xE0,
        Report::Resistances(_) => 0xE1,
        Report::Capacitances(_) => 0xE2,
        Report::PoleVoltages(_) => 0xE3,
        Report::BatteryVoltage(_) => 0xE4,
        Report::Errors(_) => 0xE5,
        Report::Word(mux, _) => mux,
        Report::Temperature(_) => 0x80,
        Report::WorkingVoltage(_) => 0xF0,
    }
}

pub(crate) fn request_mux(request: Request) -> u8
    ensures { result ≡ request_mux request }
{
    match request {
        Request::ReadIsolationState => 0xE0,
        Request::ReadResistances => 0xE1,
        Request::ReadCapacitances => 0xE2,
        Request::ReadVoltages => 0xE3,
        Request::ReadBattery => 0xE4,
        Request::ReadErrorFlags => 0xE5,
        Request::ReadWord(mux) => mux,
        Request::ReadTemperature => 0x80,
        Request::SetWorkingVoltage(_) => 0xF0,
    }
}
