// What a request asks.
ghost use Rattle.std.specs.Prelude.{◌≡◌};
ghost use Rattle.codec_pages.specs.Requests.{request_of};

use codec_pages::frame::Frame;
use codec_pages::request::Request;
use codec_pages::rows::Row;
use words::Order;
use words::word::word_at;

pub(crate) fn request_of(row: Row, f: Frame) -> Request
    ensures { result ≡ request_of row f.bytes }
{
    match row {
        Row::MuxE0 => Request::ReadIsolationState,
        Row::MuxE1 => Request::ReadResistances,
        Row::MuxE2 => Request::ReadCapacitances,
        Row::MuxE3 => Request::ReadVoltages,
        Row::MuxE4 => Request::ReadBattery,
        Row::MuxE5 => Request::ReadErrorFlags,
        Row::Mux01To0B => Request::ReadWord(f.bytes[0]),
        Row::Mux80 => Request::ReadTemperature,
        Row::MuxF0 => Request::SetWorkingVoltage(word_at(Order::Big, &f.bytes, 1)),
    }
}
