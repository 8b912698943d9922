// The parts of a report in the bytes of a frame.
ghost use Rattle.std.specs.Prelude.{◌≡◌};
ghost use Rattle.codec_pages.specs.Reports.{estimates_in, voltage_of, voltages_in, battery_in, flags_in};
ghost use Rattle.codec_pages.specs.Table.{number_at};

use codec_pages::frame::Frame;
use codec_pages::report::{Battery, ErrorFlags, Estimates, Voltages};
use codec_pages::rows::Kind;
use words::Order;
use words::word::{Word, word_at};

pub(crate) fn estimates_in(f: Frame) -> Estimates
    ensures { result ≡ estimates_in f.bytes }
{
    let b = f.bytes;
    Estimates {
        status: b[1],
        first: word_at(Order::Big, &b, 2),
        first_uncertainty: b[4],
        second: word_at(Order::Big, &b, 5),
        second_uncertainty: b[7],
    }
}

// A SIM101 voltage is signed.
fn voltage_of(kind: Kind, n: u16) -> i32
    ensures { result ≡ voltage_of kind n }
{
    match kind {
        Kind::Sim100 => n as i32,
        Kind::Sim101 => n.signed(),
    }
}

pub(crate) fn voltages_in(kind: Kind, f: Frame) -> Voltages
    ensures { result ≡ voltages_in kind f.bytes }
{
    let e = estimates_in(f);
    Voltages {
        status: e.status,
        vp: voltage_of(kind, e.first),
        vp_uncertainty: e.first_uncertainty,
        vn: voltage_of(kind, e.second),
        vn_uncertainty: e.second_uncertainty,
    }
}

pub(crate) fn battery_in(kind: Kind, f: Frame) -> Battery
    ensures { result ≡ battery_in kind f.bytes }
{
    let e = estimates_in(f);
    Battery {
        status: e.status,
        vb: voltage_of(kind, e.first),
        vb_uncertainty: e.first_uncertainty,
        vb_max: e.second,
        vb_max_uncertainty: e.second_uncertainty,
    }
}

pub(crate) fn flags_in(kind: Kind, f: Frame) -> ErrorFlags
    ensures { result ≡ flags_in kind f.bytes }
{
    let b = f.bytes;
    match kind {
        Kind::Sim100 => ErrorFlags {
            status: b[1],
            flags: b[2] as u16,
        },
        Kind::Sim101 => ErrorFlags {
            status: b[1],
            flags: word_at(Order::Big, &b, 2),
        },
    }
}

pub(crate) fn word_in(f: Frame) -> u32
    ensures { result ≡ number_at f.bytes 1 4 }
{
    word_at(Order::Big, &f.bytes, 1)
}
