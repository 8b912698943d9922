// The bytes of reports and requests.
ghost use Rattle.std.specs.Prelude.{◌≡◌, ◌≤◌};
ghost use Rattle.codec_pages.specs.Frames.{body_of};
ghost use Rattle.codec_pages.specs.Building.{estimates_bytes, voltages_bytes, battery_bytes, flags_bytes, word_bytes, voltage_bytes, report_bytes};
ghost use Rattle.codec_pages.specs.Requests.{read_bytes, request_bytes};

use crate::mux::{report_mux, request_mux};
use codec_pages::frame::Body;
use codec_pages::report::{Battery, ErrorFlags, Estimates, Report, Voltages};
use codec_pages::request::Request;
use codec_pages::rows::Kind;
use words::Order;
use words::word::Word;

// At most eight bytes, and zeros after them.
fn body<const N: usize>(said: [u8; N]) -> Body
    requires { N ≤ 8 }
    ensures { result ≡ body_of said.entry }
{
    let mut bytes = [0; 8];
    bytes[..N].copy_from_slice(&said);
    Body {
        length: N as u8,
        bytes,
    }
}

fn estimates_body(mux: u8, e: Estimates) -> Body
    ensures { result ≡ body_of (estimates_bytes mux e) }
{
    let [a, b]: [u8; 2] = e.first.to_bytes(Order::Big);
    let [c, d]: [u8; 2] = e.second.to_bytes(Order::Big);
    body([
        mux,
        e.status,
        a,
        b,
        e.first_uncertainty,
        c,
        d,
        e.second_uncertainty,
    ])
}

fn voltages_body(v: Voltages) -> Body
    ensures { result ≡ body_of (voltages_bytes v) }
{
    let e = Estimates {
        status: v.status,
        first: u16::from_signed(v.vp),
        first_uncertainty: v.vp_uncertainty,
        second: u16::from_signed(v.vn),
        second_uncertainty: v.vn_uncertainty,
    };
    estimates_body(0xE3, e)
}

fn battery_body(b: Battery) -> Body
    ensures { result ≡ body_of (battery_bytes b) }
{
    let e = Estimates {
        status: b.status,
        first: u16::from_signed(b.vb),
        first_uncertainty: b.vb_uncertainty,
        second: b.vb_max,
        second_uncertainty: b.vb_max_uncertainty,
    };
    estimates_body(0xE4, e)
}

fn flags_body(kind: Kind, e: ErrorFlags) -> Body
    ensures { result ≡ body_of (flags_bytes kind e) }
{
    let [high, low]: [u8; 2] = e.flags.to_bytes(Order::Big);
    match kind {
        Kind::Sim100 => body([0xE5, e.status, low, 0, 0, 0, 0, 0]),
        Kind::Sim101 => body([0xE5, e.status, high, low]),
    }
}

fn word_body(mux: u8, word: u32) -> Body
    ensures { result ≡ body_of (word_bytes mux word) }
{
    let [a, b, c, d]: [u8; 4] = word.to_bytes(Order::Big);
    body([mux, a, b, c, d])
}

// F0, request and report alike.
fn working_voltage_body(voltage: u16) -> Body
    ensures { result ≡ body_of (voltage_bytes voltage) }
{
    let [a, b]: [u8; 2] = voltage.to_bytes(Order::Big);
    body([0xF0, a, b])
}

pub(crate) fn report_body(kind: Kind, report: Report) -> Body
    ensures { result ≡ body_of (report_bytes kind report) }
{
    match report {
        Report::IsolationState(e) | Report::Resistances(e) | Report::Capacitances(e) => {
            estimates_body(report_mux(report), e)
        }
        Report::PoleVoltages(v) => voltages_body(v),
        Report::BatteryVoltage(b) => battery_body(b),
        Report::Errors(e) => flags_body(kind, e),
        Report::Word(mux, word) => word_body(mux, word),
        Report::Temperature(z) => word_body(0x80, u32::from_signed(z)),
        Report::WorkingVoltage(voltage) => working_voltage_body(voltage),
    }
}

// A read request: length 1 for SIM100, 3 for SIM101.
fn read_body(kind: Kind, mux: u8) -> Body
    ensures { result ≡ body_of (read_bytes kind mux) }
{
    match kind {
        Kind::Sim100 => body([mux]),
        Kind::Sim101 => body([mux, 0, 0]),
    }
}

pub(crate) fn request_body(kind: Kind, request: Request) -> Body
    ensures { result ≡ body_of (request_bytes kind request) }
{
    match request {
        Request::SetWorkingVoltage(voltage) => working_voltage_body(voltage),
        _ => read_body(kind, request_mux(request)),
    }
}
