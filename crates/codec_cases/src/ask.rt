// A record of a cases file taken apart.
ghost use Rattle.std.specs.Prelude.{◌≡◌, is_some};
ghost use Rattle.codec_pages.specs.Table.{number_at};
ghost use Rattle.codec_cases.specs.Cases.{known_question, question_asked, kind_asked, what_asked, frame_asked, estimates_asked, voltages_asked, battery_asked, flags_asked, report_asked, request_asked};

use codec_pages::frame::Frame;
use codec_pages::report::{Battery, ErrorFlags, Estimates, Report, Voltages};
use codec_pages::request::Request;
use codec_pages::rows::Kind;
use words::Order;
use words::word::{Word, part_at, word_at};

// A question of docs/CODEC_CASES.md: of which kind of device, on which identifier, and what is asked.
#[derive(Clone, Copy)]
pub struct Question {
    pub kind: Kind,
    pub identifier: u32,
    pub what: What,
}

// A frame to be read, or what is to be built.
#[derive(Clone, Copy)]
pub enum What {
    ReadReport(Frame),
    ReadRequest(Frame),
    BuildReport(Report),
    BuildRequest(Request),
}

impl Question {
    // What the record asks; none where docs/CODEC_CASES.md does not list it.
    pub fn of(r: [u8; 20]) -> Option<Question>
        ensures asked { result ≡ question_asked r }
        ensures known { is_some result ≡ known_question r }
    {
        let kind = kind(r)?;
        let what = What::of(r)?;
        let identifier = identifier(r);
        Some(Question {
            kind,
            identifier,
            what,
        })
    }
}

fn kind(r: [u8; 20]) -> Option<Kind>
    ensures { result ≡ kind_asked r }
{
    match r[1] {
        0 => Some(Kind::Sim100),
        1 => Some(Kind::Sim101),
        _ => None,
    }
}

impl What {
    fn of(r: [u8; 20]) -> Option<What>
        ensures { result ≡ what_asked r }
    {
        match r[0] {
            0 => Some(What::ReadReport(frame(r))),
            1 => Some(What::ReadRequest(frame(r))),
            2 => Some(What::BuildReport(report(r)?)),
            3 => Some(What::BuildRequest(request(r)?)),
            _ => None,
        }
    }
}

// A number at a place of the record.
fn number<W: Word<N>, const N: usize>(r: [u8; 20], place: u8) -> W
    ensures { W.value result ≡ number_at r place N }
{
    word_at(Order::Big, &r, place)
}

// Bytes 2 to 5: the expected identifier, or that of the frame to build.
fn identifier(r: [u8; 20]) -> u32
    ensures { result ≡ number_at r 2 4 }
{
    number(r, 2)
}

fn frame(r: [u8; 20]) -> Frame
    ensures { result ≡ frame_asked r }
{
    Frame {
        extended: r[6] == 1,
        identifier: number(r, 8),
        length: r[7],
        bytes: part_at(&r, 12),
    }
}

fn estimates(r: [u8; 20]) -> Estimates
    ensures { result ≡ estimates_asked r }
{
    Estimates {
        status: r[7],
        first: number(r, 10),
        first_uncertainty: r[12],
        second: number(r, 15),
        second_uncertainty: r[17],
    }
}

fn voltages(r: [u8; 20]) -> Voltages
    ensures { result ≡ voltages_asked r }
{
    Voltages {
        status: r[7],
        vp: number::<u32, 4>(r, 8).signed(),
        vp_uncertainty: r[12],
        vn: number::<u32, 4>(r, 13).signed(),
        vn_uncertainty: r[17],
    }
}

fn battery(r: [u8; 20]) -> Battery
    ensures { result ≡ battery_asked r }
{
    Battery {
        status: r[7],
        vb: number::<u32, 4>(r, 8).signed(),
        vb_uncertainty: r[12],
        vb_max: number(r, 15),
        vb_max_uncertainty: r[17],
    }
}

fn flags(r: [u8; 20]) -> ErrorFlags
    ensures { result ≡ flags_asked r }
{
    ErrorFlags {
        status: r[7],
        flags: number(r, 10),
    }
}

// The report to build.
fn report(r: [u8; 20]) -> Option<Report>
    ensures { result ≡ report_asked r }
{
    Some(match r[6] {
        0 => Report::IsolationState(estimates(r)),
        1 => Report::Resistances(estimates(r)),
        2 => Report::Capacitances(estimates(r)),
        3 => Report::PoleVoltages(voltages(r)),
        4 => Report::BatteryVoltage(battery(r)),
        5 => Report::Errors(flags(r)),
        6 => Report::Word(r[7], number(r, 8)),
        7 => Report::Temperature(number::<u32, 4>(r, 8).signed()),
        8 => Report::WorkingVoltage(number(r, 10)),
        _ => return None,
    })
}

// The request to build.
fn request(r: [u8; 20]) -> Option<Request>
    ensures { result ≡ request_asked r }
{
    Some(match r[6] {
        0 => Request::ReadIsolationState,
        1 => Request::ReadResistances,
        2 => Request::ReadCapacitances,
        3 => Request::ReadVoltages,
        4 => Request::ReadBattery,
        5 => Request::ReadErrorFlags,
        6 => Request::ReadWord(r[7]),
        7 => Request::ReadTemperature,
        8 => Request::SetWorkingVoltage(number(r, 10)),
        _ => return None,
    })
}
