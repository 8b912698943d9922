// A record of a cases file taken apart.
ghost use Rattle.std.specs.Prelude.{◌≡◌, is_some};
ghost use Rattle.codec_pages.specs.Table.{part, number_at};
ghost use Rattle.monitor.specs.Bench.{outcome_of, powered_on};
ghost use Rattle.monitor_cases.specs.Cases.{known_record, question_asked, frame_asked, event_of, stamp_in, record_frame, record_settings};

use codec_pages::frame::Frame;
use maintenance_pages::setting::Settings;
use monitor::bench::Bench;
use refusal::Refusal;
use time::Stamp;
use words::Order;
use words::word::{part_at, word_at};

// What a record of docs/MONITOR_CASES.md asks. Of a power-on it has the first twenty bytes.
#[derive(Clone, Copy)]
pub enum Question {
    Event(Event),
    Uptime(Stamp),
    PowerOn([u8; 20]),
    Challenge([u8; 7]),
}

// A frame, with storage working or failing, or a reset.
#[derive(Clone, Copy)]
pub enum Event {
    Frame {
        at: Stamp,
        working: bool,
        frame: Frame,
    },
    Reset(Stamp),
}

impl Question {
    // None where docs/MONITOR_CASES.md does not list what is asked.
    pub fn of(r: [u8; 20]) -> Option<Question>
        ensures asked { result ≡ question_asked r }
        ensures known { is_some result ≡ known_record r }
    {
        match r[4] {
            0 => Some(Question::Event(frame_event(r, true)?)),
            1 => Some(Question::Event(frame_event(r, false)?)),
            2 => Some(Question::Event(Event::Reset(stamp(r)))),
            3 => Some(Question::Uptime(stamp(r))),
            4 => Some(Question::PowerOn(r)),
            5 => Some(Question::Challenge(challenge(r))),
            _ => None,
        }
    }
}

impl Event {
    // The event, put to the monitor.
    pub fn put(self, bench: &mut Bench) -> Result<Option<Frame>, Refusal>
        ensures answer { result ≡ (outcome_of (event_of self) bench.old).answer }
        ensures bench { bench.new ≡ (outcome_of (event_of self) bench.old).bench }
    {
        match self {
            Event::Frame { at, working, frame } => bench.frame_event(at, working, frame),
            Event::Reset(at) => bench.reset_event(at),
        }
    }
}

fn stamp(r: [u8; 20]) -> Stamp
    ensures { result ≡ stamp_in r }
{
    Stamp(word_at(Order::Big, &r, 0))
}

// A frame is standard or extended.
fn frame_event(r: [u8; 20], working: bool) -> Option<Event>
    ensures { result ≡ frame_asked working r }
{
    if r[5] > 1 {
        return None;
    }
    Some(Event::Frame {
        at: stamp(r),
        working,
        frame: frame(r),
    })
}

fn frame(r: [u8; 20]) -> Frame
    ensures { result ≡ record_frame r }
{
    Frame {
        extended: r[5] == 1,
        identifier: word_at(Order::Big, &r, 8),
        length: r[6],
        bytes: part_at(&r, 12),
    }
}

// The challenge of kind 5.
fn challenge(r: [u8; 20]) -> [u8; 7]
    ensures { result ≡ part r 13 7 }
{
    part_at(&r, 13)
}

// The settings of a power-on: three in the first twenty bytes, three in the rest of the record.
fn settings(r: [u8; 20], rest: [u8; 28]) -> Settings
    ensures { result ≡ record_settings r rest }
{
    Settings {
        receive: word_at(Order::Big, &r, 8),
        transmit: word_at(Order::Big, &r, 12),
        speed: word_at(Order::Big, &r, 16),
        voltage: word_at(Order::Big, &rest, 0),
        warning: word_at(Order::Big, &rest, 4),
        fault: word_at(Order::Big, &rest, 8),
    }
}

fn serial(rest: [u8; 28]) -> [u8; 16]
    ensures { result ≡ part rest 12 16 }
{
    part_at(&rest, 12)
}

// A power-on, put to the monitor.
pub fn powered_on(r: [u8; 20], rest: [u8; 28]) -> Result<Bench, Refusal>
    ensures { result ≡ powered_on (stamp_in r) (part rest 12 16) (number_at r 6 2) (record_settings r rest) }
{
    Bench::power_on(
        stamp(r),
        serial(rest),
        word_at(Order::Big, &r, 6),
        settings(r, rest),
    )
}
