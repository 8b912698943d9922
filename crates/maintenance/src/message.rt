// What a frame says to the monitor, and what the monitor says back.
ghost use Rattle.std.specs.Prelude.{◌≡◌, ◌≤◌};
ghost use Rattle.maintenance_pages.specs.Messages.{
  message,
  challenge_of,
  answer_to,
  is_right,
  serial_place,
  says,
  ack,
  nak,
  challenged,
  shown,
  serial_report,
};

use crate::setting::setting_of;
use codec_build::building::build;
use codec_pages::frame::Frame;
use codec_pages::report::Report;
use codec_pages::rows::Kind;
use maintenance_pages::message::{Message, SerialWord};
use maintenance_pages::setting::Setting;
use words::Order;
use words::word::{Word, word_at};

// "the seven constants 53 4E 44 53 49 4D 42"
const CONSTANTS: [u8; 7] = [0x53, 0x4E, 0x44, 0x53, 0x49, 0x4D, 0x42];

// ---- what a frame says

// Bytes past the length are no part of the frame. Writes and reads are asked for first, since most frames are one or the other.
#[tactic(auto, unfolding(maintenance_pages::specs::Messages::message))]
pub fn message_of(f: Frame) -> Message
    ensures { result ≡ message f }
{
    let bytes = f.bytes;
    if f.length == 5 {
        let value = word_at(Order::Big, &bytes, 1);
        return setting_of(bytes[0]).map_or(
            Message::Other,
            |setting| Message::Write(setting, value),
        );
    }
    if f.length == 1 && !(0x08..=0x0B).contains(&bytes[0]) {
        return setting_of(bytes[0]).map_or(Message::Other, Message::Read);
    }
    match (f.length, bytes) {
        (3, [0x14, 0x28, 0xD5, ..]) => Message::Unlock,
        (3, [0x14, 0x9A, 0x28, ..]) => Message::Commit,
        (8, [0x14, ..]) => Message::Answer,
        (1 | 3, [0x08, ..]) => Message::SerialRequest(SerialWord::Last),
        (1 | 3, [0x09, ..]) => Message::SerialRequest(SerialWord::Third),
        (1 | 3, [0x0A, ..]) => Message::SerialRequest(SerialWord::Second),
        (1 | 3, [0x0B, ..]) => Message::SerialRequest(SerialWord::First),
        _ => Message::Other,
    }
}

// ---- the challenge and its answer

fn challenge_of(serial: [u8; 16]) -> [u8; 7]
    ensures { result ≡ challenge_of serial }
{
    std::array::from_fn(|i| serial[i])
}

// The right answer to a challenge: "xored with the seven constants 53 4E 44 53 49 4D 42". The seven bytes after 14.
pub fn answer_to(challenge: [u8; 7]) -> [u8; 7]
    ensures { result ≡ answer_to challenge }
{
    std::array::from_fn(|i| challenge[i] ^ CONSTANTS[i])
}

pub fn is_right(serial: [u8; 16], f: Frame) -> bool
    ensures { result ≡ is_right serial f }
{
    f.bytes[1..] == answer_to(challenge_of(serial))[..]
}

// ---- what the monitor says

// At most eight bytes, sent on a transmit identifier.
fn says<const N: usize>(transmit: u32, said: [u8; N]) -> Option<Frame>
    requires { N ≤ 8 }
    ensures { result ≡ says transmit said.entry }
{
    let mut bytes = [0; 8];
    bytes[..N].copy_from_slice(&said);
    Some(Frame {
        length: N as u8,
        extended: true,
        identifier: transmit,
        bytes,
    })
}

pub fn ack_reply(transmit: u32) -> Option<Frame>
    ensures { result ≡ ack transmit }
{
    says(transmit, [0x41, 0x43, 0x4B])
}

pub fn nak_reply(transmit: u32) -> Option<Frame>
    ensures { result ≡ nak transmit }
{
    says(transmit, [0x4E, 0x41, 0x4B])
}

pub fn challenge_reply(transmit: u32, serial: [u8; 16]) -> Option<Frame>
    ensures { result ≡ challenged transmit serial }
{
    let [a, b, c, d, e, f, g] = challenge_of(serial);
    says(transmit, [0x14, a, b, c, d, e, f, g])
}

pub fn value_reply(transmit: u32, setting: Setting, value: u32) -> Option<Frame>
    ensures { result ≡ shown transmit setting value }
{
    let [a, b, c, d]: [u8; 4] = value.to_bytes(Order::Big);
    says(transmit, [setting as u8, a, b, c, d])
}

fn serial_place(word: SerialWord) -> u8
    ensures { result ≡ serial_place word }
{
    match word {
        SerialWord::First => 0,
        SerialWord::Second => 4,
        SerialWord::Third => 8,
        SerialWord::Last => 12,
    }
}

// What stands where the codec builds no frame.
const BLANK: Frame = Frame {
    extended: false,
    identifier: 0,
    length: 0,
    bytes: [0; 8],
};

// The serial words are reports, and built as such.
pub fn serial_reply(transmit: u32, serial: [u8; 16], word: SerialWord) -> Option<Frame>
    ensures { result ≡ serial_report transmit serial word }
{
    let value = word_at(Order::Big, &serial, serial_place(word));
    let report = Report::Word(word as u8, value);
    Some(build(Kind::Sim101, transmit, report).unwrap_or(BLANK))
}
