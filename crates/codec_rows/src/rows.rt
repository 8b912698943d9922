// The rows of document 01's report table: which multiplexers a device kind has, with the lengths of report and request.
ghost use Rattle.std.specs.Prelude.{◌≡◌, Ok};
ghost use Rattle.codec_pages.specs.Table.{listed, row_of, measurement_row, frame_row};
ghost use Rattle.codec_pages.specs.declared.rows.Kind.{Kind};

use crate::limits::{not_expected, over_limits};
use codec_pages::frame::Frame;
use codec_pages::rows::{Kind, Listed, Row};
use refusal::Refusal;

// The row of one of E0 to E5.
fn measurement_row(mux: u8) -> Row
    ensures { result ≡ measurement_row mux }
{
    match mux {
        0xE0 => Row::MuxE0,
        0xE1 => Row::MuxE1,
        0xE2 => Row::MuxE2,
        0xE3 => Row::MuxE3,
        0xE4 => Row::MuxE4,
        _ => Row::MuxE5,
    }
}

fn listed(row: Row, report: u8, request: u8) -> Result<Listed, Refusal>
    ensures { result ≡ Ok (listed row report request) }
{
    Ok(Listed {
        row,
        report,
        request,
    })
}

#[tactic(auto, using(crate::proofs::Ranges::rows))]
fn sim100_row(mux: u8) -> Result<Listed, Refusal>
    ensures { result ≡ row_of Kind.Sim100 mux }
{
    match mux {
        0xF0 => listed(Row::MuxF0, 3, 3),
        0x01..=0x0B => listed(Row::Mux01To0B, 5, 1),
        0xE0..=0xE5 => listed(measurement_row(mux), 8, 1),
        _ => Err(Refusal::NotListed),
    }
}

#[tactic(auto, using(crate::proofs::Ranges::rows))]
fn sim101_row(mux: u8) -> Result<Listed, Refusal>
    ensures { result ≡ row_of Kind.Sim101 mux }
{
    match mux {
        0x80 => listed(Row::Mux80, 5, 3),
        0xE5 => listed(Row::MuxE5, 4, 3),
        0x01..=0x0B => listed(Row::Mux01To0B, 5, 3),
        0xE0..=0xE5 => listed(measurement_row(mux), 8, 3),
        _ => Err(Refusal::NotListed),
    }
}

// Refusal 3 where the kind does not list the multiplexer.
pub fn row_of(kind: Kind, mux: u8) -> Result<Listed, Refusal>
    ensures { result ≡ row_of kind mux }
{
    match kind {
        Kind::Sim100 => sim100_row(mux),
        Kind::Sim101 => sim101_row(mux),
    }
}

// The row that a frame is to be read by: refusals 1, 2 and 3.
pub fn frame_row(kind: Kind, expected: u32, f: Frame) -> Result<Listed, Refusal>
    ensures { result ≡ frame_row kind expected f }
{
    if over_limits(f) {
        return Err(Refusal::OverLimits);
    }
    if not_expected(expected, f) {
        return Err(Refusal::NotExpected);
    }
    if f.length == 0 {
        return Err(Refusal::NotListed);
    }
    row_of(kind, f.bytes[0])
}
