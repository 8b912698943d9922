// What a frame can be read as: a report or a request.
ghost use Rattle.std.specs.Prelude.{◌≡◌, ℕ, Bool, List, Result, false};
ghost use Rattle.refusal.specs.declared.Refusal.{Refusal};
ghost use Rattle.codec_pages.specs.declared.frame.Frame.{Frame};
ghost use Rattle.codec_pages.proofs.Reading.{report_by_row, request_by_row};
ghost use Rattle.codec_pages.specs.declared.rows.Kind.{Kind};
ghost use Rattle.codec_pages.specs.declared.rows.Row.{Row};
ghost use Rattle.codec_pages.specs.declared.rows.Listed.{Listed};
ghost use Rattle.codec_pages.specs.Reports.{wrong_status, report_of, read_report};
ghost use Rattle.codec_pages.specs.Requests.{request_of, read_request};
ghost use Rattle.codec_pages.specs.Table.{read};

use crate::report::{report_of, wrong_status};
use crate::request::request_of;
use codec_pages::frame::Frame;
use codec_pages::report::Report;
use codec_pages::request::Request;
use codec_pages::rows::{Kind, Listed, Row};
use codec_rows::rows::frame_row;
use refusal::Refusal;

pub trait Readable: Sized {
    ghost length_of: { Listed → ℕ };

    ghost wrong_with: { Kind → Row → ℕ → Bool };

    ghost said_by: { Kind → Row → List ℕ → Self };

    ghost reading: { Kind → ℕ → Frame → Result Self Refusal };

    // The length that its row asks for.
    fn length(listed: Listed) -> u8
        ensures { result ≡ length_of listed };

    // Refusal 5.
    fn is_wrong(kind: Kind, row: Row, status: u8) -> bool
        ensures { result ≡ wrong_with kind row status };

    fn said(kind: Kind, row: Row, f: Frame) -> Self
        ensures { result ≡ said_by kind row f.bytes };

    ghost by_row: { (kind : Kind) (expected : ℕ) (f : Frame) → reading kind expected f ≡ read length_of (wrong_with kind) (said_by kind) kind expected f };
}

impl Readable for Report {
    ghost length_of = { λ l. l.report };

    ghost wrong_with = { wrong_status };

    ghost said_by = { report_of };

    ghost reading = { read_report };

    ghost by_row = { report_by_row };

    fn length(listed: Listed) -> u8 {
        listed.report
    }

    fn is_wrong(kind: Kind, row: Row, status: u8) -> bool {
        wrong_status(kind, row, status)
    }

    fn said(kind: Kind, row: Row, f: Frame) -> Report {
        report_of(kind, row, f)
    }
}

impl Readable for Request {
    ghost length_of = { λ l. l.request };

    ghost wrong_with = { λ kind row status. false };

    ghost said_by = { λ kind. request_of };

    ghost reading = { read_request };

    ghost by_row = { request_by_row };

    fn length(listed: Listed) -> u8 {
        listed.request
    }

    fn is_wrong(_kind: Kind, _row: Row, _status: u8) -> bool {
        false
    }

    fn said(_kind: Kind, row: Row, f: Frame) -> Request {
        request_of(row, f)
    }
}

// Any frame whatever, read as a report or a request of the kind on the expected identifier: refusals 1, 2, 3, 4 and, for a report, 5.
pub fn read<C: Readable>(kind: Kind, expected: u32, f: Frame) -> Result<C, Refusal>
    ensures { result ≡ C.reading kind expected f }
{
    let listed = frame_row(kind, expected, f)?;
    if f.length != C::length(listed) {
        return Err(Refusal::WrongLength);
    }
    if C::is_wrong(kind, listed.row, f.bytes[1]) {
        return Err(Refusal::WrongStatus);
    }
    Ok(C::said(kind, listed.row, f))
}
