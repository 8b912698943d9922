// Refusal 3: which reports and requests a device kind has.
ghost use Rattle.std.specs.Prelude.{◌≡◌, is_err};
ghost use Rattle.codec_pages.specs.Building.{unlisted};
ghost use Rattle.codec_pages.specs.Requests.{unlisted_request};
ghost use Rattle.codec_pages.specs.Table.{row_of, no_word};

use crate::mux::{report_mux, request_mux};
use codec_pages::report::Report;
use codec_pages::request::Request;
use codec_pages::rows::{Kind, Row};
use codec_rows::rows::row_of;

// Whether the kind does not list the multiplexer.
fn is_unlisted(kind: Kind, mux: u8) -> bool
    ensures { result ≡ is_err (row_of kind mux) }
{
    row_of(kind, mux).is_err()
}

// Whether the kind has no word at the multiplexer.
fn no_word(kind: Kind, mux: u8) -> bool
    ensures { result ≡ no_word (row_of kind mux) }
{
    !row_of(kind, mux).is_ok_and(|listed| listed.row == Row::Mux01To0B)
}

// Refusal 3: the kind has no such report.
pub(crate) fn unlisted_report(kind: Kind, report: Report) -> bool
    ensures { result ≡ unlisted kind report }
{
    match report {
        Report::Word(mux, _) => no_word(kind, mux),
        _ => is_unlisted(kind, report_mux(report)),
    }
}

// Refusal 3: the kind has no such request.
pub(crate) fn unlisted_request(kind: Kind, request: Request) -> bool
    ensures { result ≡ unlisted_request kind request }
{
    match request {
        Request::ReadWord(mux) => no_word(kind, mux),
        _ => is_unlisted(kind, request_mux(request)),
    }
}
