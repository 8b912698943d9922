// What a frame can be built of: a report or a request.
ghost use Rattle.std.specs.Prelude.{◌≡◌, ℕ, Bool, List, Result, false};
ghost use Rattle.refusal.specs.declared.Refusal.{Refusal};
ghost use Rattle.codec_pages.specs.declared.frame.Frame.{Frame};
ghost use Rattle.codec_pages.specs.declared.rows.Kind.{Kind};
ghost use Rattle.codec_pages.specs.Frames.{body_of, build};
ghost use Rattle.codec_pages.specs.Building.{unlisted, misfit, report_bytes, build_report};
ghost use Rattle.codec_pages.specs.Requests.{unlisted_request, request_bytes, build_request};
ghost use Rattle.codec_pages.proofs.Building.{report_by_tests, request_by_tests};

use crate::body::{report_body, request_body};
use crate::fit::misfit_report;
use crate::listed::{unlisted_report, unlisted_request};
use codec_pages::frame::{Body, Frame};
use codec_pages::report::Report;
use codec_pages::request::Request;
use codec_pages::rows::Kind;
use refusal::Refusal;

pub trait Buildable: Copy {
    ghost unlisted_by: { Kind → Self → Bool };

    ghost misfit_by: { Kind → Self → Bool };

    ghost bytes_by: { Kind → Self → List ℕ };

    ghost building: { Kind → ℕ → Self → Result Frame Refusal };

    // Refusal 3: the kind has no such report or request.
    fn is_unlisted(self, kind: Kind) -> bool
        ensures { result ≡ unlisted_by kind self };

    // Refusal 6.
    fn is_misfit(self, kind: Kind) -> bool
        ensures { result ≡ misfit_by kind self };

    fn body(self, kind: Kind) -> Body
        ensures { result ≡ body_of (bytes_by kind self) };

    ghost by_tests: { (kind : Kind) (identifier : ℕ) (content : Self) → building kind identifier content ≡ build (unlisted_by kind) (misfit_by kind) (bytes_by kind) identifier content };
}

impl Buildable for Report {
    ghost unlisted_by = { unlisted };

    ghost misfit_by = { misfit };

    ghost bytes_by = { report_bytes };

    ghost building = { build_report };

    ghost by_tests = { report_by_tests };

    fn is_unlisted(self, kind: Kind) -> bool {
        unlisted_report(kind, self)
    }

    fn is_misfit(self, kind: Kind) -> bool {
        misfit_report(kind, self)
    }

    fn body(self, kind: Kind) -> Body {
        report_body(kind, self)
    }
}

// A request has no value that does not fit.
impl Buildable for Request {
    ghost unlisted_by = { unlisted_request };

    ghost misfit_by = { λ kind request. false };

    ghost bytes_by = { request_bytes };

    ghost building = { build_request };

    ghost by_tests = { request_by_tests };

    fn is_unlisted(self, kind: Kind) -> bool {
        unlisted_request(kind, self)
    }

    fn is_misfit(self, _kind: Kind) -> bool {
        false
    }

    fn body(self, kind: Kind) -> Body {
        request_body(kind, self)
    }
}

// Any values whatever, built as a report or a request of the kind on the identifier: refusals 1, 3, 6.
pub fn build<C: Buildable>(kind: Kind, identifier: u32, content: C) -> Result<Frame, Refusal>
    ensures { result ≡ C.building kind identifier content }
{
    if identifier > 0x1FFFFFFF {
        return Err(Refusal::OverLimits);
    }
    if content.is_unlisted(kind) {
        return Err(Refusal::NotListed);
    }
    if content.is_misfit(kind) {
        return Err(Refusal::DoesNotFit);
    }
    let Body { length, bytes } = content.body(kind);
    Ok(Frame {
        extended: true,
        identifier,
        length,
        bytes,
    })
}
