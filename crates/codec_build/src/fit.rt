// Refusal 6: which values fit their fields.
ghost use Rattle.std.specs.Prelude.{◌≡◌};
ghost use Rattle.codec_pages.specs.Building.{voltage_misfit, flags_misfit, misfit};

use codec_pages::report::Report;
use codec_pages::rows::Kind;
use codec_rows::status::bad_status;

// Whether a voltage does not fit 16 bits, which are signed for SIM101.
fn voltage_misfit(kind: Kind, z: i32) -> bool
    ensures { result ≡ voltage_misfit kind z }
{
    match kind {
        Kind::Sim100 => (z < 0) | (z > 65535),
        Kind::Sim101 => (z < -32768) | (z > 32767),
    }
}

// Whether error flags do not fit: a SIM100 has one byte.
fn flags_misfit(kind: Kind, flags: u16) -> bool
    ensures { result ≡ flags_misfit kind flags }
{
    (kind == Kind::Sim100) & (flags > 255)
}

// Refusal 6.
pub(crate) fn misfit_report(kind: Kind, report: Report) -> bool
    ensures { result ≡ misfit kind report }
{
    match report {
        Report::IsolationState(e) | Report::Resistances(e) | Report::Capacitances(e) => {
            bad_status(kind, e.status)
        }
        Report::PoleVoltages(v) => {
            bad_status(kind, v.status) | voltage_misfit(kind, v.vp) | voltage_misfit(kind, v.vn)
        }
        Report::BatteryVoltage(b) => bad_status(kind, b.status) | voltage_misfit(kind, b.vb),
        Report::Errors(e) => bad_status(kind, e.status) | flags_misfit(kind, e.flags),
        Report::Word(_, _) | Report::Temperature(_) | Report::WorkingVoltage(_) => false,
    }
}
