// The status bytes of E0 to E5.
ghost use Rattle.std.specs.Prelude.{◌≡◌};
ghost use Rattle.codec_pages.specs.Reports.{bad_status};

use codec_pages::rows::Kind;

// A status byte that no SIM100 sends: bit 4 set, or bits 1-0 equal to 01.
pub fn bad_status(kind: Kind, status: u8) -> bool
    ensures { result ≡ bad_status kind status }
{
    match kind {
        Kind::Sim100 => (status / 16 % 2 == 1) | (status % 4 == 1),
        Kind::Sim101 => false,
    }
}
