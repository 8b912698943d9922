// What document 01 asks of every frame: refusals 1 and 2.
ghost use Rattle.std.specs.Prelude.{◌≡◌};
ghost use Rattle.codec_pages.specs.Frames.{over_limits, not_expected};

use codec_pages::frame::Frame;

// Refusal 1.
pub fn over_limits(f: Frame) -> bool
    ensures { result ≡ over_limits f }
{
    let over_extended = f.extended & (f.identifier > 0x1FFFFFFF);
    let over_standard = !f.extended & (f.identifier > 0x7FF);
    (f.length > 8) | over_extended | over_standard
}

// Refusal 2.
pub(crate) fn not_expected(expected: u32, f: Frame) -> bool
    ensures { result ≡ not_expected expected f }
{
    !f.extended | (f.identifier != expected)
}
