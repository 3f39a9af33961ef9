// The units of the records as definitions stand in specs/; here is what several of their functions read of a record.
#![tactic(auto)]

ghost use Rattle.std.specs.Prelude.{◌≡◌, ◌≤◌, length};
ghost use Rattle.sheet.specs.Numbers.{biquad_number};
ghost use Rattle.unit.specs.Processors.{filter_kind_of, filter_q};

use biquad::FilterKind;
use sheet::Record;
use sheet::kinds::Biquad;

// The filter of a record by its kind, with the gain that it has: a match and no `From`, since it is made of two things.
#[tactic(auto, unfolding(crate::specs::Processors::filter_kind_of, sheet::specs::Numbers::biquad_number))]
pub fn filter_kind(kind: Biquad, r: &Record) -> FilterKind
    ensures { result ≡ filter_kind_of (biquad_number kind) r.now }
{
    match kind {
        Biquad::Lowpass => FilterKind::Low,
        Biquad::Highpass => FilterKind::High,
        Biquad::Bandpass => FilterKind::Band,
        Biquad::Notch => FilterKind::Notch,
        Biquad::Peak => FilterKind::Peak(r.number(1)),
        Biquad::Lowshelf => FilterKind::LowShelf(r.number(0)),
        Biquad::Highshelf => FilterKind::HighShelf(r.number(0)),
    }
}

// A shelf's q is fixed.
#[tactic(auto, unfolding(crate::specs::Processors::filter_q, sheet::specs::Numbers::biquad_number))]
pub fn filter_q(kind: Biquad, r: &Record) -> f32
    ensures { result ≡ filter_q (biquad_number kind) r.now }
{
    match kind {
        Biquad::Lowshelf | Biquad::Highshelf => 0.707,
        _ => r.number(0),
    }
}
