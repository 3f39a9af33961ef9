// The start values of a kind that are read of a record alone, into the cells that the record owns.
// What a record owns is a part of the voice's memory, a slice, so each contract says how long it is.
#![tactic(auto)]

ghost use Rattle.std.specs.Prelude.{◌≡◌, [], ◌∷◌, ◌*◌, ◌≤◌, length};
ghost use Rattle.float.specs.Single.{zero};
ghost use Rattle.rng.specs.Random.{stepped, range_of};
ghost use Rattle.dsp.specs.Coefficients.{modal_of};
ghost use Rattle.drive.specs.Drive.{antiderivative_of};
ghost use Rattle.sheet.specs.Record.{number_of};
ghost use Rattle.layout.specs.Needs.{voices_of};
ghost use Rattle.unit.specs.Start.{start_phase, detune, start_ratio, super_start, filter_start, at_rest, compress_start, rand_word, rand_start};

use dsl::DriveShape;
use rng::Rng;
use sheet::Record;

// ---- Super: a phase for each voice, then a ratio for each

fn phase(n: u64, k: u64) -> f32
    ensures { result ≡ start_phase n k }
{
    cast::u64_to_f32(k) / cast::u64_to_f32(n)
}

// In cents: from -cents to +cents over the voices.
fn detuned(n: u64, cents: f32, k: u64) -> f32
    ensures { result ≡ detune n cents k }
{
    if n == 1 {
        return 0.0;
    }
    -cents + 2.0 * cents * (cast::u64_to_f32(k) / (cast::u64_to_f32(n) - 1.0))
}

fn ratio(n: u64, cents: f32, k: u64) -> f32
    ensures { result ≡ start_ratio n cents k }
{
    dsp::powf(2.0, detuned(n, cents, k) / 1200.0)
}

pub fn super_start(r: &Record, own: &mut [f32])
    requires { (length own.old ≡ 2 * voices_of r.now) }
    ensures { own.new ≡ super_start (voices_of r.now) (number_of r.now 1) }
{
    let n = layout::voices(r.bits(0));
    let cents = r.number(1);
    let m = n as usize;
    block::run_block(&mut own[..m], (), |k, s, _x| (phase(n, k as u64), s));
    block::run_block(&mut own[m..], (), |k, s, _x| {
        (ratio(n, cents, k as u64), s)
    });
}

// ---- the kinds of a fixed number of cells

// The last frequency is NaN, so that the first sample works out the coefficients.
pub fn filter(own: &mut [f32])
    requires { length own.old ≡ 11 }
    ensures { own.new ≡ filter_start }
{
    block::fill_block(own, 0.0);
    own[0] = 1.0;
    own[1] = float::from_bits(0x7fc0_0000);
}

// The antiderivative at 0.
pub fn drive(shape: DriveShape, own: &mut [f32])
    requires { length own.old ≡ 4 }
    ensures { own.new ≡ zero ∷ antiderivative_of shape zero ∷ zero ∷ zero ∷ [] }
{
    own.copy_from_slice(&[0.0, drive::drive_antideriv(0.0, shape), 0.0, 0.0]);
}

// The follower's coefficients, and the makeup from decibels.
pub fn compress(r: &Record, srf: f32, own: &mut [f32])
    requires { (length own.old ≡ 4) }
    ensures { own.new ≡ compress_start (number_of r.now) srf }
{
    let f = dsp::follower_coeffs(r.number(2), r.number(3), srf);
    let makeup = dsp::powf(10.0, r.number(4) / 20.0);
    own.copy_from_slice(&[0.0, f.at, f.rt, makeup]);
}

// Rand's first two numbers, and its generator's word after them.
#[derive(Clone, Copy)]
pub struct Draws {
    pub prev: f32,
    pub next: f32,
    pub word: u64,
}

pub fn rand_draws(r: &Record) -> Draws
    ensures { result ≡ record { prev = range_of (rand_word r.now) (number_of r.now 0) (number_of r.now 1); next = range_of (stepped (rand_word r.now)) (number_of r.now 0) (number_of r.now 1); word = stepped (stepped (rand_word r.now)) } }
{
    let seed = rng::rand_seed(r.seed(), r.bits(0), r.bits(1), r.bits(2));
    let mut rng = Rng { state: seed };
    let from = r.number(0);
    let to = r.number(1);
    let prev = rng.range(from, to);
    let next = rng.range(from, to);
    Draws {
        prev,
        next,
        word: rng.state,
    }
}

pub fn rand(r: &Record, own: &mut [f32])
    requires { (length own.old ≡ 3) }
    ensures { own.new ≡ rand_start r.now }
{
    let d = rand_draws(r);
    own.copy_from_slice(&[d.prev, d.next, 0.0]);
}

// A Mode record's resonator at rest, for Modal.
pub fn mode(r: &Record, rate: u32, own: &mut [f32])
    requires { (length own.old ≡ 5) }
    ensures { own.new ≡ at_rest (modal_of (number_of r.now 0) (number_of r.now 1) (number_of r.now 2) rate) }
{
    let m = dsp::modal_coeffs(r.number(0), r.number(1), r.number(2), rate);
    own.copy_from_slice(&[m.a1, m.a2, m.b0, 0.0, 0.0]);
}
