// How long lines are, by the rate. A rate is the sheet's u32, which check 2 bounds; a type for it would be made at each read of the header and opened in
// each product.
#![tactic(auto)]

ghost use Rattle.std.specs.Prelude.{◌≡◌, false, ℕ, ◌≤◌, max, map, pos, T};
ghost use Rattle.std.specs.Float.{fin, binary32};
ghost use Rattle.std.specs.Float.Ieee.{mul, div, lt};
ghost use Rattle.lines.specs.Lines.{single, tuning_rate, delay_line, chorus_base, chorus_swing, chorus_line, tuned_line, reverb_tunings, comb_line, allpass_line, reverb_lines};

// Also what a NaN counts as.
const MAX_DELAY_SECS: f32 = 30.0;

// The chorus's delay, and how far it swings to either side at full depth.
const CHORUS_BASE_SECS: f32 = 0.015;

const CHORUS_SWING_SECS: f32 = 0.010;

// A line of no samples would have no place to write to.
pub fn at_least_one(n: u64) -> u64
    ensures { result ≡ max n 1 }
{
    n.max(1)
}

// The bound stands again where `offsets` hands the length on, since the cells of all lines are added up by it.
pub fn delay_line_len(secs: f32, sr: u32) -> u64
    requires { sr ≤ 192000 }
    ensures { (result ≡ delay_line secs sr) × (1 ≤ result) × (result ≤ 5760000) }
{
    at_least_one(cast::f32_to_u64(float::min(secs, MAX_DELAY_SECS) * cast::u32_to_f32(sr)))
}

pub fn chorus_base(sr: u32) -> f32
    ensures { result ≡ chorus_base sr }
{
    CHORUS_BASE_SECS * cast::u32_to_f32(sr)
}

pub fn chorus_swing(depth: f32, sr: u32) -> f32
    ensures { result ≡ chorus_swing depth sr }
{
    float::clamp(depth, 0.0, 1.0) * CHORUS_SWING_SECS * cast::u32_to_f32(sr)
}

// Room for the two samples that a fractional read mixes. A NaN depth leaves just these.
pub fn chorus_line_len(depth: f32, sr: u32) -> u64
    requires { sr ≤ 192000 }
    ensures { (result ≡ chorus_line depth sr) × (2 ≤ result) × (result ≤ 4802) }
{
    cast::f32_to_u64(chorus_base(sr) + chorus_swing(depth, sr)) + 2
}

// A tuning of t samples at 44,100 Hz, at scale times that rate. A line of less than a sample is raised to one before the
// fraction is dropped, which is then cheap.
fn tuned_by(t: f32, scale: f32) -> u64
    requires { T (lt (mul binary32 t scale) (fin false 1 (pos 20))) }
    ensures { (n sr : ℕ) → t ≡ single n → scale ≡ div binary32 (single sr) tuning_rate → result ≡ tuned_line n sr }
{
    let y = t * scale;
    cast::small_to_u64(if y > 1.0 { y } else { 1.0 })
}

fn tuned_apart(t: f32, scale: f32) -> u64
    ensures { (n sr : ℕ) → t ≡ single n → scale ≡ div binary32 (single sr) tuning_rate → result ≡ tuned_line n sr }
{
    at_least_one(cast::f32_to_u64(t * scale))
}

// Freeverb's six combs, then its four allpasses, each as long as `tuned` makes its tuning.
fn lens_by<F: Fn(f32) -> u64>(tuned: F) -> [u64; 10]
    requires { (n : ℕ) → n ≤ 1491 → F.pre tuned (single n) }
    ensures { (f : ℕ → ℕ) → ((n r : ℕ) → F.post tuned (single n) r → r ≡ f n) → result ≡ map f reverb_tunings }
{
    [
        tuned(1116.0),
        tuned(1188.0),
        tuned(1277.0),
        tuned(1356.0),
        tuned(1422.0),
        tuned(1491.0),
        tuned(556.0),
        tuned(441.0),
        tuned(341.0),
        tuned(225.0),
    ]
}

// The lengths of the lines of a reverb.
pub fn reverb_lens(sr: u32) -> [u64; 10]
    requires { sr ≤ 192000 }
    ensures { (result ≡ reverb_lines sr) × ((k : ℕ) → (1 ≤ comb_line k sr) × (comb_line k sr ≤ 6491)) × ((k : ℕ) → (1 ≤ allpass_line k sr) × (allpass_line k sr ≤ 2420)) }
{
    let scale = cast::small_to_f32(u64::from(sr)) / 44100.0;
    lens_by(|t| tuned_by(t, scale))
}

// The same by the general cast, for the kernel. Measured: with the short form a sample of `rain` takes 17 ns in place of 12, since the
// compiler keeps lengths and places two to a vector, where words of 64 bits are slow to compare.
pub fn reverb_lens_apart(sr: u32) -> [u64; 10]
    requires { sr ≤ 192000 }
    ensures { (result ≡ reverb_lines sr) × ((k : ℕ) → (1 ≤ comb_line k sr) × (comb_line k sr ≤ 6491)) × ((k : ℕ) → (1 ≤ allpass_line k sr) × (allpass_line k sr ≤ 2420)) }
{
    let scale = cast::u32_to_f32(sr) / 44100.0;
    lens_by(|t| tuned_apart(t, scale))
}
