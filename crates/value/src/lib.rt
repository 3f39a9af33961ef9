// The values for one sample. What depends on the sheet alone (Slide's floored secs, the release's start) is
// worked out by functions of their own, once per block.
#![tactic(auto)]

ghost use Rattle.std.specs.Prelude.{◌≡◌, ◌<◌, ◌%◌};
ghost use Rattle.value.specs.Modulators.{seconds_of, slide_secs, slide_exp, slide_at, slide_of, lfo_phase, lfo_of, arp_index, arp_of, release_start, env_mod_of};
ghost use Rattle.dsl.specs.declared.Curve.TheVariants.{Exp};
ghost use Rattle.float.specs.Single.{◌⊘◌, zero as zero_f, one};
ghost use Rattle.float.specs.Order.{clamp_of};
ghost use Rattle.dsp.specs.Math.{wide_logarithm};

// The position in seconds.
pub fn seconds(t: u64, srf: f32) -> f32
    ensures { result ≡ seconds_of t srf }
{
    cast::u64_to_f32(t) / srf
}

// The same without `seconds`' test, which a block makes once. Measured: a linear Slide takes 2.2 ns a sample in place of 2.8, and an Env
// 2.6 in place of 3.2.
pub fn seconds_small(t: u64, srf: f32) -> f32
    requires { t < 16777216 }
    ensures { result ≡ seconds_of t srf }
{
    cast::small_to_f32(t) / srf
}

// A Slide of no length would divide by zero.
#[tactic(auto, unfolding(crate::specs::Modulators::slide_secs))]
pub fn slide_secs(secs: f32) -> f32
    ensures { result ≡ slide_secs secs }
{
    float::max(secs, 1e-6)
}

fn lerp(from: f32, to: f32, p: f32) -> f32
    ensures { result ≡ Rattle.value.specs.Modulators.lerp from to p }
{
    from + (to - from) * p
}

// p of the way, by the logarithm of to / from.
#[tactic(auto, unfolding(crate::specs::Modulators::slide_exp))]
fn slide_exp(from: f32, to: f32, log: f64, p: f32) -> f32
    requires { log ≡ wide_logarithm (to ⊘ from) }
    ensures { result ≡ slide_exp from to p }
{
    if from > 0.0 && to > 0.0 {
        from * dsp::powf_by(to / from, log, p)
    } else {
        lerp(from, to, p * p)
    }
}

// A slide, and what an exponential one has at every position: the logarithm of its ratio, and its end. A linear one needs neither.
#[derive(Clone, Copy)]
pub struct Ease {
    pub slide: dsl::Slide,
    pub log: f64,
    pub end: f32,
    ghost logarithm: { slide.curve ≡ Exp → log ≡ wide_logarithm (slide.to ⊘ slide.from) },
    ghost last: { slide.curve ≡ Exp → end ≡ slide_exp slide.from slide.to one },
}

impl From<dsl::Slide> for Ease {
    ghost from_gives = { λ v e. e.slide ≡ v };

    fn from(slide: dsl::Slide) -> Ease {
        match slide.curve {
            dsl::Curve::Lin => Ease {
                slide,
                log: 0.0,
                end: 0.0,
            },
            dsl::Curve::Exp => {
                let log = dsp::ln_wide(slide.to / slide.from);
                Ease {
                    slide,
                    log,
                    end: slide_exp(slide.from, slide.to, log, 1.0),
                }
            }
        }
    }
}

impl Ease {
    // y is the part of the seconds that has passed: beyond 1 the slide stays where it ends. Both this and `at` are written into the
    // loop of a block: a call for each sample is slower.
    #[inline(always)]
    #[tactic(auto, unfolding(float::specs::Order::clamp_of))]
    fn exp_at(self, y: f32) -> f32
        requires { self.slide.curve ≡ Exp }
        ensures { result ≡ slide_exp self.slide.from self.slide.to (clamp_of y zero_f one) }
    {
        if y < 0.0 {
            return slide_exp(self.slide.from, self.slide.to, self.log, 0.0);
        }
        if y > 1.0 {
            return self.end;
        }
        slide_exp(self.slide.from, self.slide.to, self.log, y)
    }

    // At x seconds.
    #[inline(always)]
    #[tactic(auto, unfolding(crate::specs::Modulators::slide_at, crate::specs::Modulators::eased))]
    pub fn at(self, x: f32) -> f32
        ensures { result ≡ slide_at self.slide x }
    {
        let y = x / self.slide.secs;
        match self.slide.curve {
            dsl::Curve::Lin => lerp(self.slide.from, self.slide.to, float::clamp(y, 0.0, 1.0)),
            dsl::Curve::Exp => self.exp_at(y),
        }
    }
}

#[tactic(auto, unfolding(crate::specs::Modulators::slide_of))]
pub fn slide(v: dsl::Slide, srf: f32, t: u64) -> f32
    ensures { result ≡ slide_of v srf t }
{
    Ease::from(v).at(seconds(t, srf))
}

// The fraction of the turns made: `fract`, not floor, so that a negative rate has a negative phase, as in the Rust.
#[tactic(auto, unfolding(crate::specs::Modulators::lfo_phase))]
pub fn lfo_phase(rate: f32, srf: f32, t: u64) -> f32
    ensures { result ≡ lfo_phase rate srf t }
{
    rounding::fract(seconds(t, srf) * rate)
}

// The rate of the sheet and the position of the controls stay two numbers beside the record's own, here and in the other values: a struct
// would be made anew at each call.
#[tactic(auto, unfolding(crate::specs::Modulators::lfo_of))]
pub fn lfo(v: dsl::Lfo, srf: f32, t: u64) -> f32
    ensures { result ≡ lfo_of v srf t }
{
    v.center + v.depth * osc::osc(v.shape, lfo_phase(v.rate, srf, t))
}

// Which of n steps sounds.
#[tactic(auto, unfolding(crate::specs::Modulators::arp_index))]
pub fn arp_index(rate: f32, srf: f32, t: u64, n: u64) -> u64
    requires { 0 < n }
    ensures { result ≡ arp_index rate srf t n }
{
    cast::f32_to_u64(seconds(t, srf) * rate) % n
}

// The step that sounds; an Arp without steps is 0.
#[tactic(auto, unfolding(crate::specs::Modulators::arp_of))]
pub fn arp(steps: &[f32], rate: f32, srf: f32, t: u64) -> f32
    ensures { result ≡ arp_of steps.now rate srf t }
{
    if steps.is_empty() {
        return 0.0;
    }
    let i = arp_index(rate, srf, t, steps.len() as u64);
    steps[i as usize]
}

// Where the release starts: r seconds before the sheet's length n, and not before 0.
#[tactic(auto, unfolding(crate::specs::Modulators::release_start))]
pub fn release_start(n: u64, srf: f32, r: f32) -> f32
    ensures { result ≡ release_start n srf r }
{
    float::max0(cast::u64_to_f32(n) / srf - r)
}

#[tactic(auto, unfolding(crate::specs::Modulators::env_mod_of))]
pub fn env_mod(v: dsl::EnvMod, srf: f32, rel_start: f32, t: u64) -> f32
    ensures { result ≡ env_mod_of v srf rel_start t }
{
    lerp(
        v.from,
        v.to,
        envelope::adsr_env(v.env, seconds(t, srf), rel_start),
    )
}
