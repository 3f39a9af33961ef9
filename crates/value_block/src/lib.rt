// The values over a block, each into a buffer: what the one-sample kernel gives, sample after sample from the position t. That the
// positions fit stays a clause of each: it speaks of t and of the buffer's length, which no struct holds together.
#![tactic(auto)]

ghost use Rattle.std.specs.Prelude.{◌≡◌, ◌+◌, ◌^◌, ◌≤◌, ◌<◌, length};
ghost use Rattle.block.specs.Iterate.{given, after};
ghost use Rattle.value_block.specs.Steps.{slide_step, lfo_step, lfo_argument_step, lfo_level_step, env_mod_step, rand_step};

const TAU: f32 = 6.2831855;

// v's secs are `slide_secs` of the sheet's, worked out once. A block whose positions are all below 2^24 has a loop of its own:
// the general conversion of a position, worked out for every sample of a vectorised loop, takes longer than the rest.
pub fn slide_block(out: &mut [f32], v: dsl::Slide, srf: f32, t: u64)
    requires { t + length out.old < 2 ^ 64 }
    ensures { out.new ≡ given (slide_step v srf t) tt (length out.old) }
{
    let e = value::Ease::from(v);
    if t + (out.len() as u64) <= 16777216 {
        block::run_block(
            out,
            (),
            |k, s, _| (e.at(value::seconds_small(t + (k as u64), srf)), s),
        );
    } else {
        block::run_block(
            out,
            (),
            |k, s, _| (e.at(value::seconds(t + (k as u64), srf)), s),
        );
    }
}

// A sine goes in passes: its arguments, their sines, which are independent of each other, and these about the center.
pub fn lfo_block(out: &mut [f32], v: dsl::Lfo, srf: f32, t: u64)
    requires { t + length out.old < 2 ^ 64 }
    ensures { out.new ≡ given (lfo_step v srf t) tt (length out.old) }
{
    match v.shape {
        dsl::Shape::Sine => {
            block::run_block(
                out,
                (),
                |k, s, _| (TAU * value::lfo_phase(v.rate, srf, t + (k as u64)), s),
            );
            dsp::sin_block(out);
            block::run_block(out, (), |_, s, y| (v.center + v.depth * y, s));
        }
        _ => block::run_block(out, (), |k, s, _| (value::lfo(v, srf, t + (k as u64)), s)),
    }
}

// rel_start is `release_start` of the sheet, worked out once.
pub fn env_mod_block(out: &mut [f32], v: dsl::EnvMod, srf: f32, rel_start: f32, t: u64)
    requires { t + length out.old < 2 ^ 64 }
    ensures { out.new ≡ given (env_mod_step v srf rel_start t) tt (length out.old) }
{
    block::run_block(
        out,
        (),
        |k, s, _| (value::env_mod(v, srf, rel_start, t + (k as u64)), s),
    );
}

// One turn of the walk per sample; inc is `rand_increment` of the sheet, worked out once a block; from and to are the record's. A struct
// of the three would be made for one call.
pub fn rand_block(
    out: &mut [f32],
    inc: f32,
    from: f32,
    to: f32,
    s: rand_value::Rand,
) -> rand_value::Rand
    ensures { (out.new ≡ given (rand_step inc from to) s (length out.old)) × (result ≡ after (rand_step inc from to) s (length out.old)) }
{
    block::run_block(out, s, |_, s, _| {
        let y = s.out();
        let mut next = s;
        next.advance(inc, from, to);
        (y, next)
    })
}
