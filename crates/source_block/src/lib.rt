// Impact and Env over a block: what the one-sample kernel gives, sample after sample. As in value_block, a clause says that the
// positions fit.
#![tactic(auto)]

ghost use Rattle.std.specs.Prelude.{◌≡◌, ◌+◌, ◌^◌, ◌≤◌, ◌<◌, length};
ghost use Rattle.block.specs.Iterate.{given};
ghost use Rattle.source_block.specs.Steps.{impact_step, env_step, seconds_step, env_level_step};

// From the lobe's width on there is nothing to compare.
pub fn impact_block(out: &mut [f32], lobe: unpitched::Impact, t: u64)
    requires { t + length out.old < 2 ^ 64 }
    ensures { out.new ≡ given (impact_step lobe.w lobe.norm t) tt (length out.old) }
{
    if t < lobe.w {
        block::run_block(out, (), |k, s, _| (lobe.at(t + (k as u64)), s));
    } else {
        block::fill_block(out, 0.0);
    }
}

// A block whose positions are all below 2^24 goes in two passes: its seconds, four divisions at a time, and the envelope at them.
pub fn env_block(out: &mut [f32], env: dsl::Adsr, srf: f32, rel_start: f32, t: u64)
    requires { t + length out.old < 2 ^ 64 }
    ensures { out.new ≡ given (env_step env srf rel_start t) tt (length out.old) }
{
    if t + (out.len() as u64) <= 16777216 {
        block::run_block(
            out,
            (),
            |k, s, _| (value::seconds_small(t + (k as u64), srf), s),
        );
        block::run_block(
            out,
            (),
            |_, s, y| (envelope::adsr_env(env, y, rel_start), s),
        );
    } else {
        block::run_block(
            out,
            (),
            |k, s, _| (unpitched::env(env, srf, rel_start, t + (k as u64)), s),
        );
    }
}
