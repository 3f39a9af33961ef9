// The envelope of dsp.rs.
#![tactic(auto)]

ghost use Rattle.std.specs.Prelude.{◌≡◌};
ghost use Rattle.envelope.specs.Envelope.{through, level, adsr_of};

// How far x is through a stretch of the length w.
fn ramp(x: f32, w: f32) -> f32
    ensures { result ≡ through x w }
{
    if w > 0.0 { x / w } else { 1.0 }
}

// Without the punch.
#[tactic(auto, unfolding(crate::specs::Envelope::level))]
fn adsr_level(env: dsl::Adsr, t: f32, rel_start: f32) -> f32
    ensures { result ≡ level env t rel_start }
{
    if t < env.a {
        return ramp(t, env.a);
    }
    if t < env.a + env.d {
        let p = ramp(t - env.a, env.d);
        return 1.0 - (1.0 - env.s) * p;
    }
    if t < rel_start {
        return env.s;
    }
    if env.r > 0.0 {
        let p = float::clamp((t - rel_start) / env.r, 0.0, 1.0);
        return env.s * (1.0 - p);
    }
    0.0
}

// The envelope at t seconds, with the release from rel_start on. The punch's window is told first: in it the level has two stages.
#[tactic(auto, unfolding(crate::specs::Envelope::adsr_of))]
pub fn adsr_env(env: dsl::Adsr, t: f32, rel_start: f32) -> f32
    ensures { result ≡ adsr_of env t rel_start }
{
    let punch_win = env.a + env.d;
    if t < punch_win {
        let v = adsr_level(env, t, rel_start);
        if env.punch > 0.0 && punch_win > 0.0 {
            return v * (1.0 + env.punch * (1.0 - t / punch_win));
        }
        return v;
    }
    adsr_level(env, t, rel_start)
}
