// The player's controls and the moves of pitch and bend, which never refuse.
#![tactic(auto)]

ghost use Rattle.std.specs.Prelude.{◌≡◌};
ghost use Rattle.control.specs.Moves.{fresh, glided, glide_of, pitch_moved, bend_moved, left_for};

// A voice has positions from 0 to below this.
const POSITIONS: u64 = 1 << 62;

// How long the voice has sounded, in samples; the pitch's multiplier, where it glides to and by which part per sample; the bend. C
// holds it, so any position may stand in it: what plays asks that its positions fit in a word.
#[repr(C)]
#[derive(Clone, Copy)]
pub struct Controls {
    pub position: u64,
    pub pitch: f32,
    pub target: f32,
    pub glide: f32,
    pub bend: f32,
}

impl Controls {
    // Of a voice that has not sounded yet.
    #[tactic(auto, unfolding(crate::specs::Moves::fresh))]
    pub fn fresh() -> Controls
        ensures { result ≡ fresh }
    {
        Controls {
            position: 0,
            pitch: 1.0,
            target: 1.0,
            glide: 1.0,
            bend: 1.0,
        }
    }

    #[tactic(auto, unfolding(crate::specs::Moves::pitch_moved))]
    pub fn glide_pitch(self, scale: f32, coefficient: f32) -> Controls
        ensures { result ≡ pitch_moved self scale coefficient }
    {
        let target = float::max0(scale);
        Controls {
            target,
            glide: glide_of(coefficient),
            ..self
        }
    }

    #[tactic(auto, unfolding(crate::specs::Moves::bend_moved))]
    pub fn set_bend(self, bend: f32) -> Controls
        ensures { result ≡ bend_moved self bend }
    {
        Controls { bend, ..self }
    }
}

// One sample of the glide.
pub fn glide_step(pitch: f32, target: f32, glide: f32) -> f32
    ensures { result ≡ glided pitch target glide }
{
    pitch + (target - pitch) * glide
}

// A NaN would stay in the pitch for good, so it counts as no glide.
#[tactic(auto, unfolding(crate::specs::Moves::glide_of))]
fn glide_of(coefficient: f32) -> f32
    ensures { result ≡ glide_of coefficient }
{
    if coefficient.is_nan() {
        return 1.0;
    }
    float::clamp(coefficient, 1.17549435e-38, 1.0)
}

// Whether a fill of this length has positions left. The sum may not fit a word, the difference does.
pub fn positions_left(position: u64, length: u64) -> bool
    ensures { result ≡ left_for position length }
{
    length <= POSITIONS && position <= POSITIONS - length
}
