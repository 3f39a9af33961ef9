// Rand for one sample.
#![tactic(auto)]

ghost use Rattle.std.specs.Prelude.{◌≡◌};
ghost use Rattle.rand_value.specs.Rand.{rand_increment, rand_out, rand_turn, rand_next};

// Rand's walk: its generator, the two numbers of the segment and the phase in it.
#[derive(Clone, Copy)]
pub struct Rand {
    pub rng: rng::Rng,
    pub prev: f32,
    pub next: f32,
    pub phase: f32,
}

// How many segments a sample makes: at most 64, so that the catch-up below ends soon.
#[tactic(auto, unfolding(crate::specs::Rand::rand_increment))]
pub fn rand_increment(rate: f32, srf: f32) -> f32
    ensures { result ≡ rand_increment rate srf }
{
    float::min(float::max(rate, 1e-4) / srf, 64.0)
}

impl Rand {
    #[tactic(auto, unfolding(crate::specs::Rand::rand_out))]
    pub fn out(&self) -> f32
        ensures { result ≡ rand_out self.now }
    {
        let sm = self.phase * self.phase * (3.0 - 2.0 * self.phase);
        self.prev + (self.next - self.prev) * sm
    }

    // One segment is done.
    #[tactic(auto, unfolding(crate::specs::Rand::rand_turn))]
    fn turn(&mut self, from: f32, to: f32)
        ensures { self.new ≡ rand_turn from to self.old }
    {
        self.prev = self.next;
        self.next = self.rng.range(from, to);
        self.phase -= 1.0;
    }

    // Takes as many turns as the phase has gone past, at most 65: the increment is at most 64 and the phase was below 1. It is worked out once a
    // block, and from and to are the record's: a struct of the three would be made for one call.
    pub fn advance(&mut self, inc: f32, from: f32, to: f32)
        ensures { self.new ≡ rand_next inc from to self.old }
    {
        self.phase += inc;
        for _ in 0..65u32 {
            if self.phase >= 1.0 {
                self.turn(from, to);
            } else {
                return;
            }
        }
    }
}
