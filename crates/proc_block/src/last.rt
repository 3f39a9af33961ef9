// The passes of tanh's antiderivative at the last sample: a sample that stays, as a square's do, has the numbers of the one before.
// The two stay apart: a generic one would take the numbers, their comparison and the function as parameters, for these two uses.
ghost use Rattle.std.specs.Prelude.{◌≡◌};
ghost use Rattle.drive.specs.Drive.{decay_of, ln_cosh};

#[derive(Clone, Copy)]
pub struct Decay {
    pub x: f32,
    pub d: f32,
    pub ghost held: { d ≡ decay_of x },
}

impl Decay {
    pub fn at(&mut self, x: f32) -> f32
        ensures { result ≡ decay_of x }
    {
        if !float::same(x, self.x) {
            *self = Decay {
                x,
                d: drive::decay(x),
            };
        }
        self.d
    }
}

#[derive(Clone, Copy)]
pub struct LnCosh {
    pub x: f32,
    pub d: f32,
    pub f: f32,
    pub ghost held: { f ≡ ln_cosh x d },
}

impl LnCosh {
    pub fn at(&mut self, x: f32, d: f32) -> f32
        ensures { result ≡ ln_cosh x d }
    {
        if !(float::same(x, self.x) && float::same(d, self.d)) {
            *self = LnCosh {
                x,
                d,
                f: drive::ln_cosh(x, d),
            };
        }
        self.f
    }
}
