// The choices that a node or a value has, in the Rust's order, which is the order of the sheet's option numbers, and the
// numbers of a value that belong together.
#![tactic(auto)]

ghost use Rattle.std.specs.Prelude.{◌≡◌};
ghost use Rattle.dsl.specs.Options.{shape_of, curve_of, drive_shape_of, noise_color_of, super_wave_of};

#[derive(Clone, Copy, Debug, PartialEq, Eq)]
pub enum Shape {
    Sine,
    Square,
    Triangle,
    Saw,
}

#[derive(Clone, Copy, Debug, PartialEq, Eq)]
pub enum Curve {
    Lin,
    Exp,
}

#[derive(Clone, Copy, Debug, PartialEq, Eq)]
pub enum DriveShape {
    Tanh,
    Hard,
    Fold,
}

#[derive(Clone, Copy, Debug, PartialEq, Eq)]
pub enum NoiseColor {
    White,
    Pink,
    Brown,
}

#[derive(Clone, Copy, Debug, PartialEq, Eq)]
pub enum SuperWave {
    Sawtooth,
    Square,
}

// Each by its number in the sheet; a number past the last is the last.
impl From<u8> for Shape {
    ghost from_gives = { λ n r. r ≡ shape_of n };

    #[tactic(auto, unfolding(crate::specs::Options::shape_of))]
    fn from(n: u8) -> Shape {
        match n {
            0 => Shape::Sine,
            1 => Shape::Square,
            2 => Shape::Triangle,
            _ => Shape::Saw,
        }
    }
}

impl From<u8> for Curve {
    ghost from_gives = { λ n r. r ≡ curve_of n };

    #[tactic(auto, unfolding(crate::specs::Options::curve_of))]
    fn from(n: u8) -> Curve {
        match n {
            0 => Curve::Lin,
            _ => Curve::Exp,
        }
    }
}

// Drive's options 0 to 2 are its shape anti-aliased, 3 to 5 the same without.
impl From<u8> for DriveShape {
    ghost from_gives = { λ n r. r ≡ drive_shape_of n };

    #[tactic(auto, unfolding(crate::specs::Options::drive_shape_of))]
    fn from(n: u8) -> DriveShape {
        match n % 3 {
            0 => DriveShape::Tanh,
            1 => DriveShape::Hard,
            _ => DriveShape::Fold,
        }
    }
}

impl From<u8> for NoiseColor {
    ghost from_gives = { λ n r. r ≡ noise_color_of n };

    #[tactic(auto, unfolding(crate::specs::Options::noise_color_of))]
    fn from(n: u8) -> NoiseColor {
        match n {
            0 => NoiseColor::White,
            1 => NoiseColor::Pink,
            _ => NoiseColor::Brown,
        }
    }
}

impl From<u8> for SuperWave {
    ghost from_gives = { λ n r. r ≡ super_wave_of n };

    #[tactic(auto, unfolding(crate::specs::Options::super_wave_of))]
    fn from(n: u8) -> SuperWave {
        match n {
            0 => SuperWave::Sawtooth,
            _ => SuperWave::Square,
        }
    }
}

// ---- the numbers of a value

#[derive(Clone, Copy)]
pub struct Slide {
    pub from: f32,
    pub to: f32,
    pub secs: f32,
    pub curve: Curve,
}

#[derive(Clone, Copy)]
pub struct Lfo {
    pub shape: Shape,
    pub rate: f32,
    pub depth: f32,
    pub center: f32,
}

#[derive(Clone, Copy)]
pub struct Adsr {
    pub a: f32,
    pub d: f32,
    pub s: f32,
    pub r: f32,
    pub punch: f32,
}

#[derive(Clone, Copy)]
pub struct EnvMod {
    pub env: Adsr,
    pub from: f32,
    pub to: f32,
}

#[derive(Clone, Copy)]
pub struct Rand {
    pub from: f32,
    pub to: f32,
    pub rate: f32,
}
