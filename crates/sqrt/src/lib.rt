#![tactic(auto)]

ghost use Rattle.std.specs.Prelude.{◌≡◌};
ghost use Rattle.sqrt.specs.Sqrt.{sqrt_of};

// The square root, rounded to the nearest f32. A zero and +infinity stay; a NaN and what is below zero give a NaN.
pub fn sqrt(x: f32) -> f32
    ensures { result ≡ sqrt_of x }
{
    x.sqrt()
}
