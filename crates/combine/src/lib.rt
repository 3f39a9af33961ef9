// Mix and Mul for one sample, over the samples of their inputs.
#![tactic(auto)]

ghost use Rattle.std.specs.Prelude.{◌≡◌};
ghost use Rattle.combine.specs.Combine.{mix_of, mul_of};

// std's `sum` starts from -0.0, which Mix of none would then be.
pub fn mix(xs: &[f32]) -> f32
    ensures { result ≡ mix_of xs.now }
{
    xs.iter().copied().fold(0.0, |y, x| y + x)
}

pub fn mul(xs: &[f32]) -> f32
    ensures { result ≡ mul_of xs.now }
{
    xs.iter().copied().product()
}
