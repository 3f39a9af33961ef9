#![tactic(auto)]

ghost use Rattle.std.specs.Prelude.{◌≡◌};
// The theory of trees of records stands in specs/; a crate has some code.
pub fn none() -> u64
    ensures { result ≡ 0 }
{
    0
}
