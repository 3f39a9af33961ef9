// What every crate of blocks uses. The theory of blocks stands in specs/.
#![tactic(auto)]

ghost use Rattle.std.specs.Prelude.{◌≡◌, ℕ, ◌<◌, List, map, length, Float};
ghost use Rattle.block.specs.Iterate.{given, after, at};

// A block is at most this many samples.
pub fn block_len() -> usize
    ensures { result ≡ 256 }
{
    256
}

// x throughout. Measured: std's `fill` takes up to 1.7 times as long for a block of 64, since it stores the last eight one by one.
pub fn fill_block(out: &mut [f32], x: f32)
    ensures { out.new ≡ map (λ y. x) out.old }
{
    for y in out.iter_mut() {
        *y = x;
    }
}

// A block in place, sample after sample: the step takes the number of the sample, the state and what stood there.
pub fn run_block<S: Copy, F: Fn(usize, S, f32) -> (f32, S)>(out: &mut [f32], first: S, step: F) -> S
    requires { (k : ℕ) (s : S) (x : Float) → k < length out.old → F.pre step k s x }
    ensures { (f : ℕ → S → Float × S) → ((k : ℕ) (s : S) (r : Float × S) → k < length out.old → F.post step k s (at out.old k) r → r ≡ f k s) → (out.new ≡ given f first (length out.old)) × (result ≡ after f first (length out.old)) }
{
    let mut state = first;
    for k in 0..out.len() {
        let (y, next) = step(k, state, out[k]);
        out[k] = y;
        state = next;
    }
    state
}
