// FNV-1a with 64 bits over words and floats, each a word, and over what a voice leaves.
#![tactic(auto)]

ghost use Rattle.std.specs.Prelude.{◌≡◌, ℕ};
ghost use Rattle.hash.specs.Hash.{mixed, hashed, bits_of, state_of};

pub const BASIS: u64 = 0xcbf2_9ce4_8422_2325;

#[tactic(auto, unfolding(crate::specs::Hash::mixed))]
pub fn mix(h: u64, w: u64) -> u64
    ensures { result ≡ mixed h w }
{
    (h ^ w).wrapping_mul(0x100_0000_01b3)
}

pub fn mix_float(h: u64, x: f32) -> u64
    ensures { result ≡ mixed h (bits_of x) }
{
    mix(h, u64::from(float::to_bits(x)))
}

// The hash with all of xs, each by its word. That a closure may be called is what every function asks that takes one.
pub fn hash_all<T: Copy, F: Fn(T) -> u64>(first: u64, xs: &[T], word: F) -> u64
    requires { F.IsAlwaysCallable word }
    ensures { (w : T → ℕ) → ((x : T) (r : ℕ) → F.post word x r → r ≡ w x) → result ≡ hashed w first xs.now }
{
    let mut h = first;
    for x in xs {
        h = mix(h, word(*x));
    }
    h
}

pub fn hash_floats(first: u64, xs: &[f32]) -> u64
    ensures { result ≡ hashed bits_of first xs.now }
{
    hash_all(first, xs, |x| u64::from(float::to_bits(x)))
}

// What a voice leaves: its controls, and the cells, registers and scratch that it needs.
pub fn hash_state(c: control::Controls, cells: &[f32], regs: &[u64], scr: &[f32]) -> u64
    ensures { result ≡ state_of c cells.now regs.now scr.now }
{
    let a = mix_float(mix(BASIS, c.position), c.pitch);
    let b = mix_float(mix_float(mix_float(a, c.target), c.glide), c.bend);
    hash_floats(hash_all(hash_floats(b, cells), regs, |w| w), scr)
}
