// SplitMix64 and what is drawn from it, and the paths and seeds of dsp.rs.
#![tactic(auto)]

ghost use Rattle.std.specs.Prelude.{◌≡◌};
ghost use Rattle.rng.specs.Random.{mixed, stepped, drawn, unit_of, bi_of, range_of, path_of, seed_of, rand_seed_of};

const GOLDEN_GAMMA: u64 = 0x9e37_79b9_7f4a_7c15;

const FNV_PRIME: u64 = 0x0000_0100_0000_01b3;

// ---- the generator

// SplitMix64's finalizer.
#[tactic(auto, unfolding(crate::specs::Random::mixed))]
pub fn splitmix_mix(z: u64) -> u64
    ensures { result ≡ mixed z }
{
    let a = (z ^ (z >> 30)).wrapping_mul(0xbf58_476d_1ce4_e5b9);
    let b = (a ^ (a >> 27)).wrapping_mul(0x94d0_49bb_1331_11eb);
    b ^ (b >> 31)
}

// SplitMix64: the same seed gives the same draws. Its state is public, since the registers of a unit hold it between blocks.
#[derive(Clone, Copy)]
pub struct Rng {
    pub state: u64,
}

// Each draw says where it leaves the generator: that alone is common to all.
impl Rng {
    // The next 64 bits.
    pub fn next_u64(&mut self) -> u64
        ensures value { result ≡ drawn self.old.state }
        ensures state { self.new.state ≡ stepped self.old.state }
    {
        self.state = self.state.wrapping_add(GOLDEN_GAMMA);
        splitmix_mix(self.state)
    }

    // In [0, 1). The 24 bits are exactly an f32.
    #[tactic(auto, unfolding(crate::specs::Random::unit_of))]
    pub fn unit(&mut self) -> f32
        ensures value { result ≡ unit_of self.old.state }
        ensures state { self.new.state ≡ stepped self.old.state }
    {
        (self.next_u64() >> 40) as f32 / 16777216.0
    }

    // In [-1, 1): white noise. Twice n / 2^24 is n / 2^23, with a product less.
    pub fn bi(&mut self) -> f32
        ensures value { result ≡ bi_of self.old.state }
        ensures state { self.new.state ≡ stepped self.old.state }
    {
        (self.next_u64() >> 40) as f32 / 8388608.0 - 1.0
    }

    // In [lo, hi).
    #[tactic(auto, unfolding(crate::specs::Random::range_of))]
    pub fn range(&mut self, lo: f32, hi: f32) -> f32
        ensures value { result ≡ range_of self.old.state lo hi }
        ensures state { self.new.state ≡ stepped self.old.state }
    {
        lo + (hi - lo) * self.unit()
    }
}

// ---- seeds by a node's place in the tree, so that they do not depend on the order of evaluation

#[tactic(auto, unfolding(crate::specs::Random::path_of))]
pub fn node_path(parent: u64, child: u64) -> u64
    ensures { result ≡ path_of parent child }
{
    (parent ^ child.wrapping_add(1)).wrapping_mul(FNV_PRIME)
}

#[tactic(auto, unfolding(crate::specs::Random::seed_of))]
pub fn node_seed(path: u64) -> u64
    ensures { result ≡ seed_of path }
{
    splitmix_mix(path.wrapping_add(GOLDEN_GAMMA))
}

// Of the bits of from, to and rate: an f32 would lose the payload of a NaN.
#[tactic(auto, unfolding(crate::specs::Random::rand_seed_of))]
pub fn rand_seed(seed: u64, from: u32, to: u32, rate: u32) -> u64
    ensures { result ≡ rand_seed_of seed from to rate }
{
    let h = seed ^ GOLDEN_GAMMA;
    let a = (h ^ u64::from(from)).wrapping_mul(FNV_PRIME);
    let b = (a ^ u64::from(to)).wrapping_mul(FNV_PRIME);
    (b ^ u64::from(rate)).wrapping_mul(FNV_PRIME)
}
