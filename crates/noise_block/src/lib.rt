// White, pink and brown noise and Dust over a block: what the one-sample kernel gives, sample after sample.
#![tactic(auto)]

ghost use Rattle.std.specs.Prelude.{◌≡◌, length};
ghost use Rattle.block.specs.Iterate.{given, after};
ghost use Rattle.noise_block.specs.Steps.{white_step, pink_step, brown_step, dust_step};

use unpitched::{Brown, Dust, Pink};

pub fn white_block(out: &mut [f32], word: u64) -> u64
    ensures { (out.new ≡ given white_step word (length out.old)) × (result ≡ after white_step word (length out.old)) }
{
    block::run_block(out, word, |_, word, _| unpitched::white(word))
}

pub fn pink_block(out: &mut [f32], s: Pink) -> Pink
    ensures { (out.new ≡ given pink_step s (length out.old)) × (result ≡ after pink_step s (length out.old)) }
{
    block::run_block(out, s, |_, mut s, _| (s.step(), s))
}

pub fn brown_block(out: &mut [f32], s: Brown) -> Brown
    ensures { (out.new ≡ given brown_step s (length out.old)) × (result ≡ after brown_step s (length out.old)) }
{
    block::run_block(out, s, |_, mut s, _| (s.step(), s))
}

// chance and decay are `dust_chance` and `dust_decay` of the sheet, worked out once.
pub fn dust_block(out: &mut [f32], chance: f32, decay: f32, s: Dust) -> Dust
    ensures { (out.new ≡ given (dust_step chance decay) s (length out.old)) × (result ≡ after (dust_step chance decay) s (length out.old)) }
{
    block::run_block(out, s, |_, mut s, _| (s.step(chance, decay), s))
}
