// Super over a block: the voices stay in the record's own cells. n is a parameter beside them, as in the definition: the sheet says
// it, and half of the cells' number would say it no plainer.
// `after` does not say that the cells stay as many, so it is said beside it.
#![tactic(auto)]

ghost use Rattle.std.specs.Prelude.{◌≡◌, ◌*◌, ◌≤◌, length};
ghost use Rattle.block.specs.Iterate.{given, after};
ghost use Rattle.source.specs.Oscillators.{Covers};
ghost use Rattle.super_block.specs.Super as bank;
ghost use Rattle.super_block.specs.Super.{super_step};

use source::Frequencies;

// The cells are n phases, then n ratios.
fn voices(cells: &mut [f32], n: usize, wave: dsl::SuperWave, f: f32, srf: f32) -> f32
    requires { length cells.old ≡ 2 * n }
    ensures { ((result, cells.new) ≡ bank.voices wave f srf n cells.old n) × (length cells.new ≡ length cells.old) }
{
    let mut sum: f32 = 0.0;
    for k in 0..n {
        let (y, next) = source::super_voice(wave, f, cells[n + k], srf, cells[k]);
        cells[k] = next;
        sum += y;
    }
    sum
}

// A loop of its own, since a turn writes to the cells: the state of block::run_block is a value.
pub fn super_block(
    out: &mut [f32],
    w: Frequencies,
    wave: dsl::SuperWave,
    n: usize,
    cells: &mut [f32],
)
    requires { Covers (length out.old) w × (length cells.old ≡ 2 * n) }
    ensures { (out.new ≡ given (super_step wave n w.entry) cells.old (length out.old)) × (cells.new ≡ after (super_step wave n w.entry) cells.old (length out.old)) × (length cells.new ≡ length cells.old) }
{
    let scale = 1.0 / cast::u64_to_f32(n as u64);
    for k in 0..out.len() {
        let f = w.at(k).hertz();
        out[k] = voices(cells, n, wave, f, w.srf) * scale;
    }
}
