// Modal over a block: the modes stay in the record's own cells. n is a parameter beside them, since the contract lets a record own
// more cells than its n modes have.
// `after` does not say that the cells stay as many, so it is said beside it.
// The mix is the record's and the cells its memory: a struct of them would be made for one call.
#![tactic(auto)]

ghost use Rattle.std.specs.Prelude.{◌≡◌, ◌+◌, ◌*◌, ◌≤◌, ◌<◌, List, length, Float};
ghost use Rattle.std.specs.Float.{nan};
ghost use Rattle.block.specs.Iterate.{given, after};
ghost use Rattle.block.specs.Loop.{Going};
ghost use Rattle.modal_block.specs.Modal.{mode_at, put_mode, modal_step};
ghost use Rattle.modal_block.specs.Modes.{modes_step};

// Mode k of a bank: five cells, a1 a2 b0 y1 y2. A slice pattern would have to refuse the lengths that the contract rules out.
fn mode_at(cells: &[f32], k: usize) -> proc::Mode
    requires { 5 * k + 4 < length cells.now }
    ensures { result ≡ mode_at cells.now k }
{
    let i = 5 * k;
    proc::Mode {
        a1: cells[i],
        a2: cells[i + 1],
        b0: cells[i + 2],
        y1: cells[i + 3],
        y2: cells[i + 4],
    }
}

// Only what moves is stored: an array of the two, made to be copied, is no plainer than two stores.
fn put_mode(cells: &mut [f32], k: usize, m: proc::Mode)
    requires { 5 * k + 4 < length cells.old }
    ensures { (cells.new ≡ put_mode cells.old k m) × (length cells.new ≡ length cells.old) }
{
    let i = 5 * k;
    cells[i + 3] = m.y1;
    cells[i + 4] = m.y2;
}

// n modes for a few samples: each mode stays in locals for all of them.
fn modes<const N: usize>(cells: &mut [f32], n: usize, x: [f32; N]) -> [f32; N]
    requires { 5 * n ≤ length cells.old }
    ensures { (result ≡ given (modes_step n x.entry) cells.old N) × (cells.new ≡ after (modes_step n x.entry) cells.old N) × (length cells.new ≡ length cells.old) }
{
    let mut wet = [0.0; N];
    for k in 0..n {
        let mut mode = mode_at(cells, k);
        for j in 0..N {
            wet[j] = wet[j] + mode.step(x[j]);
        }
        put_mode(cells, k, mode);
    }
    wet
}

// N samples from the k-th on, where those before are done: xs and cs are what the block began with. It takes the block and k, since
// what is done is said of the whole block, and a part of it would have to be put back first.
fn modal_at<const N: usize>(out: &mut [f32], k: usize, mix: f32, n: usize, cells: &mut [f32])
    requires { (k + N ≤ length out.old) × (5 * n ≤ length cells.old) }
    ensures { ((xs cs : List Float) → Going nan (modal_step xs mix n) cs xs k out.old cells.old → Going nan (modal_step xs mix n) cs xs (k + N) out.new cells.new) × (length cells.new ≡ length cells.old) }
{
    let mut x = [0.0; N];
    x.copy_from_slice(&out[k..k + N]);
    let wet = modes(cells, n, x);
    let dry = 1.0 - mix;
    for j in 0..N {
        out[k + j] = x[j] * dry + wet[j] * mix;
    }
}

// The samples in fours, and then those that are left.
pub fn modal_block(out: &mut [f32], mix: f32, n: usize, cells: &mut [f32])
    requires { 5 * n ≤ length cells.old }
    ensures { (out.new ≡ given (modal_step out.old mix n) cells.old (length out.old)) × (cells.new ≡ after (modal_step out.old mix n) cells.old (length out.old)) × (length cells.new ≡ length cells.old) }
{
    let fours = out.len() / 4;
    for i in 0..fours {
        modal_at::<4>(out, 4 * i, mix, n, cells);
    }
    for k in 4 * fours..out.len() {
        modal_at::<1>(out, k, mix, n, cells);
    }
}
