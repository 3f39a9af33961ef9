// Mix and Mul over a block, on their part of the scratch. The scratch is lent whole, with the place where the block begins: between two
// inputs of a node the inputs write to other parts of it. A block and what is joined to it come from different memory, so they are two slices.
#![tactic(auto)]

ghost use Rattle.std.specs.Prelude.{◌≡◌, map, ◌+◌, ◌≤◌, length};
ghost use Rattle.tree.specs.Comm.{zip};
ghost use Rattle.sheet.specs.Numbers.{fold_number};
ghost use Rattle.unit.specs.Voice.{join_of, empty_of};
ghost use Rattle.mixer.specs.Part.{put, mid};

use sheet::kinds::Fold;

#[tactic(auto, unfolding(sheet::specs::Numbers::fold_number))]
fn join(fold: Fold, a: f32, b: f32) -> f32
    ensures { result ≡ join_of (fold_number fold) a b }
{
    match fold {
        Fold::Mix => a + b,
        Fold::Mul => a * b,
    }
}

// What no inputs come to.
#[tactic(auto, unfolding(sheet::specs::Numbers::fold_number))]
pub fn empty(fold: Fold) -> f32
    ensures { result ≡ empty_of (fold_number fold) }
{
    match fold {
        Fold::Mix => 0.0,
        Fold::Mul => 1.0,
    }
}

fn join_into(fold: Fold, acc: &mut [f32], x: &[f32])
    requires { length acc.old ≡ length x.now }
    ensures { acc.new ≡ zip (join_of (fold_number fold)) acc.old x.now }
{
    block::run_block(acc, (), |k, s, a| (join(fold, a, x[k]), s));
}

// The n numbers of the scratch from at on: filled, joined to, and taken.
pub fn scratch_fill(scr: &mut [f32], at: usize, n: usize, x: f32)
    requires { at + n ≤ length scr.old }
    ensures { scr.new ≡ put at n scr.old (map (λ y. x) (mid at n scr.old)) }
{
    let e = at + n;
    block::fill_block(&mut scr[at..e], x);
}

pub fn scratch_join(fold: Fold, scr: &mut [f32], at: usize, x: &[f32])
    requires { at + length x.now ≤ length scr.old }
    ensures { scr.new ≡ put at (length x.now) scr.old (zip (join_of (fold_number fold)) (mid at (length x.now) scr.old) x.now) }
{
    let e = at + x.len();
    join_into(fold, &mut scr[at..e], x);
}

pub fn scratch_take(out: &mut [f32], scr: &[f32], at: usize)
    requires { at + length out.old ≤ length scr.now }
    ensures { out.new ≡ mid at (length out.old) scr.now }
{
    let e = at + out.len();
    // A loop in place of copy_from_slice, of which the compiler makes a call of memmove in the walk: the library is to want no more of the
    // C library than memcpy and memset.
    let x = &scr[at..e];
    block::run_block(out, (), |k, s, _| (x[k], s));
}
