// The walk over the records of a voice, a block at a time: each record over the whole block before the next. The source function enters
// a chain, and the chain function enters its source stage; along a chain goes a loop, so the stack is as deep as nodes nest.
// The buffers and the memory are slices of their own, and no struct: behind a `&mut` to a struct a slice may be replaced, so each contract
// would have to say besides that it is the same and as long as before. So each function takes them beside each other, and says by `Ready`
// and `Sound` what it needs of them.
#![tactic(auto)]

ghost use Rattle.std.specs.Prelude.{◌≡◌, false, [], map, ◌≤◌, ◌<◌, length, ◌≢◌};
ghost use Rattle.sheet.specs.Record.{count_of, kind};
ghost use Rattle.sheet.specs.Kinds.{is_fold};
ghost use Rattle.sheet.specs.Numbers.{fold_number};
ghost use Rattle.layout.specs.Needs.{scratch, scratch_from};
ghost use Rattle.unit.specs.Buffers.{values_of, buffers_of};
ghost use Rattle.walk.specs.Nodes.{Node};
ghost use Rattle.walk.specs.Walk.{Ready, Sound, Parts, Lends, Valued, Played, Leafed, Sourced, Chained, Mixed};
ghost use Rattle.walk.specs.Leaf.{Leaf, Given};

use plan::{Plan, Row};
use sheet::kinds::{Chain, Fold, Kind};

// A built node's own unit, on its own parts of the cells and registers. v and w are its values, or buffers.
fn own(
    plan: &Plan<'_>,
    i: usize,
    row: Row,
    c: control::Controls,
    out: &mut [f32],
    v: &mut [f32],
    w: &mut [f32],
    pitch: &[f32],
    cells: &mut [f32],
    regs: &mut [u64],
)
    requires { Lends plan.now.sheet.now i c pitch.now (length out.old) (length v.old) (length w.old) × Sound plan.now.sheet.now cells.old regs.old × Parts plan.now.sheet.now i row (length cells.old) (length regs.old) }
    ensures { Played plan.now.sheet.now i c out.old (buffers_of (values_of (kind plan.now.sheet.now i)) v.old w.old) cells.old regs.old out.new cells.new regs.new }
{
    units::play(
        plan.sheet,
        i,
        row.kind,
        c,
        out,
        v,
        w,
        pitch,
        &mut cells[row.cells..row.cells_end],
        &mut regs[row.registers..row.registers_end],
    );
}

// A built value's own unit, on its own parts, into a buffer.
fn value(
    plan: &Plan<'_>,
    i: usize,
    row: Row,
    c: control::Controls,
    out: &mut [f32],
    cells: &mut [f32],
    regs: &mut [u64],
)
    requires { Valued plan.now.sheet.now i c (length out.old) × Sound plan.now.sheet.now cells.old regs.old × Parts plan.now.sheet.now i row (length cells.old) (length regs.old) }
    ensures { Played plan.now.sheet.now i c out.old [] cells.old regs.old out.new cells.new regs.new }
{
    let Kind::Val(val) = row.kind else {
        return;
    };
    value_unit::play(
        plan.sheet,
        plan.count,
        plan.nexts,
        i,
        val,
        c,
        out,
        &mut cells[row.cells..row.cells_end],
        &mut regs[row.registers..row.registers_end],
    );
}

// The values of record i into the buffers v and w.
fn values(
    plan: &Plan<'_>,
    i: usize,
    c: control::Controls,
    v: &mut [f32],
    w: &mut [f32],
    cells: &mut [f32],
    regs: &mut [u64],
)
    requires { Leaf plan.now.sheet.now i c (length v.old) (length w.old) × Sound plan.now.sheet.now cells.old regs.old }
    ensures { Given plan.now.sheet.now i c (length v.old) cells.old regs.old v.new w.new cells.new regs.new }
{
    let row = plan.row(i);
    let Chain::Values(m) = row.kind.chain() else {
        return;
    };
    let first = plan.row(row.begin);
    value(plan, row.begin, first, c, v, cells, regs);
    if m == 1 {
        return;
    }
    let second = plan.row(first.after);
    value(plan, first.after, second, c, w, cells, regs);
}

// A record that plays by its own unit: v and w are buffers, for its values first.
fn leaf(
    plan: &Plan<'_>,
    i: usize,
    c: control::Controls,
    out: &mut [f32],
    v: &mut [f32],
    w: &mut [f32],
    pitch: &[f32],
    cells: &mut [f32],
    regs: &mut [u64],
)
    requires { Ready c pitch.now (length out.old) (length v.old) (length w.old) × Sound plan.now.sheet.now cells.old regs.old × (i < count_of plan.now.sheet.now) × Node plan.now.sheet.now i × (is_fold (kind plan.now.sheet.now i) ≡ false) × (kind plan.now.sheet.now i ≢ 13) }
    ensures { Leafed plan.now.sheet.now i c out.old cells.old regs.old out.new cells.new regs.new }
{
    let row = plan.row(i);
    if row.built {
        values(plan, i, c, v, w, cells, regs);
        own(plan, i, row, c, out, v, w, pitch, cells, regs);
    } else {
        block::fill_block(out, 0.0);
    }
}

// Record i's block: out is what comes in, and then what it makes.
#[cycle(chain_mix_source)]
pub fn source(
    plan: &Plan<'_>,
    i: usize,
    c: control::Controls,
    out: &mut [f32],
    v: &mut [f32],
    w: &mut [f32],
    pitch: &[f32],
    cells: &mut [f32],
    regs: &mut [u64],
    scr: &mut [f32],
)
    requires { Ready c pitch.now (length out.old) (length v.old) (length w.old) × (scratch_from plan.now.sheet.now (count_of plan.now.sheet.now) ≤ length scr.old) × Sound plan.now.sheet.now cells.old regs.old × (i < count_of plan.now.sheet.now) × Node plan.now.sheet.now i }
    ensures { Sourced plan.now.sheet.now i c out.old cells.old regs.old scr.old out.new cells.new regs.new scr.new }
{
    let row = plan.row(i);
    match row.kind {
        Kind::Fold(fold) => {
            let at = row.scratch;
            mixer::scratch_fill(scr, at, out.len(), mixer::empty(fold));
            mix(plan, i, fold, c, out, v, w, pitch, cells, regs, scr);
            mixer::scratch_take(out, scr, at);
        }
        Kind::Chain => chain(plan, i, c, out, v, w, pitch, cells, regs, scr),
        _ => leaf(plan, i, c, out, v, w, pitch, cells, regs),
    }
}

// The stages of a Chain from its source stage on: out goes through each. Most are leaves, and are played from here. The loop goes
// along links, so it counts no index.
#[cycle(chain_mix_source)]
fn chain(
    plan: &Plan<'_>,
    i: usize,
    c: control::Controls,
    out: &mut [f32],
    v: &mut [f32],
    w: &mut [f32],
    pitch: &[f32],
    cells: &mut [f32],
    regs: &mut [u64],
    scr: &mut [f32],
)
    requires { Ready c pitch.now (length out.old) (length v.old) (length w.old) × (scratch_from plan.now.sheet.now (count_of plan.now.sheet.now) ≤ length scr.old) × Sound plan.now.sheet.now cells.old regs.old × (i < count_of plan.now.sheet.now) × (kind plan.now.sheet.now i ≡ 13) }
    ensures { Chained plan.now.sheet.now i c out.old cells.old regs.old scr.old out.new cells.new regs.new scr.new }
{
    let row = plan.row(i);
    let mut j = row.begin;
    while j != 0 {
        let k = j;
        let stage = plan.row(k);
        j = stage.after;
        match stage.kind {
            Kind::Fold(_) | Kind::Chain => {
                source(plan, k, c, out, v, w, pitch, cells, regs, scr)
            }
            _ => leaf(plan, k, c, out, v, w, pitch, cells, regs),
        }
    }
}

// The inputs of a Mix or a Mul, joined one after another in its own block of scratch. The loop goes along links too.
#[cycle(chain_mix_source)]
fn mix(
    plan: &Plan<'_>,
    i: usize,
    fold: Fold,
    c: control::Controls,
    out: &mut [f32],
    v: &mut [f32],
    w: &mut [f32],
    pitch: &[f32],
    cells: &mut [f32],
    regs: &mut [u64],
    scr: &mut [f32],
)
    requires { Ready c pitch.now (length out.old) (length v.old) (length w.old) × (scratch_from plan.now.sheet.now (count_of plan.now.sheet.now) ≤ length scr.old) × Sound plan.now.sheet.now cells.old regs.old × (i < count_of plan.now.sheet.now) × (fold_number fold ≡ kind plan.now.sheet.now i) × (scratch plan.now.sheet.now i ≡ 256) }
    ensures { Mixed plan.now.sheet.now i (length out.old) c cells.old regs.old scr.old cells.new regs.new scr.new }
{
    let row = plan.row(i);
    let at = row.scratch;
    let mut j = row.begin;
    while j != 0 {
        let k = j;
        let input = plan.row(k);
        j = input.after;
        block::fill_block(out, 0.0);
        match input.kind {
            Kind::Fold(_) | Kind::Chain => {
                source(plan, k, c, out, v, w, pitch, cells, regs, scr);
                mixer::scratch_join(fold, scr, at, out);
            }
            _ => {
                leaf(plan, k, c, out, v, w, pitch, cells, regs);
                mixer::scratch_join(fold, scr, at, out);
            }
        }
    }
}
