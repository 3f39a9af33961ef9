// Samples in any number, a block of at most 256 at a time: the pitch of each sample first, then the walk over the records. Buffers and lent memory are
// slices of their own, as `walk` tells, and what is asked of them is what it asks.
#![tactic(auto)]

ghost use Rattle.std.specs.Prelude.{◌≡◌, ◌+◌, ◌^◌, ◌≤◌, ◌<◌, length};
ghost use Rattle.sheet.specs.Record.{count_of};
ghost use Rattle.layout.specs.Needs.{scratch_from};
ghost use Rattle.walk.specs.Walk.{Sound};
ghost use Rattle.streaming.specs.Run.{Blocked, Buffer};

use plan::Plan;

// One block: v, w and pitch are buffers of its length.
fn block(
    plan: &Plan<'_>,
    c: control::Controls,
    out: &mut [f32],
    v: &mut [f32],
    w: &mut [f32],
    pitch: &mut [f32],
    cells: &mut [f32],
    regs: &mut [u64],
    scr: &mut [f32],
) -> control::Controls
    requires { (scratch_from plan.now.sheet.now (count_of plan.now.sheet.now) ≤ length scr.old) × Sound plan.now.sheet.now cells.old regs.old × (length out.old ≤ 256) × (length v.old ≡ length out.old) × (length w.old ≡ length out.old) × (length pitch.old ≡ length out.old) × (c.position + length out.old ≤ 2 ^ 62) }
    ensures { (result.position ≡ c.position + length out.old) × Blocked plan.now.sheet.now (length out.old) c cells.old regs.old scr.old result out.new cells.new regs.new scr.new }
{
    let r = glide::glide_block(c, pitch);
    block::fill_block(out, 0.0);
    walk::source(
        plan,
        0,
        glide::glide_on(c),
        out,
        v,
        w,
        pitch,
        cells,
        regs,
        scr,
    );
    r
}

fn chunk(n: usize) -> usize
    ensures { (result ≤ n) × (result ≤ 256) × (0 < n → 0 < result) }
{
    n.min(256)
}

// As many samples as out has; v, w and pitch are buffers that hold a block of them. That a part ensures what the whole does is the point: it is a
// way to the same end.
pub fn run(
    plan: &Plan<'_>,
    first: control::Controls,
    out: &mut [f32],
    v: &mut [f32],
    w: &mut [f32],
    pitch: &mut [f32],
    cells: &mut [f32],
    regs: &mut [u64],
    scr: &mut [f32],
) -> control::Controls
    requires { (scratch_from plan.now.sheet.now (count_of plan.now.sheet.now) ≤ length scr.old) × Sound plan.now.sheet.now cells.old regs.old × Buffer (length out.old) (length v.old) × Buffer (length out.old) (length w.old) × Buffer (length out.old) (length pitch.old) × (first.position + length out.old ≤ 2 ^ 62) }
    ensures { Blocked plan.now.sheet.now (length out.old) first cells.old regs.old scr.old result out.new cells.new regs.new scr.new }
{
    // A loop over `chunks_mut` is no plainer: its chunks are of `out` alone, and three buffers are cut to the same length.
    let mut c = first;
    let mut d: usize = 0;
    while d < out.len() {
        let m = chunk(out.len() - d);
        let e = d + m;
        c = block(
            plan,
            c,
            &mut out[d..e],
            &mut v[..m],
            &mut w[..m],
            &mut pitch[..m],
            cells,
            regs,
            scr,
        );
        d = e;
    }
    c
}
