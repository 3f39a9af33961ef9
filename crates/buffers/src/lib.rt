// The samples of a fill, with the buffers that they are worked out in. The lent memory is slices of its own, as `walk` tells, and what is asked of it is
// what `streaming` asks.
#![tactic(auto)]

ghost use Rattle.std.specs.Prelude.{◌≡◌, true, length, ◌≤◌};
ghost use Rattle.control.specs.Moves.{left_for};
ghost use Rattle.sheet.specs.Record.{count_of};
ghost use Rattle.layout.specs.Needs.{scratch_from};
ghost use Rattle.streaming.specs.Run.{Blocked, Buffer};
ghost use Rattle.walk.specs.Walk.{Sound};

use plan::Plan;

// The buffers, for the values of a record and the pitch, have N samples each: there is no heap.
fn run_in<const N: usize>(
    plan: &Plan<'_>,
    c: control::Controls,
    out: &mut [f32],
    cells: &mut [f32],
    regs: &mut [u64],
    scr: &mut [f32],
) -> control::Controls
    requires { (scratch_from plan.now.sheet.now (count_of plan.now.sheet.now) ≤ length scr.old) × Sound plan.now.sheet.now cells.old regs.old × (left_for c.position (length out.old) ≡ true) × Buffer (length out.old) N × (N ≤ 256) }
    ensures { Blocked plan.now.sheet.now (length out.old) c cells.old regs.old scr.old result out.new cells.new regs.new scr.new }
{
    let mut v = [0.0f32; N];
    let mut w = [0.0f32; N];
    let mut pitch = [0.0f32; N];
    streaming::run(plan, c, out, &mut v, &mut w, &mut pitch, cells, regs, scr)
}

// Smaller buffers, which are zeroed sooner, for a short fill.
pub fn run(
    plan: &Plan<'_>,
    c: control::Controls,
    out: &mut [f32],
    cells: &mut [f32],
    regs: &mut [u64],
    scr: &mut [f32],
) -> control::Controls
    requires { (scratch_from plan.now.sheet.now (count_of plan.now.sheet.now) ≤ length scr.old) × Sound plan.now.sheet.now cells.old regs.old × (left_for c.position (length out.old) ≡ true) }
    ensures { Blocked plan.now.sheet.now (length out.old) c cells.old regs.old scr.old result out.new cells.new regs.new scr.new }
{
    if out.len() <= 64 {
        run_in::<64>(plan, c, out, cells, regs, scr)
    } else {
        run_in::<256>(plan, c, out, cells, regs, scr)
    }
}
