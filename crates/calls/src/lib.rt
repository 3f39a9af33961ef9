// The calls of the player on an accepted sheet, with its tables lent to them. The lent memory is three slices, as `performance` tells; each clause says that
// it is as long as the sheet needs, which is known of the sheet and of no slice.
#![tactic(auto)]

ghost use Rattle.std.specs.Prelude.{◌≡◌, ◌≤◌, length};
ghost use Rattle.refusal.specs.Refusal.{answer_of};
ghost use Rattle.sheet.specs.Record.{count_of};
ghost use Rattle.layout.specs.Needs.{cells_from, registers_from, scratch_from};
ghost use Rattle.machine.specs.Machine.{sound_ok, room_check};
ghost use Rattle.tables.specs.Tables.{Made};
ghost use Rattle.calls.specs.Calls.{controls_of, Fills, Builds};

use control::Controls;
use plan::Plan;
use refusal::Refusal;
use tables::Tables;

// Check 9 does not apply.
fn sound_ok(plan: &Plan<'_>, c: Controls, cells: &[f32], regs: &[u64]) -> bool
    requires { (cells_from plan.now.sheet.now (count_of plan.now.sheet.now) ≤ length cells.now) × (registers_from plan.now.sheet.now (count_of plan.now.sheet.now) ≤ length regs.now) }
    ensures { result ≡ sound_ok plan.now.sheet.now c cells.now regs.now }
{
    if c.position > 4611686018427387904 {
        return false;
    }
    rings::rings_ok(plan, cells, regs)
}

// Checks 9 and 10, and the samples. The needed scratch is left zeroed.
pub fn play<const N: usize, const M: usize>(
    sheet: &[u8],
    count: usize,
    need: usize,
    t: &Tables<N, M>,
    c: Controls,
    out: &mut [f32],
    cells: &mut [f32],
    regs: &mut [u64],
    scr: &mut [f32],
) -> Result<Controls, Refusal>
    requires { Made sheet.now count t.now × (room_check sheet.now (length cells.old) (length regs.old) (length scr.old) ≡ 0) × (need ≡ scratch_from sheet.now (count_of sheet.now)) }
    ensures { Fills sheet.now c out.old cells.old regs.old scr.old (answer_of result) (controls_of c result) out.new cells.new regs.new scr.new }
{
    let plan = t.plan(sheet, count);
    let n = out.len();
    if !sound_ok(&plan, c, cells, regs) {
        return Err(Refusal::State);
    }
    if !control::positions_left(c.position, n as u64) {
        return Err(Refusal::Position);
    }
    if n == 0 {
        return Ok(c);
    }
    let r = buffers::run(&plan, c, out, cells, regs, scr);
    state::clear(scr, need); // the next call finds it zeroed
    Ok(r)
}

// The records' start values, and fresh controls in place of c.
pub fn begin<const N: usize, const M: usize>(
    sheet: &[u8],
    count: usize,
    need: usize,
    t: &Tables<N, M>,
    c: Controls,
    cells: &mut [f32],
    regs: &mut [u64],
    scr: &mut [f32],
) -> Controls
    requires { Made sheet.now count t.now × (room_check sheet.now (length cells.old) (length regs.old) (length scr.old) ≡ 0) × (need ≡ scratch_from sheet.now (count_of sheet.now)) }
    ensures { Builds sheet.now c cells.old regs.old scr.old 0 result cells.new regs.new scr.new }
{
    let plan = t.plan(sheet, count);
    // There is no heap: a path for each record that a sheet may have.
    let mut paths = [0u64; 256];
    // The firsts stay beside the plan: only a start reads them, and each fill would carry them too, so a plan with them is no plainer.
    paths::paths(&t.links(sheet, count), &mut paths);
    state::start_all(&plan, &t.firsts, &paths, cells, regs);
    state::clear(scr, need);
    Controls::fresh()
}
