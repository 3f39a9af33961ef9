// The player's calls. Each takes whatever bytes, numbers and lent memory it is given. A refusal says why, leaves the controls as they came and writes
// nothing lent.
// What a call ensures stands in each of its parts, which are ways to the same end; the lent memory is three slices, as `performance` tells.
#![tactic(auto)]

ghost use Rattle.std.specs.Prelude.{◌≡◌, ◌≤◌, ◌<◌, length};
ghost use Rattle.control.specs.Moves.{pitch_moved, bend_moved};
ghost use Rattle.refusal.specs.Refusal.{answer_of};
ghost use Rattle.sheet.specs.Links.{Rows};
ghost use Rattle.tables.specs.Answer.{needed_by, needed_of};
ghost use Rattle.calls.specs.Calls.{controls_of, Fills, Cuts, Builds};

use control::Controls;
use offsets::Needs;
use refusal::Refusal;
use tables::Tables;

// A sheet of at most 24 records has at most this many bytes. To zero tables for 256 records takes 140 ns more (docs/SPEED.md), which is
// longer than a short fill of its voice.
const SHORT: usize = 984;

// With tables for N records in its own frame, of which a short sheet has no large ones.
fn needs_with<const N: usize, const M: usize>(sheet: &[u8]) -> Result<Needs, Refusal>
    requires { Rows sheet.now N × (N < M) × (M ≤ 257) }
    ensures { needed_by result ≡ needed_of sheet.now }
{
    let mut t = Tables::<N, M>::new();
    let m = tables::measure(sheet, &mut t)?;
    Ok(m.needs)
}

// How much memory the sheet needs to be lent.
pub fn needs(sheet: &[u8]) -> Result<Needs, Refusal>
    ensures { needed_by result ≡ needed_of sheet.now }
{
    if sheet.len() <= SHORT {
        return needs_with::<24, 25>(sheet);
    }
    needs_with::<256, 257>(sheet)
}

// ---- fill

// With tables for N records in its own frame, of which a short fill has no large ones.
fn fill_with<const N: usize, const M: usize>(
    sheet: &[u8],
    c: Controls,
    out: &mut [f32],
    cells: &mut [f32],
    regs: &mut [u64],
    scr: &mut [f32],
) -> Result<Controls, Refusal>
    requires { Rows sheet.now N × (N < M) × (M ≤ 257) }
    ensures { Fills sheet.now c out.old cells.old regs.old scr.old (answer_of result) (controls_of c result) out.new cells.new regs.new scr.new }
{
    let mut t = Tables::<N, M>::new();
    let p = prepare::prepare(sheet, cells.len(), regs.len(), scr.len(), &mut t)?;
    calls::play(sheet, p.count, p.scratch, &t, c, out, cells, regs, scr)
}

// As many samples as out has, for the controls c; the controls after them.
pub fn fill(
    sheet: &[u8],
    c: Controls,
    out: &mut [f32],
    cells: &mut [f32],
    regs: &mut [u64],
    scr: &mut [f32],
) -> Result<Controls, Refusal>
    ensures { Fills sheet.now c out.old cells.old regs.old scr.old (answer_of result) (controls_of c result) out.new cells.new regs.new scr.new }
{
    if sheet.len() <= SHORT {
        return fill_with::<24, 25>(sheet, c, out, cells, regs, scr);
    }
    fill_with::<256, 257>(sheet, c, out, cells, regs, scr)
}

// ---- moves

// Glides to the pitch `scale` by the part `coefficient` of the way a sample.
pub fn pitch(c: Controls, scale: f32, coefficient: f32) -> Controls
    ensures { result ≡ pitch_moved c scale coefficient }
{
    c.glide_pitch(scale, coefficient)
}

pub fn bend(c: Controls, x: f32) -> Controls
    ensures { result ≡ bend_moved c x }
{
    c.set_bend(x)
}

fn cutoff_with<const N: usize, const M: usize>(
    sheet: &[u8],
    x: f32,
    cells: &mut [f32],
    regs: &[u64],
    scr: &[f32],
) -> Result<(), Refusal>
    requires { Rows sheet.now N × (N < M) × (M ≤ 257) }
    ensures { Cuts sheet.now x cells.old (length regs.now) (length scr.now) (answer_of result) cells.new }
{
    let mut t = Tables::<N, M>::new();
    let p = prepare::prepare(sheet, cells.len(), regs.len(), scr.len(), &mut t)?;
    state::set_cutoff(&t.plan(sheet, p.count), x, cells);
    Ok(())
}

// Every filter's cutoff is multiplied by x from the next sample on.
pub fn cutoff(
    sheet: &[u8],
    x: f32,
    cells: &mut [f32],
    regs: &[u64],
    scr: &[f32],
) -> Result<(), Refusal>
    ensures { Cuts sheet.now x cells.old (length regs.now) (length scr.now) (answer_of result) cells.new }
{
    if sheet.len() <= SHORT {
        return cutoff_with::<24, 25>(sheet, x, cells, regs, scr);
    }
    cutoff_with::<256, 257>(sheet, x, cells, regs, scr)
}

// ---- build

// With tables for N records in its own frame.
fn build_with<const N: usize, const M: usize>(
    sheet: &[u8],
    c: Controls,
    cells: &mut [f32],
    regs: &mut [u64],
    scr: &mut [f32],
) -> Result<Controls, Refusal>
    requires { Rows sheet.now N × (N < M) × (M ≤ 257) }
    ensures { Builds sheet.now c cells.old regs.old scr.old (answer_of result) (controls_of c result) cells.new regs.new scr.new }
{
    let mut t = Tables::<N, M>::new();
    let p = prepare::prepare(sheet, cells.len(), regs.len(), scr.len(), &mut t)?;
    Ok(calls::begin(sheet, p.count, p.scratch, &t, c, cells, regs, scr))
}

// A voice at its start, with fresh controls.
pub fn build(
    sheet: &[u8],
    c: Controls,
    cells: &mut [f32],
    regs: &mut [u64],
    scr: &mut [f32],
) -> Result<Controls, Refusal>
    ensures { Builds sheet.now c cells.old regs.old scr.old (answer_of result) (controls_of c result) cells.new regs.new scr.new }
{
    if sheet.len() <= SHORT {
        return build_with::<24, 25>(sheet, c, cells, regs, scr);
    }
    build_with::<256, 257>(sheet, c, cells, regs, scr)
}
