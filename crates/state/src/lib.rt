// What the player's calls do to the lent memory but for samples: the cutoff move, the start of a voice, and the scratch zeroed.
#![tactic(auto)]

mod begin;

ghost use Rattle.std.specs.Prelude.{◌≡◌, true, cond, ◌&&◌, ◌++◌, ◌+◌, ◌≤◌, length, drop, set, replicate};
ghost use Rattle.std.specs.Float.{nan};
ghost use Rattle.sheet.specs.Record.{count_of, first};
ghost use Rattle.sheet.specs.Numbers.{kind_number};
ghost use Rattle.layout.specs.Needs.{cells_from, registers_from};
ghost use Rattle.layout.specs.Tables.{Table};
ghost use Rattle.unit.specs.Own.{silence};
ghost use Rattle.unit.specs.Start.{path};
ghost use Rattle.machine.specs.Machine.{is_filter, scaled};
ghost use Rattle.machine.specs.Build.{started_cells, started_registers};

use plan::{Plan, Row};
use sheet::kinds::Kind;

// Where the record is a built filter, it gets the scale x, and NaN for its last frequency, so that the next sample works out the coefficients.
fn scale(row: Row, x: f32, cells: &mut [f32])
    requires { row.built ≡ true → is_filter (kind_number row.kind) ≡ true → row.cells + 2 ≤ length cells.old }
    ensures { cells.new ≡ cond (row.built && is_filter (kind_number row.kind)) (set (set cells.old row.cells x) (row.cells + 1) nan) cells.old }
{
    if row.built {
        if let Kind::Biquad(_) = row.kind {
            let at = row.cells;
            cells[at] = x;
            cells[at + 1] = float::from_bits(0x7fc0_0000);
        }
    }
}

// The cutoff move: every built filter.
#[tactic(auto, unfolding(machine::specs::Machine::scaled))]
pub fn set_cutoff(plan: &Plan<'_>, x: f32, cells: &mut [f32])
    requires { cells_from plan.now.sheet.now (count_of plan.now.sheet.now) ≤ length cells.old }
    ensures { cells.new ≡ scaled plan.now.sheet.now x (count_of plan.now.sheet.now) cells.old }
{
    for i in 0..plan.count {
        scale(plan.row(i), x, cells);
    }
}

// Every record's start values, in all the cells and registers that the sheet needs. The plan has no firsts: what plays doesn't read them.
// The memory is two slices, as the C interface lends it.
pub fn start_all(
    plan: &Plan<'_>,
    firsts: &[usize],
    paths: &[u64],
    cells: &mut [f32],
    regs: &mut [u64],
)
    requires { Table (first plan.now.sheet.now) (count_of plan.now.sheet.now) firsts.now × Table (path plan.now.sheet.now) (count_of plan.now.sheet.now) paths.now × (cells_from plan.now.sheet.now (count_of plan.now.sheet.now) ≤ length cells.old) × (registers_from plan.now.sheet.now (count_of plan.now.sheet.now) ≤ length regs.old) }
    ensures { (cells.new ≡ started_cells plan.now.sheet.now (count_of plan.now.sheet.now) ++ drop (cells_from plan.now.sheet.now (count_of plan.now.sheet.now)) cells.old) × (regs.new ≡ started_registers plan.now.sheet.now (count_of plan.now.sheet.now) ++ drop (registers_from plan.now.sheet.now (count_of plan.now.sheet.now)) regs.old) }
{
    begin::cells(plan, firsts, cells);
    begin::registers(plan, paths, regs);
}

// The first n are silence. It takes all of the scratch, since its callers' contracts speak of all.
pub fn clear(scr: &mut [f32], n: usize)
    requires { n ≤ length scr.old }
    ensures { scr.new ≡ replicate n silence ++ drop n scr.old }
{
    block::fill_block(&mut scr[..n], 0.0);
}
