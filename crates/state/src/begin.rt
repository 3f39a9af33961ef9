// The start of a voice: each record's start values into the part that it owns. The loop over the cells and the one over the registers stay two:
// one for both would take the ends of a record's part and its start values as closures, and their contracts would be longer than a loop. A record's index comes beside its row, which does not hold it: what plays knows it before it
// reads the row.
ghost use Rattle.std.specs.Prelude.{◌≡◌, ◌++◌, ◌≤◌, ◌<◌, length, drop};
ghost use Rattle.sheet.specs.Record.{count_of, first};
ghost use Rattle.layout.specs.Needs.{cells_from, registers_from};
ghost use Rattle.layout.specs.Needs.{cells as cells_need, registers as registers_need};
ghost use Rattle.layout.specs.Tables.{Table};
ghost use Rattle.unit.specs.Start.{path};
ghost use Rattle.machine.specs.Build.{brought_cells, brought_registers, started_cells, started_registers};
ghost use Rattle.plan.specs.Rowed.{Rowed};

use plan::{Plan, Row};

fn record_cells(plan: &Plan<'_>, firsts: &[usize], row: Row, i: usize, own: &mut [f32])
    requires { Table (first plan.now.sheet.now) (count_of plan.now.sheet.now) firsts.now × Rowed plan.now.sheet.now i row × (i < count_of plan.now.sheet.now) × (length own.old ≡ cells_need plan.now.sheet.now i) }
    ensures { own.new ≡ brought_cells plan.now.sheet.now i }
{
    if row.built {
        start::cells(plan, firsts, i, row.kind, own);
    }
}

fn record_registers(plan: &Plan<'_>, row: Row, key: u64, i: usize, own: &mut [u64])
    requires { Rowed plan.now.sheet.now i row × (key ≡ path plan.now.sheet.now i) × (i < count_of plan.now.sheet.now) × (length own.old ≡ registers_need plan.now.sheet.now i) }
    ensures { own.new ≡ brought_registers plan.now.sheet.now i }
{
    if row.built {
        start::registers(plan.sheet, i, row.kind, key, own);
    }
}

#[tactic(auto, unfolding(sheet::specs::Checks::sum, machine::specs::Build::joined))]
pub fn cells(plan: &Plan<'_>, firsts: &[usize], cells: &mut [f32])
    requires { Table (first plan.now.sheet.now) (count_of plan.now.sheet.now) firsts.now × (cells_from plan.now.sheet.now (count_of plan.now.sheet.now) ≤ length cells.old) }
    ensures { cells.new ≡ started_cells plan.now.sheet.now (count_of plan.now.sheet.now) ++ drop (cells_from plan.now.sheet.now (count_of plan.now.sheet.now)) cells.old }
{
    for i in 0..plan.count {
        let row = plan.row(i);
        let a = row.cells;
        let e = row.cells_end;
        record_cells(plan, firsts, row, i, &mut cells[a..e]);
    }
}

#[tactic(auto, unfolding(sheet::specs::Checks::sum, machine::specs::Build::joined))]
pub fn registers(plan: &Plan<'_>, paths: &[u64], regs: &mut [u64])
    requires { Table (path plan.now.sheet.now) (count_of plan.now.sheet.now) paths.now × (registers_from plan.now.sheet.now (count_of plan.now.sheet.now) ≤ length regs.old) }
    ensures { regs.new ≡ started_registers plan.now.sheet.now (count_of plan.now.sheet.now) ++ drop (registers_from plan.now.sheet.now (count_of plan.now.sheet.now)) regs.old }
{
    for i in 0..plan.count {
        let row = plan.row(i);
        let a = row.registers;
        let e = row.registers_end;
        record_registers(plan, row, paths[i], i, &mut regs[a..e]);
    }
}
