// Checks 1 to 8, and the tables that an accepted sheet leaves.
#![tactic(auto)]

ghost use Rattle.std.specs.Prelude.{◌<◌};
ghost use Rattle.sheet.specs.Links.{Rows};
ghost use Rattle.prepare.specs.Prepared.{Prepared};

use refusal::Refusal;
use tables::Tables;

// The number of records, and how much scratch they need.
#[derive(Clone, Copy)]
pub struct Ready {
    pub count: usize,
    pub scratch: usize,
}

// Checks 1 to 8, the last by how many cells, registers and scratch are lent. Where none applies, the tables are set.
pub fn prepare<const N: usize, const M: usize>(
    sheet: &[u8],
    cells: usize,
    regs: usize,
    scr: usize,
    t: &mut Tables<N, M>,
) -> Result<Ready, Refusal>
    requires { Rows sheet.now N × (N < M) }
    ensures { Prepared sheet.now cells regs scr t.new result }
{
    let m = tables::measure(sheet, t)?;
    let count = m.count;
    let scratch = m.needs.scratch as usize;
    if !machine::room_ok(
        m.needs.cells as usize,
        cells,
        m.needs.registers as usize,
        regs,
        scratch,
        scr,
    ) {
        return Err(Refusal::Memory);
    }
    Ok(Ready { count, scratch })
}
