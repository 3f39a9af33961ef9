// A block of a processor's record, in place: the kernel of its kind on what the record owns. What is constant over the block is read of
// the record once. The block, the buffers, the cells and the registers stay slices of their own: they lie apart in the walk's memory, so
// a struct of them would be made at each call only to be taken apart in the kernel.
#![tactic(auto)]

ghost use Rattle.std.specs.Prelude.{◌≡◌, true, List, [], ◌∷◌, ℕ, ◌+◌, ◌/◌, ◌^◌, ◌≤◌, ◌<◌, length, pos, Float};
ghost use Rattle.std.specs.Float.{binary32};
ghost use Rattle.std.specs.Float.Ieee.{of_int};
ghost use Rattle.float.specs.Order.{clamp_of};
ghost use Rattle.float.specs.Single.{zero, one};
ghost use Rattle.control.specs.declared.Controls.{Controls};
ghost use Rattle.sheet.specs.Record.{number_of};
ghost use Rattle.sheet.specs.Numbers.{biquad_number, proc_number};
ghost use Rattle.unit.specs.Processors.{modal_unit, tremolo_unit, processor_unit};
ghost use Rattle.unit.specs.Unit.{kind_unit};
ghost use Rattle.unit.specs.State.{own_ok};
ghost use Rattle.unit.specs.Buffers.{values_of, buffers_of};
ghost use Rattle.unit.specs.Block.{Ran, Lent};
ghost use Rattle.proc_unit.specs.Fit.{Fits, Room};

use sheet::Record;
use sheet::kinds::{Biquad, Proc};

// Five cells a mode.
fn modal(r: &Record, out: &mut [f32], cells: &mut [f32])
    ensures { (c : Controls) (rs : List ℕ) → Ran (modal_unit (clamp_of (number_of r.now 0) zero one) (length cells.old / 5)) c [] out.old cells.old rs out.new cells.new rs }
{
    let mix = float::clamp(r.number(0), 0.0, 1.0);
    let n = cells.len() / 5;
    modal_block::modal_block(out, mix, n, cells);
}

fn tremolo(r: &Record, sr: u32, c: control::Controls, out: &mut [f32], buf: &mut [f32])
    requires { (c.position + length out.old < 2 ^ 64) × (length out.old ≤ length buf.old) }
    ensures { (cs : List Float) (rs : List ℕ) → Ran (tremolo_unit (number_of r.now 0) (number_of r.now 1) (of_int binary32 (pos sr))) c [] out.old cs rs out.new cs rs }
{
    let rate = r.number(0);
    let depth = r.number(1);
    let srf = cast::u32_to_f32(sr);
    proc_block::tremolo_block(out, buf, rate, depth, srf, c.position);
}

#[tactic(auto, unfolding(unit::specs::Processors::processor_unit, sheet::specs::Numbers::proc_number, sheet::specs::Kinds::lookup, crate::specs::Fit::Fits, crate::specs::Fit::Room))]
fn processor(
    r: &Record,
    sr: u32,
    proc: Proc,
    c: control::Controls,
    out: &mut [f32],
    v: &[f32],
    buf: &mut [f32],
    cells: &mut [f32],
    regs: &mut [u64],
)
    requires { (sr ≤ 192000) × Fits sr proc cells.old regs.old × Room proc (length out.old) (length v.now) (length buf.old) c.position }
    ensures { Ran (processor_unit r.now sr (length cells.old / 5) (proc_number proc)) c (buffers_of (values_of (proc_number proc)) v.now buf.old) out.old cells.old regs.old out.new cells.new regs.new }
{
    match proc {
        Proc::Gain => proc_block::gain_block(out, v),
        Proc::Delay => line_unit::delay(r, out, cells, regs),
        Proc::Reverb => line_unit::reverb(r, sr, out, cells, regs),
        Proc::Modal => modal(r, out, cells),
        Proc::Drive => filter_unit::drive(r, out, v, buf, cells),
        Proc::Tremolo => tremolo(r, sr, c, out, buf),
        Proc::Chorus => line_unit::chorus(r, sr, c, out, buf, cells, regs),
        Proc::Compress => filter_unit::compress(r, out, buf, cells),
    }
}

// Gain and Drive read their value in v; the others read nothing of it. Those that work in passes do so in buf.
#[tactic(auto, using(unit::specs::Lent::lent_in))]
pub fn play(
    sheet: &[u8],
    i: usize,
    proc: Proc,
    c: control::Controls,
    out: &mut [f32],
    v: &[f32],
    buf: &mut [f32],
    cells: &mut [f32],
    regs: &mut [u64],
)
    requires lent { Lent sheet.now i (proc_number proc) (length cells.old) (length regs.old) }
    requires own { values_of (proc_number proc) ≡ 0 → (own_ok sheet.now i (cells.old, regs.old) ≡ true) × (c.position + length out.old < 2 ^ 64) }
    requires value { 1 ≤ values_of (proc_number proc) → length out.old ≤ length v.now }
    requires buffer { length out.old ≤ length buf.old }
    ensures { Ran (kind_unit sheet.now i) c (buffers_of (values_of (proc_number proc)) v.now buf.old) out.old cells.old regs.old out.new cells.new regs.new }
{
    let r = Record::at(sheet, i);
    processor(&r, sheet::rate(sheet), proc, c, out, v, buf, cells, regs);
}

// A filter owns no registers; v is its value's buffer.
#[tactic(auto, using(unit::specs::Lent::lent_in))]
pub fn play_filter(
    sheet: &[u8],
    i: usize,
    kind: Biquad,
    out: &mut [f32],
    v: &[f32],
    cells: &mut [f32],
)
    requires { Lent sheet.now i (biquad_number kind) (length cells.old) 0 × (length out.old ≤ length v.now) }
    ensures { (c : Controls) (rs : List ℕ) → Ran (kind_unit sheet.now i) c (v.now ∷ []) out.old cells.old rs out.new cells.new rs }
{
    let r = Record::at(sheet, i);
    filter_unit::filter(&r, sheet::rate(sheet), kind, out, v, cells);
}
