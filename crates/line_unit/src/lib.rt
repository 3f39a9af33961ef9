// A block of the record of a processor with lines, in place: Delay, Chorus and Reverb on what the record owns.
// The block, the buffer, the cells and the registers stay slices of their own, as in `proc_unit`; what a record owns is a part of the voice's memory, so each
// contract says how long it is.
#![tactic(auto)]

ghost use Rattle.std.specs.Prelude.{◌≡◌, [], ℕ, ◌+◌, ◌^◌, ◌≤◌, ◌<◌, length, pos};
ghost use Rattle.std.specs.Float.{binary32};
ghost use Rattle.std.specs.Float.Ieee.{of_int};
ghost use Rattle.float.specs.Order.{clamp_of};
ghost use Rattle.float.specs.Single.{zero, one};
ghost use Rattle.control.specs.declared.Controls.{Controls};
ghost use Rattle.sheet.specs.Record.{number_of};
ghost use Rattle.lines.specs.Lines.{chorus_base, chorus_swing, reverb_lines};
ghost use Rattle.dsp.specs.Coefficients.{feedback_of};
ghost use Rattle.reverb_block.specs.Reverb.{line_from, Placed};
ghost use Rattle.block.specs.Iterate.{word};
ghost use Rattle.unit.specs.Processors.{delay_unit, reverb_unit, chorus_unit};
ghost use Rattle.unit.specs.Block.{Ran};

use sheet::Record;

pub fn delay(r: &Record, out: &mut [f32], cells: &mut [f32], regs: &mut [u64])
    requires { (length regs.old ≡ 1) × (word regs.old 0 < length cells.old) }
    ensures { (c : Controls) → Ran (delay_unit (number_of r.now 1)) c [] out.old cells.old regs.old out.new cells.new regs.new }
{
    let feedback = r.number(1);
    let place = regs[0];
    let w = line_block::delay_block(out, cells, feedback, place);
    regs[0] = w;
}

fn reverb_lines(r: &Record, lens: &[u64], out: &mut [f32], cells: &mut [f32], regs: &mut [u64])
    requires { Placed lens.now regs.old × (length cells.old ≡ line_from lens.now 10 + 6) }
    ensures { (c : Controls) (sr : ℕ) → lens.now ≡ reverb_lines sr → Ran (reverb_unit (feedback_of (number_of r.now 0)) (clamp_of (number_of r.now 1) zero one) sr) c [] out.old cells.old regs.old out.new cells.new regs.new }
{
    let feedback = dsp::freeverb_feedback(r.number(0));
    let mix = float::clamp(r.number(1), 0.0, 1.0);
    reverb_block::reverb_block(out, feedback, mix, lens, cells, regs);
}

pub fn reverb(r: &Record, sr: u32, out: &mut [f32], cells: &mut [f32], regs: &mut [u64])
    requires { (sr ≤ 192000) × (length cells.old ≡ line_from (reverb_lines sr) 10 + 6) × Placed (reverb_lines sr) regs.old }
    ensures { (c : Controls) → Ran (reverb_unit (feedback_of (number_of r.now 0)) (clamp_of (number_of r.now 1) zero one) sr) c [] out.old cells.old regs.old out.new cells.new regs.new }
{
    let lens = lines::reverb_lens_apart(sr);
    reverb_lines(r, &lens, out, cells, regs);
}

pub fn chorus(
    r: &Record,
    sr: u32,
    c: control::Controls,
    out: &mut [f32],
    buf: &mut [f32],
    cells: &mut [f32],
    regs: &mut [u64],
)
    requires { (length regs.old ≡ 1) × (word regs.old 0 < length cells.old) × (c.position + length out.old < 2 ^ 64) × (length out.old ≤ length buf.old) }
    ensures { Ran (chorus_unit (chorus_base sr) (chorus_swing (number_of r.now 1) sr) (number_of r.now 0) (of_int binary32 (pos sr)) (clamp_of (number_of r.now 2) zero one)) c [] out.old cells.old regs.old out.new cells.new regs.new }
{
    let effect = line_block::Chorus {
        base: lines::chorus_base(sr),
        swing: lines::chorus_swing(r.number(1), sr),
        rate: r.number(0),
        mix: float::clamp(r.number(2), 0.0, 1.0),
    };
    let srf = cast::u32_to_f32(sr);
    let place = regs[0];
    let next = line_block::chorus_block(out, buf, cells, effect, srf, c.position, place);
    regs[0] = next;
}
