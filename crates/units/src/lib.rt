// A node's own unit over a block, by its kind. The block, the buffers, the pitch, the cells and the registers stay slices of their own: behind
// a `&mut` to a struct a slice may be replaced, so the contract would have to say besides that each is the same and as long as before.
#![tactic(auto)]

ghost use Rattle.std.specs.Prelude.{◌≡◌, true, ◌+◌, ◌^◌, ◌≤◌, ◌<◌, length};
ghost use Rattle.sheet.specs.Numbers.{kind_number};
ghost use Rattle.unit.specs.Unit.{kind_unit};
ghost use Rattle.unit.specs.State.{own_ok};
ghost use Rattle.unit.specs.Buffers.{values_of, buffers_of};
ghost use Rattle.unit.specs.Block.{Ran, Lent, Pitched};
ghost use Rattle.units.specs.Values.{has_unit};

use sheet::kinds::Kind;

// v and w are the buffers of the values, of which a kind reads as many as it has; the processors that work in passes do so in w. The contract rules out the
// kinds of the last arm, which have no unit.
pub fn play(
    sheet: &[u8],
    i: usize,
    kind: Kind,
    c: control::Controls,
    out: &mut [f32],
    v: &mut [f32],
    w: &mut [f32],
    pitch: &[f32],
    cells: &mut [f32],
    regs: &mut [u64],
)
    requires { Lent sheet.now i (kind_number kind) (length cells.old) (length regs.old) × (has_unit (kind_number kind) ≡ true) × (own_ok sheet.now i (cells.old, regs.old) ≡ true) × (length out.old ≤ length v.old) × (length out.old ≤ length w.old) × Pitched c pitch.now (length out.old) × (c.position + length out.old < 2 ^ 64) }
    ensures { Ran (kind_unit sheet.now i) c (buffers_of (values_of (kind_number kind)) v.old w.old) out.old cells.old regs.old out.new cells.new regs.new }
{
    match kind {
        Kind::Src(src) => source_unit::play(sheet, i, src, c, out, v, w, pitch, cells, regs),
        Kind::Biquad(filter) => proc_unit::play_filter(sheet, i, filter, out, v, cells),
        Kind::Proc(proc) => proc_unit::play(sheet, i, proc, c, out, v, w, cells, regs),
        Kind::Fold(_) | Kind::Chain | Kind::Val(_) | Kind::Mode | Kind::Step => {}
    }
}
