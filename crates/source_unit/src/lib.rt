// The sources over a block: the state is read from what the record owns, what is constant over the block is worked out once, and the state
// is stored back. The block, the record, the values, the cells and the registers stay parameters of their own: they lie apart in the walk's
// memory, so a struct of them would be made at each call only to be taken apart in the kernel. A state is loaded number by number, since an
// array pattern of the cells would have to refuse the lengths that the contracts rule out.
#![tactic(auto)]

ghost use Rattle.std.specs.Prelude.{◌≡◌, List, [], ◌∷◌, ◌+◌, ◌*◌, ◌^◌, ◌≤◌, ◌<◌, length, Float};
ghost use Rattle.dsl.specs.Options.{super_wave_of};
ghost use Rattle.sheet.specs.Record.{option_of, number_of};
ghost use Rattle.sheet.specs.Value.{adsr_in};
ghost use Rattle.sheet.specs.Numbers.{src_number};
ghost use Rattle.layout.specs.Needs.{voices_of};
ghost use Rattle.value.specs.Modulators.{release_start};
ghost use Rattle.source.specs.Oscillators.{Covers};
ghost use Rattle.unpitched.specs.Others.{impact_width, impact_norm, dust_chance, dust_decay};
ghost use Rattle.unit.specs.Sources.{sine_unit, square_unit, saw_unit, triangle_unit, fm_unit, super_unit, impact_unit, env_unit, white_unit, pink_unit, brown_unit, noise_unit, dust_unit};
ghost use Rattle.unit.specs.Unit.{kind_unit};
ghost use Rattle.unit.specs.Buffers.{values_of, buffers_of};
ghost use Rattle.unit.specs.Block.{Ran, Lent, Pitched};
ghost use Rattle.value_unit.specs.Lent.{RanStateless, RanAlone};
ghost use Rattle.source_unit.specs.Laws.{RanPitched, color_cells};

use dsl::{NoiseColor, SuperWave};
use rng::Rng;
use sheet::Record;
use sheet::kinds::Src;
use source::{Fm, Frequencies, Triangle};
use unpitched::{Brown, Dust, Impact, Pink};

// ---- oscillators; each is a function of its own, since one over them would take the unit and its law as arguments, which is longer

fn sine(out: &mut [f32], w: Frequencies, cells: &mut [f32])
    requires { Covers (length out.old) w × (length cells.old ≡ 1) }
    ensures { RanPitched (sine_unit w.entry.srf) w.entry [] out.old cells.old out.new cells.new }
{
    cells[0] = osc_block::sine_block(out, w, cells[0]);
}

fn saw(out: &mut [f32], w: Frequencies, cells: &mut [f32])
    requires { Covers (length out.old) w × (length cells.old ≡ 1) }
    ensures { RanPitched (saw_unit w.entry.srf) w.entry [] out.old cells.old out.new cells.new }
{
    cells[0] = osc_block::saw_block(out, w, cells[0]);
}

fn triangle(out: &mut [f32], w: Frequencies, cells: &mut [f32])
    requires { Covers (length out.old) w × (length cells.old ≡ 2) }
    ensures { RanPitched (triangle_unit w.entry.srf) w.entry [] out.old cells.old out.new cells.new }
{
    let s = Triangle {
        phase: cells[0],
        tri: cells[1],
    };
    let r = osc_block::triangle_block(out, w, s);
    cells.copy_from_slice(&[r.phase, r.tri]);
}

fn square(out: &mut [f32], w: Frequencies, duty: &[f32], cells: &mut [f32])
    requires { Covers (length out.old) w × (length out.old ≤ length duty.now) × (length cells.old ≡ 1) }
    ensures { RanPitched (square_unit w.entry.srf) w.entry (duty.now ∷ []) out.old cells.old out.new cells.new }
{
    cells[0] = osc_block::square_block(out, w, duty, cells[0]);
}

fn fm(out: &mut [f32], w: Frequencies, index: &[f32], ratio: f32, cells: &mut [f32])
    requires { Covers (length out.old) w × (length out.old ≤ length index.now) × (length cells.old ≡ 2) }
    ensures { RanPitched (fm_unit ratio w.entry.srf) w.entry (index.now ∷ []) out.old cells.old out.new cells.new }
{
    let s = Fm {
        cph: cells[0],
        mph: cells[1],
    };
    let r = osc_block::fm_block(out, w, index, ratio, s);
    cells.copy_from_slice(&[r.cph, r.mph]);
}

fn super_voices(out: &mut [f32], w: Frequencies, r: &Record, cells: &mut [f32])
    requires { Covers (length out.old) w × (length cells.old ≡ 2 * voices_of r.now) }
    ensures { RanPitched (super_unit (super_wave_of (option_of r.now)) (voices_of r.now) w.entry.srf) w.entry [] out.old cells.old out.new cells.new }
{
    let wave = SuperWave::from(r.option());
    let n = layout::voices(r.bits(0)) as usize;
    super_block::super_block(out, w, wave, n, cells);
}

// ---- by the position alone

fn impact(out: &mut [f32], r: &Record, srf: f32, c: control::Controls)
    requires { (c.position + length out.old < 2 ^ 64) }
    ensures { RanStateless (impact_unit (impact_width (number_of r.now 0) srf) (impact_norm (number_of r.now 1) (impact_width (number_of r.now 0) srf))) c out.old out.new }
{
    let lobe = Impact::new(r.number(0), r.number(1), srf);
    source_block::impact_block(out, lobe, c.position);
}

// n is the sheet's length.
fn env(out: &mut [f32], r: &Record, srf: f32, n: u64, c: control::Controls)
    requires { (c.position + length out.old < 2 ^ 64) }
    ensures { RanStateless (env_unit (adsr_in r.now) srf (release_start n srf (number_of r.now 3))) c out.old out.new }
{
    let env = r.adsr();
    source_block::env_block(
        out,
        env,
        srf,
        value::release_start(n, srf, env.r),
        c.position,
    );
}

// ---- noises

fn white(out: &mut [f32], regs: &mut [u64])
    requires { length regs.old ≡ 1 }
    ensures { (cs : List Float) → RanAlone white_unit out.old cs regs.old out.new cs regs.new }
{
    regs[0] = noise_block::white_block(out, regs[0]);
}

fn pink(out: &mut [f32], cells: &mut [f32], regs: &mut [u64])
    requires { (length cells.old ≡ 7) × (length regs.old ≡ 1) }
    ensures { RanAlone pink_unit out.old cells.old regs.old out.new cells.new regs.new }
{
    let mut poles = [0.0; 7];
    poles.copy_from_slice(cells);
    let rng = Rng { state: regs[0] };
    let r = noise_block::pink_block(out, Pink { rng, poles });
    cells.copy_from_slice(&r.poles);
    regs[0] = r.rng.state;
}

fn brown(out: &mut [f32], cells: &mut [f32], regs: &mut [u64])
    requires { (length cells.old ≡ 1) × (length regs.old ≡ 1) }
    ensures { RanAlone brown_unit out.old cells.old regs.old out.new cells.new regs.new }
{
    let s = Brown {
        rng: Rng { state: regs[0] },
        last: cells[0],
    };
    let r = noise_block::brown_block(out, s);
    cells[0] = r.last;
    regs[0] = r.rng.state;
}

fn noise(out: &mut [f32], color: NoiseColor, cells: &mut [f32], regs: &mut [u64])
    requires { (length cells.old ≡ color_cells color) × (length regs.old ≡ 1) }
    ensures { RanAlone (noise_unit color) out.old cells.old regs.old out.new cells.new regs.new }
{
    match color {
        NoiseColor::White => white(out, regs),
        NoiseColor::Pink => pink(out, cells, regs),
        NoiseColor::Brown => brown(out, cells, regs),
    }
}

fn dust(out: &mut [f32], r: &Record, srf: f32, cells: &mut [f32], regs: &mut [u64])
    requires { (length cells.old ≡ 1) × (length regs.old ≡ 1) }
    ensures { RanAlone (dust_unit (dust_chance (number_of r.now 0) srf) (dust_decay (number_of r.now 1) srf)) out.old cells.old regs.old out.new cells.new regs.new }
{
    let chance = unpitched::dust_chance(r.number(0), srf);
    let decay = unpitched::dust_decay(r.number(1), srf);
    let s = Dust {
        rng: Rng { state: regs[0] },
        y: cells[0],
    };
    let d = noise_block::dust_block(out, chance, decay, s);
    cells[0] = d.y;
    regs[0] = d.rng.state;
}

// ---- by kind

// v and w are the buffers of its values, of which a kind reads as many as it has: the frequency, then the duty or the index.
#[tactic(auto, using(unit::specs::Lent::lent_in))]
pub fn play(
    sheet: &[u8],
    i: usize,
    src: Src,
    c: control::Controls,
    out: &mut [f32],
    v: &[f32],
    w: &[f32],
    pitch: &[f32],
    cells: &mut [f32],
    regs: &mut [u64],
)
    requires lent { Lent sheet.now i (src_number src) (length cells.old) (length regs.old) }
    requires position { values_of (src_number src) ≡ 0 → c.position + length out.old < 2 ^ 64 }
    requires first { 1 ≤ values_of (src_number src) → (length out.old ≤ length v.now) × Pitched c pitch.now (length out.old) }
    requires second { 2 ≤ values_of (src_number src) → length out.old ≤ length w.now }
    ensures { Ran (kind_unit sheet.now i) c (buffers_of (values_of (src_number src)) v.now w.now) out.old cells.old regs.old out.new cells.new regs.new }
{
    let srf = value_unit::srf_of(sheet);
    let r = Record::at(sheet, i);
    let f = Frequencies {
        values: v,
        pitch,
        srf,
    };
    match src {
        Src::Sine => sine(out, f, cells),
        Src::Square => square(out, f, w, cells),
        Src::Sawtooth => saw(out, f, cells),
        Src::Triangle => triangle(out, f, cells),
        Src::Fm => fm(out, f, w, r.number(0), cells),
        Src::Super => super_voices(out, f, &r, cells),
        Src::Impact => impact(out, &r, srf, c),
        Src::Env => env(out, &r, srf, sheet::length(sheet), c),
        Src::Noise => noise(out, NoiseColor::from(r.option()), cells, regs),
        Src::Dust => dust(out, &r, srf, cells, regs),
    }
}
