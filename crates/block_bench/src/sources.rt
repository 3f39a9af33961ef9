// The sources of `osc_block`, `noise_block` and `source_block`, and Super of `super_block`.
ghost use Rattle.std.specs.Prelude.{◌≡◌, ◌+◌, ◌*◌, ◌^◌, ◌≤◌, ◌<◌, length};
ghost use Rattle.block.specs.Iterate.{given, at};
ghost use Rattle.osc_block.specs.Steps.{sine_step, square_step, saw_step, triangle_step, fm_step};
ghost use Rattle.noise_block.specs.Steps.{white_step, pink_step, brown_step, dust_step};
ghost use Rattle.source_block.specs.Steps.{impact_step, env_step};
ghost use Rattle.super_block.specs.Super.{super_step};
ghost use Rattle.dsl.specs.Options.{super_wave_of};
ghost use Rattle.block_bench.specs.State.{word_at, triangle_at, fm_at, pink_at, brown_at, dust_at};

use rng::Rng;
use source::{Fm, Frequencies, Triangle};
use unpitched::{Brown, Dust, Impact, Pink};

#[unsafe(no_mangle)]
pub extern "C" fn block_sine(out: &mut [f32], f: &[f32], pitch: &[f32], cells: &mut [f32], srf: f32)
    requires { (length out.old ≤ length f.now) × (length out.old ≤ length pitch.now) × (1 ≤ length cells.old) }
    ensures { out.new ≡ given (sine_step (record { values = f.entry; pitch = pitch.entry; srf = srf })) (at cells.old 0) (length out.old) }
{
    let w = Frequencies {
        values: f,
        pitch,
        srf,
    };
    cells[0] = osc_block::sine_block(out, w, cells[0]);
}

#[unsafe(no_mangle)]
pub extern "C" fn block_square(
    out: &mut [f32],
    f: &[f32],
    duty: &[f32],
    pitch: &[f32],
    cells: &mut [f32],
    srf: f32,
)
    requires { (length out.old ≤ length f.now) × (length out.old ≤ length duty.now) × (length out.old ≤ length pitch.now) × (1 ≤ length cells.old) }
    ensures { out.new ≡ given (square_step (record { values = f.entry; pitch = pitch.entry; srf = srf }) duty.now) (at cells.old 0) (length out.old) }
{
    let w = Frequencies {
        values: f,
        pitch,
        srf,
    };
    cells[0] = osc_block::square_block(out, w, duty, cells[0]);
}

#[unsafe(no_mangle)]
pub extern "C" fn block_saw(out: &mut [f32], f: &[f32], pitch: &[f32], cells: &mut [f32], srf: f32)
    requires { (length out.old ≤ length f.now) × (length out.old ≤ length pitch.now) × (1 ≤ length cells.old) }
    ensures { out.new ≡ given (saw_step (record { values = f.entry; pitch = pitch.entry; srf = srf })) (at cells.old 0) (length out.old) }
{
    let w = Frequencies {
        values: f,
        pitch,
        srf,
    };
    cells[0] = osc_block::saw_block(out, w, cells[0]);
}

#[unsafe(no_mangle)]
pub extern "C" fn block_triangle(
    out: &mut [f32],
    f: &[f32],
    pitch: &[f32],
    cells: &mut [f32],
    srf: f32,
)
    requires { (length out.old ≤ length f.now) × (length out.old ≤ length pitch.now) × (2 ≤ length cells.old) }
    ensures { out.new ≡ given (triangle_step (record { values = f.entry; pitch = pitch.entry; srf = srf })) (triangle_at cells.old) (length out.old) }
{
    let w = Frequencies {
        values: f,
        pitch,
        srf,
    };
    let s = Triangle {
        phase: cells[0],
        tri: cells[1],
    };
    let r = osc_block::triangle_block(out, w, s);
    cells[..2].copy_from_slice(&[r.phase, r.tri]);
}

#[unsafe(no_mangle)]
pub extern "C" fn block_fm(
    out: &mut [f32],
    f: &[f32],
    index: &[f32],
    pitch: &[f32],
    cells: &mut [f32],
    ratio: f32,
    srf: f32,
)
    requires { (length out.old ≤ length f.now) × (length out.old ≤ length index.now) × (length out.old ≤ length pitch.now) × (2 ≤ length cells.old) }
    ensures { out.new ≡ given (fm_step (record { values = f.entry; pitch = pitch.entry; srf = srf }) index.now ratio) (fm_at cells.old) (length out.old) }
{
    let w = Frequencies {
        values: f,
        pitch,
        srf,
    };
    let s = Fm {
        cph: cells[0],
        mph: cells[1],
    };
    let r = osc_block::fm_block(out, w, index, ratio, s);
    cells[..2].copy_from_slice(&[r.cph, r.mph]);
}

// The cells are n phases, then n ratios.
#[unsafe(no_mangle)]
pub extern "C" fn block_super(
    out: &mut [f32],
    f: &[f32],
    pitch: &[f32],
    cells: &mut [f32],
    wave: u8,
    n: usize,
    srf: f32,
)
    requires { (length out.old ≤ length f.now) × (length out.old ≤ length pitch.now) × (length cells.old ≡ 2 * n) }
    ensures { out.new ≡ given (super_step (super_wave_of wave) n (record { values = f.entry; pitch = pitch.entry; srf = srf })) cells.old (length out.old) }
{
    let w = Frequencies {
        values: f,
        pitch,
        srf,
    };
    super_block::super_block(out, w, dsl::SuperWave::from(wave), n, cells);
}

#[unsafe(no_mangle)]
pub extern "C" fn block_white(out: &mut [f32], words: &mut [u64])
    requires { 1 ≤ length words.old }
    ensures { out.new ≡ given white_step (word_at words.old) (length out.old) }
{
    words[0] = noise_block::white_block(out, words[0]);
}

#[unsafe(no_mangle)]
pub extern "C" fn block_pink(out: &mut [f32], cells: &mut [f32], words: &mut [u64])
    requires { (7 ≤ length cells.old) × (1 ≤ length words.old) }
    ensures { out.new ≡ given pink_step (pink_at cells.old words.old) (length out.old) }
{
    let mut poles = [0.0; 7];
    poles.copy_from_slice(&cells[..7]);
    let rng = Rng { state: words[0] };
    let r = noise_block::pink_block(out, Pink { rng, poles });
    words[0] = r.rng.state;
    cells[..7].copy_from_slice(&r.poles);
}

#[unsafe(no_mangle)]
pub extern "C" fn block_brown(out: &mut [f32], cells: &mut [f32], words: &mut [u64])
    requires { (1 ≤ length cells.old) × (1 ≤ length words.old) }
    ensures { out.new ≡ given brown_step (brown_at cells.old words.old) (length out.old) }
{
    let s = Brown {
        rng: Rng { state: words[0] },
        last: cells[0],
    };
    let r = noise_block::brown_block(out, s);
    words[0] = r.rng.state;
    cells[0] = r.last;
}

#[unsafe(no_mangle)]
pub extern "C" fn block_dust(
    out: &mut [f32],
    cells: &mut [f32],
    words: &mut [u64],
    chance: f32,
    decay: f32,
)
    requires { (1 ≤ length cells.old) × (1 ≤ length words.old) }
    ensures { out.new ≡ given (dust_step chance decay) (dust_at cells.old words.old) (length out.old) }
{
    let s = Dust {
        rng: Rng { state: words[0] },
        y: cells[0],
    };
    let r = noise_block::dust_block(out, chance, decay, s);
    words[0] = r.rng.state;
    cells[0] = r.y;
}

#[unsafe(no_mangle)]
pub extern "C" fn block_impact(out: &mut [f32], w: u64, norm: f32, t: u64)
    requires { t + length out.old < 2 ^ 64 }
    ensures { out.new ≡ given (impact_step w norm t) tt (length out.old) }
{
    source_block::impact_block(out, Impact { w, norm }, t);
}

#[unsafe(no_mangle)]
pub extern "C" fn block_env(
    out: &mut [f32],
    a: f32,
    d: f32,
    s: f32,
    r: f32,
    punch: f32,
    srf: f32,
    rel_start: f32,
    t: u64,
)
    requires { t + length out.old < 2 ^ 64 }
    ensures { out.new ≡ given (env_step (record { a = a; d = d; s = s; r = r; punch = punch }) srf rel_start t) tt (length out.old) }
{
    source_block::env_block(out, dsl::Adsr { a, d, s, r, punch }, srf, rel_start, t);
}
