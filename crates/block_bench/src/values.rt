// A constant, the values of `value_block`, and Arp, which reads its steps from a sheet, of `value_unit`.
ghost use Rattle.std.specs.Prelude.{◌≡◌, ◌+◌, ◌-◌, ◌*◌, ◌^◌, ◌≤◌, ◌<◌, [], map, length};
ghost use Rattle.block.specs.Iterate.{given};
ghost use Rattle.dsl.specs.Options.{curve_of, shape_of};
ghost use Rattle.value_block.specs.Steps.{slide_step, lfo_step, env_mod_step, rand_step};
ghost use Rattle.sheet.specs.Record.{kind, next};
ghost use Rattle.sheet.specs.Below.{Below};
ghost use Rattle.sheet.specs.Links.{Rows, Checked};
ghost use Rattle.layout.specs.Tables.{Table, Passed};
ghost use Rattle.unit.specs.Unit.{kind_unit};
ghost use Rattle.unit.specs.Block.{steps, Lent};
ghost use Rattle.block_bench.specs.State.{rand_of, playing};

use refusal::Refusal;
use sheet::kinds::{Kind, Src, Val};

#[unsafe(no_mangle)]
pub extern "C" fn block_constant(out: &mut [f32], x: f32)
    ensures { out.new ≡ map (λ y. x) out.old }
{
    block::fill_block(out, x);
}

#[unsafe(no_mangle)]
pub extern "C" fn block_slide(
    out: &mut [f32],
    curve: u8,
    from: f32,
    to: f32,
    secs: f32,
    srf: f32,
    t: u64,
)
    requires { t + length out.old < 2 ^ 64 }
    ensures { out.new ≡ given (slide_step (record { from = from; to = to; secs = secs; curve = curve_of curve }) srf t) tt (length out.old) }
{
    let v = dsl::Slide {
        from,
        to,
        secs,
        curve: dsl::Curve::from(curve),
    };
    value_block::slide_block(out, v, srf, t);
}

#[unsafe(no_mangle)]
pub extern "C" fn block_lfo(
    out: &mut [f32],
    shape: u8,
    rate: f32,
    depth: f32,
    center: f32,
    srf: f32,
    t: u64,
)
    requires { t + length out.old < 2 ^ 64 }
    ensures { out.new ≡ given (lfo_step (record { shape = shape_of shape; rate = rate; depth = depth; center = center }) srf t) tt (length out.old) }
{
    let v = dsl::Lfo {
        shape: dsl::Shape::from(shape),
        rate,
        depth,
        center,
    };
    value_block::lfo_block(out, v, srf, t);
}

#[unsafe(no_mangle)]
pub extern "C" fn block_env_mod(
    out: &mut [f32],
    a: f32,
    d: f32,
    s: f32,
    r: f32,
    punch: f32,
    from: f32,
    to: f32,
    srf: f32,
    rel_start: f32,
    t: u64,
)
    requires { t + length out.old < 2 ^ 64 }
    ensures { out.new ≡ given (env_mod_step (record { env = record { a = a; d = d; s = s; r = r; punch = punch }; from = from; to = to }) srf rel_start t) tt (length out.old) }
{
    let env = dsl::Adsr { a, d, s, r, punch };
    value_block::env_mod_block(out, dsl::EnvMod { env, from, to }, srf, rel_start, t);
}

#[unsafe(no_mangle)]
pub extern "C" fn block_rand(
    out: &mut [f32],
    cells: &mut [f32],
    words: &mut [u64],
    inc: f32,
    from: f32,
    to: f32,
)
    requires { (3 ≤ length cells.old) × (1 ≤ length words.old) }
    ensures { out.new ≡ given (rand_step inc from to) (rand_of cells.old words.old) (length out.old) }
{
    let s = rand_value::Rand {
        rng: rng::Rng { state: words[0] },
        prev: cells[0],
        next: cells[1],
        phase: cells[2],
    };
    let r = value_block::rand_block(out, inc, from, to, s);
    words[0] = r.rng.state;
    cells[..3].copy_from_slice(&[r.prev, r.next, r.phase]);
}

// The kind of each of the n records, as the sheet numbers it.
fn copy_kinds(sheet: &[u8], n: usize, kinds: &mut [u8])
    requires { (40 * n ≤ length sheet.now - 24) × (n ≤ 256) × (n ≤ length kinds.old) }
    ensures { Below (kind sheet.now) kinds.old kinds.new n }
{
    for i in 0..n {
        let r = &sheet[24 + 40 * i..];
        kinds[i] = r[0];
    }
}

// With a table for the kinds themselves, of which it takes as many as there are numbers, 256 at most. There is no heap, so its caller
// makes it, of fixed length. The checks of the length and of the header come before any record; after them all three
// tables are filled, whatever the answer.
fn check_in(
    sheet: &[u8],
    table: &mut [Kind],
    kinds: &mut [u8],
    first: &mut [usize],
    next: &mut [usize],
) -> u8
    requires { Rows sheet.now (length kinds.old) × (length kinds.old ≤ length first.old) × (length kinds.old ≤ length next.old) × (256 ≤ length table.old) }
    ensures { Checked sheet.now kinds.new first.new next.new result }
{
    let n = kinds.len().min(256);
    let outcome = checks::check(sheet, &mut table[..n], first, next);
    if let Err(Refusal::Length | Refusal::Header) = outcome {
        return refusal::answer(outcome);
    }
    let records = sheet.len().saturating_sub(24) / 40;
    copy_kinds(sheet, records.min(n), kinds);
    refusal::answer(outcome)
}

// The checks of a sheet, for `block_arp`: where they find no fault, 0, next is its table. C has no `Kind`, so the kinds are their numbers.
#[unsafe(no_mangle)]
pub extern "C" fn block_check(
    sheet: &[u8],
    kinds: &mut [u8],
    first: &mut [usize],
    next: &mut [usize],
) -> u8
    requires { Rows sheet.now (length kinds.old) × (length kinds.old ≤ length first.old) × (length kinds.old ≤ length next.old) }
    ensures { Checked sheet.now kinds.new first.new next.new result }
{
    // Zeros, as in `tables::Tables`: cleared where they lie.
    let mut table = [Kind::Src(Src::Sine); 256];
    check_in(sheet, &mut table, kinds, first, next)
}

// Record i of a sheet that passes the checks; an Arp owns no cells and no registers.
#[tactic(auto, unfolding(sheet::specs::Numbers::val_number))]
#[unsafe(no_mangle)]
pub extern "C" fn block_arp(
    out: &mut [f32],
    sheet: &[u8],
    nexts: &[usize],
    cells: &mut [f32],
    regs: &mut [u64],
    count: usize,
    i: usize,
    t: u64,
)
    requires { Lent sheet.now i 44 (length cells.old) (length regs.old) × Passed sheet.now count × Table (next sheet.now) count nexts.now × (t + length out.old < 2 ^ 64) }
    ensures { out.new ≡ given (steps (kind_unit sheet.now i) (playing t) [] out.old) (cells.old, regs.old) (length out.old) }
{
    let c = control::Controls {
        position: t,
        ..control::Controls::fresh()
    };
    value_unit::play(sheet, count, nexts, i, Val::Arp, c, out, cells, regs);
}
