// The values over a block: the record is read into its case, what is constant over the block is worked out once, and Rand's state is stored back.
#![tactic(auto)]

ghost use Rattle.std.specs.Prelude.{◌≡◌, [], ◌+◌, ◌^◌, ◌≤◌, ◌<◌, length};
ghost use Rattle.block.specs.Iterate.{given};
ghost use Rattle.sheet.specs.Record.{next};
ghost use Rattle.sheet.specs.Numbers.{val_number};
ghost use Rattle.layout.specs.Tables.{Table, Passed};
ghost use Rattle.value.specs.Modulators.{arp_index};
ghost use Rattle.rand_value.specs.Rand.{rand_increment};
ghost use Rattle.unit.specs.Values.{rand_unit};
ghost use Rattle.unit.specs.Unit as unit;
ghost use Rattle.unit.specs.Unit.{kind_unit};
ghost use Rattle.unit.specs.Block.{Ran, Lent};
ghost use Rattle.value_unit.specs.Lent.{RanAlone};
ghost use Rattle.value_unit.specs.Laws.{steps_from, step_at, step_from, arp_step};

use sheet::Record;
use sheet::kinds::Val;

// The rate as an f32.
pub fn srf_of(sheet: &[u8]) -> f32
    requires { 24 ≤ length sheet.now }
    ensures { result ≡ unit.srf sheet.now }
{
    cast::u32_to_f32(sheet::rate(sheet))
}

// ---- Arp

// A step by its place among the steps, with its number.
#[derive(Clone, Copy)]
struct Step {
    index: u64,
    number: f32,
}

// The chain of Step records that begins at first, in a sheet that passes the checks, with the table of its next records. It has
// no Plan and no `Links` of `layout`: the C interface lends this table and no other.
#[derive(Clone, Copy)]
struct Chain<'a> {
    sheet: &'a [u8],
    count: usize,
    nexts: &'a [usize],
    first: usize,
    ghost passed: { Passed sheet.now count },
    ghost table: { Table (next sheet.now) count nexts.now },
    ghost inside: { first < count },
}

impl<'a> Chain<'a> {
    // Step k.
    fn step_at(self, k: u64) -> f32
        requires { k < length (steps_from self.sheet.now self.first) }
        ensures { result ≡ step_at self.entry.sheet.now self.entry.first k }
    {
        let mut j = self.first;
        for _ in 0..k {
            j = self.nexts[j];
        }
        Record::at(self.sheet, j).number(0)
    }

    // The step that sounds at the position t, of n; the chain is walked only where it is not the last one found.
    #[tactic(auto, unfolding(crate::specs::Laws::step_from))]
    fn step_from(self, n: u64, rate: f32, srf: f32, t: u64, last: Step) -> Step
        requires { (n ≡ length (steps_from self.sheet.now self.first)) × (0 < n) }
        ensures { result ≡ step_from self.entry.sheet.now self.entry.first (arp_index rate srf t n) last }
    {
        let index = value::arp_index(rate, srf, t, n);
        if index == last.index {
            return last;
        }
        Step {
            index,
            number: self.step_at(index),
        }
    }
}

// An Arp of n steps, n above 0. As in `value_block`, a clause says that the positions fit.
fn arp_steps(out: &mut [f32], chain: Chain, n: u64, rate: f32, srf: f32, t: u64)
    requires { (n ≡ length (steps_from chain.sheet.now chain.first)) × (0 < n) × (t + length out.old < 2 ^ 64) }
    ensures { out.new ≡ given (arp_step (steps_from chain.entry.sheet.now chain.entry.first) rate srf t) tt (length out.old) }
{
    let start = Step {
        index: 0,
        number: chain.step_at(0),
    };
    block::run_block(out, start, |k, last, _| {
        let step = chain.step_from(n, rate, srf, t + (k as u64), last);
        (step.number, step)
    });
}

// An Arp without steps is 0.
fn arp(out: &mut [f32], chain: Chain, rate: f32, srf: f32, t: u64)
    requires { t + length out.old < 2 ^ 64 }
    ensures { out.new ≡ given (arp_step (steps_from chain.entry.sheet.now chain.entry.first) rate srf t) tt (length out.old) }
{
    match layout::chain_length(chain.sheet, chain.count, chain.nexts, chain.first) {
        0 => block::fill_block(out, 0.0),
        n => arp_steps(out, chain, n, rate, srf, t),
    }
}

// ---- Rand

// The memory of a fill is one slice of numbers for all kinds, so the state is read from its cells a number at a time.
fn rand(out: &mut [f32], v: dsl::Rand, srf: f32, cells: &mut [f32], regs: &mut [u64])
    requires { (length cells.old ≡ 3) × (length regs.old ≡ 1) }
    ensures { RanAlone (rand_unit (rand_increment v.rate srf) v.from v.to) out.old cells.old regs.old out.new cells.new regs.new }
{
    let s = rand_value::Rand {
        rng: rng::Rng { state: regs[0] },
        prev: cells[0],
        next: cells[1],
        phase: cells[2],
    };
    let r = value_block::rand_block(
        out,
        rand_value::rand_increment(v.rate, srf),
        v.from,
        v.to,
        s,
    );
    regs[0] = r.rng.state;
    cells.copy_from_slice(&[r.prev, r.next, r.phase]);
}

// ---- by kind

// It takes the sheet, the count and the nexts, not a Plan, as Chain does: `block_arp` of the C interface is lent no more.
pub fn play(
    sheet: &[u8],
    count: usize,
    nexts: &[usize],
    i: usize,
    val: Val,
    c: control::Controls,
    out: &mut [f32],
    cells: &mut [f32],
    regs: &mut [u64],
)
    requires { Lent sheet.now i (val_number val) (length cells.old) (length regs.old) × Passed sheet.now count × Table (next sheet.now) count nexts.now × (c.position + length out.old < 2 ^ 64) }
    ensures { Ran (kind_unit sheet.now i) c [] out.old cells.old regs.old out.new cells.new regs.new }
{
    let srf = srf_of(sheet);
    let t = c.position;
    match Record::at(sheet, i).value(val) {
        sheet::Value::Const(x) => block::fill_block(out, x),
        sheet::Value::Slide(v) => {
            let floored = dsl::Slide {
                secs: value::slide_secs(v.secs),
                ..v
            };
            value_block::slide_block(out, floored, srf, t)
        }
        sheet::Value::Lfo(v) => value_block::lfo_block(out, v, srf, t),
        sheet::Value::Arp { rate, first } => {
            let chain = Chain {
                sheet,
                count,
                nexts,
                first,
            };
            arp(out, chain, rate, srf, t)
        }
        sheet::Value::EnvMod(v) => {
            let release = value::release_start(sheet::length(sheet), srf, v.env.r);
            value_block::env_mod_block(out, v, srf, release, t)
        }
        sheet::Value::Rand(v) => rand(out, v, srf, cells, regs),
    }
}
