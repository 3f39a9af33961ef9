// What each record owns when a voice is built: its cells and its registers. A record is known by its index, as the sheet's links lead to it.
// What it owns is a part of the voice's memory, a slice, so each contract says how long it is.
#![tactic(auto)]

ghost use Rattle.std.specs.Prelude.{◌≡◌, [], ◌∷◌, ◌+◌, ◌*◌, ◌≤◌, ◌<◌, length};
ghost use Rattle.rng.specs.Random.{stepped, seed_of};
ghost use Rattle.sheet.specs.Record.{count_of, kind, first};
ghost use Rattle.sheet.specs.Numbers.{kind_number};
ghost use Rattle.sheet.specs.Tree.{records, spine};
ghost use Rattle.layout.specs.Built.{role};
ghost use Rattle.layout.specs.declared.Role.TheVariants.{Built};
ghost use Rattle.layout.specs.Needs.{cells_by, registers_by};
ghost use Rattle.layout.specs.Tables.{Table};
ghost use Rattle.unit.specs.Start.{modal_start, rand_word, start_cells, start_registers, path};

use dsl::DriveShape;
use plan::Plan;
use sheet::Record;
use sheet::kinds::{Kind, Proc, Src, Val};

// Modal: each mode at rest. The modes are the chain that begins at f.
fn modal(plan: &Plan<'_>, f: usize, own: &mut [f32])
    requires { (f < plan.now.count) × (length own.old ≡ 5 * length (spine (records plan.now.sheet.now f))) }
    ensures { own.new ≡ modal_start plan.now.sheet.now (spine (records plan.now.sheet.now f)) }
{
    let rate = sheet::rate(plan.sheet);
    // The walk goes by links, as `layout::chain_length` does.
    let mut at = 0usize;
    let mut j = f;
    while j != 0 {
        let r = Record::at(plan.sheet, j);
        let e = at + 5;
        start_values::mode(&r, rate, &mut own[at..e]);
        at = e;
        j = plan.nexts[j];
    }
}

// Into the cells of record i. The plan has no firsts: what plays doesn't read them.
pub fn cells(plan: &Plan<'_>, firsts: &[usize], i: usize, k: Kind, own: &mut [f32])
    requires { Table (first plan.now.sheet.now) (count_of plan.now.sheet.now) firsts.now × (i < count_of plan.now.sheet.now) × (kind_number k ≡ kind plan.now.sheet.now i) × (role plan.now.sheet.now i ≡ Built) × (length own.old ≡ cells_by plan.now.sheet.now i) }
    ensures { own.new ≡ start_cells plan.now.sheet.now i }
{
    let r = Record::at(plan.sheet, i);
    match k {
        Kind::Src(Src::Super) => start_values::super_start(&r, own),
        Kind::Biquad(_) => start_values::filter(own),
        Kind::Proc(Proc::Modal) => modal(plan, firsts[i], own),
        Kind::Proc(Proc::Drive) => start_values::drive(DriveShape::from(r.option()), own),
        Kind::Proc(Proc::Compress) => {
            start_values::compress(&r, cast::u32_to_f32(sheet::rate(plan.sheet)), own)
        }
        Kind::Val(Val::Rand) => start_values::rand(&r, own),
        _ => block::fill_block(own, 0.0),
    }
}

fn seed_register(key: u64, own: &mut [u64])
    requires { length own.old ≡ 1 }
    ensures { own.new ≡ seed_of key ∷ [] }
{
    own[0] = rng::node_seed(key);
}

fn rand_register(r: &Record, own: &mut [u64])
    requires { length own.old ≡ 1 }
    ensures { own.new ≡ stepped (stepped (rand_word r.now)) ∷ [] }
{
    let d = start_values::rand_draws(r);
    own[0] = d.word;
}

// Into the registers of record i, whose path is key.
pub fn registers(sheet: &[u8], i: usize, k: Kind, key: u64, own: &mut [u64])
    requires { (24 + 40 * (i + 1) ≤ length sheet.now) × (kind_number k ≡ kind sheet.now i) × (key ≡ path sheet.now i) × (role sheet.now i ≡ Built) × (length own.old ≡ registers_by sheet.now i) }
    ensures { own.new ≡ start_registers sheet.now i }
{
    match k {
        Kind::Src(Src::Noise | Src::Dust) => seed_register(key, own),
        Kind::Val(Val::Rand) => rand_register(&Record::at(sheet, i), own),
        _ => own.fill(0),
    }
}
