// What the built records of an accepted sheet need, and where each one's parts begin.
#![tactic(auto)]

ghost use Rattle.std.specs.Prelude.{◌≡◌, true, false, ◌≤◌, ◌<◌, length};
ghost use Rattle.sheet.specs.Numbers.{kind_number};
ghost use Rattle.sheet.specs.Record.{rate_of, record_at};
ghost use Rattle.layout.specs.declared.Role.TheVariants.{Built};
ghost use Rattle.layout.specs.Built.{role as role_at};
ghost use Rattle.layout.specs.Needs.{noise_cells, reverb_cells, chain_length};
ghost use Rattle.layout.specs.Tables.{Table, role_code, roles_of};
ghost use Rattle.layout.specs.Counts.{cells_with, registers_with, scratch_with, Bare, Unowning, Placed};
ghost use Rattle.offsets.specs.Colors.{color_number};

use dsl::NoiseColor;
use layout::{Links, Role};
use sheet::Record;
use sheet::kinds::{Kind, Proc, Src, Val};

// How much memory a sheet needs to be lent. `tables::Needed` says it to C, flat and beside a refusal, since the interface fixes how that lies
// in memory.
#[derive(Clone, Copy)]
pub struct Needs {
    pub cells: u64,
    pub registers: u64,
    pub scratch: u64,
}

#[tactic(auto, unfolding(crate::specs::Colors::color_number))]
fn noise(color: NoiseColor) -> u64
    ensures { (result ≡ noise_cells (color_number color)) × (result ≤ 7) }
{
    match color {
        NoiseColor::White => 0,
        NoiseColor::Pink => 7,
        NoiseColor::Brown => 1,
    }
}

// Six combs, four allpasses, and a store for each comb.
fn reverb(rate: u32) -> u64
    requires { rate ≤ 192000 }
    ensures { (result ≡ reverb_cells rate) × (result ≤ 48632) }
{
    let lens = lines::reverb_lens(rate);
    let combs = lens[0] + lens[1] + lens[2] + lens[3] + lens[4] + lens[5];
    combs + lens[6] + lens[7] + lens[8] + lens[9] + 6
}

// The cells of record i, of this kind, where it is built; that i is a record is asked as `plan::Plan::row` asks it. A constant array by kind would
// be copied at each use; a match is a jump. The rate is read where it is used: were it read once for all records, the compiler would work
// out the lines of a reverb for every sheet.
#[tactic(auto, using(crate::specs::Colors::noise_cells_color), unfolding(sheet::specs::Numbers::src_number, sheet::specs::Numbers::fold_number, sheet::specs::Numbers::biquad_number, sheet::specs::Numbers::proc_number, sheet::specs::Numbers::val_number, sheet::specs::Numbers::kind_number, layout::specs::Needs::need_of))]
fn cells_of(links: &Links<'_>, i: usize, kind: Kind) -> u64
    requires { i < links.now.count }
    ensures { (result ≡ cells_with (record_at links.now.sheet.now i) (rate_of links.now.sheet.now) (kind_number kind) (chain_length links.now.sheet.now i)) × (result ≤ 5760000) }
{
    let sheet = links.sheet;
    let r = Record::at(sheet, i);
    match kind {
        Kind::Src(Src::Sine | Src::Square | Src::Sawtooth | Src::Dust) => 1,
        Kind::Src(Src::Triangle | Src::Fm) => 2,
        Kind::Src(Src::Super) => 2 * layout::voices(r.bits(0)),
        Kind::Src(Src::Noise) => noise(NoiseColor::from(r.option())),
        Kind::Biquad(_) => 11,
        Kind::Proc(Proc::Delay) => lines::delay_line_len(r.number(0), sheet::rate(sheet)),
        Kind::Proc(Proc::Reverb) => reverb(sheet::rate(sheet)),
        Kind::Proc(Proc::Modal) => {
            5 * layout::chain_length(sheet, links.count, links.nexts, links.firsts[i])
        }
        Kind::Proc(Proc::Drive | Proc::Compress) => 4,
        Kind::Proc(Proc::Chorus) => lines::chorus_line_len(r.number(1), sheet::rate(sheet)),
        Kind::Val(Val::Rand) => 3,
        _ => 0,
    }
}

// A generator's word, or the places in a kind's lines.
#[tactic(auto, unfolding(sheet::specs::Numbers::src_number, sheet::specs::Numbers::fold_number, sheet::specs::Numbers::biquad_number, sheet::specs::Numbers::proc_number, sheet::specs::Numbers::val_number, sheet::specs::Numbers::kind_number, layout::specs::Needs::need_of))]
fn registers_of(kind: Kind) -> u64
    ensures { (result ≡ registers_with (kind_number kind)) × (result ≤ 11) }
{
    match kind {
        Kind::Src(Src::Noise | Src::Dust) => 1,
        Kind::Proc(Proc::Delay | Proc::Chorus) => 1,
        Kind::Proc(Proc::Reverb) => 10,
        Kind::Val(Val::Rand) => 1,
        _ => 0,
    }
}

// A block for Mix and Mul.
#[tactic(auto, unfolding(sheet::specs::Numbers::src_number, sheet::specs::Numbers::fold_number, sheet::specs::Numbers::biquad_number, sheet::specs::Numbers::proc_number, sheet::specs::Numbers::val_number, sheet::specs::Numbers::kind_number, layout::specs::Needs::need_of))]
fn scratch_of(kind: Kind) -> u64
    ensures { (result ≡ scratch_with (kind_number kind)) × (result ≤ 256) }
{
    match kind {
        Kind::Fold(_) => 256,
        _ => 0,
    }
}

// Whether the kind needs anything, as half of all records do not.
#[tactic(auto, unfolding(sheet::specs::Numbers::src_number, sheet::specs::Numbers::fold_number, sheet::specs::Numbers::biquad_number, sheet::specs::Numbers::proc_number, sheet::specs::Numbers::val_number, sheet::specs::Numbers::kind_number, layout::specs::Needs::need_of))]
fn takes(kind: Kind) -> bool
    ensures { result ≡ false → Bare (kind_number kind) }
{
    match kind {
        Kind::Src(src) => !matches!(src, Src::Impact | Src::Env),
        Kind::Proc(proc) => !matches!(proc, Proc::Gain | Proc::Tremolo),
        Kind::Val(val) => val == Val::Rand,
        Kind::Fold(_) | Kind::Biquad(_) => true,
        Kind::Chain | Kind::Mode | Kind::Step => false,
    }
}

// Whether a record of the kind and of the role may need anything.
fn owns(kind: Kind, role: Role) -> bool
    ensures { (result ≡ true → role ≡ Built) × (result ≡ false → Unowning (kind_number kind) role) }
{
    match role {
        Role::Built => takes(kind),
        Role::Out | Role::Silent => false,
    }
}

// The three tables of places, with one entry more for what the sheet needs of each. They are three and no table of triples, since
// the passes before this one are lent the first two for tables of their own.
pub fn offsets(
    links: &Links<'_>,
    acts: &[Role],
    places: &mut [usize],
    words: &mut [usize],
    blocks: &mut [usize],
) -> Needs
    requires { Table (λ j. role_code (role_at links.now.sheet.now j)) links.now.count (roles_of acts.now) × (links.now.count < length places.old) × (links.now.count < length words.old) × (links.now.count < length blocks.old) }
    ensures { Placed links.now.sheet.now links.now.count places.new words.new blocks.new result.cells result.registers result.scratch }
{
    let mut c = 0usize;
    let mut r = 0usize;
    let mut s = 0usize;
    for i in 0..links.count {
        places[i] = c;
        words[i] = r;
        blocks[i] = s;
        let kind = links.kinds[i];
        if owns(kind, acts[i]) {
            c += cells_of(links, i, kind) as usize;
            r += registers_of(kind) as usize;
            s += scratch_of(kind) as usize;
        }
    }
    places[links.count] = c;
    words[links.count] = r;
    blocks[links.count] = s;
    Needs {
        cells: c as u64,
        registers: r as u64,
        scratch: s as u64,
    }
}
