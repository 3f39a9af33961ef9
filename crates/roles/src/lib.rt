// Tables over the records of an accepted sheet, each written by one pass over those below it. The sheet itself is not read: it says what the tables hold.
// The tables that a pass writes are lent one by one, each with as many entries as there are records or more: every pass reads some and writes
// others, and three of them serve the passes before as tables of their own; rows of all would be lent whole to each, which could then write what others left.
#![tactic(auto)]

ghost use Rattle.std.specs.Prelude.{◌≡◌, cond, ◌&&◌, ◌||◌, ◌≢◌, ◌+◌, ◌≤◌, ◌<◌, eqb, length};
ghost use Rattle.sheet.specs.Kinds.{is_processor};
ghost use Rattle.sheet.specs.Numbers.{kind_number};
ghost use Rattle.layout.specs.declared.Role.TheVariants.{Silent, Built};
ghost use Rattle.layout.specs.Built.{owner, trailing, role_in, role, is_built, is_played, begin, after};
ghost use Rattle.layout.specs.Roles.{stage_from};
ghost use Rattle.layout.specs.Tables.{Table, Below, Owned, flag, flags_of, role_code, roles_of};

use layout::{Links, Role};
use sheet::kinds::Kind;

// The owners of the records that i's links lead to: i of its first, and i's own, o, of its next. A link of 0 writes to entry 0, on which nothing rests: record 0 has no owner.
#[tactic(auto, using(layout::proofs::Within::first_within, layout::proofs::Within::next_within, std::proofs::lemmas::Grind::common_steps))]
fn own(links: &Links<'_>, i: usize, o: usize, owned: &mut [usize])
    requires { let s = links.now.sheet.now in (i < links.now.count) × (i ≢ 0 → o ≡ owner s i) × (links.now.count ≤ length owned.old) × Owned s links.now.count i owned.old }
    ensures { Owned links.now.sheet.now links.now.count (i + 1) owned.new }
{
    owned[links.firsts[i]] = i;
    owned[links.nexts[i]] = o;
}

// In whose chain each record stands.
pub fn owners(links: &Links<'_>, owned: &mut [usize])
    requires { links.now.count ≤ length owned.old }
    ensures { Table (owner links.now.sheet.now) links.now.count owned.new }
{
    for i in 0..links.count {
        own(links, i, owned[i], owned);
    }
    owned[0] = 0;
}

// Whether only processors stand after a record, by the one that does: its number, its kind and its own entry.
fn trails(n: usize, kind: Kind, last: bool) -> bool
    ensures { result ≡ (eqb n 0 || (is_processor (kind_number kind) && last)) }
{
    n == 0 || (kind.is_processor() && last)
}

// Whether only processors stand after each record, and from which stage the chain that begins at it is built. Links climb, so the pass goes down.
#[tactic(auto, using(layout::proofs::Within::next_within, layout::proofs::Within::kinds_long))]
pub fn stages(links: &Links<'_>, lasts: &mut [bool], froms: &mut [usize])
    requires { (links.now.count ≤ length lasts.old) × (links.now.count ≤ length froms.old) }
    ensures { let s = links.now.sheet.now in Table (λ j. flag (trailing s j)) links.now.count (flags_of lasts.new) × Table (stage_from s) links.now.count froms.new }
{
    for j in (0..links.count).rev() {
        let n = links.nexts[j];
        let last = trails(n, links.kinds[n], lasts[n]);
        lasts[j] = last;
        froms[j] = if last { j } else { froms[n] };
    }
}

fn root_role(kind: Kind) -> Role
    ensures { result ≡ cond (is_processor (kind_number kind)) Silent Built }
{
    if kind.is_processor() {
        Role::Silent
    } else {
        Role::Built
    }
}

// A record's role by its owner's role r and kind o, its own kind, and whether only processors stand after it.
#[tactic(auto, unfolding(layout::specs::Built::role_in, sheet::specs::Numbers::kind_number, sheet::specs::Numbers::src_number, sheet::specs::Numbers::fold_number, sheet::specs::Numbers::biquad_number, sheet::specs::Numbers::proc_number, sheet::specs::Numbers::val_number))]
fn role_in(r: Role, o: Kind, kind: Kind, last: bool) -> Role
    ensures { result ≡ role_in r (kind_number o) (is_processor (kind_number kind)) last }
{
    match (r, o) {
        (Role::Out | Role::Silent, _) => Role::Out,
        (Role::Built, Kind::Fold(_)) => root_role(kind),
        (Role::Built, Kind::Chain) if !last => Role::Out,
        (Role::Built, _) => Role::Built,
    }
}

// Record i's role by that of its owner o; record 0 has no owner.
fn role_at(links: &Links<'_>, lasts: &[bool], acts: &[Role], i: usize, o: usize) -> Role
    requires { let s = links.now.sheet.now in Table (λ j. flag (trailing s j)) links.now.count (flags_of lasts.now) × (links.now.count ≤ length acts.now) × Below (λ j. role_code (role s j)) i (roles_of acts.now) × (i < links.now.count) × (i ≢ 0 → o ≡ owner s i) }
    ensures { result ≡ role links.now.sheet.now i }
{
    let kinds = links.kinds;
    if i == 0 {
        return root_role(kinds[i]);
    }
    role_in(acts[o], kinds[o], kinds[i], lasts[i])
}

#[tactic(auto, unfolding(sheet::specs::Numbers::kind_number, sheet::specs::Numbers::src_number, sheet::specs::Numbers::fold_number, sheet::specs::Numbers::biquad_number, sheet::specs::Numbers::proc_number, sheet::specs::Numbers::val_number))]
fn begin_at(r: Role, kind: Kind, f: usize, stage: usize) -> usize
    ensures { result ≡ cond (is_built r) (cond (eqb (kind_number kind) 13) stage f) 0 }
{
    match (r, kind) {
        (Role::Out | Role::Silent, _) => 0,
        (Role::Built, Kind::Chain) => stage,
        (Role::Built, _) => f,
    }
}

fn after_at(r: Role, n: usize) -> usize
    ensures { result ≡ cond (is_played r) n 0 }
{
    match r {
        Role::Out => 0,
        Role::Silent | Role::Built => n,
    }
}

// Each record's role, and the links of what is played. What a record's role rests on stands below it, so one pass goes up.
#[tactic(auto, using(layout::proofs::Within::first_within))]
fn roles(
    links: &Links<'_>,
    lasts: &[bool],
    froms: &[usize],
    owned: &mut [usize],
    acts: &mut [Role],
    begins: &mut [usize],
    afters: &mut [usize],
)
    requires staged { let s = links.now.sheet.now in Table (λ j. flag (trailing s j)) links.now.count (flags_of lasts.now) × Table (stage_from s) links.now.count froms.now }
    requires long { (links.now.count ≤ length owned.old) × (links.now.count ≤ length acts.old) × (links.now.count ≤ length begins.old) × (links.now.count ≤ length afters.old) }
    ensures { let s = links.now.sheet.now in Table (λ j. role_code (role s j)) links.now.count (roles_of acts.new) × Table (begin s) links.now.count begins.new × Table (after s) links.now.count afters.new }
{
    for i in 0..links.count {
        let o = owned[i];
        let f = links.firsts[i];
        let role = role_at(links, lasts, acts, i, o);
        begins[i] = begin_at(role, links.kinds[i], f, froms[f]);
        afters[i] = after_at(role, links.nexts[i]);
        acts[i] = role;
        own(links, i, o, owned);
    }
}

// Each record's role, and the links of what is played. The tables `owned`, `lasts` and `froms` are lent for the passes between.
pub fn plan(
    links: &Links<'_>,
    owned: &mut [usize],
    lasts: &mut [bool],
    froms: &mut [usize],
    acts: &mut [Role],
    begins: &mut [usize],
    afters: &mut [usize],
)
    requires { (links.now.count ≤ length owned.old) × (links.now.count ≤ length lasts.old) × (links.now.count ≤ length froms.old) × (links.now.count ≤ length acts.old) × (links.now.count ≤ length begins.old) × (links.now.count ≤ length afters.old) }
    ensures { let s = links.now.sheet.now in Table (λ j. role_code (role s j)) links.now.count (roles_of acts.new) × Table (begin s) links.now.count begins.new × Table (after s) links.now.count afters.new }
{
    stages(links, lasts, froms);
    roles(links, lasts, froms, owned, acts, begins, afters);
}
