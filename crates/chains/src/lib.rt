// Check 6, by the tables: what the chain of each record is made of.
// The links are the sheet's indices, and there is no heap for a tree of them; a link of 0 is none (`layout::Links`).
#![tactic(auto)]

ghost use Rattle.std.specs.Prelude.{◌≡◌, cond, ◌<◌, length, Some, None};
ghost use Rattle.sheet.specs.Checks.{all, every, allows};
ghost use Rattle.sheet.specs.Links.{LinkedIn, along_in, chain_in};
ghost use Rattle.sheet.specs.Numbers.{numbers_of, chain_of};

use sheet::kinds::{Chain, Kind};

// The kinds and links of records of which none is linked twice: what checks 4 and 5 leave.
#[derive(Clone, Copy)]
pub struct Linked<'a> {
    pub kinds: &'a [Kind],
    pub first: &'a [usize],
    pub next: &'a [usize],
    pub ghost linked: { LinkedIn (numbers_of kinds.now) first.now next.now },
}

// How many members the chain of record i has, where each may stand in it. The loop goes along links, of which 0 is none, so it counts no index; an
// iterator over them would be longer than the three loops that go so. Here and below i is asked to be a record: an index type of one sheet would say so at
// greater length.
fn members(chain: Chain, t: &Linked<'_>, i: usize) -> Option<usize>
    requires { i < length t.now.first.now }
    ensures { result ≡ cond (every (allows (chain_of chain)) (along_in (numbers_of t.now.kinds.now) t.now.first.now t.now.next.now i)) (Some (length (along_in (numbers_of t.now.kinds.now) t.now.first.now t.now.next.now i))) None }
{
    let mut count = 0usize;
    let mut j = t.first[i];
    while j != 0 {
        if !chain.allows(t.kinds[j]) {
            return None;
        }
        count += 1;
        j = t.next[j];
    }
    Some(count)
}

// 6, of the chain of record i. Half of all records have none, which is told without a walk.
fn chain_ok(t: &Linked<'_>, i: usize) -> bool
    requires { i < length t.now.first.now }
    ensures { result ≡ chain_in (numbers_of t.now.kinds.now) t.now.first.now t.now.next.now i }
{
    let chain = t.kinds[i].chain();
    if t.first[i] == 0 {
        return chain.counts(0);
    }
    match members(chain, t, i) {
        Some(count) => chain.counts(count),
        None => false,
    }
}

#[tactic(auto, unfolding(sheet::specs::Checks::all))]
pub fn chains_ok(t: &Linked<'_>) -> bool
    ensures { result ≡ all (chain_in (numbers_of t.now.kinds.now) t.now.first.now t.now.next.now) (length t.now.first.now) }
{
    for i in 0..t.first.len() {
        if !chain_ok(t, i) {
            return false;
        }
    }
    true
}
