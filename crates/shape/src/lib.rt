// Checks 5, 6 and 7, by the tables of the records' kinds and links. Before check 5 has passed nothing more is known of the tables than that they are as long
// as each other and that links climb, so they come as slices; after it they are `chains::Linked`. The links are the sheet's
// indices, and there is no heap for a tree of them; a link of 0 is none.
#![tactic(auto)]

ghost use Rattle.std.specs.Prelude.{◌≡◌, ℕ, ◌≤◌, ◌<◌, ltb, length};
ghost use Rattle.refusal.specs.Refusal.{answer_of};
ghost use Rattle.sheet.specs.Checks.{sum};
ghost use Rattle.sheet.specs.Links.{at, nodes_at, LinksIn, once_in, depth_in, shape_in};
ghost use Rattle.sheet.specs.Numbers.{numbers_of};

use chains::Linked;
use refusal::Refusal;
use sheet::kinds::Kind;

// Counts in `hits` how many links lead to each record; a link of 0 counts at 0. Links lead up, so that a record's count is
// whole at its turn. Record 0 has no next.
fn once_in(first: &[usize], next: &[usize], hits: &mut [u16]) -> bool
    requires links_in { LinksIn first.now next.now }
    requires in_bounds { (1 ≤ length first.now) × (length first.now ≤ 256) }
    requires first_in_bounds { (length first.now ≤ length hits.old) × ((j : ℕ) → at hits.old j ≡ 0) }
    ensures { result ≡ once_in first.now next.now }
{
    let root = first[0];
    hits[root] = 1;
    for i in 1..first.len() {
        if hits[i] != 1 {
            return false;
        }
        let f = first[i];
        hits[f] += 1;
        let x = next[i];
        hits[x] += 1;
    }
    true
}

// With N counts: there is no heap.
fn once_with<const N: usize>(first: &[usize], next: &[usize]) -> bool
    requires links_in { LinksIn first.now next.now }
    requires in_bounds { (1 ≤ length first.now) × (length first.now ≤ N) × (N ≤ 256) }
    ensures { result ≡ once_in first.now next.now }
{
    let mut hits = [0u16; N];
    once_in(first, next, &mut hits)
}

// 5. Of at most 32 records fewer counts are zeroed.
fn once(first: &[usize], next: &[usize]) -> bool
    requires links_in { LinksIn first.now next.now }
    requires in_bounds { (1 ≤ length first.now) × (length first.now ≤ 256) }
    ensures { result ≡ once_in first.now next.now }
{
    if first.len() <= 32 {
        once_with::<32>(first, next)
    } else {
        once_with::<256>(first, next)
    }
}

// Whether nodes nest deeper than `room` from record `start` on: along the chain by a loop, into each node's own chain by
// a call, which ends where there is no room left. Links climb, so what is left above the index falls. The loop goes along
// links, of which 0 is none, so it counts no index.
fn deeper(t: &Linked<'_>, start: usize, room: usize) -> bool
    requires { start < length t.now.first.now }
    ensures { result ≡ ltb room (depth_in (numbers_of t.now.kinds.now) t.now.first.now t.now.next.now start) }
{
    let mut j = start;
    while j != 0 {
        if t.kinds[j].is_node() {
            if room == 0 {
                return true;
            }
            if deeper(t, t.first[j], room - 1) {
                return true;
            }
        }
        j = t.next[j];
    }
    false
}

fn node_count(kinds: &[Kind]) -> usize
    ensures { result ≡ sum (nodes_at (at (numbers_of kinds.now))) (length kinds.now) }
{
    let mut n = 0usize;
    for i in 0..kinds.len() {
        n += usize::from(kinds[i].is_node());
    }
    n
}

// 7. Of at most 16 records no more than 16 nest, and of fewer nodes no more than they are.
fn too_deep(t: &Linked<'_>) -> bool
    requires { 1 ≤ length t.now.first.now }
    ensures { result ≡ ltb 15 (depth_in (numbers_of t.now.kinds.now) t.now.first.now t.now.next.now (at t.now.first.now 0)) }
{
    if t.first.len() <= 16 {
        return false;
    }
    if node_count(t.kinds) < 16 {
        return false;
    }
    deeper(t, t.first[0], 15)
}

// 5, 6 and 7, by the tables
pub fn shape(kinds: &[Kind], first: &[usize], next: &[usize]) -> Result<(), Refusal>
    requires links_in { LinksIn first.now next.now }
    requires kinds_len { (length kinds.now ≡ length first.now) × (1 ≤ length first.now) × (length first.now ≤ 256) }
    ensures { answer_of result ≡ shape_in (numbers_of kinds.now) first.now next.now }
{
    if !once(first, next) {
        return Err(Refusal::Linked);
    }
    let t = Linked { kinds, first, next };
    if !(chains::chains_ok(&t) & kinds[0].is_node()) {
        return Err(Refusal::Chain);
    }
    if too_deep(&t) {
        return Err(Refusal::Depth);
    }
    Ok(())
}
