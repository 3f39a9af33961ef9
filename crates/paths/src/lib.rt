// Where each record stands in the tree, as a word that seeds its generator. The sheet itself is read for the root's word only: it says what the tables hold.
// A table has an entry for each record or more: there is no heap, and what is lent is as long as its owner made it.
#![tactic(auto)]

ghost use Rattle.std.specs.Prelude.{◌≤◌, length};
ghost use Rattle.layout.specs.Built.{owner};
ghost use Rattle.layout.specs.Tables.{Table};
ghost use Rattle.unit.specs.Start.{place, path};

use layout::Links;

// How many records stand before each in its chain. A link of 0 writes to entry 0, which only the first turn reads and the end sets.
#[tactic(auto, using(layout::proofs::Within::first_within, layout::proofs::Within::next_within, std::proofs::lemmas::Grind::common_steps))]
fn places(links: &Links<'_>, to: &mut [u64])
    requires { links.now.count ≤ length to.old }
    ensures { Table (place links.now.sheet.now) links.now.count to.new }
{
    to[0] = 0;
    for i in 0..links.count {
        to[links.firsts[i]] = 0;
        let p = to[i];
        to[links.nexts[i]] = p + 1;
    }
    to[0] = 0;
}

// A record's path is its owner's and its place in the owner's chain. Owners stand below, so the pass goes up. It reads `to` at an entry
// that it wrote before, so the index stays: an iterator over the two tables would stand beside it.
fn down(links: &Links<'_>, owned: &[usize], placed: &[u64], to: &mut [u64])
    requires { Table (owner links.now.sheet.now) links.now.count owned.now × Table (place links.now.sheet.now) links.now.count placed.now × (links.now.count ≤ length to.old) }
    ensures { Table (path links.now.sheet.now) links.now.count to.new }
{
    to[0] = sheet::path(links.sheet);
    for j in 1..links.count {
        to[j] = rng::node_path(to[owned[j]], placed[j]);
    }
}

// The path of each record. There is no heap: the tables between are for as many records as a sheet may have.
pub fn paths(links: &Links<'_>, to: &mut [u64])
    requires { links.now.count ≤ length to.old }
    ensures { Table (path links.now.sheet.now) links.now.count to.new }
{
    let mut owned = [0usize; 256];
    let mut placed = [0u64; 256];
    roles::owners(links, &mut owned);
    places(links, &mut placed);
    down(links, &owned, &placed, to);
}
