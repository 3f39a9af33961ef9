// What a sheet that the checks accept is built into: which records are built, how what is played is linked, and where each
// record's parts lie (specs/). The code here counts what several crates count.
#![tactic(auto)]

ghost use Rattle.std.specs.Prelude.{◌≡◌, ◌≤◌, ◌<◌, min, max, length};
ghost use Rattle.sheet.specs.Record.{next};
ghost use Rattle.sheet.specs.Tree.{records, spine};
ghost use Rattle.sheet.specs.Numbers.{numbers_of};
ghost use Rattle.layout.specs.Tables.{Table, Passed, Listed};

use sheet::kinds::Kind;

// What becomes of a record. Out: neither built nor played. Silent: a processor in a source's place, which plays silence.
#[derive(Clone, Copy, PartialEq, Eq)]
pub enum Role {
    Out,
    Silent,
    Built,
}

// A sheet of `count` records that the checks accept, with the tables that they leave: each record's kind, and where its links lead.
// No link leads to record 0, so 0 is none, as in the sheet's bytes and in every law of specs/ over links: an Option would be turned back into
// that number in each clause. A plan has four of its fields beside tables of its own, and no `Links`: the contracts of all that plays name its sheet.
#[derive(Clone, Copy)]
pub struct Links<'a> {
    pub sheet: &'a [u8],
    pub count: usize,
    pub kinds: &'a [Kind],
    pub firsts: &'a [usize],
    pub nexts: &'a [usize],
    pub ghost listed: { Listed sheet.now count (numbers_of kinds.now) firsts.now nexts.now },
}

// Super's voices, 1 to 16.
pub fn voices(n: u32) -> u64
    ensures { (result ≡ max 1 (min n 16)) × (result ≤ 16) }
{
    u64::from(n.clamp(1, 16))
}

// How many records stand in the chain that begins at f. It takes the nexts alone, since `Links` and a plan both have them.
pub fn chain_length(sheet: &[u8], count: usize, nexts: &[usize], f: usize) -> u64
    requires { Passed sheet.now count × Table (next sheet.now) count nexts.now × (f < count) }
    ensures { (result ≡ length (spine (records sheet.now f))) × (result ≤ 256) }
{
    // The walk goes by links; an iterator over them, for this loop and the one over a Modal's modes, would be longer than both.
    let mut n = 0u64;
    let mut j = f;
    while j != 0 {
        n += 1;
        j = nexts[j];
    }
    n
}
