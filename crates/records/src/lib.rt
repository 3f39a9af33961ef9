// Checks 3 and 4, in a pass over the records that fills tables of their kinds and links.
#![tactic(auto)]

ghost use Rattle.std.specs.Prelude.{◌≡◌, ◌+◌, ◌*◌, ◌≤◌, length};
ghost use Rattle.refusal.specs.Refusal.{answer_of};
ghost use Rattle.sheet.specs.Record.{count_of};
ghost use Rattle.sheet.specs.Links.{Decoded};
ghost use Rattle.sheet.specs.Numbers.{numbers_of};

use refusal::Refusal;
use sheet::Record;
use sheet::kinds::Kind;

// 3 and 4. The pass goes on past a fault, so that the tables are filled and the lower of the two is told. A number that is no kind's leaves the
// table of kinds as it is there. n is the sheet's count, which the caller has read; the tables, which are the caller's, may be longer.
pub fn decode(
    sheet: &[u8],
    n: usize,
    kinds: &mut [Kind],
    first: &mut [usize],
    next: &mut [usize],
) -> Result<(), Refusal>
    requires n_value { (n ≡ count_of sheet.now) × (n ≤ 256) × (length sheet.now ≡ 24 + 40 * n) }
    requires n_in_bounds { (n ≤ length kinds.old) × (n ≤ length first.old) × (n ≤ length next.old) }
    ensures { Decoded sheet.now (numbers_of kinds.new) first.new next.new (answer_of result) }
{
    let mut whole = true;
    let mut linked = true;
    for i in 0..n {
        let r = Record::at(sheet, i);
        let f = r.first();
        let x = r.next();
        let entry = r.entry();
        whole &= fields::record_ok(&r, entry);
        if let Some(e) = entry {
            kinds[i] = e.kind;
        }
        if !fields::links_ok(n, i, f, x) {
            linked = false;
        }
        first[i] = f;
        next[i] = x;
    }
    if !whole {
        return Err(Refusal::Record);
    }
    if !linked {
        return Err(Refusal::Link);
    }
    Ok(())
}
