// Checks 1 to 7 in their order: 1 and 2 are here, the others in `records` and `shape`.
#![tactic(auto)]

ghost use Rattle.std.specs.Prelude.{◌≡◌, ◌≤◌, length};
ghost use Rattle.refusal.specs.Refusal.{answer_of};
ghost use Rattle.sheet.specs.Checks.{check_of, length_ok, header_ok};
ghost use Rattle.sheet.specs.Links.{Rows, Checked};
ghost use Rattle.sheet.specs.Numbers.{numbers_of};

use refusal::Refusal;
use sheet::kinds::Kind;

// 1
fn length_ok(sheet: &[u8]) -> bool
    ensures { result ≡ length_ok sheet.now }
{
    if sheet.len() < 24 {
        return false;
    }
    let n = sheet::count(sheet);
    (sheet.len() == 24 + 40 * n) & (1 <= n) & (n <= 256)
}

// 2
fn header_ok(sheet: &[u8]) -> bool
    requires { 24 ≤ length sheet.now }
    ensures { result ≡ header_ok sheet.now }
{
    let rate = sheet::rate(sheet);
    (8000 <= rate) & (rate <= 192000) & (sheet::half(sheet, 2) == 0)
}

// ---- all of them

// The lowest of checks 1 to 7 that applies. Where none does the tables hold the kind and the links of every record;
// after a refusal nothing is promised of them but their lengths. The three tables are the caller's, as C lends `block_check` its own; where all checks
// have passed `layout::Links` holds them.
pub fn check(
    sheet: &[u8],
    kinds: &mut [Kind],
    first: &mut [usize],
    next: &mut [usize],
) -> Result<(), Refusal>
    requires { Rows sheet.now (length kinds.old) × (length kinds.old ≤ length first.old) × (length kinds.old ≤ length next.old) }
    ensures { Checked sheet.now (numbers_of kinds.new) first.new next.new (answer_of result) }
{
    if !length_ok(sheet) {
        return Err(Refusal::Length);
    }
    if !header_ok(sheet) {
        return Err(Refusal::Header);
    }
    let n = sheet::count(sheet);
    records::decode(sheet, n, kinds, first, next)?;
    shape::shape(&kinds[..n], &first[..n], &next[..n])
}

// The same with tables of its own. There is no heap: they are for as many records as a sheet may have.
pub fn accepted(sheet: &[u8]) -> Result<(), Refusal>
    ensures { answer_of result ≡ check_of sheet.now }
{
    let mut kinds = [Kind::Step; 256];
    let mut first = [0usize; 256];
    let mut next = [0usize; 256];
    check(sheet, &mut kinds, &mut first, &mut next)
}
