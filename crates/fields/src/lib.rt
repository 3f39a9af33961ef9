// Checks 3 and 4 of one record.
#![tactic(auto)]

ghost use Rattle.std.specs.Prelude.{◌≡◌, ◌+◌, ◌-◌, ◌*◌, ◌≤◌, eqb};
ghost use Rattle.sheet.specs.Bytes.{byte_at, u64_at};
ghost use Rattle.sheet.specs.Checks.{all, record_ok, link_ok};
ghost use Rattle.sheet.specs.Links.{links_at};
ghost use Rattle.sheet.specs.Numbers.{Numbered};
ghost use Rattle.sheet.specs.Record.{kind_of};

use sheet::Record;
use sheet::kinds::Entry;

// Numbers k and k + 1 of the record as one word.
fn pair(r: &Record, k: usize) -> u64
    requires { k ≤ 6 }
    ensures { result ≡ u64_at r.now (8 + 4 * k) }
{
    sheet::double(r.bytes(), 8 + 4 * k)
}

// Whether the numbers from m on are zero, two at a time: words that overlap cost less than a branch on how many there are.
// Joined by |, and not compared one by one, each is one load.
fn unset(r: &Record, m: u8) -> bool
    requires { m ≤ 7 }
    ensures { result ≡ all (λ k. eqb (byte_at r.now (8 + 4 * m + k)) 0) (32 - 4 * m) }
{
    if 6 < m {
        return r.bits(7) == 0;
    }
    let k = usize::from(m);
    (pair(r, k) | pair(r, (k + 2).min(6)) | pair(r, (k + 4).min(6)) | pair(r, 6)) == 0
}

// 3, of one record, by the entry of its kind: none where its number is no kind's.
pub fn record_ok(r: &Record, e: Option<Entry>) -> bool
    requires { Numbered (kind_of r.now) e }
    ensures { result ≡ record_ok r.now }
{
    let Some(
        Entry {
            kind: _,
            options,
            numbers,
        },
    ) = e
    else {
        return false;
    };
    if options <= r.option() {
        return false;
    }
    if sheet::half(r.bytes(), 6) != 0 {
        return false;
    }
    unset(r, numbers)
}

// 4, of one link of record i, and of its two. Some record is there, so that a link of 0 is below n too, and each clause
// asks for it.
fn link_ok(i: usize, l: usize, n: usize) -> bool
    requires { 1 ≤ n }
    ensures { result ≡ link_ok i l n }
{
    ((l == 0) | (i < l)) & (l < n)
}

pub fn links_ok(n: usize, i: usize, l: usize, m: usize) -> bool
    requires { 1 ≤ n }
    ensures { result ≡ links_at n i l m }
{
    link_ok(i, l, n) & link_ok(i, m, n) & ((0 < i) | (m == 0))
}
