// Checks 1 to 7, what an accepted sheet needs, and the tables that it leaves: its links, what each record is, and where its memory begins.
#![tactic(auto)]

ghost use Rattle.std.specs.Prelude.{◌≡◌, ◌<◌, Ok};
ghost use Rattle.std.specs.Result.{IfOk};
ghost use Rattle.refusal.specs.Refusal.{answer_of};
ghost use Rattle.sheet.specs.Links.{Rows};
ghost use Rattle.sheet.specs.Checks.{check_of};
ghost use Rattle.tables.specs.Answer.{needed_by, needed_of};
ghost use Rattle.tables.specs.Tables.{blank, Made};

use layout::{Links, Role};
use offsets::Needs;
use plan::Plan;
use refusal::Refusal;
use sheet::kinds::{Kind, Src};

// The tables of a sheet of at most N records, lent for a call. M is N + 1: the places of memory end with a last one past all records.
// A const argument can't be computed, so M stands beside N, and who lends them asks that it is more.
#[derive(Drop)]
pub struct Tables<const N: usize, const M: usize> {
    pub kinds: [Kind; N],
    pub firsts: [usize; N],
    pub nexts: [usize; N],
    pub lasts: [bool; N],
    pub acts: [Role; N],
    pub begins: [usize; N],
    pub afters: [usize; N],
    pub places: [usize; M],
    pub words: [usize; M],
    pub blocks: [usize; M],
}

impl<const N: usize, const M: usize> Tables<N, M> {
    // The kind that stands everywhere is the one whose bytes are zeros, so that the compiler clears the tables where they lie: with another it makes 15 KB
    // beside them and copies them.
    pub fn new() -> Self
        ensures { result ≡ blank }
    {
        Tables {
            kinds: [Kind::Src(Src::Sine); N],
            firsts: [0; N],
            nexts: [0; N],
            lasts: [false; N],
            acts: [Role::Out; N],
            begins: [0; N],
            afters: [0; N],
            places: [0; M],
            words: [0; M],
            blocks: [0; M],
        }
    }

    // The sheet with the tables that its checks left here.
    pub fn links<'a>(&'a self, sheet: &'a [u8], count: usize) -> Links<'a>
        requires { Made sheet.now count self.now }
        ensures { (result.sheet.now ≡ sheet.now) × (result.count ≡ count) }
    {
        Links {
            sheet,
            count,
            kinds: &self.kinds,
            firsts: &self.firsts,
            nexts: &self.nexts,
        }
    }

    pub fn plan<'a>(&'a self, sheet: &'a [u8], count: usize) -> Plan<'a>
        requires { Made sheet.now count self.now }
        ensures { result.sheet.now ≡ sheet.now }
    {
        Plan::new(
            sheet,
            count,
            &self.kinds,
            &self.nexts,
            &self.acts,
            &self.begins,
            &self.afters,
            &self.places,
            &self.words,
            &self.blocks,
        )
    }
}

// What an accepted sheet needs, and its number of records.
#[derive(Clone, Copy)]
pub struct Measured {
    pub needs: Needs,
    pub count: usize,
}

// For C: the refusal's number, or 0, and how much memory the sheet needs to be lent: nothing where it is refused.
#[repr(C)]
#[derive(Clone, Copy)]
pub struct Needed {
    pub refusal: u8,
    pub cells: u64,
    pub registers: u64,
    pub scratch: u64,
}

impl From<Result<Needs, Refusal>> for Needed {
    ghost from_gives = { λ outcome r. r ≡ needed_by outcome };

    fn from(outcome: Result<Needs, Refusal>) -> Needed {
        match outcome {
            Ok(needs) => Needed {
                refusal: 0,
                cells: needs.cells,
                registers: needs.registers,
                scratch: needs.scratch,
            },
            Err(refusal) => Needed {
                refusal: refusal.number(),
                cells: 0,
                registers: 0,
                scratch: 0,
            },
        }
    }
}

// Checks 1 to 7. Where none applies, the tables are set.
pub fn measure<const N: usize, const M: usize>(
    sheet: &[u8],
    t: &mut Tables<N, M>,
) -> Result<Measured, Refusal>
    requires { Rows sheet.now N × (N < M) }
    ensures answer { answer_of result ≡ check_of sheet.now }
    ensures needs { IfOk result (λ m. needed_by (Ok m.needs) ≡ needed_of sheet.now) }
    ensures made { IfOk result (λ m. Made sheet.now m.count t.new) }
{
    checks::check(sheet, &mut t.kinds, &mut t.firsts, &mut t.nexts)?;
    let count = sheet::count(sheet);
    let links = Links {
        sheet,
        count,
        kinds: &t.kinds,
        firsts: &t.firsts,
        nexts: &t.nexts,
    };
    // The passes of the plan are lent the tables that are set after it.
    roles::plan(
        &links,
        &mut t.places,
        &mut t.lasts,
        &mut t.words,
        &mut t.acts,
        &mut t.begins,
        &mut t.afters,
    );
    let needs = offsets::offsets(&links, &t.acts, &mut t.places, &mut t.words, &mut t.blocks);
    Ok(Measured { needs, count })
}
