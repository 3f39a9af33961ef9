// What a call reads of an accepted sheet, a record at a time: what the record is, what plays before and after it, and which parts
// of the memory are its own.
#![tactic(auto)]

ghost use Rattle.sheet.specs.Numbers.{numbers_of};
ghost use Rattle.layout.specs.Tables.{roles_of};
ghost use Rattle.plan.specs.Planned.{Planned};

use layout::Role;
use sheet::kinds::Kind;

// Record i: its kind; whether it is built; the first record that plays in its chain and the one that plays after it, or 0; where its cells
// and registers begin and end, and where its block of scratch begins. 0 stands for none, as `layout::Links` tells.
// Every field stands whether `built` or not, so it is a field and no enum around them.
#[derive(Clone, Copy)]
pub struct Row {
    pub kind: Kind,
    pub built: bool,
    pub begin: usize,
    pub after: usize,
    pub cells: usize,
    pub cells_end: usize,
    pub registers: usize,
    pub registers_end: usize,
    pub scratch: usize,
}

// An accepted sheet with the tables that the checks leave. What plays reads them a row at a time, through `row`, but for `nexts`, by which
// chains are gone along: how the others lie in memory is known here only. Who reads one asks that i is a record, and who makes one says of which sheet: a type of indices of one sheet would say
// both at greater length.
#[derive(Clone, Copy)]
pub struct Plan<'a> {
    pub sheet: &'a [u8],
    pub count: usize,
    kinds: &'a [Kind],
    pub nexts: &'a [usize],
    acts: &'a [Role],
    begins: &'a [usize],
    afters: &'a [usize],
    places: &'a [usize],
    words: &'a [usize],
    blocks: &'a [usize],
    pub ghost made: { Planned sheet.now count (numbers_of kinds.now) nexts.now (roles_of acts.now) begins.now afters.now places.now words.now blocks.now },
}

impl<'a> Plan<'a> {
    ghost use Rattle.std.specs.Prelude.{◌≡◌, ◌<◌};
    ghost use Rattle.sheet.specs.Record.{count_of};
    ghost use Rattle.plan.specs.Rowed.{Rowed};

    pub fn new(
        sheet: &'a [u8],
        count: usize,
        kinds: &'a [Kind],
        nexts: &'a [usize],
        acts: &'a [Role],
        begins: &'a [usize],
        afters: &'a [usize],
        places: &'a [usize],
        words: &'a [usize],
        blocks: &'a [usize],
    ) -> Plan<'a>
        requires { Planned sheet.now count (numbers_of kinds.now) nexts.now (roles_of acts.now) begins.now afters.now places.now words.now blocks.now }
        ensures { result.sheet.now ≡ sheet.now }
    {
        Plan {
            sheet,
            count,
            kinds,
            nexts,
            acts,
            begins,
            afters,
            places,
            words,
            blocks,
        }
    }

    #[inline(always)]
    pub fn row(&self, i: usize) -> Row
        requires { i < count_of self.now.sheet.now }
        ensures { Rowed self.now.sheet.now i result }
    {
        Row {
            kind: self.kinds[i],
            built: matches!(self.acts[i], Role::Built),
            begin: self.begins[i],
            after: self.afters[i],
            cells: self.places[i],
            cells_end: self.places[i + 1],
            registers: self.words[i],
            registers_end: self.words[i + 1],
            scratch: self.blocks[i],
        }
    }
}
