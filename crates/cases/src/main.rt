// The starred cases are the table in specs/, which is proved. This program runs the others, and the refusals 8, 9 and 10 at their edges,
// through the player's calls, on small sheets that it makes as bytes. It ends with the status 1 where an answer is wrong.
#![tactic(auto)]

mod edges;

use control::Controls;
use refusal::Refusal;
use std::alloc::{AllocError, Global};
use std::io;
use std::io::Write;
use std::process::ExitCode;

// ---- small sheets

// The kinds of records that stand in them, by their numbers in a sheet.
#[derive(Clone, Copy)]
enum Kind {
    Sine = 1,
    Mix = 11,
    Mul = 12,
    Chain = 13,
    Gain = 21,
    Delay = 29,
    Reverb = 30,
    Chorus = 34,
    Const = 41,
    Arp = 44,
    Rand = 46,
    Step = 52,
}

// A record: its kind, the record that opens its chain and the one after it in the chain it stands in (0 for none), and the numbers that
// it has. What is not named here is zero in all of them.
#[derive(Clone, Copy)]
struct Record {
    kind: Kind,
    first: u16,
    next: u16,
    numbers: [f32; 3],
}

impl Record {
    fn new(kind: Kind, first: u16, next: u16) -> Record {
        Record {
            kind,
            first,
            next,
            numbers: [0.0; 3],
        }
    }

    fn with(self, numbers: [f32; 3]) -> Record {
        Record { numbers, ..self }
    }

    fn write(self, sheet: &mut Vec<u8>) -> Result<(), AllocError> {
        sheet.extend_from_slice(&[self.kind as u8, 0])?;
        sheet.extend_from_slice(&self.first.to_le_bytes())?;
        sheet.extend_from_slice(&self.next.to_le_bytes())?;
        sheet.extend_from_slice(&[0; 2])?;
        for number in self.numbers {
            sheet.extend_from_slice(&float::to_bits(number).to_le_bytes())?;
        }
        sheet.extend_from_slice(&[0; 20])
    }
}

// More records than a count can say would make a sheet that is refused by its length.
fn sheet_of(rate: u32, records: &[Record], alloc: Global) -> Result<Vec<u8>, AllocError> {
    let count = u16::try_from(records.len()).unwrap_or(0);
    let mut sheet = Vec::new(alloc);
    sheet.extend_from_slice(&count.to_le_bytes())?;
    sheet.extend_from_slice(&[0; 2])?;
    sheet.extend_from_slice(&rate.to_le_bytes())?;
    sheet.extend_from_slice(&[0; 16])?;
    for record in records {
        (*record).write(&mut sheet)?;
    }
    Ok(sheet)
}

// ---- what a voice is lent

// `offsets::Needs` is what a sheet needs, and this what is lent, which may be less.
#[derive(Clone, Copy)]
struct Room {
    cells: usize,
    registers: usize,
    scratch: usize,
}

// What a voice is lent. `voice_vectors` and `render_voice` have the like; a crate for all would be longer than they are.
#[derive(Drop)]
struct Lent {
    out: Vec<f32>,
    cells: Vec<f32>,
    registers: Vec<u64>,
    scratch: Vec<f32>,
}

impl Lent {
    // No number of it is 0, so that one that is cleared shows. Each place is below any line's length here, and each phase below 1.
    fn new(room: Room, samples: usize, alloc: Global) -> Result<Lent, AllocError> {
        Ok(Lent {
            out: vec![in alloc; 0.75f32; samples]?,
            cells: vec![in alloc; 0.75f32; room.cells]?,
            registers: vec![in alloc; 3u64; room.registers]?,
            scratch: vec![in alloc; 0.75f32; room.scratch]?,
        })
    }
}

// ---- the cases

// More than any of their sheets needs.
const ROOM: Room = Room {
    cells: 8,
    registers: 8,
    scratch: 1024,
};

// The sample that a new voice makes at the position.
fn sample_at(sheet: &[u8], position: u64, lent: &mut Lent) -> Result<f32, Refusal> {
    let cells = lent.cells.as_mut_slice();
    let registers = lent.registers.as_mut_slice();
    let scratch = lent.scratch.as_mut_slice();
    let built = player::build(sheet, Controls::fresh(), cells, registers, scratch)?;
    let c = Controls { position, ..built };
    let mut out = [0.75];
    player::fill(sheet, c, &mut out, cells, registers, scratch)?;
    Ok(out[0])
}

// A sheet at 8,000 Hz, the position of the sample that is looked at, and what it must be.
#[derive(Clone, Copy)]
struct Case<'a> {
    name: &'a str,
    records: &'a [Record],
    position: u64,
    expected: f32,
}

impl<'a> Case<'a> {
    // Prints what the sample is, floats by their bits, and says whether it is right.
    fn run(self, output: &mut impl Write, alloc: Global) -> io::Result<bool> {
        let name = self.name;
        let sheet = sheet_of(8000, self.records, alloc)?;
        let mut lent = Lent::new(ROOM, 0, alloc)?;
        match sample_at(sheet.as_slice(), self.position, &mut lent) {
            Ok(x) => {
                writeln!(output, "{name}: {}", float::to_bits(x))?;
                Ok(float::to_bits(x) == float::to_bits(self.expected))
            }
            Err(refusal) => {
                writeln!(output, "{name}: refused {}", refusal.number())?;
                Ok(false)
            }
        }
    }
}

fn run_all(output: &mut impl Write, cases: &[Case<'_>], alloc: Global) -> io::Result<bool> {
    let mut right = true;
    for case in cases {
        right &= (*case).run(output, alloc)?;
    }
    Ok(right)
}

// A Mul of none, which is 1, at the Arp's gain: so the samples are the Arp's.
fn arps(output: &mut impl Write, alloc: Global) -> io::Result<bool> {
    let rate = [2.0, 0.0, 0.0];
    let without_steps = [
        Record::new(Kind::Chain, 1, 0),
        Record::new(Kind::Mul, 0, 2),
        Record::new(Kind::Gain, 3, 0),
        Record::new(Kind::Arp, 0, 0).with(rate),
    ];
    let of_two = [
        Record::new(Kind::Chain, 1, 0),
        Record::new(Kind::Mul, 0, 2),
        Record::new(Kind::Gain, 3, 0),
        Record::new(Kind::Arp, 4, 0).with(rate),
        Record::new(Kind::Step, 0, 5).with([0.5, 0.0, 0.0]),
        Record::new(Kind::Step, 0, 0).with([0.25, 0.0, 0.0]),
    ];
    let cases = [
        Case {
            name: "Arp without steps",
            records: &without_steps,
            position: 6000,
            expected: 0.0,
        },
        Case {
            name: "Arp of 0.5 and 0.25, second step",
            records: &of_two,
            position: 6000,
            expected: 0.25,
        },
    ];
    run_all(output, &cases, alloc)
}

// A Mix or a Mul of two Chains that play 0.5 and 0.25.
fn fold_of_two(fold: Kind) -> [Record; 9] {
    [
        Record::new(fold, 1, 0),
        Record::new(Kind::Chain, 2, 5),
        Record::new(Kind::Mul, 0, 3),
        Record::new(Kind::Gain, 4, 0),
        Record::new(Kind::Const, 0, 0).with([0.5, 0.0, 0.0]),
        Record::new(Kind::Chain, 6, 0),
        Record::new(Kind::Mul, 0, 7),
        Record::new(Kind::Gain, 8, 0),
        Record::new(Kind::Const, 0, 0).with([0.25, 0.0, 0.0]),
    ]
}

fn folds(output: &mut impl Write, alloc: Global) -> io::Result<bool> {
    let cases = [
        Case {
            name: "Mix of none",
            records: &[Record::new(Kind::Mix, 0, 0)],
            position: 0,
            expected: 0.0,
        },
        Case {
            name: "Mix of 0.5 and 0.25",
            records: &fold_of_two(Kind::Mix),
            position: 0,
            expected: 0.75,
        },
        Case {
            name: "Mul of none",
            records: &[Record::new(Kind::Mul, 0, 0)],
            position: 0,
            expected: 1.0,
        },
        Case {
            name: "Mul of 0.5 and 0.25",
            records: &fold_of_two(Kind::Mul),
            position: 0,
            expected: 0.125,
        },
    ];
    run_all(output, &cases, alloc)
}

// Fills longer than any memory: what the player asks before one is asked here by itself.
fn long_fills(output: &mut impl Write) -> io::Result<bool> {
    let at_0 = control::positions_left(0, 1 << 62);
    let at_1 = control::positions_left(1, u64::MAX);
    writeln!(output, "Position 0 has 2^62 left: {at_0}")?;
    writeln!(output, "Position 1 has 2^64 - 1 left: {at_1}")?;
    Ok(at_0 & !at_1)
}

fn main(rt: HostRuntime) -> io::Result<ExitCode> {
    let mut output = rt.stdout();
    let alloc = rt.alloc();
    let right = [
        arps(&mut output, alloc)?,
        folds(&mut output, alloc)?,
        long_fills(&mut output)?,
        edges::run(&mut output, alloc)?,
    ];
    if right.iter().all(|r| *r) {
        Ok(ExitCode::SUCCESS)
    } else {
        Ok(ExitCode::FAILURE)
    }
}
