// The refusals 8, 9 and 10 of the player, each beside what is just not refused, and that a refusal leaves the controls and all that is lent
// as they were. Floats are compared by their bits, NaNs as one, since no program here can tell their bits.
use super::{Kind, Lent, Record, Room, sheet_of};
use control::Controls;
use performance::Call;
use std::alloc::{AllocError, Global};
use std::io::Write;
use std::{fmt, io};

// ---- the voice

// A sine in a Mix, through a Delay, a Chorus and a Reverb, at the gain of a Rand. At 44,100 Hz the Reverb's lines are as long as Freeverb's
// tunings, the Delay's is an eighth of a second, and the Chorus's the 15 ms that it lies back, with room for two samples.
fn sheet(alloc: Global) -> Result<Vec<u8>, AllocError> {
    let records = [
        Record::new(Kind::Chain, 1, 0),
        Record::new(Kind::Mix, 2, 4),
        Record::new(Kind::Sine, 3, 0),
        Record::new(Kind::Const, 0, 0).with([220.0, 0.0, 0.0]),
        Record::new(Kind::Delay, 0, 5).with([0.125, 0.5, 0.0]),
        Record::new(Kind::Chorus, 0, 6).with([0.5, 0.0, 0.5]),
        Record::new(Kind::Reverb, 0, 7).with([0.5, 0.25, 0.0]),
        Record::new(Kind::Gain, 8, 0),
        Record::new(Kind::Rand, 0, 0).with([0.25, 0.75, 5.0]),
    ];
    sheet_of(44100, &records, alloc)
}

const DELAY: u64 = 5512;

const CHORUS: u64 = 663;

const REVERB: [u64; 10] = [1116, 1188, 1277, 1356, 1422, 1491, 556, 441, 341, 225];

// The Sine's phase, the lines, which are 9,413 for the Reverb with a store for each of its six combs, and the three of the Rand; a place for
// each line and the Rand's generator; a block for the Mix.
const NEEDED: Room = Room {
    cells: 1 + 5512 + 663 + 9413 + 6 + 3,
    registers: 1 + 1 + 10 + 1,
    scratch: 256,
};

// The last of the cells.
const PHASE: usize = 15597;

// ---- a call

// What came of a call, and the answer that it must get. Both are numbers, as document 01 has them and a list of calls answers: an enum would
// bring the port's own numbering of the reasons, which is among what is looked at.
#[derive(Clone, Copy)]
struct Seen {
    expected: u8,
    answer: u8,
    kept: bool,
}

impl Seen {
    fn is_right(self) -> bool {
        self.answer == self.expected && (self.answer == 0 || self.kept)
    }
}

impl fmt::Display for Seen {
    fn fmt<W: fmt::Write>(&self, f: &mut fmt::Formatter<W>) -> fmt::Result {
        write!(f, "{}", self.answer)?;
        if self.answer != self.expected {
            write!(f, " (must be {})", self.expected)?;
        }
        if self.answer != 0 && !self.kept {
            write!(f, " (not all as it was)")?;
        }
        Ok(())
    }
}

// Prints a line of what was seen, and says whether all of it is right.
fn say(output: &mut impl Write, name: &str, all: &[Seen]) -> io::Result<bool> {
    write!(output, "{name}:")?;
    for seen in all {
        write!(output, " {seen}")?;
    }
    writeln!(output)?;
    Ok(all.iter().all(|seen| (*seen).is_right()))
}

fn same_floats(xs: &[f32], ys: &[f32]) -> bool {
    xs.len() == ys.len() && xs.iter().zip(ys).all(|(x, y)| float::same(*x, *y))
}

fn same_controls(c: Controls, d: Controls) -> bool {
    c.position == d.position
        && float::same(c.pitch, d.pitch)
        && float::same(c.target, d.target)
        && float::same(c.glide, d.glide)
        && float::same(c.bend, d.bend)
}

impl Lent {
    fn copied(&self, alloc: Global) -> Result<Lent, AllocError> {
        Ok(Lent {
            out: self.out.as_slice().to_vec(alloc)?,
            cells: self.cells.as_slice().to_vec(alloc)?,
            registers: self.registers.as_slice().to_vec(alloc)?,
            scratch: self.scratch.as_slice().to_vec(alloc)?,
        })
    }

    fn is_same(&self, other: &Lent) -> bool {
        same_floats(self.out.as_slice(), other.out.as_slice())
            && same_floats(self.cells.as_slice(), other.cells.as_slice())
            && self.registers.as_slice() == other.registers.as_slice()
            && same_floats(self.scratch.as_slice(), other.scratch.as_slice())
    }
}

// Controls whose numbers all differ, with a zero that has a sign.
fn controls_at(position: u64) -> Controls {
    Controls {
        position,
        pitch: 1.25,
        target: 2.5,
        glide: 0.5,
        bend: -0.0,
    }
}

// A build hands back no controls where it is refused: its caller's stay.
fn build(sheet: &[u8], expected: u8, lent: &mut Lent, alloc: Global) -> Result<Seen, AllocError> {
    let before = lent.copied(alloc)?;
    let built = player::build(
        sheet,
        controls_at(7),
        lent.cells.as_mut_slice(),
        lent.registers.as_mut_slice(),
        lent.scratch.as_mut_slice(),
    );
    Ok(Seen {
        expected,
        answer: refusal::answer(built),
        kept: lent.is_same(&before),
    })
}

// A list of the one call, since it says which controls a call leaves that is refused. A fill has all of out.
fn call_once(
    sheet: &[u8],
    call: Call,
    c: Controls,
    expected: u8,
    lent: &mut Lent,
    alloc: Global,
) -> Result<Seen, AllocError> {
    let before = lent.copied(alloc)?;
    let mut answers = [0];
    let left = performance::play(
        sheet,
        &[call],
        c,
        &mut answers,
        lent.out.as_mut_slice(),
        lent.cells.as_mut_slice(),
        lent.registers.as_mut_slice(),
        lent.scratch.as_mut_slice(),
    );
    Ok(Seen {
        expected,
        answer: answers[0],
        kept: left.is_some_and(|d| same_controls(c, d)) && lent.is_same(&before),
    })
}

// ---- check 8; here and below the output, the sheet and the allocator are handed on beside each other, since a struct of them would be opened in
// each function

// Each call that makes it, on so much memory.
fn room(
    output: &mut impl Write,
    name: &str,
    sheet: &[u8],
    room: Room,
    expected: u8,
    alloc: Global,
) -> io::Result<bool> {
    let mut lent = Lent::new(room, 4, alloc)?;
    let c = controls_at(0);
    let all = [
        build(sheet, expected, &mut lent, alloc)?,
        call_once(sheet, Call::Cutoff(0.5), c, expected, &mut lent, alloc)?,
        call_once(sheet, Call::Fill(4), c, expected, &mut lent, alloc)?,
    ];
    say(output, name, &all)
}

fn rooms(output: &mut impl Write, sheet: &[u8], alloc: Global) -> io::Result<bool> {
    let cell_less = Room {
        cells: NEEDED.cells - 1,
        ..NEEDED
    };
    let register_less = Room {
        registers: NEEDED.registers - 1,
        ..NEEDED
    };
    let scratch_less = Room {
        scratch: NEEDED.scratch - 1,
        ..NEEDED
    };
    let tries = [
        ("Build, cutoff and fill on what is needed", NEEDED, 0),
        ("With a cell less", cell_less, 8),
        ("With a register less", register_less, 8),
        ("With one less of scratch", scratch_less, 8),
    ];
    let mut right = true;
    for (name, lent, expected) in tries {
        right &= room(output, name, sheet, lent, expected, alloc)?;
    }
    Ok(right)
}

// ---- checks 9 and 10

// What is set in the memory of a voice before its fill. It is none that was built: where the places and the phase are in range, any numbers
// are a voice's.
#[derive(Clone, Copy)]
enum Set {
    Nothing,
    Register(usize, u64),
    Cell(usize, f32),
}

impl Set {
    fn apply(self, lent: &mut Lent) {
        match self {
            Set::Nothing => {}
            Set::Register(i, place) => {
                if let Some(register) = lent.registers.get_mut(i) {
                    *register = place;
                }
            }
            Set::Cell(i, x) => {
                if let Some(cell) = lent.cells.get_mut(i) {
                    *cell = x;
                }
            }
        }
    }
}

// A fill of so many samples from the position on. A NaN and a zero with a sign stand in the Delay's line, which a copy by value might lose.
fn fill(
    sheet: &[u8],
    set: Set,
    position: u64,
    samples: usize,
    expected: u8,
    alloc: Global,
) -> Result<Seen, AllocError> {
    let mut lent = Lent::new(NEEDED, samples, alloc)?;
    Set::Cell(1, float::from_bits(0x7fc0_0000)).apply(&mut lent);
    Set::Cell(2, -0.0).apply(&mut lent);
    set.apply(&mut lent);
    let c = controls_at(position);
    call_once(sheet, Call::Fill(samples), c, expected, &mut lent, alloc)
}

// The place of a line one below its length, and at it.
fn place(
    sheet: &[u8],
    register: usize,
    length: u64,
    alloc: Global,
) -> Result<[Seen; 2], AllocError> {
    let below = Set::Register(register, length.saturating_sub(1));
    let at = Set::Register(register, length);
    Ok([
        fill(sheet, below, 0, 4, 0, alloc)?,
        fill(sheet, at, 0, 4, 9, alloc)?,
    ])
}

fn places(output: &mut impl Write, sheet: &[u8], alloc: Global) -> io::Result<bool> {
    let delay = place(sheet, 0, DELAY, alloc)?;
    let chorus = place(sheet, 1, CHORUS, alloc)?;
    let mut right = say(output, "The Delay's place at 5511 and 5512", &delay)?;
    right &= say(output, "The Chorus's place at 662 and 663", &chorus)?;
    let mut below = Vec::new(alloc);
    let mut at = Vec::new(alloc);
    for (line, length) in REVERB.iter().enumerate() {
        let [b, a] = place(sheet, 2 + line, *length, alloc)?;
        below.push(b)?;
        at.push(a)?;
    }
    right &= say(
        output,
        "Each of the Reverb's places one below its line's length",
        below.as_slice(),
    )?;
    right &= say(output, "Each at its line's length", at.as_slice())?;
    Ok(right)
}

fn phases(output: &mut impl Write, sheet: &[u8], alloc: Global) -> io::Result<bool> {
    let within = [-0.0, 0.0, float::from_bits(0x3f7f_ffff)];
    let without = [
        1.0,
        float::from_bits(0x7fc0_0000),
        float::from_bits(0x8000_0001),
    ];
    let mut all = Vec::new(alloc);
    for x in within {
        all.push(fill(sheet, Set::Cell(PHASE, x), 0, 4, 0, alloc)?)?;
    }
    for x in without {
        all.push(fill(sheet, Set::Cell(PHASE, x), 0, 4, 9, alloc)?)?;
    }
    say(
        output,
        "The Rand's phase at -0, 0, the last below 1, 1, NaN and the last below 0",
        all.as_slice(),
    )
}

// The answers of fills of 0, 1 and 2 samples.
fn position(
    output: &mut impl Write,
    name: &str,
    sheet: &[u8],
    position: u64,
    expected: [u8; 3],
    alloc: Global,
) -> io::Result<bool> {
    let [zero, one, two] = expected;
    let all = [
        fill(sheet, Set::Nothing, position, 0, zero, alloc)?,
        fill(sheet, Set::Nothing, position, 1, one, alloc)?,
        fill(sheet, Set::Nothing, position, 2, two, alloc)?,
    ];
    say(output, name, &all)
}

fn positions(output: &mut impl Write, sheet: &[u8], alloc: Global) -> io::Result<bool> {
    let last = 1u64 << 62;
    let name = "Position 2^62 - 1 with lengths 0, 1 and 2";
    let mut right = position(output, name, sheet, last - 1, [0, 0, 10], alloc)?;
    let name = "Position 2^62 with lengths 0, 1 and 2";
    right &= position(output, name, sheet, last, [0, 10, 10], alloc)?;
    let name = "Position 2^62 + 1 with lengths 0, 1 and 2";
    right &= position(output, name, sheet, last + 1, [9, 9, 9], alloc)?;
    Ok(right)
}

// Where several apply the lowest is answered.
fn lowest(output: &mut impl Write, sheet: &[u8], alloc: Global) -> io::Result<bool> {
    let last = 1u64 << 62;
    let short = Room {
        cells: NEEDED.cells - 1,
        ..NEEDED
    };
    let mut lent = Lent::new(short, 1, alloc)?;
    let c = controls_at(last + 1);
    let all = [
        call_once(sheet, Call::Fill(1), c, 8, &mut lent, alloc)?,
        fill(sheet, Set::Register(0, DELAY), last, 1, 9, alloc)?,
    ];
    say(output, "8 before 9, and 9 before 10", &all)
}

fn needs(output: &mut impl Write, sheet: &[u8]) -> io::Result<bool> {
    let Ok(needed) = player::needs(sheet) else {
        writeln!(output, "The voice is refused")?;
        return Ok(false);
    };
    writeln!(
        output,
        "The voice needs {} cells, {} registers and {} scratch",
        needed.cells, needed.registers, needed.scratch
    )?;
    Ok(
        needed.cells == NEEDED.cells as u64
            && needed.registers == NEEDED.registers as u64
            && needed.scratch == NEEDED.scratch as u64,
    )
}

// Prints a line for each group, and says whether all answers are right.
pub(crate) fn run(output: &mut impl Write, alloc: Global) -> io::Result<bool> {
    let bytes = sheet(alloc)?;
    let sheet = bytes.as_slice();
    let right = [
        needs(output, sheet)?,
        rooms(output, sheet, alloc)?,
        places(output, sheet, alloc)?,
        phases(output, sheet, alloc)?,
        positions(output, sheet, alloc)?,
        lowest(output, sheet, alloc)?,
    ];
    Ok(right.iter().all(|r| *r))
}
