// Plays the voices of standard input, a sample of those that compare/voices compared with the Rust original, and compares the hashes of their samples
// and of what they leave. A case has 32 bytes: how many bytes its sheet has and how many calls follow, the position that the voice starts at, the hash
// of its samples and the hash of what it leaves (0: not compared). Then the sheet, and 16 bytes for each call. All numbers have the lowest byte first.
#![tactic(auto)]

ghost use Rattle.std.specs.Prelude.{◌≡◌, ◌≤◌, take};
ghost use Rattle.hash.specs.Hash.{basis, hashed, bits_of};

use console::{next_bytes, read_full};
use control::Controls;
use performance::Call;
use refusal::Refusal;
use std::alloc::{AllocError, Global};
use std::io::{BufRead, BufReader, Read, Write};
use std::{fmt, io};

// The most bytes that a sheet has.
const LONGEST: usize = 10264;

// The most calls that a case has.
const MOST_CALLS: usize = 64;

// ---- what is compared

// A hash, and what it must be.
#[derive(Clone, Copy)]
struct Hashes {
    got: u64,
    expected: u64,
}

impl Hashes {
    fn differ(self) -> bool {
        self.got != self.expected
    }
}

impl fmt::Display for Hashes {
    fn fmt<W: fmt::Write>(&self, f: &mut fmt::Formatter<W>) -> fmt::Result {
        write!(f, "is {:016x} and must be {:016x}", self.got, self.expected)
    }
}

#[derive(Clone, Copy)]
enum Difference {
    NotPlayed,
    Samples(Hashes),
    State(Hashes),
}

impl fmt::Display for Difference {
    fn fmt<W: fmt::Write>(&self, f: &mut fmt::Formatter<W>) -> fmt::Result {
        match self {
            Difference::NotPlayed => write!(f, "it is not played"),
            Difference::Samples(h) => write!(f, "the hash of its samples {h}"),
            Difference::State(h) => write!(f, "the hash of its state {h}"),
        }
    }
}

// How many samples a voice made, their hash, and where the file has one the hash of what it left.
#[derive(Clone, Copy)]
struct Played {
    samples: u64,
    sound: Hashes,
    state: Option<Hashes>,
}

impl Played {
    fn difference(self) -> Option<Difference> {
        if self.sound.differ() {
            return Some(Difference::Samples(self.sound));
        }
        self.state
            .filter(|h| h.differ())
            .map(|h| Difference::State(h))
    }
}

// ---- reading a case

// What stands before a case: how many bytes and calls it has, where it starts, and the hashes.
#[derive(Clone, Copy)]
struct Head {
    sheet: usize,
    calls: usize,
    position: u64,
    sound: u64,
    state: Option<u64>,
}

// The calls of a case, and the sum of the lengths that stand beside them in the file: a move has one too.
#[derive(Drop)]
struct Script {
    calls: Vec<Call>,
    length: u64,
}

// A voice that is to be played.
#[derive(Drop)]
struct Case {
    head: Head,
    sheet: Vec<u8>,
    script: Script,
}

// What comes next in the input. After a case that is cut short, or whose sheet or calls are more than any has, it is not known where the next one starts.
#[derive(Drop)]
enum Next {
    Case(Case),
    Cut,
    End,
}

fn head_of(bytes: &[u8]) -> Option<Head> {
    let (sheet, rest) = bytes.split_first_chunk()?;
    let (calls, rest) = rest.split_first_chunk()?;
    let (position, rest) = rest.split_first_chunk()?;
    let (sound, rest) = rest.split_first_chunk()?;
    let state = u64::from_le_bytes(*rest.first_chunk()?);
    Some(Head {
        sheet: u32::from_le_bytes(*sheet) as usize,
        calls: u32::from_le_bytes(*calls) as usize,
        position: u64::from_le_bytes(*position),
        sound: u64::from_le_bytes(*sound),
        state: (state != 0).then_some(state),
    })
}

// The kind, which is the file's number and is read here only, three bytes of no use, the two floats and the length.
fn call_of(bytes: &[u8]) -> Option<(Call, u32)> {
    let (kind, rest) = bytes.split_first_chunk::<4>()?;
    let (x, rest) = rest.split_first_chunk()?;
    let (y, length) = rest.split_first_chunk()?;
    let x = float::from_bits(u32::from_le_bytes(*x));
    let length = u32::from_le_bytes(*length.first_chunk()?);
    let call = match kind[0] {
        0 => Call::Fill(length as usize),
        1 => Call::Pitch {
            scale: x,
            coefficient: float::from_bits(u32::from_le_bytes(*y)),
        },
        2 => Call::Bend(x),
        _ => Call::Cutoff(x),
    };
    Some((call, length))
}

// The next calls, or `None` where not all come whole.
fn next_calls(input: &mut impl Read, count: usize, alloc: Global) -> io::Result<Option<Script>> {
    let mut calls = Vec::new(alloc);
    let mut total: u64 = 0;
    for _ in 0..count {
        let Some((call, length)) = next_bytes::<_, 16>(input)?.and_then(|b| call_of(&b)) else {
            return Ok(None);
        };
        calls.push(call)?;
        total = total.saturating_add(u64::from(length));
    }
    Ok(Some(Script {
        calls,
        length: total,
    }))
}

fn next_case(input: &mut impl BufRead, alloc: Global) -> io::Result<Next> {
    if input.fill_buf()?.is_empty() {
        return Ok(Next::End);
    }
    let Some(head) = next_bytes::<_, 32>(input)?.and_then(|b| head_of(&b)) else {
        return Ok(Next::Cut);
    };
    if LONGEST < head.sheet || MOST_CALLS < head.calls {
        return Ok(Next::Cut);
    }
    let mut sheet = vec![in alloc; 0u8; head.sheet]?;
    if read_full(input, sheet.as_mut_slice())? < head.sheet {
        return Ok(Next::Cut);
    }
    let Some(script) = next_calls(input, head.calls, alloc)? else {
        return Ok(Next::Cut);
    };
    Ok(Next::Case(Case {
        head,
        sheet,
        script,
    }))
}

// ---- one case

// What every voice is lent. A rendering's has these four and its bytes; a crate for both would be longer than they are.
#[derive(Drop)]
struct Memory {
    out: Vec<f32>,
    cells: Vec<f32>,
    registers: Vec<u64>,
    scratch: Vec<f32>,
}

impl Memory {
    fn new(alloc: Global) -> Result<Memory, AllocError> {
        Ok(Memory {
            out: vec![in alloc; 0.0f32; 16384]?,
            cells: vec![in alloc; 0.0f32; 65536]?,
            registers: vec![in alloc; 0u64; 1024]?,
            scratch: vec![in alloc; 0.0f32; 16384]?,
        })
    }

    // The needs of a sheet that was built are at most what is lent, so that `least` takes all of them.
    fn state_hash(&self, sheet: &[u8], c: Controls) -> Result<u64, Refusal> {
        let needed = player::needs(sheet)?;
        let cells = self.cells.as_slice();
        let registers = self.registers.as_slice();
        let scratch = self.scratch.as_slice();
        Ok(hash::hash_state(
            c,
            &cells[..least(needed.cells, cells.len())],
            &registers[..least(needed.registers, registers.len())],
            &scratch[..least(needed.scratch, scratch.len())],
        ))
    }
}

fn least(n: u64, most: usize) -> usize
    ensures { result ≤ most }
{
    n.min(most as u64) as usize
}

// The samples of the fills that have room.
fn filled(calls: &[Call], room: usize) -> usize
    ensures { result ≤ room }
{
    let mut left = room;
    for call in calls {
        let n = (*call).length();
        if n <= left {
            left -= n;
        }
    }
    room - left
}

// How many samples the fills made, and their hash.
#[derive(Clone, Copy)]
struct Sound {
    samples: u64,
    hash: u64,
}

// The samples of accepted calls stand in out, one after another.
fn sound_of(calls: &[Call], out: &[f32]) -> Sound
    ensures { result.hash ≡ hashed bits_of basis (take result.samples out.now) }
{
    let m = filled(calls, out.len());
    Sound {
        samples: m as u64,
        hash: hash::hash_floats(hash::BASIS, &out[..m]),
    }
}

impl Case {
    // Builds the voice at its position, and makes its calls, of which each must be accepted. `None` where one is not, or where their lengths are more than
    // there is room for. The answers are the machine's numbers, as `performance::play` writes them; here each is only compared with 0.
    fn play(&self, answers: &mut [u8], memory: &mut Memory) -> Result<Option<Played>, Refusal> {
        let sheet = self.sheet.as_slice();
        let calls = self.script.calls.as_slice();
        let out = memory.out.as_mut_slice();
        let cells = memory.cells.as_mut_slice();
        let registers = memory.registers.as_mut_slice();
        let scratch = memory.scratch.as_mut_slice();
        let built = player::build(sheet, Controls::fresh(), cells, registers, scratch)?;
        if (out.len() as u64) < self.script.length {
            return Ok(None);
        }
        let c = Controls {
            position: self.head.position,
            ..built
        };
        let Some(last) = performance::play(sheet, calls, c, answers, out, cells, registers, scratch)
        else {
            return Ok(None);
        };
        if answers.iter().any(|answer| *answer != 0) {
            return Ok(None);
        }
        let sound = sound_of(calls, out);
        let left = memory.state_hash(sheet, last)?;
        Ok(Some(Played {
            samples: sound.samples,
            sound: Hashes {
                got: sound.hash,
                expected: self.head.sound,
            },
            state: self.head.state.map(|expected| Hashes {
                got: left,
                expected,
            }),
        }))
    }
}

// ---- all cases

// The cases so far, and the first of those that differ.
#[derive(Clone, Copy)]
struct Run {
    cases: u64,
    samples: u64,
    states: u64,
    differences: u64,
    first: Option<(u64, Difference)>,
}

impl Run {
    // One more case, which was played or not.
    fn count(&mut self, played: Option<Played>) {
        let difference = played.map_or(Some(Difference::NotPlayed), |p| p.difference());
        if let Some(difference) = difference {
            self.differences = self.differences.wrapping_add(1);
            if self.first.is_none() {
                self.first = Some((self.cases, difference));
            }
        }
        self.cases = self.cases.wrapping_add(1);
        if let Some(p) = played {
            self.samples = self.samples.wrapping_add(p.samples);
            self.states = self.states.wrapping_add(u64::from(p.state.is_some()));
        }
    }
}

impl fmt::Display for Run {
    fn fmt<W: fmt::Write>(&self, f: &mut fmt::Formatter<W>) -> fmt::Result {
        writeln!(f, "cases {}", self.cases)?;
        writeln!(f, "samples {}", self.samples)?;
        writeln!(f, "states {}", self.states)?;
        writeln!(f, "differences {}", self.differences)?;
        if let Some((at, difference)) = self.first {
            writeln!(f, "the first at case {at}")?;
            writeln!(f, "{difference}")?;
        }
        Ok(())
    }
}

// The turns are more than any input has, so that the loop ends.
fn run_all(input: &mut impl BufRead, alloc: Global) -> io::Result<Run> {
    let mut memory = Memory::new(alloc)?;
    let mut run = Run {
        cases: 0,
        samples: 0,
        states: 0,
        differences: 0,
        first: None,
    };
    for _ in 0..u64::MAX {
        match next_case(input, alloc)? {
            Next::Case(case) => {
                let mut answers = vec![in alloc; 0u8; case.script.calls.len()]?;
                let played = case.play(answers.as_mut_slice(), &mut memory);
                run.count(played.unwrap_or(None));
            }
            Next::Cut => {
                run.count(None);
                return Ok(run);
            }
            Next::End => return Ok(run),
        }
    }
    Ok(run)
}

fn main(rt: HostRuntime) -> io::Result<()> {
    let mut input = BufReader::new(rt.alloc(), rt.stdin())?;
    let run = run_all(&mut input, rt.alloc())?;
    write!(rt.stdout(), "{run}")
}
