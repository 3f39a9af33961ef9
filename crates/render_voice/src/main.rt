// Renders the sheet on standard input to a WAVE file on standard output. The argument says how many whole seconds, 4 without one.
// A refusal is said on standard error and leaves standard output empty, and the exit status stays 0.
// A read or a write that fails ends the program with its error, and with the status 1.
#![tactic(auto)]

ghost use Rattle.std.specs.Prelude.{◌≡◌, ◌++◌, ◌*◌, ◌-◌, ◌≤◌, ◌<◌, IfSome, IfNone, IfOk, unwrap_or, true, false, length, drop};
ghost use Rattle.refusal.specs.Refusal.{answer_of};
ghost use Rattle.sheet.specs.Checks.{check_of};
ghost use Rattle.calls.specs.Calls.{controls_of, Fills};
ghost use Rattle.wav.specs.Wav.{bytes_of};
ghost use Rattle.render_voice.specs.Seconds.{is_digit, seconds_of, samples_of};

use control::Controls;
use offsets::Needs;
use refusal::Refusal;
use std::alloc::{AllocError, Global};
use std::env::{Env, FillError};
use std::io::{Read, Write};
use std::{fmt, io};

// The samples of one write.
const BLOCK: usize = 4096;

// What ends a rendering early, for `?` to make of either error: `Result` tells a value from an error, and no error from another.
#[derive(Drop)]
enum Stop {
    Refused(Refusal),
    Failed(io::Error),
}

impl From<Refusal> for Stop {
    fn from(refusal: Refusal) -> Stop {
        Stop::Refused(refusal)
    }
}

impl From<io::Error> for Stop {
    fn from(error: io::Error) -> Stop {
        Stop::Failed(error)
    }
}

// ---- the memory

// How much memory of each kind.
#[derive(Clone, Copy)]
struct Room(Needs);

impl fmt::Display for Room {
    fn fmt<W: fmt::Write>(&self, f: &mut fmt::Formatter<W>) -> fmt::Result {
        let n = self.0;
        write!(
            f,
            "{} cells, {} registers and {} scratch",
            n.cells, n.registers, n.scratch
        )
    }
}

// What is lent: the most registers and scratch that 256 records can need, and cells for 21 seconds of delay at 48,000 Hz.
const LENT: Needs = Needs {
    cells: 1048576,
    registers: 2560,
    scratch: 65536,
};

// What a voice is lent, and a block of its samples with their bytes.
#[derive(Drop)]
struct Memory {
    cells: Vec<f32>,
    registers: Vec<u64>,
    scratch: Vec<f32>,
    out: Vec<f32>,
    bytes: Vec<u8>,
}

impl Memory {
    fn new(alloc: Global) -> Result<Memory, AllocError>
        ensures { IfOk result (λ m. (length m.out.items ≡ 4096) × (length m.bytes.items ≡ 8192)) }
    {
        Ok(Memory {
            cells: vec![in alloc; 0.0f32; LENT.cells as usize]?,
            registers: vec![in alloc; 0u64; LENT.registers as usize]?,
            scratch: vec![in alloc; 0.0f32; LENT.scratch as usize]?,
            out: vec![in alloc; 0.0f32; BLOCK]?,
            bytes: vec![in alloc; 0u8; 2 * BLOCK]?,
        })
    }
}

// ---- what is said on standard error

// A refusal, and where the memory is too little how much is needed.
#[derive(Clone, Copy)]
struct Refused {
    refusal: Refusal,
    needed: Option<Needs>,
}

impl Refused {
    fn new(sheet: &[u8], refusal: Refusal) -> Refused {
        let needed = match refusal {
            Refusal::Memory => player::needs(sheet).ok(),
            _ => None,
        };
        Refused { refusal, needed }
    }
}

impl fmt::Display for Refused {
    fn fmt<W: fmt::Write>(&self, f: &mut fmt::Formatter<W>) -> fmt::Result {
        write!(f, "refused {}: ", self.refusal.number())?;
        match self.needed {
            Some(needed) => write!(
                f,
                "the voice needs {}; the program lends {}",
                Room(needed),
                Room(LENT)
            ),
            None => write!(f, "{}", self.refusal),
        }
    }
}

// ---- the argument

fn digit(b: u8) -> Option<u32>
    ensures some { IfSome result (λ d. (is_digit b ≡ true) × (d ≡ b - 48) × (d ≤ 9)) }
    ensures none { IfNone result (is_digit b ≡ false) }
{
    char::from(b).to_digit(10)
}

// The number that the text is, from 1 to 3,600. A digit has one byte, and an argument comes as bytes.
fn seconds(text: &[u8]) -> Option<u32>
    ensures value { unwrap_or result 0 ≡ seconds_of text.now }
    ensures within { IfSome result (λ n. (0 < n) × (n ≤ 3600)) }
{
    let mut n: u32 = 0;
    for b in text {
        n = 10 * n + digit(*b)?;
        if n > 3600 {
            return None;
        }
    }
    if n == 0 { None } else { Some(n) }
}

// 4 without an argument; none where there are two, or where the one is no number from 1 to 3,600 or has more than 16 bytes. An argument is read into a
// buffer, which no number of seconds fills.
fn asked(env: &impl Env) -> Option<u32>
    ensures { IfSome result (λ n. n ≤ 3600) }
{
    let mut text = [0u8; 16];
    let Err(FillError::NotPresent) = env.arg(2, &mut text) else {
        return None;
    };
    match env.arg(1, &mut text) {
        Ok(k) => seconds(&text[..k]),
        Err(FillError::NotPresent) => Some(4),
        Err(FillError::TooLong) => None,
    }
}

// ---- the sound

fn count(sheet: &[u8], seconds: u32) -> u32
    requires { (check_of sheet.now ≡ 0) × (seconds ≤ 3600) }
    ensures { (result ≡ samples_of sheet.now seconds) × (result ≤ 691200000) }
{
    sheet::rate(sheet) * seconds
}

// As many samples as out has, and their bytes. The two are slices, since `encode` writes the bytes of the one into the other.
fn next_block(
    sheet: &[u8],
    c: Controls,
    out: &mut [f32],
    bytes: &mut [u8],
    cells: &mut [f32],
    regs: &mut [u64],
    scr: &mut [f32],
) -> Result<Controls, Refusal>
    requires { 2 * length out.old ≤ length bytes.old }
    ensures fills { Fills sheet.now c out.old cells.old regs.old scr.old (answer_of result) (controls_of c result) out.new cells.new regs.new scr.new }
    ensures bytes_after { bytes.new ≡ bytes_of out.new ++ drop (2 * length out.new) bytes.old }
{
    let filled = player::fill(sheet, c, out, cells, regs, scr);
    wav::encode(out, bytes);
    filled
}

// Block after block, until all is written or a write fails.
fn play(
    output: &mut impl Write,
    sheet: &[u8],
    c: Controls,
    samples: usize,
    memory: &mut Memory,
) -> Result<(), Stop>
    requires { (length memory.old.out.items ≡ 4096) × (length memory.old.bytes.items ≡ 8192) }
{
    let out = memory.out.as_mut_slice();
    let bytes = memory.bytes.as_mut_slice();
    let cells = memory.cells.as_mut_slice();
    let registers = memory.registers.as_mut_slice();
    let scratch = memory.scratch.as_mut_slice();
    let mut controls = c;
    for start in (0..samples).step_by(BLOCK) {
        let n = samples.saturating_sub(start).min(BLOCK);
        controls = next_block(
            sheet,
            controls,
            &mut out[..n],
            bytes,
            cells,
            registers,
            scratch,
        )?;
        output.write_all(&bytes[..2 * n])?;
    }
    Ok(())
}

fn render(
    output: &mut impl Write,
    sheet: &[u8],
    seconds: u32,
    memory: &mut Memory,
) -> Result<(), Stop>
    requires bound { seconds ≤ 3600 }
    requires room { (length memory.old.out.items ≡ 4096) × (length memory.old.bytes.items ≡ 8192) }
{
    let c = player::build(
        sheet,
        Controls::fresh(),
        memory.cells.as_mut_slice(),
        memory.registers.as_mut_slice(),
        memory.scratch.as_mut_slice(),
    )?;
    let samples = count(sheet, seconds);
    output.write_all(&wav::header(sheet::rate(sheet), samples))?;
    play(output, sheet, c, samples as usize, memory)
}

// No sheet has as many bytes as are read, so an input that is too long stays so.
fn main(rt: HostRuntime) -> io::Result<()> {
    let mut errors = rt.stderr();
    let Some(seconds) = asked(&rt) else {
        return writeln!(
            errors,
            "the argument is not a whole number of seconds from 1 to 3600"
        );
    };
    let mut sheet = Vec::new(rt.alloc());
    rt.stdin().take(65536).read_to_end(&mut sheet)?;
    let sheet = sheet.as_slice();
    let mut memory = Memory::new(rt.alloc())?;
    match render(&mut rt.stdout(), sheet, seconds, &mut memory) {
        Err(Stop::Refused(refusal)) => writeln!(errors, "{}", Refused::new(sheet, refusal)),
        Err(Stop::Failed(error)) => Err(error),
        Ok(()) => Ok(()),
    }
}
