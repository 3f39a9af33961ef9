// A performance: a list of calls, made one after another with the player's own calls on the same sheet, controls and lent memory.
// This crate has no heap, so the answers are a slice that the caller lends beside the calls, one for each. The lent memory is slices of its own, and
// no struct: behind a `&mut` to a struct a slice may be replaced, so each contract would have to say that it was not.
#![tactic(auto)]

ghost use Rattle.std.specs.Prelude.{◌≡◌, leb, ◌≤◌, length};
ghost use Rattle.tree.specs.Block.{tab};
ghost use Rattle.refusal.specs.Refusal.{answer_of};
ghost use Rattle.sheet.specs.Checks.{sum};
ghost use Rattle.calls.specs.Calls.{controls_of};
ghost use Rattle.performance.specs.List.{machine_call, length_of, Called, took_of, call_at, length_at, fitting, Plays, Performed};

use control::Controls;
use refusal::Refusal;

// A call: a fill of so many samples, or a move.
#[derive(Clone, Copy, Debug)]
pub enum Call {
    Fill(usize),
    Pitch { scale: f32, coefficient: f32 },
    Bend(f32),
    Cutoff(f32),
}

impl Call {
    // How many samples the call fills where it is accepted.
    pub fn length(self) -> usize
        ensures { result ≡ length_of self }
    {
        match self {
            Call::Fill(n) => n,
            Call::Pitch { .. } | Call::Bend(_) | Call::Cutoff(_) => 0,
        }
    }
}

// One call; a fill has out for its samples.
fn one_call(
    sheet: &[u8],
    call: Call,
    c: Controls,
    out: &mut [f32],
    cells: &mut [f32],
    regs: &mut [u64],
    scr: &mut [f32],
) -> Result<Controls, Refusal>
    requires { length_of call ≡ length out.old }
    ensures { Called sheet.now (machine_call call) c out.old cells.old regs.old scr.old (answer_of result) (controls_of c result) out.new cells.new regs.new scr.new }
{
    match call {
        Call::Fill(_) => player::fill(sheet, c, out, cells, regs, scr),
        Call::Pitch { scale, coefficient } => Ok(player::pitch(c, scale, coefficient)),
        Call::Bend(x) => Ok(player::bend(c, x)),
        Call::Cutoff(x) => {
            player::cutoff(sheet, x, cells, regs, scr)?;
            Ok(c)
        }
    }
}

// How many samples a call of n made.
fn took(outcome: Result<Controls, Refusal>, n: usize) -> usize
    ensures { (result ≡ took_of (answer_of outcome) n) × (result ≤ n) }
{
    match outcome {
        Ok(_) => n,
        Err(_) => 0,
    }
}

// The calls that fit, one after another; the answers are numbers, as `play` tells.
fn perform(
    sheet: &[u8],
    calls: &[Call],
    first: Controls,
    answers: &mut [u8],
    out: &mut [f32],
    cells: &mut [f32],
    regs: &mut [u64],
    scr: &mut [f32],
) -> Controls
    requires { (length calls.now ≡ length answers.old) × (sum (length_at calls.now) (length answers.old) ≤ length out.old) }
    ensures { Plays sheet.now (tab (length calls.now) (call_at calls.now)) first out.old cells.old regs.old scr.old result answers.new out.new cells.new regs.new scr.new }
{
    let mut c = first;
    let mut d: usize = 0;
    for k in 0..answers.len() {
        let call = calls[k];
        let n = call.length();
        let e = d + n;
        let r = one_call(sheet, call, c, &mut out[d..e], cells, regs, scr);
        let a = refusal::answer(r);
        c = r.unwrap_or(c);
        answers[k] = a;
        d += took(r, n);
    }
    c
}

// Whether n is at least the sum of the lengths. What is left of n is counted, so that no sum overflows.
fn lengths_fit(calls: &[Call], n: usize) -> bool
    ensures { result ≡ leb (sum (length_at calls.now) (length calls.now)) n }
{
    let mut left = n;
    for k in 0..calls.len() {
        let x = calls[k].length();
        if left < x {
            return false;
        }
        left -= x;
    }
    true
}

// The controls after the calls. Each answer is written, as the number that the machine of specs/ gives: the contract compares two
// lists, and Options of refusals would be turned into these numbers by each clause. The samples of the accepted fills stand in out, one
// after another. Nothing is written where there are more or fewer answers than calls, or where the fills do not fit in out.
pub fn play(
    sheet: &[u8],
    calls: &[Call],
    first: Controls,
    answers: &mut [u8],
    out: &mut [f32],
    cells: &mut [f32],
    regs: &mut [u64],
    scr: &mut [f32],
) -> Option<Controls>
    ensures { Performed (fitting calls.now (length answers.old) (length out.old)) sheet.now (tab (length calls.now) (call_at calls.now)) first answers.old out.old cells.old regs.old scr.old result answers.new out.new cells.new regs.new scr.new }
{
    if (calls.len() == answers.len()) & lengths_fit(calls, out.len()) {
        return Some(perform(sheet, calls, first, answers, out, cells, regs, scr));
    }
    None
}
