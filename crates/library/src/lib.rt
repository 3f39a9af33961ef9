// The player's calls under C names, for a program in C or Rust to link. A slice is a pointer and a length to the caller.
#![tactic(auto)]

ghost use Rattle.std.specs.Prelude.{◌≡◌, length};
ghost use Rattle.control.specs.Moves.{pitch_moved, bend_moved};
ghost use Rattle.refusal.specs.Refusal.{answer_of};
ghost use Rattle.tables.specs.Answer.{needed_of};
ghost use Rattle.calls.specs.Calls.{controls_of, Fills, Cuts, Builds};

use control::Controls;
use refusal::Refusal;
use tables::Needed;

// A refusal's number, or 0, and the controls after a call.
#[repr(C)]
#[derive(Clone, Copy)]
pub struct Answer {
    pub answer: u8,
    pub controls: Controls,
}

// The answer of a call that began with the controls c: a refusal gives them back as they came.
fn answered(c: Controls, outcome: Result<Controls, Refusal>) -> Answer
    ensures { (result.answer ≡ answer_of outcome) × (result.controls ≡ controls_of c outcome) }
{
    match outcome {
        Ok(controls) => Answer {
            answer: 0,
            controls,
        },
        Err(refusal) => Answer {
            answer: refusal.number(),
            controls: c,
        },
    }
}

#[unsafe(no_mangle)]
pub extern "C" fn player_needs(sheet: &[u8]) -> Needed
    ensures { result ≡ needed_of sheet.now }
{
    Needed::from(player::needs(sheet))
}

#[unsafe(no_mangle)]
pub extern "C" fn player_build(
    sheet: &[u8],
    c: Controls,
    cells: &mut [f32],
    regs: &mut [u64],
    scr: &mut [f32],
) -> Answer
    ensures { Builds sheet.now c cells.old regs.old scr.old result.answer result.controls cells.new regs.new scr.new }
{
    answered(c, player::build(sheet, c, cells, regs, scr))
}

#[unsafe(no_mangle)]
pub extern "C" fn player_fill(
    sheet: &[u8],
    c: Controls,
    out: &mut [f32],
    cells: &mut [f32],
    regs: &mut [u64],
    scr: &mut [f32],
) -> Answer
    ensures { Fills sheet.now c out.old cells.old regs.old scr.old result.answer result.controls out.new cells.new regs.new scr.new }
{
    answered(c, player::fill(sheet, c, out, cells, regs, scr))
}

#[unsafe(no_mangle)]
pub extern "C" fn player_pitch(c: Controls, scale: f32, coefficient: f32) -> Controls
    ensures { result ≡ pitch_moved c scale coefficient }
{
    player::pitch(c, scale, coefficient)
}

#[unsafe(no_mangle)]
pub extern "C" fn player_bend(c: Controls, x: f32) -> Controls
    ensures { result ≡ bend_moved c x }
{
    player::bend(c, x)
}

#[unsafe(no_mangle)]
pub extern "C" fn player_cutoff(
    sheet: &[u8],
    x: f32,
    cells: &mut [f32],
    regs: &[u64],
    scr: &[f32],
) -> u8
    ensures { Cuts sheet.now x cells.old (length regs.now) (length scr.now) result cells.new }
{
    refusal::answer(player::cutoff(sheet, x, cells, regs, scr))
}
