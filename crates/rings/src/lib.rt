// Check 9 of the cells and registers: ring places lie in their lines, and phases of Rand from 0 to 1. What a record owns is a part of the voice's memory, a
// slice, so each contract says how long it is.
#![tactic(auto)]

ghost use Rattle.std.specs.Prelude.{◌≡◌, ◌&&◌, ◌≤◌, ◌<◌, length};
ghost use Rattle.std.specs.Float.Ieee.{lt, le};
ghost use Rattle.float.specs.Single.{zero, one};
ghost use Rattle.lines.specs.Lines.{reverb_lines};
ghost use Rattle.sheet.specs.Record.{rate_of, count_of, kind as kind_at};
ghost use Rattle.sheet.specs.Checks.{all};
ghost use Rattle.sheet.specs.Numbers.{kind_number};
ghost use Rattle.layout.specs.Needs.{cells_by, registers_by, cells_from, registers_from};
ghost use Rattle.unit.specs.State.{place_ok, own_ok, record_ok, rings_ok};
ghost use Rattle.rings.specs.Rings.{place_test};

use plan::Plan;
use sheet::kinds::{Kind, Proc, Val};

// Of a Reverb: each place is below its line's length.
fn places_ok(rate: u32, words: &[u64]) -> bool
    requires { (rate ≤ 192000) × (length words.now ≡ 10) }
    ensures { result ≡ all (place_test (reverb_lines rate) words.now) 10 }
{
    let lens = lines::reverb_lens(rate);
    (0..10).all(|k| words[k] < lens[k])
}

fn place_ok(own: &[f32], words: &[u64]) -> bool
    requires { length words.now ≡ 1 }
    ensures { result ≡ place_ok (own.now, words.now) }
{
    words[0] < own.len() as u64
}

fn phase_ok(phase: f32) -> bool
    ensures { result ≡ (le zero phase && lt phase one) }
{
    (0.0 <= phase) & (phase < 1.0)
}

// Of record i, of this kind, on what it owns. The sheet and i stand beside what they own, here as in the units: a struct of them would be made
// anew for each record.
#[tactic(auto, unfolding(sheet::specs::Numbers::src_number, sheet::specs::Numbers::fold_number, sheet::specs::Numbers::biquad_number, sheet::specs::Numbers::proc_number, sheet::specs::Numbers::val_number, sheet::specs::Numbers::kind_number, layout::specs::Needs::need_of, layout::specs::Needs::registers_by, layout::specs::Needs::cells_by, unit::specs::State::own_ok))]
fn own_ok(sheet: &[u8], i: usize, kind: Kind, own: &[f32], words: &[u64]) -> bool
    requires { (24 ≤ length sheet.now) × (rate_of sheet.now ≤ 192000) × (kind_number kind ≡ kind_at sheet.now i) × (length own.now ≡ cells_by sheet.now i) × (length words.now ≡ registers_by sheet.now i) }
    ensures { result ≡ own_ok sheet.now i (own.now, words.now) }
{
    match kind {
        Kind::Proc(Proc::Delay | Proc::Chorus) => place_ok(own, words),
        Kind::Proc(Proc::Reverb) => places_ok(sheet::rate(sheet), words),
        Kind::Val(Val::Rand) => phase_ok(own[2]),
        _ => true,
    }
}

// Of record i, on its part of all the cells and registers, which are taken only where the kind may have a place or a phase.
#[tactic(auto, unfolding(sheet::specs::Numbers::src_number, sheet::specs::Numbers::fold_number, sheet::specs::Numbers::biquad_number, sheet::specs::Numbers::proc_number, sheet::specs::Numbers::val_number, sheet::specs::Numbers::kind_number, unit::specs::State::own_ok))]
fn record_ok(plan: &Plan<'_>, cells: &[f32], regs: &[u64], i: usize) -> bool
    requires { (cells_from plan.now.sheet.now (count_of plan.now.sheet.now) ≤ length cells.now) × (registers_from plan.now.sheet.now (count_of plan.now.sheet.now) ≤ length regs.now) × (i < count_of plan.now.sheet.now) }
    ensures { result ≡ record_ok plan.now.sheet.now (cells.now, regs.now) i }
{
    let row = plan.row(i);
    if !row.built {
        return true;
    }
    match row.kind {
        Kind::Proc(_) | Kind::Val(_) => own_ok(
            plan.sheet,
            i,
            row.kind,
            &cells[row.cells..row.cells_end],
            &regs[row.registers..row.registers_end],
        ),
        _ => true,
    }
}

// Of all records. It stops at the first record that fails it.
pub fn rings_ok(plan: &Plan<'_>, cells: &[f32], regs: &[u64]) -> bool
    requires { (cells_from plan.now.sheet.now (count_of plan.now.sheet.now) ≤ length cells.now) × (registers_from plan.now.sheet.now (count_of plan.now.sheet.now) ≤ length regs.now) }
    ensures { result ≡ rings_ok plan.now.sheet.now (cells.now, regs.now) }
{
    for i in 0..plan.count {
        if !record_ok(plan, cells, regs, i) {
            return false;
        }
    }
    true
}
