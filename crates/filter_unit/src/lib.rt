// A block of a filter's record, of Drive's or of Compress's, in place, on the cells that the record owns. The block, the value's buffer
// and the buffer for passes stay slices of their own: they lie apart in the walk's memory, so a struct of them would be made at each call
// only to be taken apart in the kernel.
#![tactic(auto)]

ghost use Rattle.std.specs.Prelude.{◌≡◌, List, [], ◌∷◌, ℕ, ◌≤◌, length};
ghost use Rattle.float.specs.Order.{max_of};
ghost use Rattle.float.specs.Single.{one};
ghost use Rattle.control.specs.declared.Controls.{Controls};
ghost use Rattle.sheet.specs.Record.{option_of, number_of};
ghost use Rattle.sheet.specs.Numbers.{biquad_number};
ghost use Rattle.unit.specs.Processors.{filter_in, filter_cells, filter_unit, filter_kind_of, filter_q, drive_in, drive_cells, drive_unit, compress_unit};
ghost use Rattle.unit.specs.Block.{Ran};

use biquad::Response;
use drive_step::Drive;
use filter_step::Filter;
use proc::Compressor;
use sheet::Record;
use sheet::kinds::Biquad;

// The cells are a part of the voice's memory, a slice, so each contract here says their length, and a state is loaded number by number:
// an array pattern would have to refuse the lengths that the contract rules out.
fn load_filter(cells: &[f32]) -> Filter
    requires { length cells.now ≡ 11 }
    ensures { result ≡ filter_in cells.now }
{
    Filter {
        scale: cells[0],
        prev_f: cells[1],
        b0: cells[2],
        b1: cells[3],
        b2: cells[4],
        a1: cells[5],
        a2: cells[6],
        x1: cells[7],
        x2: cells[8],
        y1: cells[9],
        y2: cells[10],
    }
}

fn store_filter(cells: &mut [f32], s: Filter)
    requires { length cells.old ≡ 11 }
    ensures { cells.new ≡ filter_cells s }
{
    cells.copy_from_slice(&[
        s.scale, s.prev_f, s.b0, s.b1, s.b2, s.a1, s.a2, s.x1, s.x2, s.y1, s.y2,
    ]);
}

pub fn filter(r: &Record, sr: u32, kind: Biquad, out: &mut [f32], v: &[f32], cells: &mut [f32])
    requires { (length cells.old ≡ 11) × (length out.old ≤ length v.now) }
    ensures { (c : Controls) (rs : List ℕ) → Ran (filter_unit (filter_kind_of (biquad_number kind) r.now) (filter_q (biquad_number kind) r.now) sr) c (v.now ∷ []) out.old cells.old rs out.new cells.new rs }
{
    let response = Response {
        kind: unit::filter_kind(kind, r),
        q: unit::filter_q(kind, r),
        sr,
    };
    let s = load_filter(cells);
    let t = proc_block::filter_block(out, v, response, s);
    store_filter(cells, t);
}

fn load_drive(cells: &[f32]) -> Drive
    requires { length cells.now ≡ 4 }
    ensures { result ≡ drive_in cells.now }
{
    Drive {
        x_prev: cells[0],
        f_prev: cells[1],
        dc_x: cells[2],
        dc_y: cells[3],
    }
}

fn store_drive(cells: &mut [f32], s: Drive)
    requires { length cells.old ≡ 4 }
    ensures { cells.new ≡ drive_cells s }
{
    cells.copy_from_slice(&[s.x_prev, s.f_prev, s.dc_x, s.dc_y]);
}

// The option stays the sheet's number: it says the shape, and below 3 that it is anti-aliased. A type for the two would be made here
// only to be matched once.
pub fn drive(r: &Record, out: &mut [f32], v: &[f32], buf: &mut [f32], cells: &mut [f32])
    requires { (length cells.old ≡ 4) × (length out.old ≤ length v.now) × (length out.old ≤ length buf.old) }
    ensures { (c : Controls) (rs : List ℕ) → Ran (drive_unit (option_of r.now)) c (v.now ∷ []) out.old cells.old rs out.new cells.new rs }
{
    let option = r.option();
    let shape = dsl::DriveShape::from(option);
    if option < 3 {
        let s = load_drive(cells);
        let t = proc_block::drive_block(out, buf, v, shape, s);
        store_drive(cells, t);
        return;
    }
    proc_block::drive_plain_block(out, v, shape);
}

// The cells are env, at, rt and makeup, of which a block moves env.
pub fn compress(r: &Record, out: &mut [f32], buf: &mut [f32], cells: &mut [f32])
    requires { (length cells.old ≡ 4) × (length out.old ≤ length buf.old) }
    ensures { (c : Controls) (rs : List ℕ) → Ran (compress_unit (number_of r.now 0) (max_of (number_of r.now 1) one)) c [] out.old cells.old rs out.new cells.new rs }
{
    let c = Compressor {
        at: cells[1],
        rt: cells[2],
        threshold: r.number(0),
        ratio: float::max(r.number(1), 1.0),
        makeup: cells[3],
    };
    let env = proc_block::compress_block(out, buf, c, cells[0]);
    cells[0] = env;
}
