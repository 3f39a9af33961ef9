// The processors of `proc_block`, `line_block`, `modal_block` and `reverb_block`. buf is lent to those that play in passes.
ghost use Rattle.std.specs.Prelude.{◌≡◌, ◌+◌, ◌*◌, ◌^◌, ◌≤◌, ◌<◌, length};
ghost use Rattle.block.specs.Iterate.{given, at};
ghost use Rattle.dsl.specs.Options.{drive_shape_of};
ghost use Rattle.proc_block.specs.Steps.{gain_step, filter_step, drive_step_at, drive_plain_step, tremolo_step, compress_step};
ghost use Rattle.line_block.specs.Steps.{delay_step, chorus_step};
ghost use Rattle.modal_block.specs.Modal.{modal_step};
ghost use Rattle.reverb_block.specs.Reverb.{reverb_step, line_from, Placed};
ghost use Rattle.block_bench.specs.State.{word_at, kind_of, filter_at, drive_at};

#[unsafe(no_mangle)]
pub extern "C" fn block_gain(out: &mut [f32], amount: &[f32])
    requires { length out.old ≤ length amount.now }
    ensures { out.new ≡ given (gain_step out.old amount.now) tt (length out.old) }
{
    proc_block::gain_block(out, amount);
}

// A filter's kind by the number that C gives, in the order of the sheet's kinds; db is the gain of a peak or a shelf.
#[tactic(auto, unfolding(crate::specs::State::kind_of))]
fn filter_kind(n: u8, db: f32) -> biquad::FilterKind
    ensures { result ≡ kind_of n db }
{
    match n {
        0 => biquad::FilterKind::Low,
        1 => biquad::FilterKind::High,
        2 => biquad::FilterKind::Band,
        3 => biquad::FilterKind::Notch,
        4 => biquad::FilterKind::Peak(db),
        5 => biquad::FilterKind::LowShelf(db),
        _ => biquad::FilterKind::HighShelf(db),
    }
}

fn load_filter(cells: &[f32]) -> filter_step::Filter
    requires { 11 ≤ length cells.now }
    ensures { result ≡ filter_at cells.now }
{
    filter_step::Filter {
        scale: cells[0],
        prev_f: cells[1],
        b0: cells[2],
        b1: cells[3],
        b2: cells[4],
        a1: cells[5],
        a2: cells[6],
        x1: cells[7],
        x2: cells[8],
        y1: cells[9],
        y2: cells[10],
    }
}

// All but the scale, which no block changes.
fn store_filter(cells: &mut [f32], s: filter_step::Filter)
    requires { 11 ≤ length cells.old }
    ensures { length cells.new ≡ length cells.old }
{
    cells[1..11].copy_from_slice(&[
        s.prev_f, s.b0, s.b1, s.b2, s.a1, s.a2, s.x1, s.x2, s.y1, s.y2,
    ]);
}

#[unsafe(no_mangle)]
pub extern "C" fn block_filter(
    out: &mut [f32],
    cutoff: &[f32],
    cells: &mut [f32],
    kind: u8,
    db: f32,
    q: f32,
    sr: u32,
)
    requires { (length out.old ≤ length cutoff.now) × (11 ≤ length cells.old) }
    ensures { out.new ≡ given (filter_step out.old cutoff.now (record { kind = kind_of kind db; q = q; sr = sr })) (filter_at cells.old) (length out.old) }
{
    let s = load_filter(cells);
    let kind = filter_kind(kind, db);
    let r = proc_block::filter_block(out, cutoff, biquad::Response { kind, q, sr }, s);
    store_filter(cells, r);
}

#[unsafe(no_mangle)]
pub extern "C" fn block_drive(
    out: &mut [f32],
    amount: &[f32],
    cells: &mut [f32],
    buf: &mut [f32],
    shape: u8,
)
    requires { (length out.old ≤ length amount.now) × (4 ≤ length cells.old) × (length out.old ≤ length buf.old) }
    ensures { out.new ≡ given (drive_step_at out.old amount.now (drive_shape_of shape)) (drive_at cells.old) (length out.old) }
{
    let s = drive_step::Drive {
        x_prev: cells[0],
        f_prev: cells[1],
        dc_x: cells[2],
        dc_y: cells[3],
    };
    let r = proc_block::drive_block(out, buf, amount, dsl::DriveShape::from(shape), s);
    cells[..4].copy_from_slice(&[r.x_prev, r.f_prev, r.dc_x, r.dc_y]);
}

#[unsafe(no_mangle)]
pub extern "C" fn block_drive_plain(out: &mut [f32], amount: &[f32], shape: u8)
    requires { length out.old ≤ length amount.now }
    ensures { out.new ≡ given (drive_plain_step out.old amount.now (drive_shape_of shape)) tt (length out.old) }
{
    proc_block::drive_plain_block(out, amount, dsl::DriveShape::from(shape));
}

#[unsafe(no_mangle)]
pub extern "C" fn block_tremolo(
    out: &mut [f32],
    buf: &mut [f32],
    rate: f32,
    depth: f32,
    srf: f32,
    t: u64,
)
    requires { (t + length out.old < 2 ^ 64) × (length out.old ≤ length buf.old) }
    ensures { out.new ≡ given (tremolo_step out.old rate depth srf t) tt (length out.old) }
{
    proc_block::tremolo_block(out, buf, rate, depth, srf, t);
}

// The cells are env, at, rt and makeup.
#[unsafe(no_mangle)]
pub extern "C" fn block_compress(
    out: &mut [f32],
    cells: &mut [f32],
    buf: &mut [f32],
    threshold: f32,
    ratio: f32,
)
    requires { (4 ≤ length cells.old) × (length out.old ≤ length buf.old) }
    ensures { out.new ≡ given (compress_step out.old (record { at = at cells.old 1; rt = at cells.old 2; threshold = threshold; ratio = ratio; makeup = at cells.old 3 })) (at cells.old 0) (length out.old) }
{
    let c = proc::Compressor {
        at: cells[1],
        rt: cells[2],
        threshold,
        ratio,
        makeup: cells[3],
    };
    cells[0] = proc_block::compress_block(out, buf, c, cells[0]);
}

#[unsafe(no_mangle)]
pub extern "C" fn block_delay(out: &mut [f32], line: &mut [f32], words: &mut [u64], feedback: f32)
    requires { (1 ≤ length words.old) × (word_at words.old < length line.old) }
    ensures { out.new ≡ given (delay_step out.old feedback (length line.old)) (line.old, word_at words.old) (length out.old) }
{
    words[0] = line_block::delay_block(out, line, feedback, words[0]);
}

#[unsafe(no_mangle)]
pub extern "C" fn block_chorus(
    out: &mut [f32],
    line: &mut [f32],
    words: &mut [u64],
    buf: &mut [f32],
    base: f32,
    swing: f32,
    rate: f32,
    srf: f32,
    mix: f32,
    t: u64,
)
    requires { (t + length out.old < 2 ^ 64) × (1 ≤ length words.old) × (word_at words.old < length line.old) × (length out.old ≤ length buf.old) }
    ensures { out.new ≡ given (chorus_step out.old base swing rate srf mix (length line.old) t) (line.old, word_at words.old) (length out.old) }
{
    let c = line_block::Chorus {
        base,
        swing,
        rate,
        mix,
    };
    words[0] = line_block::chorus_block(out, buf, line, c, srf, t, words[0]);
}

// The cells are n modes of five each.
#[unsafe(no_mangle)]
pub extern "C" fn block_modal(out: &mut [f32], cells: &mut [f32], mix: f32, n: usize)
    requires { 5 * n ≤ length cells.old }
    ensures { out.new ≡ given (modal_step out.old mix n) cells.old (length out.old) }
{
    modal_block::modal_block(out, mix, n, cells);
}

// The cells are the ten lines and then the combs' six stores.
#[unsafe(no_mangle)]
pub extern "C" fn block_reverb(
    out: &mut [f32],
    lens: &[u64],
    cells: &mut [f32],
    regs: &mut [u64],
    feedback: f32,
    mix: f32,
)
    requires { Placed lens.now regs.old × (length cells.old ≡ line_from lens.now 10 + 6) }
    ensures { out.new ≡ given (reverb_step out.old feedback mix lens.now) (cells.old, regs.old) (length out.old) }
{
    reverb_block::reverb_block(out, feedback, mix, lens, cells, regs);
}
