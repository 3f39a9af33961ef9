// Reverb over a block: the lines and their places stay in the record's own cells and registers.
// `after` does not say that the cells stay as many, so it is said beside it.
// Feedback and mix are the record's and the rest is its memory: a struct of them would be made for one call.
#![tactic(auto)]

ghost use Rattle.std.specs.Prelude.{◌≡◌, ◌+◌, ◌^◌, ◌≤◌, ◌<◌, List, ◌++◌, length, Float};
ghost use Rattle.block.specs.Iterate.{given, after};
ghost use Rattle.reverb_block.specs.Reverb as bank;
ghost use Rattle.reverb_block.specs.Reverb.{line_from, reverb_step, Placed};
ghost use Rattle.reverb_block.specs.Lines.{LineAt};

// The six combs, one after the other: their sum, and where the first allpass's line begins. Stores, places and lengths are three arrays:
// stores and places are copied whole from the record's cells and registers and back, and the lengths stay, which each loop over a
// struct of all three would have to say.
#[tactic(auto, using(crate::proofs::Inside::inside))]
fn combs(
    lines: &mut [f32],
    stores: &mut [f32; 6],
    places: &mut [u64; 10],
    lens: &[u64; 10],
    feedback: f32,
    x: f32,
) -> (f32, usize)
    requires { LineAt lens.now places.old lines.old 0 0 }
    ensures { ((result.0, (lines.new ++ stores.new, places.new)) ≡ bank.combs feedback lens.now x (lines.old ++ stores.old, places.old) 6) × LineAt lens.now places.new lines.new result.1 6 }
{
    let mut wet: f32 = 0.0;
    let mut from: usize = 0;
    for k in 0..6 {
        let place = places[k];
        let len = lens[k];
        let w = from + (place as usize);
        let (y, store, line) = line_step::comb(feedback, stores[k], x, lines[w]);
        lines[w] = line;
        stores[k] = store;
        places[k] = line_step::next_place(place, len);
        wet = wet + y;
        from = from + (len as usize);
    }
    (wet, from)
}

// The four allpasses, one after the other, from the combs' sum; first is where the first of their lines begins.
#[tactic(auto, using(crate::proofs::Inside::inside))]
fn allpasses(
    lines: &mut [f32],
    places: &mut [u64; 10],
    lens: &[u64; 10],
    first: usize,
    sum: f32,
) -> f32
    requires { LineAt lens.now places.old lines.old first 6 }
    ensures { ((ss : List Float) → (result, (lines.new ++ ss, places.new)) ≡ bank.allpasses lens.now (sum, (lines.old ++ ss, places.old)) 4) × LineAt lens.now places.new lines.new first 6 }
{
    let mut wet = sum;
    let mut from = first;
    for k in 0..4 {
        let i = 6 + k;
        let place = places[i];
        let len = lens[i];
        let w = from + (place as usize);
        let (y, line) = line_step::allpass(wet, lines[w]);
        lines[w] = line;
        places[i] = line_step::next_place(place, len);
        wet = y;
        from = from + (len as usize);
    }
    wet
}

// The cells in two parts, the lines and the combs' stores.
fn reverb_lines(
    out: &mut [f32],
    feedback: f32,
    mix: f32,
    lens: &[u64; 10],
    lines: &mut [f32],
    stores: &mut [f32; 6],
    places: &mut [u64; 10],
)
    requires { LineAt lens.now places.old lines.old 0 0 }
    ensures { (out.new ≡ given (reverb_step out.old feedback mix lens.now) (lines.old ++ stores.old, places.old) (length out.old)) × ((lines.new ++ stores.new, places.new) ≡ after (reverb_step out.old feedback mix lens.now) (lines.old ++ stores.old, places.old) (length out.old)) × LineAt lens.now places.new lines.new 0 0 }
{
    for sample in out.iter_mut() {
        let x = *sample;
        let (sum, first) = combs(lines, stores, places, lens, feedback, x);
        let wet = allpasses(lines, places, lens, first, sum);
        *sample = line_step::reverb_mix(mix, x, wet);
    }
}

// The cells are the lines and then the combs' six stores; the registers are the ten places. Stores, places and lengths are
// copied into arrays, since there is no heap: of a fixed length, and so
// that the compiler knows that no two of them overlap.
// Not inlined, since in the walk the compiler has no registers left for the ten places: measured, 165 instructions a sample in place
// of 143.
#[inline(never)]
pub fn reverb_block(
    out: &mut [f32],
    feedback: f32,
    mix: f32,
    lens: &[u64],
    cells: &mut [f32],
    regs: &mut [u64],
)
    requires { Placed lens.now regs.old × (length cells.old ≡ line_from lens.now 10 + 6) }
    ensures { (out.new ≡ given (reverb_step out.old feedback mix lens.now) (cells.old, regs.old) (length out.old)) × ((cells.new, regs.new) ≡ after (reverb_step out.old feedback mix lens.now) (cells.old, regs.old) (length out.old)) × Placed lens.now regs.new × (length cells.new ≡ length cells.old) }
{
    let total = cells.len() - 6;
    let mut stores = [0.0f32; 6];
    let mut places = [0u64; 10];
    let mut sizes = [0u64; 10];
    stores.copy_from_slice(&cells[total..]);
    places.copy_from_slice(regs);
    sizes.copy_from_slice(lens);
    reverb_lines(
        out,
        feedback,
        mix,
        &sizes,
        &mut cells[..total],
        &mut stores,
        &mut places,
    );
    cells[total..].copy_from_slice(&stores);
    regs.copy_from_slice(&places);
}
