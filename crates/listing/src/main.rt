// Lists the sheet on standard input: how many records it has, its first eight samples and their peak, or the number that it is refused by.
#![tactic(auto)]

ghost use Rattle.std.specs.Prelude.{◌≡◌};
ghost use Rattle.listing.specs.Peak.{higher_of, peak_of};

use control::Controls;
use refusal::Refusal;
use std::io::{Read, Write};
use std::{fmt, io};

// The larger of the two; a NaN is passed over. The peak's definition is over this choice, and keeps its meaning: of two zeros std's `max` leaves open which
// it gives, and `float::max` tells them apart, which is another function.
fn higher(p: f32, x: f32) -> f32
    ensures { result ≡ higher_of p x }
{
    if p < x { x } else { p }
}

// The largest of 0 and the samples that are no NaN.
fn peak(out: &[f32]) -> f32
    ensures { result ≡ peak_of out.now }
{
    out.iter().copied().fold(0.0, |p, x| higher(p, x))
}

// What is listed of an accepted sheet. The samples are an array, since their number is fixed.
#[derive(Clone, Copy)]
struct Listing {
    records: usize,
    first_samples: [f32; 8],
}

impl Listing {
    // An accepted sheet has 24 bytes and 40 for each record.
    fn new(
        sheet: &[u8],
        cells: &mut [f32],
        regs: &mut [u64],
        scr: &mut [f32],
    ) -> Result<Listing, Refusal> {
        let c = player::build(sheet, Controls::fresh(), cells, regs, scr)?;
        let mut first_samples = [0.0; 8];
        player::fill(sheet, c, &mut first_samples, cells, regs, scr)?;
        Ok(Listing {
            records: sheet.len().saturating_sub(24) / 40,
            first_samples,
        })
    }
}

impl fmt::Display for Listing {
    fn fmt<W: fmt::Write>(&self, f: &mut fmt::Formatter<W>) -> fmt::Result {
        writeln!(f, "records {}", self.records)?;
        for x in &self.first_samples {
            writeln!(f, "{:08x}", float::to_bits(*x))?;
        }
        write!(f, "peak {:08x}", float::to_bits(peak(&self.first_samples)))
    }
}

// No sheet has as many bytes as are read, so an input that is too long stays so.
fn main(rt: HostRuntime) -> io::Result<()> {
    let mut sheet = Vec::new(rt.alloc());
    rt.stdin().take(65536).read_to_end(&mut sheet)?;
    let mut cells = vec![in rt.alloc(); 0.0f32; 8192]?;
    let mut regs = vec![in rt.alloc(); 0u64; 256]?;
    let mut scr = vec![in rt.alloc(); 0.0f32; 2048]?;
    let listing = Listing::new(
        sheet.as_slice(),
        cells.as_mut_slice(),
        regs.as_mut_slice(),
        scr.as_mut_slice(),
    );
    match listing {
        Ok(listing) => writeln!(rt.stdout(), "{listing}"),
        Err(refusal) => writeln!(rt.stdout(), "refused {}", refusal.number()),
    }
}
