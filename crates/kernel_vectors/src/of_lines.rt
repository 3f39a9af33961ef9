// The lengths of the lines.
ghost use Rattle.std.specs.Prelude.{◌≡◌, ◌≤◌, ◌<◌, get_or};
ghost use Rattle.lines.specs.Lines.{reverb_lines};

use crate::words::below;
use std::io;
use std::io::{Read, Write};
use vectors::{AnswerFile, single};

// The rates of a document end at 192,000. `try_from` would have an error to answer for, which the `min` rules out.
fn rate(x: u64) -> u32
    ensures { result ≤ 192000 }
{
    x.min(192000) as u32
}

// The length of line k: the six combs', then the four allpasses'.
fn line_len(k: u64, sr: u32) -> u64
    requires { (k < 10) × (sr ≤ 192000) }
    ensures { result ≡ get_or (reverb_lines sr) k 0 }
{
    lines::reverb_lens(sr)[k as usize]
}

pub(crate) fn lengths<R: Read, W: Write>(file: &mut AnswerFile<R, W>) -> io::Result<()> {
    file.section(|x| lines::delay_line_len(single(x[0]), rate(x[1])))?;
    file.section(|x| lines::chorus_base(rate(x[0])))?;
    file.section(|x| lines::chorus_swing(single(x[0]), rate(x[1])))?;
    file.section(|x| lines::chorus_line_len(single(x[0]), rate(x[1])))?;
    file.section(|x| line_len(below(x[0], 6), rate(x[1])))?;
    file.section(|x| line_len(6 + below(x[0], 4), rate(x[1])))
}
