// Holds each kernel to the answers of det.rs, which compare/answers wrote, and prints a line for each: its cases, how many
// of them differ, and the first of those.
#![tactic(auto)]

mod kernels;

use kernels::{double_sections, single_sections};
use std::io;
use std::io::BufReader;
use vectors::AnswerFile;

fn main(rt: HostRuntime) -> io::Result<()> {
    let input = BufReader::new(rt.alloc(), rt.stdin())?;
    // Each line is written as soon as it is known, so that a write that fails ends the program there.
    let mut file = AnswerFile::new(input, rt.stdout());
    double_sections(&mut file)?;
    single_sections(&mut file)?;
    file.end()?;
    Ok(())
}
