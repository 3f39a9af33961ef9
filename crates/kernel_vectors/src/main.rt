// Holds each kernel of a sample to the answers of the Rust's own code, which compare/answers wrote, and prints a line for
// each: its cases, how many of their answers differ, and the first of those. The kernels are in the order of the file.
#![tactic(auto)]

mod of_dsp;
mod of_filters;
mod of_lines;
mod of_proc;
mod of_render;
mod of_source;
mod of_value;
mod words;

use std::io;
use std::io::BufReader;
use vectors::AnswerFile;

fn main(rt: HostRuntime) -> io::Result<()> {
    let input = BufReader::new(rt.alloc(), rt.stdin())?;
    // Each line is written as soon as it is known, so that a write that fails ends the program there.
    let mut file = AnswerFile::new(input, rt.stdout());
    of_dsp::generators(&mut file)?;
    of_dsp::coefficients(&mut file)?;
    of_lines::lengths(&mut file)?;
    of_render::curves(&mut file)?;
    of_value::values(&mut file)?;
    of_source::oscillators(&mut file)?;
    of_source::noises(&mut file)?;
    of_proc::effects(&mut file)?;
    of_proc::dynamics(&mut file)?;
    file.end()?;
    Ok(())
}
