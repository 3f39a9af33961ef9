// The kernels, in the order of the sections in the answer file.
use std::io;
use std::io::{Read, Write};
use vectors::{AnswerFile, double, single};

pub(crate) fn double_sections<R: Read, W: Write>(file: &mut AnswerFile<R, W>) -> io::Result<()> {
    file.section(|x| trig::sin(double(x[0])))?;
    file.section(|x| trig::cos(double(x[0])))?;
    file.section(|x| exp::exp(double(x[0])))?;
    file.section(|x| det::ln(double(x[0])))?;
    file.section(|x| det::powf(double(x[0]), double(x[1])))?;
    file.section(|x| det::tanh(double(x[0])))?;
    file.section(|x| det::log10(double(x[0])))?;
    file.section(|x| exp::expm1_small(double(x[0])))?;
    // The operand is on file as the f64 that casts to it.
    file.section(|x| exp::ldexp2(cast::f64_to_i64(double(x[0]))))?;
    file.section(|x| trig::reduce_2pi(double(x[0])))?;
    file.section(|x| trig::sin_poly(double(x[0])))?;
    file.section(|x| trig::cos_poly(double(x[0])))
}

pub(crate) fn single_sections<R: Read, W: Write>(file: &mut AnswerFile<R, W>) -> io::Result<()> {
    file.section(|x| trig::sinf(single(x[0])))?;
    file.section(|x| trig::cosf(single(x[0])))?;
    file.section(|x| exp::expf(single(x[0])))?;
    file.section(|x| det::lnf(single(x[0])))?;
    file.section(|x| det::powff(single(x[0]), single(x[1])))?;
    file.section(|x| det::tanhf(single(x[0])))?;
    file.section(|x| det::log10f(single(x[0])))
}
