// The leaves, in the order of the sections in the answer file. A bool is there as 0 or 1.
use std::io;
use std::io::{Read, Write};
use vectors::{AnswerFile, double, low, single};

pub(crate) fn float_sections<R: Read, W: Write>(file: &mut AnswerFile<R, W>) -> io::Result<()> {
    file.section(|x| rounding::floor(single(x[0])))?;
    file.section(|x| rounding::trunc(single(x[0])))?;
    file.section(|x| rounding::round(single(x[0])))?;
    file.section(|x| rounding::fract(single(x[0])))?;
    file.section(|x| float::abs(single(x[0])))?;
    file.section(|x| rounding::wrap(single(x[0])))?;
    file.section(|x| float::max0(single(x[0])))?;
    file.section(|x| single(x[0]).is_nan())?;
    file.section(|x| float::is_finite(single(x[0])))?;
    file.section(|x| float::max(single(x[0]), single(x[1])))?;
    file.section(|x| float::min(single(x[0]), single(x[1])))?;
    file.section(|x| float::clamp(single(x[0]), single(x[1]), single(x[2])))?;
    file.section(|x| float::rem_euclid(single(x[0]), single(x[1])))?;
    // The bits of an f32, which are made a float and bits again.
    file.section(|x| single(x[0]))?;
    file.section(|x| rounding::round_f64(double(x[0])))?;
    file.section(|x| double(x[0]).is_nan())?;
    file.section(|x| double(x[0]))
}

pub(crate) fn cast_sections<R: Read, W: Write>(file: &mut AnswerFile<R, W>) -> io::Result<()> {
    file.section(|x| cast::u64_to_f32(x[0]))?;
    file.section(|x| cast::u32_to_f32(low(x[0])))?;
    file.section(|x| cast::u32_to_f64(low(x[0])))?;
    file.section(|x| cast::u64_to_f64(x[0]))?;
    file.section(|x| cast::i64_to_f64(x[0].cast_signed()))?;
    file.section(|x| cast::f64_to_f32(double(x[0])))?;
    file.section(|x| cast::f32_to_f64(single(x[0])))?;
    file.section(|x| cast::f32_to_u64(single(x[0])))?;
    file.section(|x| cast::f64_to_i64(double(x[0])).cast_unsigned())
}

pub(crate) fn last_sections<R: Read, W: Write>(file: &mut AnswerFile<R, W>) -> io::Result<()> {
    file.section(|x| sqrt::sqrt(single(x[0])))?;
    file.section(|x| word::wrapping_mul(x[0], x[1]))
}
