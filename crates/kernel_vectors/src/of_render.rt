// The shapes of an oscillator, and the curves of a Drive.
use crate::of_filters;
use crate::words::choice;
use dsl::{DriveShape, Shape};
use std::io;
use std::io::{Read, Write};
use vectors::{AnswerFile, single};

pub(crate) fn curves<R: Read, W: Write>(file: &mut AnswerFile<R, W>) -> io::Result<()> {
    file.section(|x| osc::poly_blep(single(x[0]), single(x[1])))?;
    file.section(|x| osc::osc(Shape::from(choice(x[0])), single(x[1])))?;
    file.section(of_filters::coefficients)?;
    file.section(|x| drive::drive_curve(single(x[0]), DriveShape::from(choice(x[1]))))?;
    file.section(|x| drive::drive_antideriv(single(x[0]), DriveShape::from(choice(x[1]))))
}
