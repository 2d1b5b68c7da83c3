// How the vectors write tolerances, numbers, pairs, rings and marks.
use crate::failure::Failure;
use decimetre::corner::{Decimetre, Fraction};
use plane::arithmetic::Arithmetic;
use plane::mark::Mark;
use plane::pair::Pair;
use single::corner::Weights;
use single::tolerance::Single;
use std::alloc::Global;
use std::fmt;
use std::num::{f32_from_bits_with_nan, f32_to_bits_with_nan};
use std::str::FromStr;

/// An arithmetic that the vectors ask.
pub(crate) trait Written: Arithmetic + Copy {
    /// The arithmetic with the tolerance of this text.
    fn with(tolerance: &str) -> Result<Self, Failure>;
}

// Its tolerance is 0, whatever is told.
impl Written for Decimetre {
    fn with(_tolerance: &str) -> Result<Self, Failure> {
        Ok(Decimetre)
    }
}

// A dash is the walk's tolerance.
impl Written for Single {
    fn with(tolerance: &str) -> Result<Self, Failure> {
        if tolerance == "-" {
            return Ok(Single::walk());
        }
        let Told(tolerance) = tolerance.parse::<Told<f32>>()?;
        Ok(Single::new(tolerance)?)
    }
}

/// A value as the vectors write it.
#[derive(Clone, Copy, PartialEq, Debug)]
pub(crate) struct Told<T>(pub(crate) T);

impl FromStr for Told<i32> {
    type Err = Failure;

    fn from_str(text: &str) -> Result<Self, Failure> {
        Ok(Told(text.parse::<i32>()?))
    }
}

// A number by its bits: a hash sign and eight hexadecimal digits.
impl FromStr for Told<f32> {
    type Err = Failure;

    fn from_str(text: &str) -> Result<Self, Failure> {
        let digits = text.strip_prefix("#").ok_or(Failure::Unreadable)?;
        if digits.len() != 8 {
            return Err(Failure::Unreadable);
        }
        let bits = u32::from_str_radix(digits, 16)?;
        Ok(Told(f32_from_bits_with_nan(bits)))
    }
}

impl<N: Copy> FromStr for Told<Pair<N>>
where
    Told<N>: FromStr<Err = Failure>,
{
    type Err = Failure;

    fn from_str(text: &str) -> Result<Self, Failure> {
        let (x, y) = text.split_once(",").ok_or(Failure::Unreadable)?;
        let (Told(x), Told(y)) = (x.parse()?, y.parse()?);
        Ok(Told(Pair { x, y }))
    }
}

/// The pairs of a ring: joined by semicolons, or a dash for none.
pub(crate) fn ring<P: Copy>(heap: Global, text: &str) -> Result<Vec<P>, Failure>
where
    Told<P>: FromStr<Err = Failure>,
{
    if text == "-" {
        return Ok(Vec::new(heap));
    }
    text.split(';')
        .map(|piece| -> Result<P, Failure> { Ok(piece.parse::<Told<P>>()?.0) })
        .try_collect(heap)
}

impl fmt::Display for Told<Fraction> {
    fn fmt<W: fmt::Write>(&self, f: &mut fmt::Formatter<W>) -> fmt::Result {
        let Told(Fraction { upper, lower }) = self;
        write!(f, "{upper}/{lower}")
    }
}

impl fmt::Display for Told<Weights> {
    fn fmt<W: fmt::Write>(&self, f: &mut fmt::Formatter<W>) -> fmt::Result {
        let before = f32_to_bits_with_nan(self.0.before);
        let behind = f32_to_bits_with_nan(self.0.behind);
        write!(f, "{before:08x},{behind:08x}")
    }
}

impl<P: Copy> fmt::Display for Told<Mark<P>>
where
    Told<P>: fmt::Display,
{
    fn fmt<W: fmt::Write>(&self, f: &mut fmt::Formatter<W>) -> fmt::Result {
        match self.0 {
            Mark::Start => f.write_str("s"),
            Mark::Inside(part) => write!(f, "i{}", Told(part)),
            Mark::End => f.write_str("e"),
        }
    }
}
