// The words of a question.
use crate::failure::Failure;
use std::str::FromStr;

/// The arithmetic in which a question is asked.
#[derive(Clone, Copy, PartialEq, Eq, Debug)]
pub(crate) enum Precision {
    Decimetre,
    Single,
}

impl FromStr for Precision {
    type Err = Failure;

    fn from_str(word: &str) -> Result<Self, Failure> {
        match word {
            "dm" => Ok(Precision::Decimetre),
            "f32" => Ok(Precision::Single),
            _ => Err(Failure::Unreadable),
        }
    }
}

/// What is asked: how two edges meet, on which side of an edge a corner lies, or whether a corner lies inside a ring.
#[derive(Clone, Copy, PartialEq, Eq, Debug)]
pub(crate) enum Call {
    Seg,
    Side,
    Inside,
}

impl FromStr for Call {
    type Err = Failure;

    fn from_str(word: &str) -> Result<Self, Failure> {
        match word {
            "seg" => Ok(Call::Seg),
            "side" => Ok(Call::Side),
            "inside" => Ok(Call::Inside),
            _ => Err(Failure::Unreadable),
        }
    }
}

/// A question, with its numbers still as they are written.
#[derive(Clone, Copy, Debug)]
pub(crate) struct Question<'a> {
    pub(crate) precision: Precision,
    pub(crate) call: Call,
    pub(crate) tolerance: &'a str,
    pub(crate) one: &'a str,
    pub(crate) two: &'a str,
}

impl<'a> TryFrom<&'a str> for Question<'a> {
    type Error = Failure;

    fn try_from(text: &'a str) -> Result<Self, Failure> {
        let mut words = text.splitn(5, ' ');
        let mut word = || words.next().ok_or(Failure::Unreadable);
        Ok(Question {
            precision: word()?.parse()?,
            call: word()?.parse()?,
            tolerance: word()?,
            one: word()?,
            two: word()?,
        })
    }
}
