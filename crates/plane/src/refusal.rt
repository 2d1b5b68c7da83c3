// Why a call is refused.
ghost use Rattle.std.specs.Prelude.{◌≡◌};
ghost use Rattle.plane.specs.Refusals.{number_of, place_of};

use std::error::Error;
use std::fmt;

/// One refusal for each reason that a call of this library can have.
/// Where the place is not fixed, the variant carries it: an index, or the offset of a byte.
#[derive(Clone, Copy, PartialEq, Eq, Debug)]
pub enum Refusal {
    /// A walk is opened on an outline without corners.
    NoCorners,
    /// There is a corner beyond the most that an outline holds.
    TooManyCorners(usize),
    /// A corner is not admitted.
    NotAdmitted(usize),
    /// A tolerance is not within 0 to 1.
    BadTolerance,
    /// The lent tables are too small for the walk.
    TablesTooSmall,
    /// A crossing, an edge or a corner of that number does not exist.
    Unknown(usize),
    /// A loop is under way.
    InsideLoop,
    /// The crossing has been handed over already.
    HandedOver,
    /// The loop under way has had all the events that it may have, and has not closed.
    LoopTooLong,
    /// The next item does not fit its place.
    NoPlace,
    /// As many events as agreed have been passed on.
    LimitReached,
    /// The first byte of a record is no kind that the format has.
    UnknownKind(usize),
    /// The body of a record, or the end of the input, is missing.
    CutShort(usize),
}

// Number and place are two numbers, since so they are printed and handed on.
impl Refusal {
    /// The refusal's number, as it is printed.
    pub fn number(self) -> u8
        ensures { result ≡ number_of self }
    {
        match self {
            Refusal::NoCorners => 1,
            Refusal::TooManyCorners(_) => 2,
            Refusal::NotAdmitted(_) => 3,
            Refusal::BadTolerance => 4,
            Refusal::TablesTooSmall => 5,
            Refusal::Unknown(_) => 6,
            Refusal::InsideLoop => 7,
            Refusal::HandedOver => 8,
            Refusal::LoopTooLong => 9,
            Refusal::NoPlace => 10,
            Refusal::LimitReached => 11,
            Refusal::UnknownKind(_) => 12,
            Refusal::CutShort(_) => 13,
        }
    }

    /// Where the fault lies, 0 where there is no such place.
    pub fn place(self) -> usize
        ensures { result ≡ place_of self }
    {
        match self {
            Refusal::TooManyCorners(place)
            | Refusal::NotAdmitted(place)
            | Refusal::Unknown(place)
            | Refusal::UnknownKind(place)
            | Refusal::CutShort(place) => place,
            _ => 0,
        }
    }
}

impl fmt::Display for Refusal {
    fn fmt<W: fmt::Write>(&self, f: &mut fmt::Formatter<W>) -> fmt::Result {
        write!(f, "refused {} {}", self.number(), self.place())
    }
}

impl Error for Refusal {}
