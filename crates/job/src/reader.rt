// The records of a job, read one at a time.
ghost use Rattle.std.specs.Prelude.{◌≡◌, drop, Some, None, MatchResult};
ghost use Rattle.job.specs.Format.{answered, kind_of, kind_at, pair_at};

use decimetre::corner::Pair;
use plane::refusal::Refusal;
use plane::ring::Ring;

/// What a record is for: a corner of a ring, or the end of the job.
#[derive(Clone, Copy, PartialEq, Eq, Debug)]
pub enum Kind {
    Corner(Ring),
    End,
}

/// A byte that no kind of record begins with.
#[derive(Clone, Copy, PartialEq, Eq, Debug)]
pub struct StrangeByte(pub u8);

impl TryFrom<u8> for Kind {
    type Error = StrangeByte;

    ghost try_from_gives = { λ byte r. MatchResult r (λ kind. kind_of byte ≡ Some kind) (λ e. (kind_of byte ≡ None) × (e.0 ≡ byte)) };

    fn try_from(byte: u8) -> Result<Self, StrangeByte> {
        match byte {
            0x11 => Ok(Kind::Corner(Ring::One)),
            0x12 => Ok(Kind::Corner(Ring::Two)),
            0x14 => Ok(Kind::End),
            _ => Err(StrangeByte(byte)),
        }
    }
}

/// How many bytes a corner's record has.
pub const CORNER_BYTES: usize = 5;

/// The rest of a job, from a record on, and the offset of that record.
#[derive(Clone, Copy, Debug)]
pub struct Rest<'a> {
    pub at: usize,
    pub bytes: &'a [u8],
}

impl<'a> Rest<'a> {
    /// The rest from an offset on: no bytes where the offset is past the end.
    pub fn from_offset(bytes: &'a [u8], at: usize) -> Rest<'a>
        ensures at { result.at ≡ at }
        ensures bytes { result.bytes.now ≡ drop at bytes.now }
    {
        Rest {
            at,
            bytes: bytes.get(at..).unwrap_or(&[]),
        }
    }

    /// The kind of the record.
    pub fn kind(&self) -> Result<Kind, Refusal>
        ensures { answered result ≡ kind_at self.now.at self.now.bytes.now }
    {
        let at = self.at;
        let byte = self.bytes.first().ok_or(Refusal::CutShort(at))?;
        Kind::try_from(*byte).map_err(|_| Refusal::UnknownKind(at))
    }

    /// The pair that the four bytes after the record's kind hold; the kind is not looked at.
    pub fn pair(&self) -> Result<Pair, Refusal>
        ensures { answered result ≡ pair_at self.now.at self.now.bytes.now }
    {
        let [_, x0, x1, y0, y1, ..] = self.bytes else {
            return Err(Refusal::CutShort(self.at));
        };
        Ok(Pair {
            x: i32::from(i16::from_be_bytes([*x0, *x1])),
            y: i32::from(i16::from_be_bytes([*y0, *y1])),
        })
    }
}
