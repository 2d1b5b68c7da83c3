// Jobs, read from bytes.
ghost use Rattle.std.specs.Prelude.{◌≡◌, ◌≤◌, length, Ok, IfOk, OnErr};
ghost use Rattle.plane.specs.Outlines.{most_corners};
ghost use Rattle.job.specs.Format.{added, and_then, pairs_in, puts, read_job, seen};
ghost use Rattle.job.specs.Held.{lists_of};
ghost use Rattle.job.specs.Laws.{Split};

use crate::pairs::Pairs;
use crate::reader::{CORNER_BYTES, Kind, Rest};
use plane::refusal::Refusal;
use plane::ring::Ring;

/// The corners of two outlines, as pairs, in order.
#[derive(Drop)]
pub struct Job {
    pub one: Pairs,
    pub two: Pairs,
}

impl Job {
    /// Adds the corner's record that the rest begins with to a ring.
    fn add(&mut self, ring: Ring, rest: &Rest) -> Result<(), Refusal>
        ensures value { seen (λ _. lists_of self.new) result ≡ and_then (added rest.now.at (pairs_in ring (lists_of self.old)) rest.now.bytes.now) (λ ps. Ok (puts ring ps (lists_of self.old))) }
        ensures kept { OnErr result (self.new ≡ self.old) }
    {
        match ring {
            Ring::One => self.one.add(rest),
            Ring::Two => self.two.add(rest),
        }
    }

    /// Reads a job, up to its end record. Later bytes are ignored.
    pub fn read(bytes: &[u8]) -> Result<Job, Refusal>
        ensures value { seen lists_of result ≡ read_job bytes.now }
        ensures split { Split bytes.now (seen lists_of result) }
        ensures few { IfOk result (λ job. (length job.one ≤ most_corners) × (length job.two ≤ most_corners)) }
    {
        let mut job = Job {
            one: Pairs::new(),
            two: Pairs::new(),
        };
        for at in (0..bytes.len()).step_by(CORNER_BYTES) {
            let rest = Rest::from_offset(bytes, at);
            match rest.kind()? {
                Kind::Corner(ring) => job.add(ring, &rest)?,
                Kind::End => return Ok(job),
            }
        }
        // The end record is missing.
        Err(Refusal::CutShort(bytes.len()))
    }
}
