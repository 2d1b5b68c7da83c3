// From a job's pairs to two checked outlines.
ghost use Rattle.std.specs.Prelude.{◌≡◌, ◌+◌, ◌≤◌, length, drop, IfOk, OnErr};
ghost use Rattle.std.specs.List.{AllByRecursion};
ghost use Rattle.plane.specs.Meaning.{Admitted};
ghost use Rattle.plane.specs.Outlines.{most_corners};
ghost use Rattle.plane.specs.Refusals.{refused};
ghost use Rattle.decimetre.specs.Exact.{exact};
ghost use Rattle.job.specs.Format.{read_job};
ghost use Rattle.job.specs.Outlined.{placed, Outlines};

use crate::job::Job;
use decimetre::corner::{Corner, Decimetre};
use plane::check::check;
use plane::outline::Outline;
use plane::refusal::Refusal;

/// The two checked outlines of a job.
#[derive(Drop)]
pub struct TwoOutlines<'a> {
    pub one: Outline<'a, Decimetre>,
    pub two: Outline<'a, Decimetre>,
}

/// Reads a job, and makes outlines of its corners, in places off the front of the store.
/// A refusal leaves the store as it was.
pub fn read_outlines<'a>(
    bytes: &[u8],
    store: &mut &'a mut [Corner],
) -> Result<TwoOutlines<'a>, Refusal>
    ensures answer { refused result ≡ placed (length store.old.now) (read_job bytes.now) }
    ensures kept { OnErr result (store.new ≡ store.old) }
    ensures held { IfOk result (λ made. Outlines (read_job bytes.now) made.one made.two) }
    ensures few { IfOk result (λ made. (length made.one ≤ most_corners) × (length made.two ≤ most_corners)) }
    ensures fine { IfOk result (λ made. AllByRecursion (Admitted exact) made.one × AllByRecursion (Admitted exact) made.two) }
    ensures rest { IfOk result (λ made. store.new.now ≡ drop (length made.one + length made.two) store.old.now) }
{
    let job = Job::read(bytes)?;
    let (first, second) = (job.one.as_slice(), job.two.as_slice());
    if store.len() < first.len() + second.len() {
        return Err(Refusal::NoPlace);
    }
    let one = check::<Decimetre>(first, store)?;
    let two = check::<Decimetre>(second, store)?;
    Ok(TwoOutlines { one, two })
}
