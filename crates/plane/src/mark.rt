// Positions on an edge, and what edges of one line have in common.
ghost use Rattle.std.specs.Prelude.{◌≡◌};
ghost use Rattle.plane.specs.Marks.{end_of, overlap_of};

use crate::answer::{End, Meet};

/// A position on an edge: at one of its ends, or inside it, where an arithmetic has its own way to say how far along.
#[derive(Clone, Copy, PartialEq, Eq, Debug)]
pub enum Mark<P> {
    Start,
    Inside(P),
    End,
}

impl<P> Mark<P> {
    /// The end of its edge at which the mark stands, if it stands at one.
    pub fn end(&self) -> Option<End>
        ensures { result ≡ end_of self.now }
    {
        match self {
            Mark::Start => Some(End::Start),
            Mark::Inside(_) => None,
            Mark::End => Some(End::Finish),
        }
    }
}

/// How two edges of one line overlap, by where c and d lie on the edge ab, and a and b on the edge cd: the first pair that is there.
pub fn overlap<P: Copy>(
    ab_c: Option<Mark<P>>,
    ab_d: Option<Mark<P>>,
    cd_a: Option<Mark<P>>,
    cd_b: Option<Mark<P>>,
) -> Meet<Mark<P>>
    ensures { result ≡ overlap_of ab_c ab_d cd_a cd_b }
{
    match (ab_c, ab_d, cd_a, cd_b) {
        (Some(loc1), Some(loc2), _, _) => Meet::Overlap(loc1, Mark::Start, loc2, Mark::End),
        (_, _, Some(loc1), Some(loc2)) => Meet::Overlap(Mark::Start, loc1, Mark::End, loc2),
        (Some(loc1), _, _, Some(loc2)) => Meet::Overlap(loc1, Mark::Start, Mark::End, loc2),
        (Some(loc1), _, Some(loc2), _) => Meet::Overlap(loc1, Mark::Start, Mark::Start, loc2),
        (_, Some(loc1), _, Some(loc2)) => Meet::Overlap(loc1, Mark::End, Mark::End, loc2),
        (_, Some(loc1), Some(loc2), _) => Meet::Overlap(loc1, Mark::End, Mark::Start, loc2),
        _ => Meet::Apart,
    }
}
