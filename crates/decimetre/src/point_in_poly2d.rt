// A round of the inside test.
ghost use Rattle.std.specs.Prelude.{◌≡◌, false, pos, if◌then◌else◌, int_lt};
ghost use Rattle.decimetre.specs.Exact.{passed_at};

use crate::corner::Corner;
use crate::math::Measure;

// Whether the edge counts: by whether it starts at the point's height or below, and ends above it.
fn counts(starts: bool, ends: bool, perp: Measure) -> bool
    ensures { result ≡ (if starts then (if ends then int_lt perp (pos 0) else false) else (if ends then false else int_lt (pos 0) perp)) }
{
    match (starts, ends) {
        (true, true) => perp < Measure::ZERO,
        (false, false) => perp > Measure::ZERO,
        _ => false,
    }
}

/// Whether the edge from a to b counts for the point p, false where one of them is not near.
pub fn passed(p: Corner, a: Corner, b: Corner) -> bool
    ensures { result ≡ passed_at p a b }
{
    let (Some(p), Some(a), Some(b)) = (p.near(), a.near(), b.near()) else {
        return false;
    };
    let seg_dir = b - a;
    let dpt = p - a;
    let perp = dpt.perp_dot(seg_dir);
    counts(dpt.y >= 0, b.y > p.y, perp)
}
