// A round of the inside test.
ghost use Rattle.std.specs.Prelude.{◌≡◌};
ghost use Rattle.single.specs.Triangle.{passed_of};

use crate::corner::Corner;

/// Whether the edge from a to b counts for the point pt.
pub fn passed(pt: Corner, a: Corner, b: Corner) -> bool
    ensures { result ≡ passed_of pt a b }
{
    let seg_dir = b - a;
    let dpt = pt - a;
    let perp = dpt.perp_dot(seg_dir);
    match (dpt.y >= 0.0, b.y > pt.y) {
        (true, true) => perp < 0.0,
        (false, false) => perp > 0.0,
        _ => false,
    }
}
