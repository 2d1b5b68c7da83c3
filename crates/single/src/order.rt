// Where marks stand on their edge.
ghost use Rattle.std.specs.Prelude.{◌≡◌};
ghost use Rattle.single.specs.Marks.{not_after};

use crate::corner::Mark;
use crate::segment::centered_bcoords;

// No derived order: not-a-number is level with itself here.
/// Whether m stands before n or level with it, as marks of one edge; not-a-number comes last and is level with itself.
pub fn not_after(m: Mark, n: Mark) -> bool
    ensures { result ≡ not_after m n }
{
    let (m, n) = (centered_bcoords(m), centered_bcoords(n));
    n.is_nan() || m <= n
}
