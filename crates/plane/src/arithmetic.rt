// The arithmetic that the generic code is written over.
ghost use Rattle.std.specs.Prelude.{◌≡◌};
ghost use Rattle.plane.specs.Meaning.{Meaning, Ordered};

use crate::answer::{End, Meet, Side};

/// An arithmetic brings its own kinds of raw pair, corner, mark (a position on an edge) and point.
/// Its value carries its tolerance. Asking alters nothing, and no question is refused.
// An edge is asked about by its two corners: handed over as an `Edge<Self::Corner>`, each impl would have to write the clauses below once more.
pub trait Arithmetic: Sized {
    type Raw: Copy;

    type Corner: Copy;

    type Mark: Copy;

    type Point: Copy;

    // What the questions below answer, one field each.
    ghost meaning: { Meaning Self Self.Raw Self.Corner Self.Mark Self.Point };

    /// The corner that a raw pair is admitted as, if it is.
    fn admitted(raw: Self::Raw) -> Option<Self::Corner>
        ensures { result ≡ meaning.admitted raw };

    /// On which side of the edge from a to b the corner c lies.
    fn side(&self, a: Self::Corner, b: Self::Corner, c: Self::Corner) -> Side
        ensures { result ≡ meaning.side self.now a b c };

    /// How the edges from a to b and from c to d meet.
    fn meet(
        &self,
        a: Self::Corner,
        b: Self::Corner,
        c: Self::Corner,
        d: Self::Corner,
    ) -> Meet<Self::Mark>
        ensures { result ≡ meaning.meet self.now a b c d };

    /// Whether m stands before n or level with it, as marks of one edge.
    fn not_after(&self, m: Self::Mark, n: Self::Mark) -> bool
        ensures { result ≡ meaning.not_after self.now m n };

    /// Whether the edge from a to b counts for the point p in the inside test.
    fn passed(&self, p: Self::Corner, a: Self::Corner, b: Self::Corner) -> bool
        ensures { result ≡ meaning.passed self.now p a b };

    /// To which side the direction from c to d turns from that from a to b.
    fn turn(&self, a: Self::Corner, b: Self::Corner, c: Self::Corner, d: Self::Corner) -> Side
        ensures { result ≡ meaning.turn self.now a b c d };

    /// Whether these directions have a negative dot product.
    fn against(&self, a: Self::Corner, b: Self::Corner, c: Self::Corner, d: Self::Corner) -> bool
        ensures { result ≡ meaning.against self.now a b c d };

    /// The end of its edge at which a mark stands, if it stands at one.
    fn end_of(&self, m: Self::Mark) -> Option<End>
        ensures { result ≡ meaning.end_of self.now m };

    /// The point of a mark on the edge from a to b.
    fn point_at(&self, a: Self::Corner, b: Self::Corner, m: Self::Mark) -> Self::Point
        ensures { result ≡ meaning.point_at self.now a b m };

    /// The point of a corner.
    fn point_of(&self, c: Self::Corner) -> Self::Point
        ensures { result ≡ meaning.point_of self.now c };

    ghost ordered: { (a : Self) → Ordered meaning a };
}
