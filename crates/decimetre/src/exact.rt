// The exact arithmetic: its answers to the questions that the generic code asks.
ghost use Rattle.decimetre.specs.Exact.{exact};
ghost use Rattle.decimetre.specs.Laws;

use crate::corner::{Corner, Decimetre, Mark, Pair, Point};
use crate::segments_intersection::segments_intersection2d;
use crate::triangle::orientation2d;
use crate::{admit, direction, order, point_in_poly2d, segment};
use plane::answer::{End, Meet, Side};
use plane::arithmetic::Arithmetic;

impl Arithmetic for Decimetre {
    type Raw = Pair;

    type Corner = Corner;

    type Mark = Mark;

    type Point = Point;

    ghost meaning = { exact };

    ghost ordered = { Laws.ordered };

    fn admitted(raw: Pair) -> Option<Corner> {
        admit::admitted(raw)
    }

    fn side(&self, a: Corner, b: Corner, c: Corner) -> Side {
        orientation2d(a, b, c)
    }

    fn meet(&self, a: Corner, b: Corner, c: Corner, d: Corner) -> Meet<Mark> {
        segments_intersection2d(a, b, c, d)
    }

    fn not_after(&self, m: Mark, n: Mark) -> bool {
        order::not_after(m, n)
    }

    fn passed(&self, p: Corner, a: Corner, b: Corner) -> bool {
        point_in_poly2d::passed(p, a, b)
    }

    fn turn(&self, a: Corner, b: Corner, c: Corner, d: Corner) -> Side {
        direction::turn(a, b, c, d)
    }

    fn against(&self, a: Corner, b: Corner, c: Corner, d: Corner) -> bool {
        direction::against(a, b, c, d)
    }

    fn end_of(&self, m: Mark) -> Option<End> {
        m.end()
    }

    fn point_at(&self, a: Corner, b: Corner, m: Mark) -> Point {
        segment::to_point(a, b, m)
    }

    fn point_of(&self, c: Corner) -> Point {
        Point::from(c)
    }
}
