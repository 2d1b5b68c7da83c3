// Edges that meet, and the farthest corner.
use crate::admit::admitted;
use crate::corner::{Corner, Fraction, Mark, Pair};
use crate::segments_intersection::segments_intersection2d;
use plane::answer::Meet;

fn corner(x: i32, y: i32) -> Corner {
    Corner { x, y }
}

fn inside(upper: u32, lower: u32) -> Mark {
    Mark::Inside(Fraction { upper, lower })
}

#[test]
fn edges_cross_inside(rt: HostRuntime) {
    let meet = segments_intersection2d(corner(0, 0), corner(2, 0), corner(1, -1), corner(1, 1));
    assert_eq!(rt; meet, Meet::Crossing(inside(2, 4), inside(2, 4)));
}

#[test]
fn an_edge_starts_on_another(rt: HostRuntime) {
    let meet = segments_intersection2d(corner(0, 0), corner(2, 0), corner(1, 0), corner(1, 1));
    assert_eq!(rt; meet, Meet::Crossing(inside(1, 2), Mark::Start));
}

#[test]
fn parallel_edges_are_apart(rt: HostRuntime) {
    let meet = segments_intersection2d(corner(0, 0), corner(2, 0), corner(0, 1), corner(2, 1));
    assert_eq!(rt; meet, Meet::Apart);
}

#[test]
fn edges_of_one_line_overlap(rt: HostRuntime) {
    let meet = segments_intersection2d(corner(0, 0), corner(4, 0), corner(1, 0), corner(3, 0));
    assert_eq!(rt;
        meet,
        Meet::Overlap(inside(1, 4), Mark::Start, inside(3, 4), Mark::End)
    );
}

#[test]
fn the_farthest_corner_is_admitted(rt: HostRuntime) {
    let (x, y) = (16384, -16384);
    assert_eq!(rt; admitted(Pair { x, y }), Some(corner(x, y)));
    assert_eq!(rt; admitted(Pair { x: 16385, y: 0 }), None);
}
