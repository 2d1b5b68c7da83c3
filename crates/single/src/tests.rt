// Edges that meet, and corners and tolerances that are refused.
use crate::corner::{Corner, Mark, Pair, Weights};
use crate::segments_intersection::segments_intersection2d;
use crate::tolerance::Single;
use plane::answer::Meet;
use plane::check;
use plane::refusal::Refusal;

fn corner(x: f32, y: f32) -> Corner {
    Corner { x, y }
}

const MIDDLE: Mark = Mark::Inside(Weights {
    before: 0.5,
    behind: 0.5,
});

#[test]
fn diagonals_cross_in_the_middle(rt: HostRuntime) {
    let (a, b) = (corner(0.0, 0.0), corner(2.0, 2.0));
    let (c, d) = (corner(0.0, 2.0), corner(2.0, 0.0));
    let met = segments_intersection2d(a, b, c, d, 0.0);
    assert_eq!(rt; met, Meet::Crossing(MIDDLE, MIDDLE));
}

#[test]
fn halves_overlap(rt: HostRuntime) {
    let (a, b) = (corner(0.0, 0.0), corner(4.0, 0.0));
    let (c, d) = (corner(2.0, 0.0), corner(6.0, 0.0));
    let met = segments_intersection2d(a, b, c, d, 0.0);
    assert_eq!(rt; met, Meet::Overlap(MIDDLE, Mark::Start, Mark::End, MIDDLE));
}

#[test]
fn what_is_no_number_is_refused(rt: HostRuntime) {
    assert!(rt; Single::new(f32::NAN).is_err());
    assert!(rt; Single::new(1.5).is_err());
    assert!(rt; Single::new(1.0).is_ok());
    let mut places = [corner(0.0, 0.0); 2];
    let mut store = &mut places[0..2];
    let pairs = [
        Pair { x: 1.0, y: 2.0 },
        Pair {
            x: f32::NAN,
            y: 0.0,
        },
    ];
    let answer = check::check::<Single>(&pairs, &mut store);
    assert_eq!(rt; answer.err(), Some(Refusal::NotAdmitted(1)));
    assert_eq!(rt; store.len(), 2);
    let none = check::check::<Single>(&pairs[..0], &mut store);
    assert!(rt; none.is_ok_and(|ring| ring.corners().len() == 0));
}
