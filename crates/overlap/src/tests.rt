// What is printed of a job and of a refusal.
use crate::look::{Found, look};
use plane::refusal::Refusal;
use std::test::Fail;

#[test]
fn refusals_print_their_number_and_place(rt: HostRuntime) -> Result<(), Fail> {
    let placed = format!(in rt.alloc(); "{}", Refusal::CutShort(12))?;
    assert_eq!(rt; placed.as_str(), "refused 13 12");
    let plain = format!(in rt.alloc(); "{}", Refusal::NoCorners)?;
    assert_eq!(rt; plain.as_str(), "refused 1 0");
    Ok(())
}

#[test]
fn what_is_found_prints_in_two_lines(rt: HostRuntime) -> Result<(), Fail> {
    let found = Found {
        one: 3,
        two: 4,
        crossings: 6,
    };
    let [corners, crossings] = found.lines();
    let first = format!(in rt.alloc(); "{corners}")?;
    assert_eq!(rt; first.as_str(), "corners 3 4");
    let second = format!(in rt.alloc(); "{crossings}")?;
    assert_eq!(rt; second.as_str(), "crossings 6");
    assert_eq!(rt; look(&[]).err(), Some(Refusal::CutShort(0)));
    Ok(())
}
