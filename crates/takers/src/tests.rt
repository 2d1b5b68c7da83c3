// The takers at their limits.
use crate::cap::Cap;
use crate::list::EventList;
use crate::taker::Taker;
use crate::tally::Tally;
use plane::refusal::Refusal;
use plane::ring::Ring;
use rules::event::Event;
use rules::totals::Totals;

const CROSSING: Event = Event::Crossing {
    id: 7,
    one: 1,
    two: 2,
};

const CORNER: Event = Event::Corner {
    ring: Ring::Two,
    index: 3,
};

#[test]
fn a_count_stops_at_its_most(rt: HostRuntime) {
    let mut tally = Tally::from(Totals {
        loops: u32::MAX,
        crossings: 0,
        corners: u32::MAX - 1,
    });
    assert_eq!(rt; tally.take(Event::Closing), Err(Refusal::NoPlace));
    assert!(rt; tally.take(CORNER).is_ok());
    assert_eq!(rt; tally.ask(CORNER), Err(Refusal::NoPlace));
    assert!(rt; tally.take(CROSSING).is_ok());
    let counted = Totals {
        loops: u32::MAX,
        crossings: 1,
        corners: u32::MAX,
    };
    assert_eq!(rt; tally.totals(), counted);
}

#[test]
fn a_full_list_and_a_spent_cap_refuse(rt: HostRuntime) {
    let mut places = [Event::Closing; 2];
    let mut list = EventList::new(&mut places);
    assert!(rt; list.take(CROSSING).is_ok());
    assert!(rt; list.take(CORNER).is_ok());
    assert_eq!(rt; list.take(CORNER), Err(Refusal::NoPlace));
    assert_eq!(rt; list.events().len(), 2);
    let mut none = Cap::new(0, Tally::new());
    assert_eq!(rt; none.take(CORNER), Err(Refusal::LimitReached));
    let mut one = Cap::new(1, Tally::new());
    assert!(rt; one.take(CORNER).is_ok());
    assert_eq!(rt; one.ask(CORNER), Err(Refusal::LimitReached));
    assert_eq!(rt; one.into_inner().totals().corners, 1);
}
