// What the takers come to over many events.
ghost use Rattle.takers.specs.Laws.{ListHolds, TallyAdds, CapsAt};

/// The laws above the rules: a list that accepted events holds what it held, then those; a tally has what it had and their counts;
/// a cap of k accepts exactly the first k that its taker accepts.
#[tactic(auto, using(crate::proofs::Holding::list_holds, crate::proofs::Holding::tally_adds, crate::proofs::Holding::caps_at))]
pub fn takers_stand<S>()
    ensures list { ListHolds }
    ensures tally { TallyAdds }
    ensures cap { CapsAt S }
{}
