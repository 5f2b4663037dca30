//! What the contracts' words imply, for callers' contracts.
ghost use Rattle.turn_lock.specs.Laws.{LegalIsReplayed, EachPlaceKeepsTheRules};

/// Does nothing, and tells contracts that a legal history replays.
pub fn legal_is_replayed()
    ensures { LegalIsReplayed }
{}

/// Does nothing, and tells contracts that the state keeps its rules at each place of a legal history.
pub fn each_place_keeps_the_rules()
    ensures { EachPlaceKeepsTheRules }
{}
