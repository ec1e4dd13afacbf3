// Laws of the definitions. Each function does nothing; its contract is the law.
ghost use Rattle.bay_diagram.specs.Joined.{JoinedGrows, JoinedIsWalk};
ghost use Rattle.bay_diagram.specs.Laws.{HazardsAreBounded, HazardsAreExact, HazardsGrow, ShownBest, ShownGrows, ShownIsHazard};
ghost use Rattle.bay_diagram.specs.Reading.{ReadingsBound};

/// Two nodes are joined if and only if a walk leads from one to the other, and more branches join
/// what fewer join.
pub fn joined_is_a_walk()
    ensures walk { JoinedIsWalk }
    ensures grows { JoinedGrows }
{}

/// Where less is known, each hazard is one still. What is known in a process of a case lies between
/// the best and the worst of the case, and so do its hazards. In a case that allows one process
/// alone, its hazards are those of the process.
pub fn hazards_grow()
    ensures grow { HazardsGrow }
    ensures readings { ReadingsBound }
    ensures bounded { HazardsAreBounded }
    ensures exact { HazardsAreExact }
{}

/// A hazard that is shown is one. Where less is known, it is shown still, by the same walks: so
/// what the best that can be known in a case shows, each process of the case shows.
pub fn shown_is_hazard()
    ensures hazard { ShownIsHazard }
    ensures grows { ShownGrows }
    ensures best { ShownBest }
{}
