ghost use Rattle.model_history.specs.Texts.{Text};
ghost use Rattle.model_members.specs.DataType.{Replication};
ghost use Rattle.theorem_settling.specs.Settling.{BlockedStays};
ghost use Rattle.theorem_headline.specs.Headline.{DigestsTellThroughout, ReportsHaveHeadline};
ghost use Rattle.theorem_headline.specs.Worked.{HeadlineIsMet};

/// Whatever the script, the keepers' answers and the schedule of its clients: all that the headline says holds of each run
/// that a report tells. Of the data type it asks that what blocks a prune goes on blocking it.
pub fn the_headline<Kind, Operation, Shown>()
    ensures { (D : Replication Kind Operation Shown) → BlockedStays D → (value_text : Shown → Text) → ReportsHaveHeadline D value_text (DigestsTellThroughout D) }
{}

/// There is a script with clients that meets every premise, those within its parts too: a client sees its majority update done
/// and makes a majority get, which tells a value; a member leaves, and the other two settle and prune it, while digests tell
/// entries apart; an input is refused.
pub fn the_headline_is_met()
    ensures { HeadlineIsMet }
{}
