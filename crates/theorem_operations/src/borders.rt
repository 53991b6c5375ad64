ghost use Rattle.theorem_operations.specs.Borders.{BegunAfterSuccess, BegunBeforeSuccess, OneOnAnOldView, CapLowersNothing, CapRaises, QuorumPremises, FinishingPremises, ScriptPremises};

/// What the model makes of small scripts at the borders of the quorum theorem: a read that begins before the write's success
/// may miss it, and so may one where a member isn't on the last view; a cap raises how many members are needed, and lowers
/// nothing. The premises of the theorems can be met.
pub fn borders_of_quorums()
    ensures begun_after_success { BegunAfterSuccess }
    ensures begun_before_success { BegunBeforeSuccess }
    ensures one_on_an_old_view { OneOnAnOldView }
    ensures cap_lowers_nothing { CapLowersNothing }
    ensures cap_raises { CapRaises }
    ensures quorum_premises { QuorumPremises }
    ensures finishing_premises { FinishingPremises }
    ensures script_premises { ScriptPremises }
{}
