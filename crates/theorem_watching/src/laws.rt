ghost use Rattle.model_members.specs.DataType.{Replication};
ghost use Rattle.model_kinds.specs.declared.shown.Shown.{Shown};
ghost use Rattle.theorem_watching.specs.Watching.{ChangesNothing};
ghost use Rattle.theorem_watching.specs.Rows.{Notices, RefusedRequests, AfterMerge, AfterGossip, SameValue, DeletedKey, EndedByRemove, EndedByRestart, SubscribedAgain, InOrder};

/// What the model makes of worked scripts with subscriptions.
pub fn worked_subscriptions()
    ensures notices { Notices }
    ensures refused_requests { RefusedRequests }
    ensures after_merge { AfterMerge }
    ensures after_gossip { AfterGossip }
    ensures same_value { SameValue }
    ensures deleted_key { DeletedKey }
    ensures ended_by_remove { EndedByRemove }
    ensures ended_by_restart { EndedByRestart }
    ensures subscribed_again { SubscribedAgain }
    ensures in_order { InOrder }
{}

/// Subscriptions change nothing of a run: what the members do is what they do in the script of the other steps.
pub fn subscriptions_change_nothing<Kind, Operation>()
    ensures { (D : Replication Kind Operation Shown) → ChangesNothing D }
{}
