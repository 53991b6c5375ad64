ghost use Rattle.model_kinds.specs.declared.shown.Shown.{Shown};
ghost use Rattle.model_members.specs.DataType.{Replication};
ghost use Rattle.theorem_notices.specs.Notices.{NoticesFollow, SubscribersBeginUntold};
ghost use Rattle.theorem_notices.specs.Worked.{NoticesAreMet};

/// In the run of a script with subscriptions, whatever the keepers answer: from any moment on, through any steps that a client
/// goes on following a key at a member, its notices follow what the member holds of the key (`IsTold`).
/// - At each flush of the member that is done, a notice comes exactly where the member has a record of the key and what it then
///   holds means something else than what the client was told; it is that meaning.
/// - The histories whose meanings it is told rise, and successive notices differ.
/// - The last one is what was shown at the last flush at which there was a record.
pub fn notices_follow_what_is_held<Kind, Operation>()
    ensures { (D : Replication Kind Operation Shown) → NoticesFollow D }
{}

/// Who subscribes anew follows the key from then on, and was told nothing.
pub fn subscribing_begins_untold<Kind, Operation>()
    ensures { (D : Replication Kind Operation Shown) → SubscribersBeginUntold D }
{}

/// There is a script that meets every premise: a client subscribes anew, goes on following the key, and gets two notices.
pub fn notices_are_met()
    ensures { NoticesAreMet }
{}
