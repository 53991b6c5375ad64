ghost use Rattle.model_members.specs.DataType.{Replication};
ghost use Rattle.theorem_digests.specs.Digests.{MakesFewSteps, WhateverIsSpelled, WhereDigestsSpell, SpellingsTell, DistinctDigestsTell, ScriptsAgreeByDigests};
ghost use Rattle.theorem_digests.specs.Borders.{SettlePremises};

/// In a run, what a member spells of a key tells which history and which marks of it the member has: two running members
/// whose spellings are equal have the same.
pub fn spellings_tell<Kind, Operation, Shown>()
    ensures { (D : Replication Kind Operation Shown) → MakesFewSteps D → WhateverIsSpelled (SpellingsTell D) }
{}

/// In a run, digests that are the SHA-1 of spellings tell the entries that running members have of one key apart, where no
/// two different spellings of them have one SHA-1.
pub fn distinct_digests_tell<Kind, Operation, Shown>()
    ensures { (D : Replication Kind Operation Shown) → MakesFewSteps D → WhereDigestsSpell D (DistinctDigestsTell D) }
{}

/// What the settles of a script tell is so: a settle that tells that it is done sent at most 12 messages for each member of
/// the last view but the leader, its second number is how many outcomes of its second tick are `Blocked`, and it leaves a
/// settled world, where digests are distinct until it is done. What blocks an owner's prune has to go on blocking it when
/// the owner prunes another identity.
pub fn settles_agree_by_digests<Kind, Operation, Shown>()
    ensures { (D : Replication Kind Operation Shown) → MakesFewSteps D → WhereDigestsSpell D (ScriptsAgreeByDigests D) }
{}

/// There is a script with a settle that is done, where the premises of the settle theorem hold until then: of digests that
/// are the spellings themselves, with one removed identity, which the settle prunes.
pub fn settle_premises_are_met()
    ensures { SettlePremises }
{}
