ghost use Rattle.std.specs.Prelude.{◌≡◌, ◌↔◌, ℕ, ◌<◌, ◌≤◌, ◌+◌, Some};
ghost use Rattle.model_history.specs.History.{History, at, IsPartOf, IsHistory};
ghost use Rattle.model_members.specs.Entry.{Entry, Group, IsGroupOf, judged};
ghost use Rattle.model_members.specs.Entry.Judgement.{Stale};
ghost use Rattle.model_members.specs.View.{View, leader};
ghost use Rattle.model_members.specs.DataType.{Replication};
ghost use Rattle.model_members.specs.Node.{Node, Input, Level, needed};
ghost use Rattle.model_members.specs.Node.Fate.{StoreFailed};
ghost use Rattle.model_members.specs.Node.Reply.{NotStored};
ghost use Rattle.model_members.specs.Step.{step};
ghost use Rattle.model_members.specs.Relations.{IsWantedAfterPasts, NamesLeastLacking, HasNoOthers, IsUnchangedInParts, IsUnchangedAsWhole};
ghost use Rattle.model_members.specs.Tellings.{TellsFailedUpdates, TellsFailedTakes, TellsFailedTick, RefusalsChangeNothing, RefusalsChangeNoEntry, RefusalsSendNothing, UpdatesTellDeleted, GetsTellDeleted};

/// A group is wanted exactly where it brings news and no record is lacking that stands before it: none that precedes one of the group's records and isn't in the group.
/// It is stale exactly where it brings no news. Else the judgement names the least identity of which such a record is lacking.
pub fn groups_are_taken_after_pasts<Operation>()
    ensures wanted { (log : History Operation) (entry : Entry Operation) (group : Group Operation) → IsHistory log → IsGroupOf log group → IsWantedAfterPasts entry group }
    ensures stale { (entry : Entry Operation) (group : Group Operation) → (judged entry group ≡ Stale) ↔ (group.upto ≤ at entry.history group.origin) }
    ensures missing { (log : History Operation) (entry : Entry Operation) (group : Group Operation) (i : ℕ) → IsHistory log → NamesLeastLacking entry group log i }
{}

/// An entry whose history only grew is unchanged exactly where its history and its marks are the same.
/// Marks are compared at identities: where nothing else is marked and has seen a mark, unchanged entries are equal.
pub fn unchanged_entries_are_the_same<Operation>()
    ensures parts { (old new : Entry Operation) → IsPartOf old.history new.history → HasNoOthers new.history → IsUnchangedInParts old new }
    ensures whole { (old new : Entry Operation) → IsPartOf old.history new.history → HasNoOthers new.history → IsUnchangedAsWhole old new }
{}

/// All members are needed by the level of all. A majority is more than half of the members, so any two share one; it is never
/// less than its cap, where there are as many members.
pub fn levels_need()
    ensures all { (members : ℕ) → needed Level.All members ≡ Some members }
    ensures majority { (cap members : ℕ) → (n : ℕ) × (needed (Level.Majority cap) members ≡ Some n) × (n ≤ members) × (0 < members → members < n + n) × (cap ≤ members → cap ≤ n) }
{}

/// A store that fails is told: by an update, which is then neither done nor pending; by a message with entries or groups; by
/// an install of a later view; and by the leader's tick.
pub fn failed_stores_are_told<Kind, Operation, Shown>()
    ensures update { (D : Replication Kind Operation Shown) (node : Node Kind Operation Shown) → TellsFailedUpdates D node }
    ensures take { (D : Replication Kind Operation Shown) (node : Node Kind Operation Shown) → TellsFailedTakes D node }
    ensures install { (D : Replication Kind Operation Shown) (node : Node Kind Operation Shown) (view : View) → node.view.number < view.number
        → (step D node (Input.Install view) StoreFailed).output.reply ≡ NotStored }
    ensures tick { (D : Replication Kind Operation Shown) (node : Node Kind Operation Shown) → leader node.view ≡ node.identity → TellsFailedTick D node }
{}

/// A refused input changes no entry: nothing of the member but its count of steps, and nothing is sent. That a store failed is
/// no refusal: there the entry has changed, and is told as not stored.
pub fn refusals_change_no_entry<Kind, Operation, Shown>()
    ensures all { (D : Replication Kind Operation Shown) (node : Node Kind Operation Shown) → RefusalsChangeNothing D node }
    ensures entries { (D : Replication Kind Operation Shown) (node : Node Kind Operation Shown) → RefusalsChangeNoEntry D node }
    ensures silent { (D : Replication Kind Operation Shown) (node : Node Kind Operation Shown) → RefusalsSendNothing D node }
{}

/// A deleted key can't be used again. An update of a declared key is answered `Deleted` exactly where the key's history has a
/// delete, whatever the operation and the level; and so is a get that needs nobody else, where the key has a record.
pub fn deleted_keys_are_told<Kind, Operation, Shown>()
    ensures update { (D : Replication Kind Operation Shown) (node : Node Kind Operation Shown) → UpdatesTellDeleted D node }
    ensures get { (D : Replication Kind Operation Shown) (node : Node Kind Operation Shown) → GetsTellDeleted D node }
{}
