ghost use Rattle.std.specs.Prelude.{◌≡◌, ℕ, ◌<◌, sum_by, if◌then◌else◌, Bool, Option, true};
ghost use Rattle.model_history.specs.Table.{identity_limit, identities};
ghost use Rattle.model_history.specs.Texts.{Text};
ghost use Rattle.model_history.specs.History.{History, Stamped, IsPartOf, IsHistory, IsExactlyPruned, is_pruned};
ghost use Rattle.model_meanings.specs.Counter.{brought, share, total};
ghost use Rattle.model_meanings.specs.Growing.{Assignment, added_elements, has_operation, winning_text, TimestampsFollowPasts, HasPassing, TellsPassing};
ghost use Rattle.model_meanings.specs.ObservedRemove.{SetOperations, live_elements, TouchesFollowPasts, LivesUntouched};
ghost use Rattle.model_meanings.specs.Prunes.{after_prune, IsKeptByPrunes};

/// Nothing is lost or doubled by a prune: the shares of the identities without a prune add up to the total.
pub fn shares_add_up<Operation>()
    ensures { (amount : Operation → ℕ) (H : History Operation) → IsHistory H → IsExactlyPruned H
        → sum_by (λ i. if is_pruned H i then 0 else share amount H i) identities ≡ total amount H }
{}

/// What meanings by recursion on pasts say: each is what its definition says of a history, with itself in the pasts of the history's records. So nobody has to believe how deep the recursion goes.
/// A share is what the identity's records bring, and a prune brings the share in its own past.
/// A timestamp is the one after the greatest in the record's past.
/// A record touches an element by its operation, and a prune by a live adding record of the pruned identity in the prune's past.
pub fn meanings_by_pasts<Operation>()
    ensures share { (amount : Operation → ℕ) (H : History Operation) → IsHistory H → (i : ℕ) → share amount H i ≡ sum_by (brought amount (share amount) H) (H i) }
    ensures timestamp { (assigned : Operation → Option Assignment) (H : History Operation) → IsHistory H → TimestampsFollowPasts assigned H }
    ensures touches { (operations : SetOperations Operation) (e : Text) (H : History Operation) → IsHistory H → TouchesFollowPasts operations e H }
    ensures live { (operations : SetOperations Operation) (e : Text) (H : History Operation) (x : Stamped Operation) → LivesUntouched operations e H x }
{}

/// An operation that a history has stays: each history that holds it has the operation too. And there is an operation that passes a test exactly where some record is one.
pub fn operations_stay<Operation>()
    ensures stays { (test : Operation → Bool) (H J : History Operation) → IsPartOf H J → has_operation test H ≡ true → has_operation test J ≡ true }
    ensures is { (test : Operation → Bool) (H : History Operation) → has_operation test H ≡ true → HasPassing test H }
    ensures has { (test : Operation → Bool) (H : History Operation) → IsHistory H → TellsPassing test H }
{}

/// A prune changes nothing at its moment: whoever prunes whom, the history means what it meant before.
/// It adds nothing, writes nothing, and what was live of the pruned identity is live of the owner.
pub fn prunes_mean_nothing_new<Operation>()
    ensures total { (amount : Operation → ℕ) (H : History Operation) (owner removed : ℕ) → owner < identity_limit → total amount (after_prune H owner removed) ≡ total amount H }
    ensures elements { (added : Operation → Option Text) (H : History Operation) (owner removed : ℕ) → owner < identity_limit → added_elements added (after_prune H owner removed) ≡ added_elements added H }
    ensures operation { (test : Operation → Bool) (H : History Operation) (owner removed : ℕ) → has_operation test (after_prune H owner removed) ≡ has_operation test H }
    ensures text { (assigned : Operation → Option Assignment) (H : History Operation) → IsKeptByPrunes (winning_text assigned) H }
    ensures live { (operations : SetOperations Operation) (H : History Operation) → IsKeptByPrunes (live_elements operations) H }
{}
