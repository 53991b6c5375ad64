ghost use Rattle.std.specs.Prelude.{◌≡◌, ◌∷◌, [], ℕ, List, map, true, false, Option, None, codes};
ghost use Rattle.model_history.specs.Texts.{Text};
ghost use Rattle.model_history.specs.History.{History};
ghost use Rattle.model_kinds.specs.declared.shown.Shown.{Shown};
ghost use Rattle.model_members.specs.DataType.{DataType};
ghost use Rattle.member_desk.specs.Histories.{SubscribesAsMeant, UnsubscribesAsMeant};
ghost use Rattle.member_desk.specs.declared.followed.Followed.{Followed};
ghost use Rattle.member_desk.specs.Subscriptions.{AreInOrder, is_subscribed, with_subscription, without_subscription, told_to, TouchesOne, BeginsUntold};
ghost use Rattle.member_desk.specs.Notices.{notices_of};
ghost use Rattle.member_desk.specs.Rows.{as_it_is, nothing, five, subscribed, flushed_once, flushed_twice, the_notice};
ghost use Rattle.member_desk.specs.Successive.{tellings, Differ, SaysTellings, EndsAsFound, TellingsRise};

/// Who subscribes anew was told nothing; a subscription that stands stays as it is; and no other is touched.
pub fn subscribing_touches_one<Value>()
    ensures fresh { (desk : List (Followed Value)) → BeginsUntold desk }
    ensures standing { (desk : List (Followed Value)) (key : Text) (client : ℕ) → AreInOrder desk → is_subscribed desk key client ≡ true → with_subscription desk key client ≡ desk }
    ensures others { (desk : List (Followed Value)) → TouchesOne with_subscription desk }
{}

/// A subscription that ends takes with it what its client was told, and no other is touched.
pub fn unsubscribing_ends_one<Value>()
    ensures ended { (desk : List (Followed Value)) (key : Text) (client : ℕ) → AreInOrder desk → told_to (without_subscription desk key client) key client ≡ None }
    ensures others { (desk : List (Followed Value)) → TouchesOne without_subscription desk }
{}

/// What a desk says to a client of a key at flush after flush, by what is found at the key: each notice shows something else than
/// the one before it, and the last one shows what was found last.
pub fn notices_follow_what_is_found<Value>()
    ensures said { (shows : Text → Value → Shown) (desk : List (Followed Value)) → SaysTellings shows desk }
    ensures differ { (shows : Text → Value → Shown) (key : Text) (told : Option Value) (found : List (Option Value)) → Differ (map (shows key) (tellings shows key told found)) }
    ensures last { (shows : Text → Value → Shown) (key : Text) (told : Option Value) (found : List (Option Value)) → EndsAsFound shows key told found }
{}

/// The histories of one subscription's notices rise where those that the member holds do.
pub fn histories_of_notices_rise<Operation>()
    ensures { (shows : Text → History Operation → Shown) (key : Text) → TellingsRise shows key }
{}

/// A desk that stands for one of the model does so after a client subscribed, and after a subscription ended.
pub fn subscriptions_stand<Kind, Operation>()
    ensures with_one { (data_type : DataType Kind Operation Shown) (kinds : Text → Kind) (logs : Text → History Operation) → SubscribesAsMeant data_type kinds logs }
    ensures without_one { (data_type : DataType Kind Operation Shown) (kinds : Text → Kind) (logs : Text → History Operation) → UnsubscribesAsMeant data_type kinds logs }
{}

/// A worked subscription: no notice before there is a record, one when it has come, none at the next flush; subscribed again it
/// stands, another client's is none, and after an unsubscribe nobody follows the key.
pub fn worked_subscription()
    ensures before { notices_of as_it_is nothing subscribed ≡ [] }
    ensures once { notices_of as_it_is five flushed_once ≡ the_notice ∷ [] }
    ensures again { notices_of as_it_is five flushed_twice ≡ [] }
    ensures standing { is_subscribed subscribed (codes "n") 7 ≡ true }
    ensures other { is_subscribed subscribed (codes "n") 2 ≡ false }
    ensures ended { without_subscription flushed_twice (codes "n") 7 ≡ [] }
{}
