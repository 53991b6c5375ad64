ghost use Rattle.std.specs.Prelude.{◌≡◌, ◌||◌, ℕ, List, []};
ghost use Rattle.std.specs.Str.{bytes_eq};
ghost use Rattle.model_history.specs.Texts.{Text};
ghost use Rattle.model_members.specs.DataType.{Replication};
ghost use Rattle.model_members.specs.Message.{Message, part_of};
ghost use Rattle.model_members.specs.Node.{KeyDecl, with_key, Node, Fate, one_step_later};
ghost use Rattle.model_members.specs.Node.Input.{Take, GossipTo};
ghost use Rattle.model_members.specs.Node.Fate.{NoStore};
ghost use Rattle.model_members.specs.Node.Reply.{NotAPeer};
ghost use Rattle.model_members.specs.Step.{step, answered};
ghost use Rattle.model_members.specs.World.{FitsFate, loaded_node};
ghost use Rattle.theorem_declaring.specs.Parts.{knows, IsPart, UsesOnly, SpeaksOf, MakesSameStep, StaysPart, OfStepsInPart, GrowsByNext, RefusesOtherKeys, OfNewParts, IsSameAsPart};

/// Where all that an input says of keys is of declared ones, a member with a part of the keys makes the step of one with all: it
/// answers the same, is the same member afterwards, but for its keys, and has the same entries to store.
pub fn parts_make_the_same_steps<Kinds, Operation, Value>()
    ensures { (D : Replication Kinds Operation Value) → OfStepsInPart (MakesSameStep D) }
{}

/// After such a step nothing is held of the other keys either, and what is stored of them is as it was. What a message says of
/// some keys speaks of these alone.
pub fn parts_stay_parts<Kinds, Operation, Value>()
    ensures stay { (D : Replication Kinds Operation Value) → OfStepsInPart (StaysPart D) }
    ensures speak { (keys : List (KeyDecl Kinds)) (from : ℕ) (message : Message Operation) → SpeaksOf keys (Take from (part_of (knows keys) message)) }
{}

/// A key that is declared later takes its place among those declared before: none at first.
pub fn parts_grow<Kinds, Operation, Value>()
    ensures first { (all : List (KeyDecl Kinds)) → IsPart [] all }
    ensures knows { (keys : List (KeyDecl Kinds)) (new : KeyDecl Kinds) (name : Text) → knows (with_key new keys) name ≡ (bytes_eq new.name name || knows keys name) }
    ensures next { (keys : List (KeyDecl Kinds)) (node : Node Kinds Operation Value) (k : ℕ) (new : KeyDecl Kinds) → GrowsByNext keys node k new }
{}

/// A command for a key that is not declared is refused: it changes nothing but the count of steps. So does a gossip to the member
/// itself, which the member with all keys refuses too, and which has nothing to store.
pub fn other_keys_are_unknown<Kinds, Operation, Value>()
    ensures refused { (D : Replication Kinds Operation Value) → RefusesOtherKeys D }
    ensures instead { (D : Replication Kinds Operation Value) (node : Node Kinds Operation Value) (fate : Fate)
        → step D node (GossipTo node.identity) fate ≡ answered (one_step_later node) NotAPeer }
    ensures lawful { (D : Replication Kinds Operation Value) (node : Node Kinds Operation Value) → FitsFate D node (GossipTo node.identity) NoStore }
{}

/// A new member with all keys, whose store has nothing of some durable ones, used only the others so far, and is a new member with these.
pub fn new_members_are_parts<Kinds, Operation, Value>()
    ensures uses { OfNewParts Kinds Operation (λ part all i view store. UsesOnly {Shown = Value} part (loaded_node all i view store)) }
    ensures same { OfNewParts Kinds Operation (IsSameAsPart Value) }
{}
