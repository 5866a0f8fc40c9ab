//! What follows from the definitions of ways and grafts. The function here carries laws, and does
//! nothing.

ghost use Rattle.std.specs.Prelude.{◌≡◌, ℕ, Bool, List, Option};
ghost use Rattle.bd_message.specs.declared.message.Message.{Message};
ghost use Rattle.bd_node.specs.Meaning.{Nodes};
ghost use Rattle.bd_node.specs.Tables.{Table};
ghost use Rattle.bd_resolve.specs.declared.following.Target.{Target};
ghost use Rattle.bd_graft.specs.Walking.{IsWay};
ghost use Rattle.bd_graft.specs.Grafting.{IsGraftStep, IsWalkOf};

/// The way of a prefix, what travels on it, the overlay nodes and what they are sent to are settled
/// by the nodes before the graft and its prefixes, and how many nodes it visits by these and the
/// next id after it.
pub fn grafts_are_settled()
    ensures way { (nodes : Nodes) (id : ℕ) (q : List ℕ) (a b : List (List Message))
        (e f : Option Target) → IsWay nodes id q a e → IsWay nodes id q b f → (a ≡ b) × (e ≡ f) }
    ensures step { (nodes : Nodes) (t : Table) (s d : List ℕ) (keep : Bool) (new other : Nodes)
        (u v : Table) (a : IsGraftStep nodes t s d keep new u)
        (b : IsGraftStep nodes t s d keep other v) → (a.made ≡ b.made) × (a.target ≡ b.target) }
    ensures walk { (nodes : Nodes) (t : Table) (s : List ℕ) (u : Table) (m n : ℕ)
        → IsWalkOf nodes t s u m → IsWalkOf nodes t s u n → m ≡ n }
{}
