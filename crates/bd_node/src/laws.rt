//! What follows from the definitions of nodes, sound nodes and steps. Each function here carries
//! laws, and does nothing.

ghost use Rattle.std.specs.Prelude.{◌≡◌, ℕ, ◌+◌, ◌<◌, ◌≤◌, ◌↔◌, List, [], length, drop, false, true, None, Some};
ghost use Rattle.std.specs.List.{AllByRecursion, sum_by};
ghost use Rattle.bd_keys.specs.Keys.{IsKey, InRange, IsBelowEnd};
ghost use Rattle.bd_message.specs.declared.message.Message.{Message};
ghost use Rattle.bd_message.specs.Effect.{NodesAt, act, acts, no_nodes};
ghost use Rattle.bd_node.specs.declared.node.Node.{Node};
ghost use Rattle.bd_node.specs.declared.node.Edge.{Edge};
ghost use Rattle.bd_node.specs.declared.node.Change.{Change};
ghost use Rattle.bd_node.specs.declared.node.Step.{Step};
ghost use Rattle.bd_node.specs.Touching.{touches, NoneTouches};
ghost use Rattle.bd_node.specs.Nodes.{level_of, buffer_size, appended, names, times, edge_of, node_at, node_has};
ghost use Rattle.bd_node.specs.Meaning.{Nodes, at, IsLevelled, Meets};
ghost use Rattle.bd_node.specs.Shape.{IsShape, EachEdge, SomeEdge, IsInner};
ghost use Rattle.bd_node.specs.Tables.{Table, IsKept, IsTable, IsNodeOf, IsSound, references, times_in, one_if, root_at};
ghost use Rattle.bd_node.specs.Private.{IsPrivate, IsReached};
ghost use Rattle.bd_node.specs.Steps.{given, after, given_times, IsStep, HasRoom, StayAbove, IsInPlace, IsCommitted, IsKeeping, IsMoving, root_step, append_step, grown};
ghost use Rattle.bd_node.specs.Stores.{FitsRoot};
ghost use Rattle.bd_node.specs.Closed.{IsClosed, without, table_from};
ghost use Rattle.bd_node.specs.New.{new_nodes, new_table};

/// What the nodes have is the one function that meets each node's equation. At a list that isn't
/// one of bytes, and where there is no node, there is nothing.
pub fn nodes_have_one_meaning()
    ensures meets { (nodes : Nodes) → IsLevelled nodes → Meets nodes (at nodes) }
    ensures one { (nodes : Nodes) → IsLevelled nodes → (f g : NodesAt) → Meets nodes f
        → Meets nodes g → (id : ℕ) (n : Node) → nodes id ≡ Some n → (k : List ℕ) → f id k ≡ g id k }
    ensures keys { (nodes : Nodes) → IsLevelled nodes → (id : ℕ) (n : Node) → nodes id ≡ Some n
        → (k : List ℕ) → IsKey k → at nodes id k ≡ node_at (at nodes) n k }
    ensures others { (nodes : Nodes) (id : ℕ) (k : List ℕ) → ¬ IsKey k → at nodes id k ≡ None }
    ensures nothing { (nodes : Nodes) (id : ℕ) (k : List ℕ) → nodes id ≡ None
        → at nodes id k ≡ None }
{}

/// What a node has at a key depends on no more than what the nodes that it names have.
pub fn nodes_read_what_they_name()
    ensures { (f g : NodesAt) (n : Node) (k : List ℕ)
        → AllByRecursion (λ c. (l : List ℕ) → f c l ≡ g c l) (names n)
        → node_at f n k ≡ node_at g n k }
{}

/// A part of the nodes that names nothing outside has what it has in the whole.
pub fn parts_have_what_the_whole_has()
    ensures { (nodes part : Nodes) → IsLevelled part
        → ((id : ℕ) (n : Node) → part id ≡ Some n → nodes id ≡ Some n)
        → (id : ℕ) (n : Node) → part id ≡ Some n → (k : List ℕ) → at part id k ≡ at nodes id k }
{}

/// Each node of sound ones names lower ones that are there.
pub fn sound_nodes_are_levelled()
    ensures { (nodes : Nodes) (t : Table) → IsSound nodes t → IsLevelled nodes }
{}

/// The root leads to each kept node, so nothing is kept that nobody can ask.
pub fn kept_nodes_are_reached()
    ensures { (nodes : Nodes) (t : Table) → IsSound nodes t → (id : ℕ) → IsKept t id
        → IsReached nodes t.root id }
{}

/// Nothing but the root's pointer names the root, and what names a private node is private.
pub fn private_nodes_have_one_way()
    ensures root { (nodes : Nodes) (t : Table) → IsSound nodes t → t.count t.root ≡ 1 }
    ensures unnamed { (nodes : Nodes) (t : Table) → IsSound nodes t → (id : ℕ) (n : Node)
        → nodes id ≡ Some n → ¬ (1 ≤ times n t.root) }
    ensures one_way { (nodes : Nodes) (t : Table) → IsSound nodes t → (id c : ℕ) (n : Node)
        → IsPrivate nodes t c → ¬ IsPrivate nodes t id → nodes id ≡ Some n → ¬ (1 ≤ times n c) }
{}

/// Isolation of clones: a commit that changes private nodes alone leaves what every other node has
/// that stays. One that changes the root alone leaves all others, and one that changes none all.
pub fn changes_of_private_nodes_touch_no_other()
    ensures private { (nodes : Nodes) (t : Table) (step : Step) (new : Nodes) (u : Table)
        → IsSound nodes t → IsCommitted nodes t step new u
        → AllByRecursion (λ (c : Change). IsPrivate nodes t c.id) step.changes
        → (id : ℕ) → IsKept t id → IsKept u id → ¬ IsPrivate nodes t id
        → (k : List ℕ) → at new id k ≡ at nodes id k }
    ensures root { (nodes : Nodes) (t : Table) (step : Step) (new : Nodes) (u : Table)
        → IsSound nodes t → IsCommitted nodes t step new u
        → AllByRecursion (λ (c : Change). c.id ≡ t.root) step.changes
        → (id : ℕ) → IsKept t id → IsKept u id → ¬ (id ≡ t.root)
        → (k : List ℕ) → at new id k ≡ at nodes id k }
    ensures none { (nodes : Nodes) (t : Table) (step : Step) (new : Nodes) (u : Table)
        → IsSound nodes t → IsCommitted nodes t step new u → step.changes ≡ []
        → (id : ℕ) → IsKept t id → IsKept u id → (k : List ℕ) → at new id k ≡ at nodes id k }
{}

/// A node that a step gives, and that stays, has what its content says; and whatever meets the
/// equations of the nodes after the step is what those that stay have.
pub fn commits_give_what_the_step_says()
    ensures given { (nodes : Nodes) (t : Table) (step : Step) (new : Nodes) (u : Table)
        → IsCommitted nodes t step new u → (id : ℕ) (n : Node) → IsKept u id
        → given t.next step id ≡ Some n → (k : List ℕ) → IsKey k
        → at new id k ≡ node_at (at new) n k }
    ensures meaning { (nodes : Nodes) (t : Table) (step : Step) (new : Nodes) (u : Table)
        → IsCommitted nodes t step new u → (has : NodesAt) → Meets (after nodes t step) has
        → (id : ℕ) → IsKept u id → (k : List ℕ) → at new id k ≡ has id k }
{}

/// Nodes that are replaced by ones that have the same leave what all old nodes have.
pub fn replaced_nodes_keep_the_meaning()
    ensures { (nodes : Nodes) (t : Table) (step : Step) (new : Nodes) (u : Table) (has : NodesAt)
        → IsSound nodes t → IsCommitted nodes t step new u → IsKeeping nodes t step has
        → (id : ℕ) → IsKept u id → (k : List ℕ) → at new id k ≡ has id k }
{}

/// The same where changed nodes may have something else, if what names them is changed too.
pub fn moves_keep_the_meaning_above()
    ensures { (nodes : Nodes) (t : Table) (step : Step) (new : Nodes) (u : Table) (has : NodesAt)
        → IsSound nodes t → IsCommitted nodes t step new u → IsMoving nodes t step has
        → (id : ℕ) → IsKept u id → (k : List ℕ) → at new id k ≡ has id k }
{}

/// Nodes that have room for their changes stay below those that name them.
pub fn changes_with_room_stay_below()
    ensures { (nodes : Nodes) (t : Table) (step : Step) → IsSound nodes t
        → ((id : ℕ) (n : Node) → id < t.next → given t.next step id ≡ Some n
        → HasRoom nodes t step id n)
        → StayAbove nodes t step }
{}

/// The root alone may be changed to any well-formed node of its level that names kept lower ones,
/// and then the tree has what that node has.
pub fn changes_of_the_root_alone()
    ensures step { (t : Table) (n : Node) → IsTable t → IsNodeOf t (t.level t.root) n
        → IsStep t (root_step t.root n) }
    ensures in_place { (nodes : Nodes) (t : Table) (n : Node) → IsSound nodes t
        → IsInPlace nodes t (root_step t.root n) }
    ensures tree { (nodes : Nodes) (t : Table) (n : Node) (new : Nodes) (u : Table)
        → IsSound nodes t → IsNodeOf t (t.level t.root) n
        → IsCommitted nodes t (root_step t.root n) new u → u.root ≡ t.root
        → (k : List ℕ) → IsKey k → root_at new u k ≡ node_at (at nodes) n k }
{}

/// Messages after those that wait in a node change what it has; the root may always be changed so,
/// and the nodes are then sound with the table that has only grown, so nothing is dropped.
pub fn appended_messages()
    ensures node { (below : NodesAt) (n : Node) (list : List Message) (k : List ℕ) → IsShape n
        → 1 ≤ level_of n
        → node_at below (appended n list) k ≡ acts below list k (node_at below n k) }
    ensures may { (t : Table) (n : Node) (list : List Message) → IsNodeOf t (t.level t.root) n
        → buffer_size n ≡ t.size → FitsRoot t list
        → IsNodeOf t (t.level t.root) (appended n list) }
    ensures outcome { (nodes : Nodes) (t : Table) (n : Node) (list : List Message)
        → IsSound nodes t → nodes t.root ≡ Some n → FitsRoot t list
        → IsSound (after nodes t (append_step t n list)) (grown t list) }
    ensures tree { (nodes : Nodes) (t : Table) (n : Node) (list : List Message) (new : Nodes)
        (u : Table) → IsSound nodes t → nodes t.root ≡ Some n → FitsRoot t list
        → IsCommitted nodes t (append_step t n list) new u → u.root ≡ t.root
        → (k : List ℕ) → IsKey k → root_at new u k ≡ acts no_nodes list k (root_at nodes t k) }
{}

/// How a store makes a step: it begins with the nodes after it, drops one that nothing names as
/// long as there is one, and then the nodes are sound with the counts that they have.
pub fn closed_nodes_become_sound()
    ensures begun { (nodes : Nodes) (t : Table) (step : Step) → IsSound nodes t → IsStep t step
        → StayAbove nodes t step
        → IsClosed (after nodes t step) (t.next + length step.made) step.root }
    ensures dropped { (nodes : Nodes) (next root d : ℕ) → IsClosed nodes next root
        → references nodes next root d ≡ 0 → IsClosed (without nodes d) next root }
    ensures ended { (nodes : Nodes) (next root : ℕ) → IsClosed nodes next root
        → ((id : ℕ) (n : Node) → nodes id ≡ Some n → 1 ≤ references nodes next root id)
        → IsSound nodes (table_from nodes next root) }
{}

/// How the counts of references follow a step: those after it, with what the changed nodes and the
/// root's pointer named, are those before it with what the step names. Without a node they are
/// less by what it names.
pub fn counts_follow_the_nodes()
    ensures stepped { (nodes : Nodes) (t : Table) (step : Step) → IsTable t → IsStep t step
        → (c : ℕ) → references (after nodes t step) (t.next + length step.made) step.root c
        + sum_by (λ (d : Change). times_in (nodes d.id) c) step.changes + one_if t.root c
        ≡ references nodes t.next t.root c + given_times step c + one_if step.root c }
    ensures dropped { (nodes : Nodes) (next root d : ℕ) → d < next → (c : ℕ)
        → references (without nodes d) next root c + times_in (nodes d) c
        ≡ references nodes next root c }
{}

/// Which nodes stay after a step, and what they are, is settled by the step.
pub fn steps_have_one_outcome()
    ensures { (nodes : Nodes) (t : Table) (step : Step) (new other : Nodes) (u v : Table)
        → IsCommitted nodes t step new u → IsCommitted nodes t step other v → u.root ≡ v.root
        → (id : ℕ) → IsKept u id → IsKept v id × (new id ≡ other id) }
{}

/// Each key is one of just one edge of a node, the one that is asked.
pub fn each_key_has_its_edge()
    ensures some { (level : ℕ) (edges : List Edge) (buffer : List Message)
        → IsInner level edges buffer → (k : List ℕ)
        → SomeEdge (λ (e : Edge) hi. (edge_of edges k ≡ Some e) × InRange e.pivot hi k) edges }
    ensures only { (level : ℕ) (edges : List Edge) (buffer : List Message)
        → IsInner level edges buffer → (k : List ℕ)
        → EachEdge (λ (e : Edge) hi. InRange e.pivot hi k → edge_of edges k ≡ Some e) edges }
{}

/// A message changes nothing at a key that it doesn't touch.
pub fn messages_change_what_they_touch()
    ensures one { (below : NodesAt) (m : Message) (k : List ℕ) → touches m k ≡ false
        → (old : _) → act below m k old ≡ old }
    ensures several { (below : NodesAt) (list : List Message) (from to : ℕ) (k : List ℕ)
        → NoneTouches list from to k → from ≤ to → (old : _)
        → acts below (drop from list) k old ≡ acts below (drop to list) k old }
{}

/// A root without a child is sound.
pub fn new_stores_are_sound()
    ensures { IsSound new_nodes new_table }
{}
