//! What follows from the definitions of compacted nodes and of messages that go down. Each function
//! here carries laws, and does nothing.

ghost use Rattle.std.specs.Prelude.{◌≡◌, ℕ, ◌+◌, ◌^◌, ◌<◌, ◌≤◌, List, [], ◌∷◌, ◌++◌, length, take, drop, Option, Some, IfSome, true, slice_get};
ghost use Rattle.std.specs.List.{AllByRecursion, sum_by};
ghost use Rattle.bd_limits.specs.Limits.{key_limit, buffer_limit, level_limit, edge_limit, room_edges};
ghost use Rattle.bd_keys.specs.Keys.{IsKey, IsLift};
ghost use Rattle.bd_message.specs.declared.message.Message.{Message};
ghost use Rattle.bd_message.specs.declared.message.Message.TheVariants.{Goto};
ghost use Rattle.bd_message.specs.Messages.{IsMessage, size};
ghost use Rattle.bd_message.specs.Effect.{NodesAt, begins, acts};
ghost use Rattle.bd_message.specs.Freeing.{freed, source_of};
ghost use Rattle.bd_inner.specs.Clipping.{IsLong};
ghost use Rattle.bd_node.specs.declared.node.Edge.{Edge};
ghost use Rattle.bd_node.specs.declared.node.Node.{Node};
ghost use Rattle.bd_node.specs.Nodes.{level_of, buffer_size, message_names, names, times, edge_of, child_at, edge_at, through, node_at};
ghost use Rattle.bd_node.specs.Shape.{end_before, AreRising, IsInner, IsShape};
ghost use Rattle.bd_inner.specs.Exchanging.{IsFlat};
ghost use Rattle.bd_node.specs.Compaction.{IsLoose, IsLooseNode, IsCompacted};
ghost use Rattle.bd_node.specs.Parts.{edges_of, buffer_of, end_at, IsEdgeAt};
ghost use Rattle.bd_inner.specs.Carving.{IsGotoWay, IsCarved};
ghost use Rattle.bd_inner.specs.Batches.{IsLifted, IsMoved};
ghost use Rattle.bd_inner.specs.Exchanging.{IsKeyOf, FitsAt, way_to};
ghost use Rattle.bd_node.specs.Pushes.{exchanged};

/// A compacted node is well-formed, of the same level, has what it had, is no larger, and names
/// each node no more often.
pub fn compacted_nodes()
    ensures loose { (n : Node) → IsShape n → IsLooseNode n }
    ensures shape { (n m : Node) → IsLooseNode n → IsCompacted n m → IsShape m }
    ensures level { (n m : Node) → IsCompacted n m → level_of m ≡ level_of n }
    ensures meaning { (below : NodesAt) (n m : Node) → IsLooseNode n → IsCompacted n m
        → (k : List ℕ) → node_at below m k ≡ node_at below n k }
    ensures size { (n m : Node) → IsCompacted n m → buffer_size m ≤ buffer_size n }
    ensures names { (n m : Node) → IsCompacted n m → (c : ℕ) → times m c ≤ times n c }
{}

/// A message freed of a prefix names the nodes that the message named.
pub fn freed_names()
    ensures { (s : List ℕ) (m : Message)
        → IfSome (freed s m) (λ n. message_names n ≡ message_names m) }
{}

/// A clipped node whose sources have at most 518 bytes is well-formed, but that messages may be
/// pending for no edge.
pub fn clipped_nodes()
    ensures { (level : ℕ) (edges : List Edge) (buffer : List Message)
        → IsLong level edges buffer → AllByRecursion (λ e. length e.source ≤ key_limit) edges
        → AllByRecursion (λ m. length (source_of m) ≤ key_limit) buffer
        → IsLoose level edges buffer }
{}

/// Edges with the keys of one can stand in its place: they are asked at its keys, and at the others
/// a node has what it had, also without them.
pub fn exchanged_edges()
    ensures loose { (n : Node) (place : ℕ) (e : Edge) (list : List Edge) → IsShape n
        → FitsAt n place e list → IsLooseNode (exchanged n place list) }
    ensures before { (below : NodesAt) (n : Node) (place : ℕ) (e : Edge) → IsShape n
        → IsEdgeAt n place e → (k : List ℕ) → IsKeyOf n place e k
        → node_at below n k ≡ edge_at below e (buffer_of n) k }
    ensures inside { (below : NodesAt) (n : Node) (place : ℕ) (e : Edge) (list : List Edge)
        → IsShape n → FitsAt n place e list → (k : List ℕ) → IsKeyOf n place e k
        → node_at below (exchanged n place list) k
        ≡ through below (edge_of list k) (buffer_of n) k }
    ensures outside { (below : NodesAt) (n : Node) (place : ℕ) (e : Edge) (list : List Edge)
        → IsShape n → FitsAt n place e list → (k : List ℕ) → ¬ IsKeyOf n place e k
        → node_at below (exchanged n place list) k ≡ node_at below n k }
    ensures without { (below : NodesAt) (n : Node) (place : ℕ) (e : Edge) → IsShape n
        → IsEdgeAt n place e → (k : List ℕ) → ¬ IsKeyOf n place e k
        → node_at below (exchanged n place []) k ≡ node_at below n k }
{}

/// A node in which the keys of a Goto have edges of their own is well-formed, of the same level, and
/// has what it had at each key. It has at most two edges more, no more waits in it, and it names
/// only nodes that it named. The keys of the prefix whose edge hasn't seen the Goto are asked of
/// the node that the Goto names.
pub fn carved_nodes()
    ensures shape { (n m : Node) (place : ℕ) → IsShape n → length (edges_of n) ≤ room_edges
        → IsCarved n place m → IsShape m }
    ensures level { (n m : Node) (place : ℕ) → IsCarved n place m → level_of m ≡ level_of n }
    ensures meaning { (below : NodesAt) (n m : Node) (place : ℕ) → IsShape n
        → length (edges_of n) ≤ room_edges → IsCarved n place m → (k : List ℕ) → IsKey k
        → node_at below m k ≡ node_at below n k }
    ensures edges { (n m : Node) (place : ℕ) → IsShape n → IsCarved n place m
        → length (edges_of m) ≤ length (edges_of n) + 2 }
    ensures size { (n m : Node) (place : ℕ) → IsCarved n place m
        → buffer_size m ≤ buffer_size n }
    ensures names { (n m : Node) (place : ℕ) → IsShape n → IsCarved n place m → (c : ℕ)
        → 1 ≤ times m c → 1 ≤ times n c }
    ensures asked { (n m : Node) (place : ℕ) (prefix source : List ℕ) (child : ℕ) → IsShape n
        → IsCarved n place m → slice_get (buffer_of n) place ≡ Some (Goto prefix source child)
        → (k : List ℕ) → IsKey k → begins k prefix ≡ true
        → (e : Edge) → edge_of (edges_of n) k ≡ Some e → e.seen ≤ place
        → (f : Edge) × (edge_of (edges_of m) k ≡ Some f) × IsGotoWay prefix source child f }
{}

/// A push keeps what the node has: its edge has then seen the messages that its child has got, or
/// it has a new child with them; and what else the node names has what it had.
pub fn pushes_keep_the_meaning()
    ensures { (below has : NodesAt) (n : Node) (place : ℕ) (e f : Edge) (count : ℕ)
        (moved : List Message) → IsShape n → FitsAt n place e (f ∷ [])
        → f.seen ≡ e.seen + count
        → IsMoved f (end_at n place) (take count (drop e.seen (buffer_of n))) moved
        → ((k : List ℕ) → IsKey k → IsKeyOf n place e k
        → child_at has f.child (f.source ++ drop f.lift k)
        ≡ acts has moved (drop f.lift k)
        (child_at below e.child (e.source ++ drop e.lift k)))
        → AllByRecursion (λ c. (l : List ℕ) → has c l ≡ below c l) (names (exchanged n place []))
        → (k : List ℕ) → IsKey k
        → node_at has (exchanged n place (f ∷ [])) k ≡ node_at below n k }
{}

/// A node's edge can have seen more messages, or lead to a new child that gets the keys without all
/// bytes that they have in common; messages can go down either.
pub fn edges_fit()
    ensures lifted { (n : Node) (place : ℕ) (e : Edge) → IsShape n → IsEdgeAt n place e
        → IsLifted e (end_at n place) }
    ensures seen { (n : Node) (place : ℕ) (e : Edge) (seen : ℕ) → IsShape n → IsEdgeAt n place e
        → seen ≤ length (buffer_of n) → FitsAt n place e (record e { seen = seen } ∷ []) }
    ensures new_lifted { (n : Node) (place : ℕ) (e : Edge) (lift child : ℕ) → IsShape n
        → IsEdgeAt n place e → IsLift e.pivot (end_at n place) lift
        → IsLifted (way_to e lift child) (end_at n place) }
    ensures new_child { (n : Node) (place : ℕ) (e : Edge) (lift child seen : ℕ) → IsShape n
        → IsEdgeAt n place e → IsLift e.pivot (end_at n place) lift → 1 ≤ child → child < 2 ^ 64
        → seen ≤ length (buffer_of n)
        → FitsAt n place e (record (way_to e lift child) { seen = seen } ∷ []) }
{}

/// Edges that leave nothing out and put nothing in front, with rising pivots from the empty key on,
/// are those of a node, and without messages of a well-formed one.
pub fn flat_edges()
    ensures loose { (level : ℕ) (edges : List Edge) (buffer : List Message) → 1 ≤ level
        → level ≤ level_limit → length edges ≤ edge_limit → end_before edges ≡ Some []
        → AreRising edges → AllByRecursion (IsFlat (length buffer)) edges
        → AllByRecursion IsMessage buffer → sum_by size buffer ≤ buffer_limit
        → IsLoose level edges buffer }
    ensures shape { (level : ℕ) (edges : List Edge) → 1 ≤ level → level ≤ level_limit
        → length edges ≤ edge_limit → end_before edges ≡ Some [] → AreRising edges
        → AllByRecursion (IsFlat 0) edges → IsInner level edges [] }
{}
