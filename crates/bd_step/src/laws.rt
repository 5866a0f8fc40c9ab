//! What follows from the definitions of flushes. Each function here carries laws, and does nothing.

ghost use Rattle.std.specs.Prelude.{◌≡◌, ℕ, ◌<◌, ◌≤◌, List};
ghost use Rattle.std.specs.List.{sum_by};
ghost use Rattle.bd_limits.specs.Limits.{soft_limit, abundant_limit};
ghost use Rattle.bd_message.specs.declared.message.Message.{Message};
ghost use Rattle.bd_message.specs.Messages.{size};
ghost use Rattle.bd_node.specs.declared.node.Edge.{Edge};
ghost use Rattle.bd_node.specs.declared.node.Node.{Node};
ghost use Rattle.bd_node.specs.Nodes.{buffer_size};
ghost use Rattle.bd_node.specs.Shape.{IsInner, IsShape};
ghost use Rattle.bd_node.specs.Parts.{IsEdgeAt};
ghost use Rattle.bd_step.specs.Filling.{IsFullest};
ghost use Rattle.bd_node.specs.Meaning.{Nodes};
ghost use Rattle.bd_node.specs.Tables.{Table};
ghost use Rattle.bd_step.specs.Ways.{IsFullestAt, HasPending};
ghost use Rattle.bd_step.specs.Settling.{IsEdgeFor, IsDueOn, IsSettled};

/// Where more than 16,384 bytes of messages wait, 1,024 bytes or more are pending for the fullest
/// edge: there are at most 16 edges, and each message is pending for one.
pub fn full_buffers_are_abundant()
    ensures { (level : ℕ) (edges : List Edge) (buffer : List Message)
        → IsInner level edges buffer → soft_limit < sum_by size buffer
        → (place bytes : ℕ) → IsFullest edges buffer place bytes → abundant_limit ≤ bytes }
{}

/// Where messages wait in a node, one is pending for its fullest edge.
pub fn fullest_edges_have_pending_messages()
    ensures { (n : Node) → IsShape n → 1 ≤ buffer_size n → (place : ℕ) → IsFullestAt n place
        → (e : Edge) → IsEdgeAt n place e → HasPending n place e }
{}

/// A prefix has one edge of a node at most, and one node at most of its way where a step is due; it
/// has none where what waits for it is settled.
pub fn ways_of_prefixes_are_one()
    ensures edge { (n : Node) (q : List ℕ) (i j : ℕ) (d e : Edge) → IsEdgeFor n q i d
        → IsEdgeFor n q j e → d ≡ e }
    ensures due { (nodes : Nodes) (t : Table) (s : List ℕ) (id other place at : ℕ)
        → IsDueOn nodes t s id place → IsDueOn nodes t s other at → id ≡ other }
    ensures settled { (nodes : Nodes) (t : Table) (s : List ℕ) (id place : ℕ)
        → IsSettled nodes t s → ¬ IsDueOn nodes t s id place }
{}
