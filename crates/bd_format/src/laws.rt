//! What follows from the definition of images. Each function here carries laws, and does nothing.

ghost use Rattle.std.specs.Prelude.{◌≡◌, ◌≤◌, ◌+◌, ◌*◌, ℕ, List, Some, length};
ghost use Rattle.bd_limits.specs.Limits.{slot_size, leaf_limit, buffer_limit, edge_limit, key_limit};
ghost use Rattle.bd_message.specs.declared.message.Message.{Message};
ghost use Rattle.bd_node.specs.declared.node.Entry.{Entry};
ghost use Rattle.bd_node.specs.declared.node.Edge.{Edge};
ghost use Rattle.bd_node.specs.declared.node.Node.{Node};
ghost use Rattle.bd_node.specs.declared.node.Node.TheVariants.{Leaf, Inner};
ghost use Rattle.bd_node.specs.Shape.{IsLeaf, IsInner, IsShape};
ghost use Rattle.bd_format.specs.Images.{node_head_size, edge_base_size, node_bytes, IsImage};
ghost use Rattle.bd_format.specs.Decoding.{node_in};

use bd_message::laws::{encodings_fit_sizes, messages_are_prefix_free};

/// A well-formed node fits into a slot, however full it is.
pub fn nodes_fit_slots()
    ensures leaf { (entries : List Entry) → IsLeaf entries
        → length (node_bytes (Leaf entries)) ≤ node_head_size + leaf_limit }
    ensures inner { (level : ℕ) (edges : List Edge) (buffer : List Message)
        → IsInner level edges buffer → length (node_bytes (Inner level edges buffer))
        ≤ node_head_size + edge_limit * (edge_base_size + 2 * key_limit) + buffer_limit }
    ensures slot { (n : Node) → IsShape n → length (node_bytes n) ≤ slot_size }
{
    encodings_fit_sizes();
}

/// The node that bytes are the image of is a function of them.
pub fn images_are_decoded()
    ensures found { (n : Node) (bytes : List ℕ) → IsShape n → IsImage n bytes
        → node_in bytes ≡ Some n }
    ensures image { (n : Node) (bytes : List ℕ) → node_in bytes ≡ Some n → IsImage n bytes }
{}

/// No slot is the image of two well-formed nodes.
pub fn images_are_of_one_node()
    ensures { (m n : Node) (bytes : List ℕ) → IsShape m → IsShape n → IsImage m bytes
        → IsImage n bytes → m ≡ n }
{
    messages_are_prefix_free();
}
