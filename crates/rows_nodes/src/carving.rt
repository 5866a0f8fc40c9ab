//! Edges of a Goto's own.

ghost use Rattle.std.specs.Prelude.{◌≤◌, length, IfOk};
ghost use Rattle.bd_node.specs.Nodes.{level_of};
ghost use Rattle.bd_node.specs.Shape.{IsShape};

use crate::inner::{are_puts, made, parts, raised};
use bd_inner::carve;
use bd_limits::ROOM_EDGES;
use bd_message::Message;
use bd_node::{Edge, Node};
use std::alloc::Global;
use std::test::Fail;

/// An edge: its pivot, how many bytes are left out, what is put in front, its child, and how many
/// messages it has seen.
type Row = (&'static str, u16, &'static str, Option<u64>, u32);

/// A node whose edges begin at these keys, where a Goto to child 7 waits, and then a Put of a: what
/// is shown, the keys, the Goto, whether the first edge has seen it, and the edges after it is carved
/// out.
struct Case {
    name: &'static str,
    pivots: &'static str,
    goto: &'static str,
    is_raised: bool,
    edges: &'static [Row],
}

const CASES: &[Case] = &[
    Case {
        name: "inside one edge",
        pivots: " m",
        goto: "goto c s",
        is_raised: false,
        edges: &[
            ("", 0, "", None, 0),
            ("c", 1, "s", Some(7), 0),
            ("d", 0, "", None, 0),
            ("m", 0, "", None, 0),
        ],
    },
    Case {
        name: "over several edges",
        pivots: " b cb d",
        goto: "goto c s",
        is_raised: false,
        edges: &[
            ("", 0, "", None, 0),
            ("b", 0, "", None, 0),
            ("c", 1, "s", Some(7), 0),
            ("d", 0, "", None, 0),
        ],
    },
    Case {
        name: "the first edge has seen it",
        pivots: " c cb",
        goto: "goto  s",
        is_raised: true,
        edges: &[("", 0, "", None, 0), ("c", 0, "s", Some(7), 0)],
    },
    Case {
        name: "of all keys",
        pivots: " c",
        goto: "goto  s",
        is_raised: false,
        edges: &[("", 0, "s", Some(7), 0)],
    },
];

// The node after its first message is carved out.
fn carved(alloc: Global, node: &Node) -> Result<Node, Fail>
    requires { IsShape node.now }
{
    let (edges, messages) = parts(node);
    if edges.len() > ROOM_EDGES {
        return Err(Fail::new("too many edges"));
    }
    match messages {
        [Message::Goto { .. }, ..] => Ok(carve(alloc, node, 0)?),
        _ => Err(Fail::new("no Goto")),
    }
}

// Whether an edge is the one of a row.
fn is_row(edge: &Edge, row: &Row) -> bool {
    edge.pivot.as_slice() == row.0.as_bytes()
        && edge.lift == row.1
        && edge.source.as_slice() == row.2.as_bytes()
        && edge.child == row.3
        && edge.seen == row.4
}

// Whether a node has just these edges, and the Put of a waits in it.
fn has(node: &Node, rows: &[Row]) -> bool {
    let (edges, messages) = parts(node);
    let same = edges.iter().zip(rows).all(|(edge, row)| is_row(edge, row));
    same && edges.len() == rows.len() && are_puts(messages, &["a"])
}

// The node of a case.
fn before(alloc: Global, case: &Case) -> Result<Node, Fail>
    ensures { IfOk result IsShape }
{
    let node = made(alloc, case.pivots, case.goto, "put a v")?;
    if case.is_raised {
        raised(alloc, &node)
    } else {
        Ok(node)
    }
}

// The node of a case after its Goto is carved out.
fn after(alloc: Global, case: &Case) -> Result<Node, Fail> {
    let node = before(alloc, case)?;
    carved(alloc, &node)
}

// Whether a case holds.
fn holds(alloc: Global, case: &Case) -> Result<bool, Fail> {
    let node = after(alloc, case)?;
    Ok(has(&node, case.edges))
}

#[test]
fn gotos_are_carved_out(rt: HostRuntime) -> Result<(), Fail> {
    for case in CASES {
        assert!(rt; holds(rt.alloc(), case)?, "{}", case.name);
    }
    Ok(())
}
