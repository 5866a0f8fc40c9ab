//! Nodes that answer the keys of one edge alone.

ghost use Rattle.std.specs.Prelude.{◌≡◌, ◌≤◌, ◌^◌, ◌<◌, [], length, IfOk};
ghost use Rattle.std.specs.Option.{option_copied};
ghost use Rattle.bd_keys.specs.Keys.{IsKey};
ghost use Rattle.bd_node.specs.Compaction.{IsLoose, IsLooseNode};
ghost use Rattle.bd_inner.specs.Carving.{is_below_end, from_key};
ghost use Rattle.bd_inner.specs.Clipping.{count_before};
ghost use Rattle.bd_inner.specs.Halves.{bare_edge};
ghost use Rattle.bd_copy.specs.Narrowing.{asked_from, asked_end, IsSpan, is_within, within, started, count_below, ended, narrowed, IsNarrowed};

use bd_inner::sweep;
use bd_keys::{Bytes, tail};
use bd_limits::MAX_EDGES;
use bd_node::{Edge, Edges, Entries, Entry, Items, Node};
use std::alloc::{AllocError, Global};

/// The first key that an edge asks its child for, without its source.
pub fn asked_from(edge: &Edge) -> &[u8]
    ensures { result.now ≡ asked_from edge.now }
{
    tail(edge.pivot.as_slice(), edge.lift as usize)
}

/// Where the keys end that an edge, whose own end at `hi`, asks its child for, without its source.
pub fn asked_end<'a>(edge: &Edge, hi: Option<&'a [u8]>) -> Option<&'a [u8]>
    requires { edge.now.lift ≤ length edge.now.pivot }
    ensures { option_copied result ≡ asked_end edge.now (option_copied hi.entry) }
{
    let lift = edge.lift as usize;
    match hi {
        Some(hi) if hi.starts_with(&edge.pivot.as_slice()[..lift]) => Some(tail(hi, lift)),
        _ => None,
    }
}

/// A node that has at the keys from `lo` on and below `hi` what the given one has there, and
/// nothing at others: entries, edges and messages on others alone are left out. Where there would
/// be more than 16 edges, all of them stay.
pub fn narrow(alloc: Global, node: &Node, lo: &[u8], hi: Option<&[u8]>) -> Result<Node, AllocError>
    requires loose { IsLooseNode node.now }
    requires span { IsSpan lo.now (option_copied hi) }
    ensures node { IfOk result (IsNarrowed lo.now (option_copied hi.entry) node.now) }
    ensures bytes { IsKey lo.now }
{
    match node {
        Node::Leaf(entries) => Ok(Node::Leaf(within(alloc, entries.as_slice(), lo, hi)?)),
        Node::Inner {
            level,
            edges,
            buffer,
        } => {
            let seen = buffer.as_slice().len() as u32;
            let edges = narrowed(alloc, edges.as_slice(), seen, lo, hi)?;
            sweep(alloc, *level, edges, buffer)
        }
    }
}

// The entries of the keys from `lo` on and below `hi`.
fn within(
    alloc: Global,
    entries: &[Entry],
    lo: &[u8],
    hi: Option<&[u8]>,
) -> Result<Entries, AllocError>
    ensures { IfOk result (λ list. list ≡ within lo.now (option_copied hi.entry) entries.now) }
{
    let mut list = Vec::new(alloc);
    for entry in entries {
        if is_within(entry.key.as_slice(), lo, hi) {
            list.push(entry.clone()?)?;
        }
    }
    Ok(Entries::from_vec(list))
}

// Whether a key is at least `lo` and below `hi`.
fn is_within(key: &[u8], lo: &[u8], hi: Option<&[u8]>) -> bool
    ensures { result ≡ is_within lo.now (option_copied hi.entry) key.now }
{
    !key.cmp(lo).is_lt() && is_below_end(key, hi)
}

// Whether a key is below an end.
fn is_below_end(key: &[u8], hi: Option<&[u8]>) -> bool
    ensures { result ≡ is_below_end key.now (option_copied hi.entry) }
{
    match hi {
        Some(hi) => key.cmp(hi).is_lt(),
        None => true,
    }
}

// The edges of the keys from `lo` on and below `hi`, and ones without a child for the keys before
// and after them; all edges as they are, where those would be too many.
fn narrowed(
    alloc: Global,
    edges: &[Edge],
    seen: u32,
    lo: &[u8],
    hi: Option<&[u8]>,
) -> Result<Edges, AllocError>
    requires { 1 ≤ length edges.now }
    ensures { IfOk result (λ list.
        list ≡ narrowed seen lo.now (option_copied hi.entry) edges.now) }
{
    let list = started(alloc, edges, seen, lo)?;
    let list = ended(alloc, list.as_slice(), seen, hi)?;
    if list.len() > MAX_EDGES {
        Ok(Items::from_vec(edges.to_vec(alloc)?))
    } else {
        Ok(Items::from_vec(list))
    }
}

// The edges of the keys from `lo` on, and one before them without a child.
fn started(alloc: Global, edges: &[Edge], seen: u32, lo: &[u8]) -> Result<Vec<Edge>, AllocError>
    requires { 1 ≤ length edges.now }
    ensures { IfOk result (λ list. list.items ≡ started seen lo.now edges.now) }
{
    if lo.is_empty() {
        return edges.to_vec(alloc);
    }
    let place = count_before(edges, lo);
    let (_, others) = edges.split_at(place + 1);
    let mut list = Vec::new(alloc);
    list.push(bare_edge(alloc, &[], seen)?)?;
    list.push(from_key(alloc, &edges[place], lo)?)?;
    list.append(&mut others.to_vec(alloc)?)?;
    Ok(list)
}

// How many edges stand before the one that has the key.
fn count_before(edges: &[Edge], key: &[u8]) -> usize
    requires { 1 ≤ length edges.now }
    ensures value { result ≡ count_before key.now edges.now }
    ensures within { result < length edges.now }
{
    let (_, others) = edges.split_at(1);
    others
        .iter()
        .take_while(|edge| !key.cmp(edge.pivot.as_slice()).is_lt())
        .count()
}

// The edges of the keys below `hi`, and one after them without a child.
fn ended(
    alloc: Global,
    edges: &[Edge],
    seen: u32,
    hi: Option<&[u8]>,
) -> Result<Vec<Edge>, AllocError>
    ensures { IfOk result (λ list.
        list.items ≡ ended seen (option_copied hi.entry) edges.now) }
{
    let Some(hi) = hi else {
        return edges.to_vec(alloc);
    };
    let (front, _) = edges.split_at(count_below(edges, hi));
    let mut list = front.to_vec(alloc)?;
    list.push(bare_edge(alloc, hi, seen)?)?;
    Ok(list)
}

// How many edges begin below a key.
fn count_below(edges: &[Edge], key: &[u8]) -> usize
    ensures value { result ≡ count_below key.now edges.now }
    ensures within { result ≤ length edges.now }
{
    edges
        .iter()
        .take_while(|edge| edge.pivot.as_slice().cmp(key).is_lt())
        .count()
}

// An edge without a child that has seen so many messages.
fn bare_edge(alloc: Global, pivot: &[u8], seen: u32) -> Result<Edge, AllocError>
    ensures { IfOk result (λ edge. edge ≡ bare_edge pivot.now seen) }
{
    Ok(Edge {
        pivot: Bytes::from_slice(alloc, pivot)?,
        lift: 0,
        source: Bytes::from_vec(Vec::new(alloc)),
        child: None,
        seen,
    })
}

// The edge from another key on.
fn from_key(alloc: Global, edge: &Edge, key: &[u8]) -> Result<Edge, AllocError>
    ensures { IfOk result (λ e. e ≡ from_key edge.now key.now) }
{
    Ok(Edge {
        pivot: Bytes::from_slice(alloc, key)?,
        lift: edge.lift,
        source: edge.source.clone()?,
        child: edge.child,
        seen: edge.seen,
    })
}
