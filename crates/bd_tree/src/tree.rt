//! The tree.

ghost use Rattle.std.specs.Prelude.{◌≡◌, ◌≢◌, ◌↔◌, ℕ, ◌+◌, ◌-◌, ◌*◌, ◌^◌, ◌<◌, ◌≤◌, List, length, IfOk, IfErr, IfSome, MatchOption, OnOk, true, false, OnErr, Ok, Some};
ghost use Rattle.std.specs.Borrow.{sem};
ghost use Rattle.std.specs.Option.{option_map};
ghost use Rattle.bd_limits.specs.Limits.{buffer_limit};
ghost use Rattle.bd_message.specs.KeyMaps.{HasMapCause, NeverWorn, IsApplied, IsNextEntry, CanGraft, IsGrafted};
ghost use Rattle.bd_node.specs.Frames.{OfSound, OnlyReads, Stays};
ghost use Rattle.bd_node.specs.Meaning.{at};
ghost use Rattle.bd_node.specs.Tables.{IsKept, IsSound, kept_count, root_at};
ghost use Rattle.bd_node.specs.declared.node.Node.{Node};
ghost use Rattle.bd_node.specs.Steps.{IsCommitted, HasGrown, append_step};
ghost use Rattle.bd_node.specs.Stores.{FitsRoot, visited, AreVisits};
ghost use Rattle.bd_query.specs.Asks.{AreVisitsOfWay, AreVisitsOfPart, AreVisitsOfWays, AreVisitsOfSome};
ghost use Rattle.bd_graft.specs.Grafting.{IsGrown, IsGraftStep, IsWalkOf, AreOthersSame, IsWornForGraft, IsWornByGraft, OnWorn};
ghost use Rattle.bd_path.specs.Made.{AreKnown};
ghost use Rattle.bd_cover.specs.Walking.{IsDue, HasNone, IsToDo, IsToDoAt, walk_size, first_visits, node_visits};
ghost use Rattle.bd_cover.specs.Reclaimed.{IsReclaimed};
ghost use Rattle.bd_reclaim.specs.Changes.{IsReclaimMade, IsRootAfter, IsNextAfter, LeavesLess, reclaim_visits, IsWornChange};
ghost use Rattle.bd_step.specs.Settling.{IsSettled, IsSettleStep, IsSettleFound, IsWornToSettle};
ghost use Rattle.bd_step.specs.Steps.{IsFlushStep, IsFound, step_visits, IsWornToFlush};
ghost use Rattle.bd_scan.specs.Scans.{IsScan};
ghost use Rattle.bd_tree.specs.Lending.{lends_store};

use bd_cover::{Reclaim, reclaim_next};
use bd_graft::{Walk, graft};
use bd_limits::MAX_BUFFER;
use bd_message::{MapFault, Message};
use bd_node::{Messages, NodeStore};
use bd_query::{get, next, scan};
use bd_reclaim::reclaim_step;
use bd_scan::Found;
use bd_step::{flush_step, settle_step};
use std::alloc::Global;
use std::collections::HashSet;
use std::marker::Model;

/// A tree of nodes, seen as the store that it stands on. It takes its memory of an allocator.
#[derive(Drop)]
pub struct Tree<S: NodeStore> {
    alloc: Global,
    store: S,
    walk: Walk,
}

impl<S: NodeStore> Model for Tree<S> {
    ghost use Rattle.bd_tree.specs.Trees.{TreeState};

    ghost Value = { TreeState S };

    ghost view = { λ tree. record { store = tree.store; walk = tree.walk } };
}

impl<S: NodeStore> Tree<S> {
    /// The tree of a store's root. Nothing was grafted in it.
    pub fn over(alloc: Global, store: S) -> Tree<S>
        ensures store { result.store ≡ store }
        ensures walk { result.walk ≡ record { visits = 0; height = 0 } }
    {
        Tree {
            alloc,
            store,
            walk: Walk {
                visits: 0,
                height: 0,
            },
        }
    }

    /// The store.
    pub fn into_store(self) -> S
        ensures { result ≡ self.store }
    {
        let Tree { store, .. } = self;
        store
    }

    /// The store, which is lent.
    pub fn store(&self) -> &S
        ensures { result.now ≡ self.now.store }
    {
        &self.store
    }

    /// The store, which is lent and may be changed.
    pub fn store_mut(&mut self) -> &mut S
        ensures* lends { sem 𝓛 (lends_store S.row S.NodeStore self.entry result) }
        ensures value { result.now ≡ self.old.store }
    {
        &mut self.store
    }

    /// What stands at a key, of any length. The nodes that are visited are those that are asked on
    /// the way down along the key, at most as many as the tree is high; the first ones where it
    /// fails.
    pub fn get(&mut self, key: &[u8]) -> Result<Option<Vec<u8>>, MapFault>
        ensures value { OfSound S.NodeStore self.old.store
            (IfOk result (λ found. option_map (λ value. value.items) found
            ≡ root_at (S.nodes self.old.store) (S.table self.old.store) key.now)) }
        ensures left { OnlyReads S.NodeStore self.old.store self.new.store }
        ensures cause { HasMapCause (S.fault_count self.old.store) (S.fault_count self.new.store)
            (S.last_failed self.new.store) (S.bad self.new.store) NeverWorn result }
        ensures visits { OnOk result (AreVisits 1
            ((S.table self.old.store).level (S.table self.old.store).root + 1)
            (S.visit_count self.old.store) (S.visit_count self.new.store)) }
        ensures few_visits { S.visit_count self.new.store ≤ S.visit_count self.old.store
            + ((S.table self.old.store).level (S.table self.old.store).root + 1) }
        ensures way { OfSound S.NodeStore self.old.store
            (OnOk result (AreVisitsOfWay (S.nodes self.old.store)
            (S.table self.old.store).root key.now (S.visit_count self.old.store)
            (S.visit_count self.new.store))) }
        ensures err_way { OfSound S.NodeStore self.old.store
            (OnErr result (AreVisitsOfPart (S.nodes self.old.store)
            (S.table self.old.store).root key.now (S.visit_count self.old.store)
            (S.visit_count self.new.store))) }
        ensures walk { self.new.walk ≡ self.old.walk }
    {
        let root = self.store.root();
        get(self.alloc, &mut self.store, root, key)
    }

    /// The least key, of any length, that is at least `from`, begins with `within` and has a value,
    /// and that value. The nodes that are visited are those that are asked on ways down along
    /// rising keys; where it fails, on the last way perhaps only the first ones. A way goes no
    /// further where a message gives or takes all of the value.
    pub fn next(
        &mut self,
        from: &[u8],
        within: &[u8],
    ) -> Result<Option<(Vec<u8>, Vec<u8>)>, MapFault>
        ensures next { OfSound S.NodeStore self.old.store
            (IfOk result (λ found. IsNextEntry
            (root_at (S.nodes self.old.store) (S.table self.old.store)) from.now within.now
            (option_map (λ entry. (entry.0.items, entry.1.items)) found))) }
        ensures left { OnlyReads S.NodeStore self.old.store self.new.store }
        ensures cause { HasMapCause (S.fault_count self.old.store) (S.fault_count self.new.store)
            (S.last_failed self.new.store) (S.bad self.new.store) NeverWorn result }
        ensures ways { OfSound S.NodeStore self.old.store
            (OnOk result (AreVisitsOfWays (S.nodes self.old.store)
            (S.table self.old.store).root from.now (S.visit_count self.old.store)
            (S.visit_count self.new.store))) }
        ensures err_ways { OfSound S.NodeStore self.old.store
            (OnErr result (AreVisitsOfSome (S.nodes self.old.store)
            (S.table self.old.store).root from.now (S.visit_count self.old.store)
            (S.visit_count self.new.store))) }
        ensures walk { self.new.walk ≡ self.old.walk }
    {
        let root = self.store.root();
        next(self.alloc, &mut self.store, root, from, within)
    }

    /// What stands at the keys from `from` on that begin with `within`, of any length, the least
    /// first and none left out: at least one and at most `most`, and none where there is none. The
    /// nodes that are visited are those that are asked on ways down along rising keys; where it
    /// fails, on the last way perhaps only the first ones. A way goes no further where a message
    /// gives or takes all of the value.
    pub fn scan(
        &mut self,
        alloc: Global,
        from: &[u8],
        within: &[u8],
        most: usize,
    ) -> Result<Vec<Found>, MapFault>
        requires { 1 ≤ most }
        ensures found { OfSound S.NodeStore self.old.store (IfOk result (λ found. IsScan
            (root_at (S.nodes self.old.store) (S.table self.old.store)) from.now within.now
            found.items)) }
        ensures few { IfOk result (λ found. length found.items ≤ most) }
        ensures left { OnlyReads S.NodeStore self.old.store self.new.store }
        ensures cause { HasMapCause (S.fault_count self.old.store) (S.fault_count self.new.store)
            (S.last_failed self.new.store) (S.bad self.new.store) NeverWorn result }
        ensures ways { OfSound S.NodeStore self.old.store
            (OnOk result (AreVisitsOfWays (S.nodes self.old.store)
            (S.table self.old.store).root from.now (S.visit_count self.old.store)
            (S.visit_count self.new.store))) }
        ensures err_ways { OfSound S.NodeStore self.old.store
            (OnErr result (AreVisitsOfSome (S.nodes self.old.store)
            (S.table self.old.store).root from.now (S.visit_count self.old.store)
            (S.visit_count self.new.store))) }
        ensures walk { self.new.walk ≡ self.old.walk }
    {
        let root = self.store.root();
        scan(alloc, &mut self.store, root, from, within, most)
    }

    /// For how many bytes of messages there is room.
    pub fn room(&self) -> usize
        ensures { result ≡ buffer_limit - (S.table self.now.store).size }
    {
        MAX_BUFFER.saturating_sub(self.store.root_size())
    }

    /// How many nodes stand one below the other from the root down: its level and 1.
    pub fn height(&self) -> u64
        ensures { result ≡ (S.table self.now.store).level (S.table self.now.store).root + 1 }
    {
        let root = self.store.root();
        self.store.level(root) as u64 + 1
    }

    /// Changes what stands at the keys by messages, the first one first: they are put after those
    /// that wait in the root. No other node has anything else, none is dropped, and none is visited.
    pub fn apply(&mut self, list: &[Message]) -> Result<(), MapFault>
        requires { FitsRoot (S.table self.old.store) list.now }
        ensures applied { OfSound S.NodeStore self.old.store
            (OnOk result (IsApplied
            (root_at (S.nodes self.old.store) (S.table self.old.store)) list.now
            (root_at (S.nodes self.new.store) (S.table self.new.store)))) }
        ensures committed { OfSound S.NodeStore self.old.store
            ((root : Node) → S.nodes self.old.store (S.table self.old.store).root ≡ Some root
            → OnOk result (IsCommitted (S.nodes self.old.store) (S.table self.old.store)
            (append_step (S.table self.old.store) root list.now)
            (S.nodes self.new.store) (S.table self.new.store))) }
        ensures others { OfSound S.NodeStore self.old.store
            (OnOk result ((id : ℕ) → IsKept (S.table self.old.store) id
            → ¬ (id ≡ (S.table self.old.store).root) → (k : List ℕ)
            → at (S.nodes self.new.store) id k ≡ at (S.nodes self.old.store) id k)) }
        ensures sound { OfSound S.NodeStore self.old.store
            (OnOk result (IsSound (S.nodes self.new.store) (S.table self.new.store))) }
        ensures table { OnOk result
            (HasGrown (S.table self.old.store) list.now (S.table self.new.store)) }
        ensures stays { Stays S.NodeStore self.old.store self.new.store }
        ensures err { OnErr result (OnlyReads S.NodeStore self.old.store self.new.store) }
        ensures cause { HasMapCause (S.fault_count self.old.store) (S.fault_count self.new.store)
            (S.last_failed self.new.store) (S.bad self.new.store) NeverWorn result }
        ensures visits { S.visit_count self.new.store ≡ S.visit_count self.old.store }
        ensures walk { self.new.walk ≡ self.old.walk }
    {
        let list = Messages::from_vec(Vec::from_clones(self.alloc, list)?);
        self.store.append(list)
    }

    /// Gives each key `d x` what stands at `s x`, and then, without `keep`, nothing at each `s x`.
    /// Where the tree is of height `h`, at most `5h + 2` nodes are visited and at most `h + 1` get
    /// new ids; it is one node higher after it only where what the prefix is sent to isn't lower
    /// than the root. Each other node that was kept stays, is what it was and has what it had. A
    /// fault leaves all as it was.
    pub fn graft(&mut self, s: &[u8], d: &[u8], keep: bool) -> Result<(), MapFault>
        requires { CanGraft s.now d.now keep (buffer_limit - (S.table self.old.store).size) }
        ensures grafted { OfSound S.NodeStore self.old.store
            (OnOk result (IsGrafted (root_at (S.nodes self.old.store) (S.table self.old.store))
            s.now d.now keep (root_at (S.nodes self.new.store) (S.table self.new.store)))) }
        ensures sound { OfSound S.NodeStore self.old.store
            (OnOk result (IsSound (S.nodes self.new.store) (S.table self.new.store))) }
        ensures step { OfSound S.NodeStore self.old.store
            (OnOk result (IsGraftStep (S.nodes self.old.store) (S.table self.old.store)
            s.now d.now keep (S.nodes self.new.store) (S.table self.new.store))) }
        ensures others { OfSound S.NodeStore self.old.store
            (OnOk result (AreOthersSame (S.nodes self.old.store) (S.table self.old.store)
            (S.nodes self.new.store) (S.table self.new.store))) }
        ensures table { OnOk result (IsGrown (S.table self.old.store) (S.table self.new.store)) }
        ensures walk { OfSound S.NodeStore self.old.store
            (OnOk result (IsWalkOf (S.nodes self.old.store) (S.table self.old.store) s.now
            (S.table self.new.store) self.new.walk.visits)) }
        ensures few { OnOk result (self.new.walk.visits ≤ 5 * self.new.walk.height + 2) }
        ensures visits { OnOk result (S.visit_count self.new.store < 2 ^ 64 - 1
            → self.new.walk.visits
            ≡ S.visit_count self.new.store - S.visit_count self.old.store) }
        ensures rise { OnOk result (S.visit_count self.new.store
            ≡ visited (S.visit_count self.old.store) self.new.walk.visits) }
        ensures height { OnOk result (self.new.walk.height
            ≡ (S.table self.old.store).level (S.table self.old.store).root + 1) }
        ensures few_visits { S.visit_count self.new.store ≤ S.visit_count self.old.store
            + (5 * ((S.table self.old.store).level (S.table self.old.store).root + 1) + 2) }
        ensures stays { Stays S.NodeStore self.old.store self.new.store }
        ensures err { OnErr result (OnlyReads S.NodeStore self.old.store self.new.store) }
        ensures err_walk { OnErr result (self.new.walk ≡ self.old.walk) }
        ensures cause { HasMapCause (S.fault_count self.old.store) (S.fault_count self.new.store)
            (S.last_failed self.new.store) (S.bad self.new.store)
            (IsWornForGraft (S.table self.old.store)) result }
        ensures worn { OfSound S.NodeStore self.old.store
            (IfErr result (OnWorn (IsWornByGraft (S.nodes self.old.store)
            (S.table self.old.store) s.now d.now keep))) }
    {
        let walk = graft(self.alloc, &mut self.store, s, d, keep)?;
        self.walk = walk;
        Ok(())
    }

    /// A change of reclaiming that is still to be made, and none exactly where there is none; pushes
    /// are passed over unless `pushes` asks for them. The nodes in `passed` are passed over first, and
    /// it gets those at and below which nothing was found, for the next call: it says only where it is
    /// worth looking. Only the root and inner nodes that nothing else names are looked at, each at most
    /// twice, with at most 1,057 visits.
    pub fn reclaim_next(
        &mut self,
        passed: &mut HashSet<u64>,
        pushes: bool,
    ) -> Result<Option<Reclaim>, MapFault>
        ensures due { OfSound S.NodeStore self.old.store
            (IfOk result (λ found. MatchOption found
            (HasNone pushes (S.nodes self.old.store) (S.table self.old.store)
            (S.table self.old.store).root)
            (λ step. IsDue pushes (S.nodes self.old.store) (S.table self.old.store) step
            (S.table self.old.store).root))) }
        ensures to_do { IfOk result (λ found. IfSome found (IsToDo (S.table self.old.store))) }
        ensures at { OfSound S.NodeStore self.old.store
            (IfOk result (λ found. IfSome found
            (IsToDoAt (S.nodes self.old.store) (S.table self.old.store)))) }
        ensures left { OnlyReads S.NodeStore self.old.store self.new.store }
        ensures cause { HasMapCause (S.fault_count self.old.store) (S.fault_count self.new.store)
            (S.last_failed self.new.store) (S.bad self.new.store) NeverWorn result }
        ensures few_visits { S.is_known self.old.store → S.visit_count self.new.store
            ≤ S.visit_count self.old.store + 2 * (node_visits * walk_size
            (S.nodes self.old.store) (S.table self.old.store)
            ((S.table self.old.store).level (S.table self.old.store).root + 1)
            (S.table self.old.store).root) }
        ensures twice { S.visit_count self.new.store ≤ S.visit_count self.old.store
            + 2 * (node_visits * kept_count (S.table self.old.store))
            + first_visits * (S.table self.old.store).level (S.table self.old.store).root
            + node_visits }
        ensures walk { self.new.walk ≡ self.old.walk }
    {
        reclaim_next(self.alloc, &mut self.store, passed, pushes)
    }

    /// Makes a change of reclaiming that `reclaim_next` just found: what the tree has stays. A push
    /// makes at most four nodes, and has at most as many visits as a step of a flush; the other
    /// changes make none, and fetch none but a new root or a child that is to change. A fault leaves
    /// all as it was.
    pub fn reclaim_step(&mut self, step: Reclaim) -> Result<(), MapFault>
        requires to_do { IsToDo (S.table self.old.store) step }
        requires at { OfSound S.NodeStore self.old.store
            (IsToDoAt (S.nodes self.old.store) (S.table self.old.store) step) }
        ensures same { OfSound S.NodeStore self.old.store
            ((k : List ℕ) → root_at (S.nodes self.new.store) (S.table self.new.store) k
            ≡ root_at (S.nodes self.old.store) (S.table self.old.store) k) }
        ensures reclaimed { OfSound S.NodeStore self.old.store
            (OnOk result (IsReclaimed (S.nodes self.old.store) (S.table self.old.store)
            (S.nodes self.new.store) (S.table self.new.store))) }
        ensures made { OfSound S.NodeStore self.old.store
            (OnOk result (IsReclaimMade (S.nodes self.old.store) (S.table self.old.store) step
            (S.nodes self.new.store) (S.table self.new.store))) }
        ensures falls { OfSound S.NodeStore self.old.store
            (OnOk result (LeavesLess (S.nodes self.old.store) (S.table self.old.store) step
            (S.nodes self.new.store) (S.table self.new.store))) }
        ensures next { OnOk result
            (IsNextAfter (S.table self.old.store) step (S.table self.new.store)) }
        ensures root { OnOk result
            (IsRootAfter (S.table self.old.store) step (S.table self.new.store)) }
        ensures stays { Stays S.NodeStore self.old.store self.new.store }
        ensures err { OnErr result (OnlyReads S.NodeStore self.old.store self.new.store) }
        ensures few_visits { S.visit_count self.new.store
            ≤ S.visit_count self.old.store + reclaim_visits (S.table self.old.store) step }
        ensures cause { HasMapCause (S.fault_count self.old.store) (S.fault_count self.new.store)
            (S.last_failed self.new.store) (S.bad self.new.store)
            (IsWornChange (AreKnown S.NodeStore self.old.store) (S.nodes self.old.store)
            (S.table self.old.store) step) result }
        ensures walk { self.new.walk ≡ self.old.walk }
    {
        reclaim_step(self.alloc, &mut self.store, step)
    }

    /// How often what the store stands on has failed.
    pub fn faults(&self) -> u64
        ensures { result ≡ S.fault_count self.now.store }
    {
        self.store.faults()
    }

    /// How the last graft went that gave no fault: no visits and no height, where there was none.
    pub fn last_walk(&self) -> Walk
        ensures { result ≡ self.now.walk }
    {
        self.walk
    }

    /// Makes one step of a flush where more than `limit` bytes of messages wait in the root, and says
    /// whether it did: what the tree has stays. At most four nodes are made, and there are at most as
    /// many visits as the tree is high, and four more; where a child is copied, also those of at most
    /// 17 sources that are looked through, each at most as many as the tree is high. A fault leaves
    /// all as it was.
    pub fn flush_step(&mut self, limit: usize) -> Result<bool, MapFault>
        ensures same { OfSound S.NodeStore self.old.store
            ((k : List ℕ) → root_at (S.nodes self.new.store) (S.table self.new.store) k
            ≡ root_at (S.nodes self.old.store) (S.table self.old.store) k) }
        ensures enough { (result ≡ Ok false) ↔ ((S.table self.old.store).size ≤ limit) }
        ensures unchanged { result ≡ Ok false → self.new.store ≡ self.old.store }
        ensures step { OfSound S.NodeStore self.old.store
            (result ≡ Ok true → IsFlushStep (S.nodes self.old.store) (S.table self.old.store)
            (S.nodes self.new.store) (S.table self.new.store)) }
        ensures found { result ≡ Ok true
            → IsFound (S.table self.old.store) (S.table self.new.store) }
        ensures stays { Stays S.NodeStore self.old.store self.new.store }
        ensures rest { result ≢ Ok true → OnlyReads S.NodeStore self.old.store self.new.store }
        ensures few_visits { S.visit_count self.new.store
            ≤ S.visit_count self.old.store + step_visits (S.table self.old.store) }
        ensures cause { HasMapCause (S.fault_count self.old.store) (S.fault_count self.new.store)
            (S.last_failed self.new.store) (S.bad self.new.store)
            (IsWornToFlush (AreKnown S.NodeStore self.old.store) (S.nodes self.old.store)
            (S.table self.old.store)) result }
        ensures walk { self.new.walk ≡ self.old.walk }
    {
        flush_step(self.alloc, &mut self.store, limit)
    }

    /// Makes one step of a flush where 1,024 bytes or more of messages wait for the keys that begin
    /// with a prefix, at a private node of its way, and says whether it did: what the tree has stays.
    /// At most four nodes are made, a shared node is copied only for 1,024 pending bytes or more, and
    /// there are at most as many visits as in a step of a flush. A fault leaves all as it was.
    pub fn settle_step(&mut self, prefix: &[u8]) -> Result<bool, MapFault>
        ensures same { OfSound S.NodeStore self.old.store
            ((k : List ℕ) → root_at (S.nodes self.new.store) (S.table self.new.store) k
            ≡ root_at (S.nodes self.old.store) (S.table self.old.store) k) }
        ensures settled { OfSound S.NodeStore self.old.store (result ≡ Ok false
            → IsSettled (S.nodes self.old.store) (S.table self.old.store) prefix.now) }
        ensures step { OfSound S.NodeStore self.old.store (result ≡ Ok true
            → IsSettleStep (S.nodes self.old.store) (S.table self.old.store) prefix.now
            (S.nodes self.new.store) (S.table self.new.store)) }
        ensures found { result ≡ Ok true
            → IsSettleFound (S.table self.old.store) (S.table self.new.store) }
        ensures stays { Stays S.NodeStore self.old.store self.new.store }
        ensures rest { result ≢ Ok true → OnlyReads S.NodeStore self.old.store self.new.store }
        ensures few_visits { S.visit_count self.new.store
            ≤ S.visit_count self.old.store + step_visits (S.table self.old.store) }
        ensures cause { HasMapCause (S.fault_count self.old.store) (S.fault_count self.new.store)
            (S.last_failed self.new.store) (S.bad self.new.store)
            (IsWornToSettle (AreKnown S.NodeStore self.old.store) (S.nodes self.old.store)
            (S.table self.old.store) prefix.now) result }
        ensures walk { self.new.walk ≡ self.old.walk }
    {
        settle_step(self.alloc, &mut self.store, prefix)
    }
}
