//! Which nodes' names were looked at.

ghost use Rattle.std.specs.Prelude.{◌≡◌, ◌⊎◌, ◌↔◌, ℕ, false, IsTrue};
ghost use Rattle.std.specs.List.{AllByRecursion};
ghost use Rattle.bd_pager.specs.Places.{spots_in};
ghost use Rattle.bd_pager.specs.Testing.{is_tested, AreStillTested, IsNoHigher};

use crate::committing::Plan;
use crate::place::Spot;
use crate::stepping::Put;
use std::alloc::Global;
use std::collections::HashMap;
use std::marker::Model;

/// The ids of nodes that were found to name kept nodes of lower levels alone, since the last commit
/// that let a node go or raised one.
#[derive(Drop)]
pub struct Tested {
    // How many such commits there had been, beside each id.
    at: HashMap<u64, u64>,
    // How many there were. At a u64's last value no id counts as tested.
    commits: u64,
}

impl Model for Tested {
    ghost use Rattle.bd_pager.specs.Testing.{Marks, AreMarks, marks};

    ghost Value = { Marks };

    ghost view = { λ t. marks t.at.entries t.commits };

    ghost invariant = { λ t. AreMarks (marks t.at.entries t.commits) };
}

impl Tested {
    /// No id counts as tested yet.
    pub fn new(alloc: Global) -> Tested
        ensures { (id : ℕ) → is_tested result id ≡ false }
    {
        Tested {
            at: HashMap::new(alloc),
            commits: 0,
        }
    }

    /// Whether the node of an id was tested.
    pub fn has(&self, id: u64) -> bool
        ensures { result ≡ is_tested self.now id }
    {
        match self.at.get(&id) {
            Some(at) => *at == self.commits && self.commits < u64::MAX,
            None => false,
        }
    }

    /// Counts the node of an id as tested, if there is memory.
    pub fn note(&mut self, id: u64)
        ensures { (other : ℕ) → IsTrue (is_tested self.new other)
            → (other ≡ id) ⊎ IsTrue (is_tested self.old other) }
    {
        let _ = self.at.insert(id, self.commits);
    }

    /// Counts the node of an id as tested no more.
    pub fn forget(&mut self, id: u64)
        ensures gone { is_tested self.new id ≡ false }
        ensures others { (other : ℕ) → IsTrue (is_tested self.new other)
            → IsTrue (is_tested self.old other) }
    {
        self.at.remove(&id);
    }

    /// Counts no node as tested any more.
    pub fn expire(&mut self)
        ensures { (id : ℕ) → is_tested self.new id ≡ false }
    {
        self.commits = self.commits.saturating_add(1);
    }
}

/// Counts nodes as tested no more whose names may not be lower once a plan is carried out: all of
/// them where it lets a node go or raises one, and a root that it finds.
pub fn outdate(tested: &mut Tested, spots: &HashMap<u64, Spot>, plan: &Plan)
    ensures { AreStillTested plan.now (spots_in spots.now) tested.old tested.new }
{
    if plan.new_root.copy.is_some() {
        tested.forget(plan.root);
    }
    let gone = plan.recount.gone.as_slice();
    if gone.is_empty() && stay_low(spots, plan.puts.as_slice()) {
        return;
    }
    forget_all(tested, gone);
    tested.expire();
}

// Counts these nodes as tested no more.
fn forget_all(tested: &mut Tested, ids: &[u64])
    ensures { (id : ℕ) → IsTrue (is_tested tested.new id) → IsTrue (is_tested tested.old id) }
{
    for id in ids {
        tested.forget(*id);
    }
}

// Whether none of the nodes that are put is higher than the one before it.
fn stay_low(spots: &HashMap<u64, Spot>, puts: &[Put]) -> bool
    ensures { IsTrue result ↔ AllByRecursion (IsNoHigher (spots_in spots.now)) puts.now }
{
    for put in puts {
        if !stays_low(spots, put) {
            return false;
        }
    }
    true
}

// Whether a node that is put is no higher than the one before it.
fn stays_low(spots: &HashMap<u64, Spot>, put: &Put) -> bool
    ensures { IsTrue result ↔ IsNoHigher (spots_in spots.now) put.now }
{
    match spots.get(&put.id) {
        Some(spot) => put.node.level() <= spot.level,
        None => true,
    }
}
