//! The names that a table counts, and those that came.

ghost use Rattle.std.specs.Prelude.{◌≡◌, ℕ, ◌<◌, List, [], ◌∷◌, ◌++◌, Some, AllPairs, IfOk, IfSome, IfNone};
ghost use Rattle.bd_node.specs.Meaning.{Nodes};
ghost use Rattle.bd_table.specs.declared.table.Table.{Table as StoredTable};
ghost use Rattle.bd_tally.specs.Seen.{HasSeen, AreRight, IsLeastWrong, named_so_far};

use crate::count::Count;
use crate::counts::{first_counts, first_wrong, take, take_names};
use bd_node::Node;
use bd_table::Table;
use std::alloc::{AllocError, Global};
use std::marker::Model;

/// For each entry of a table, how many of the names that it counts are still to come, and whether
/// more came. Only making it takes memory, 24 bytes an entry. No sum is made, so none can be too
/// large, however often a node is named.
#[derive(Debug, Drop)]
pub struct Owed {
    counts: Vec<Count>,
}

impl Model for Owed {
    ghost use Rattle.std.specs.Prelude.{List};
    ghost use Rattle.bd_tally.specs.declared.count.Count.{Count};

    ghost Value = { List Count };

    ghost use Rattle.bd_tally.specs.Counts.{AreRising};

    ghost view = { λ o. o.counts.items };

    ghost invariant = { λ o. AreRising o.counts.items };
}

impl Owed {
    /// What is owed before any node was seen, where of all names only the root's pointer has come.
    pub fn new(alloc: Global, table: &Table) -> Result<Owed, AllocError>
        requires { AllPairs (λ e o. e.id < o.id) table.now.entries }
        ensures { IfOk result (λ owed. (nodes : Nodes) → HasSeen nodes table.now [] owed) }
    {
        let mut counts = first_counts(alloc, table.entries.as_slice())?;
        take(counts.as_mut_slice(), table.root);
        Ok(Owed { counts })
    }

    /// Sees a node: each of its names has come. A name of an id of no entry changes nothing. A name
    /// costs one search by halving.
    pub fn owe(&mut self, node: &Node)
        ensures { (nodes : Nodes) (t : StoredTable) (seen : List ℕ) (id : ℕ)
            → HasSeen nodes t seen self.old → nodes id ≡ Some node.now
            → HasSeen nodes t (seen ++ id ∷ []) self.new }
    {
        take_names(self.counts.as_mut_slice(), node);
    }

    /// The least id of an entry that counts more or fewer names than came; `None` exactly where
    /// each counts those that came.
    pub fn wrong(&self) -> Option<u64>
        ensures none { (nodes : Nodes) (t : StoredTable) (seen : List ℕ)
            → HasSeen nodes t seen self.now
            → IfNone result (AreRight (named_so_far nodes t seen) t.entries) }
        ensures least { (nodes : Nodes) (t : StoredTable) (seen : List ℕ)
            → HasSeen nodes t seen self.now
            → IfSome result (IsLeastWrong (named_so_far nodes t seen) t.entries) }
    {
        first_wrong(self.counts.as_slice())
    }
}
