//! How many names of a node are still to come.

ghost use Rattle.std.specs.Prelude.{◌≡◌};
ghost use Rattle.bd_tally.specs.Counts.{first_count, count_after, is_wrong};

use bd_table::TableEntry;

/// How many names of a node are still to come, of those that a table counts.
#[derive(Clone, Copy, Debug)]
pub struct Count {
    /// The node's id.
    pub id: u64,
    /// How many names are still to come.
    pub left: u64,
    /// Whether more names came than the table counts.
    pub over: bool,
}

impl Count {
    /// An entry's count before any name came.
    pub fn of(entry: TableEntry) -> Count
        ensures { result ≡ first_count entry }
    {
        Count {
            id: entry.id,
            left: entry.refs,
            over: false,
        }
    }

    /// The count after one name more.
    pub fn after_name(self) -> Count
        ensures { result ≡ count_after 1 self }
    {
        if self.left == 0 {
            Count { over: true, ..self }
        } else {
            Count {
                left: self.left - 1,
                ..self
            }
        }
    }

    /// Whether names are left, or more came.
    pub fn is_wrong(self) -> bool
        ensures { result ≡ is_wrong self }
    {
        self.over || self.left > 0
    }
}
