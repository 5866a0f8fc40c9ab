//! Superblocks.

ghost use Rattle.std.specs.Prelude.{◌≡◌, ◌≢◌, ◌↔◌, IsTrue, IfSome, IfNone};
ghost use Rattle.bd_super.specs.Superblocks.{IsSuper, version_number, commit_block, body_block, log_block, other};
ghost use Rattle.bd_super.specs.declared.superblock.Version.{Version as AnyVersion};

use bd_keys::Items;
use bd_limits::{FIRST_LOG_BLOCK, MAX_SLOTS, MIN_SLOTS, SECOND_LOG_BLOCK};
use bd_slots::is_table_place;

/// One of the two places of a superblock, each with a log of its own.
#[derive(Clone, Copy, Debug, PartialEq, Eq)]
pub enum Half {
    /// The first one.
    A,
    /// The second one.
    B,
}

impl Half {
    /// The block that says whether this half's superblock is committed.
    pub fn commit_block(self) -> u64
        ensures { result ≡ commit_block self }
    {
        match self {
            Half::A => 0,
            Half::B => 2,
        }
    }

    /// The block of this half's superblock.
    pub fn body_block(self) -> u64
        ensures { result ≡ body_block self }
    {
        match self {
            Half::A => 1,
            Half::B => 3,
        }
    }

    /// The first block of this half's log.
    pub fn log_block(self) -> u64
        ensures { result ≡ log_block self }
    {
        match self {
            Half::A => FIRST_LOG_BLOCK,
            Half::B => SECOND_LOG_BLOCK,
        }
    }

    /// The other half.
    pub fn other(self) -> Half
        ensures { result ≡ other self }
    {
        match self {
            Half::A => Half::B,
            Half::B => Half::A,
        }
    }
}

/// What the records of an image may hold.
#[derive(Clone, Copy, Debug, PartialEq, Eq)]
pub enum Version {
    /// Records without modes, and a log without a `chmod`.
    One,
    /// Records with modes, and a log of all commands that change the tree.
    Two,
}

/// The version of a superblock that is written today.
pub const WRITTEN_VERSION: Version = Version::Two;

impl Version {
    /// Its number.
    pub fn number(self) -> u32
        ensures { result ≡ version_number self }
    {
        match self {
            Version::One => 1,
            Version::Two => 2,
        }
    }

    /// The version of this number. It is `None` exactly where there is none.
    pub fn of(number: u32) -> Option<Version>
        ensures some { IfSome result (λ version. version_number version ≡ number) }
        ensures none { IfNone result ((version : AnyVersion) → version_number version ≢ number) }
    {
        match number {
            1 => Some(Version::One),
            2 => Some(Version::Two),
            _ => None,
        }
    }
}

/// What an image starts from: a checkpoint.
#[derive(Clone, Debug, PartialEq, Eq, Drop)]
pub struct Super {
    /// Where it stands.
    pub half: Half,
    /// What the image's records may hold.
    pub version: Version,
    /// How many slots the image has, 24 to 65,536.
    pub slots: u32,
    /// The number of the checkpoint, 1 or more.
    pub epoch: u64,
    /// The accepted commands up to it.
    pub count: u64,
    /// The slots of the table of its nodes in the order in which they are read, 1 to 25.
    pub table: Items<u32>,
}

impl Super {
    /// Whether its fields are in their ranges, and the table's slots differ.
    pub fn is_super(&self) -> bool
        ensures { IsTrue result ↔ IsSuper self.now }
    {
        let (slots, epoch, _count) = (self.slots, self.epoch, self.count);
        slots >= MIN_SLOTS
            && slots <= MAX_SLOTS
            && epoch >= 1
            && is_table_place(slots, self.table.as_slice())
    }
}
