use crate::BLOCK_SIZE;

/// A write, also one that failed by the device's list.
#[derive(Clone, Copy)]
pub struct WriteRecord {
    /// The number of the call, the device's first call being 1.
    pub call: u64,
    /// The block that was written.
    pub block: u64,
    /// The bytes that were to be written.
    pub bytes: [u8; BLOCK_SIZE],
    /// The bytes that a read of the block gave before.
    pub before: [u8; BLOCK_SIZE],
    /// Whether a read gives the bytes since: the write didn't fail.
    pub is_done: bool,
    /// The number of the first barrier that succeeded between the write before and this one, and 0
    /// where none did.
    pub barrier: u64,
}
