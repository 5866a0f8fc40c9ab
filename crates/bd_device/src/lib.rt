//! A device of blocks of 4,096 bytes: what a read gives, what a crash may leave, and its counts.
//! One is in memory and can lose power; two stand over another device, of which one refuses the
//! calls of a list and one all calls but the first ones. Layers above use the contracts of `Device`
//! and `Attach`: contents and crash images where they are known, and a cause for each fault.
#![tactic(auto)]

mod blocks;
mod counts;
mod device;
mod fault;
mod faulty_device;
mod fuse_device;
mod laws;
mod mem_device;
mod torn;
mod write_record;

pub use bd_limits::BLOCK_SIZE;
pub use blocks::{
    committed_block, is_committed, put, read_block, read_blocks, settle, write_blocks,
};
pub use counts::Counts;
pub use device::{Attach, Device};
pub use fault::ImageFault;
pub use faulty_device::FaultyDevice;
pub use fuse_device::FuseDevice;
pub use laws::{law_of_a_barrier, law_of_a_write};
pub use mem_device::MemDevice;
pub use torn::Torn;
pub use write_record::WriteRecord;
