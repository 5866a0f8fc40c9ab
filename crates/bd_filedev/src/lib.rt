//! The device over a file of std, the trusted edge: its contents aren't known, and the causes of
//! its failures are proved.
#![tactic(auto)]

mod file_device;
mod image_file;

pub use file_device::FileDevice;
