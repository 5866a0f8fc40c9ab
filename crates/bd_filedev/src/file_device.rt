ghost use Rattle.std.specs.Prelude.{◌≡◌};
ghost use Rattle.bd_filedev.specs.Counts.{no_file};

use crate::image_file::ImageFile;
use bd_device::{Attach, BLOCK_SIZE, Counts, Device};
use bd_io::Failed;
use std::fs::{File, Files};
use std::marker::Model;

/// A device over a file of std: the trusted edge. An attach opens the file of the name; with a
/// number of blocks it makes the file, or empties the one that is there, and syncs it and its
/// folder. Only its whole blocks count, and a barrier is its sync call. It is locked until the next
/// attach or the drop of the device, against other programs that lock it too: an attach fails where
/// one has it, and where the name is of no regular file.
///
/// Each error of the file is a fault. After a barrier that failed each write and each barrier fails
/// until the next attach, since the system may have dropped what was written. A run of blocks is
/// read or written in one call. At a count of calls that stands at its last value a call may reach
/// the file, and fails. What the file holds isn't known; the device is seen as its size and its
/// counts.
#[derive(Drop)]
pub struct FileDevice<'a, R: Files<File = File>> {
    files: &'a R,
    image: Option<ImageFile>,
    broken: bool,
    counts: Counts,
}

impl<'a, R: Files<File = File>> Model for FileDevice<'a, R> {
    ghost use Rattle.bd_filedev.specs.Counts.{FileCounts, blocks_of};

    ghost Value = { FileCounts };

    ghost view = { λ d. record {
      blocks = blocks_of d.image;
      calls = d.counts.calls;
      faults = d.counts.faults;
      write_faults = d.counts.write_faults;
      last_failed = d.counts.last_failed;
    } };
}

impl<'a, R: Files<File = File>> FileDevice<'a, R> {
    /// A device with nothing attached, over the files of this runtime.
    pub fn new(files: &'a R) -> FileDevice<'a, R>
        ensures { result ≡ no_file }
    {
        FileDevice {
            files,
            image: None,
            broken: false,
            counts: Counts::new(),
        }
    }
}

impl<'a, R: Files<File = File>> Device for FileDevice<'a, R> {
    ghost use Rattle.std.specs.Prelude.{⊤, None};

    ghost block_count = { λ d. d.blocks };

    ghost contents = { λ _. None };

    ghost fault_count = { λ d. d.faults };

    ghost write_fault_count = { λ d. d.write_faults };

    ghost call_count = { λ d. d.calls };

    ghost last_failed = { λ d. d.last_failed };

    ghost is_named = { λ _ _. ⊤ };

    ghost since_earlier = { λ _ _ _ _ _ left. left };

    fn blocks(&self) -> u64 {
        match &self.image {
            None => 0,
            Some(image) => image.blocks,
        }
    }

    fn read(&mut self, b: u64, into: &mut [u8; BLOCK_SIZE]) -> Result<(), Failed> {
        let is_done = match &self.image {
            None => false,
            Some(image) => image.read(b, into).is_ok(),
        };
        self.counts.settle(is_done)
    }

    fn write(&mut self, b: u64, from: &[u8; BLOCK_SIZE]) -> Result<(), Failed> {
        let is_done = match &self.image {
            None => false,
            Some(image) => !self.broken && image.write(b, from).is_ok(),
        };
        self.counts.settle_writing(is_done)
    }

    fn read_run(&mut self, first: u64, into: &mut [u8], count: usize) -> Result<(), Failed> {
        let is_done = match &self.image {
            None => false,
            Some(image) => image.read_run(first, into, count).is_ok(),
        };
        self.counts.settle(is_done)
    }

    fn write_run(&mut self, first: u64, from: &[u8], count: usize) -> Result<(), Failed> {
        let is_done = match &self.image {
            None => false,
            Some(image) => !self.broken && image.write_run(first, from, count).is_ok(),
        };
        self.counts.settle_writing(is_done)
    }

    fn barrier(&mut self) -> Result<(), Failed> {
        let is_done = match &self.image {
            None => false,
            Some(image) => !self.broken && image.file.sync_all().is_ok(),
        };
        self.broken = !is_done;
        self.counts.settle_writing(is_done)
    }

    fn faults(&self) -> u64 {
        self.counts.faults
    }

    fn write_faults(&self) -> u64 {
        self.counts.write_faults
    }

    fn calls(&self) -> u64 {
        self.counts.calls
    }
}

impl<'a, R: Files<File = File>> Attach for FileDevice<'a, R> {
    ghost use Rattle.std.specs.Prelude.{None, refl};

    ghost shows = { λ _ _. None };

    ghost shows_named = { λ _ _ _. refl };

    ghost left_named = { λ _ _ _ _ _. (λ left. left, λ left. left) };

    fn attach(&mut self, name: &str, create: Option<u64>) -> Result<(), Failed> {
        // The file that was attached is closed first, and its lock is given up.
        self.image = None;
        self.broken = false;
        let opened = ImageFile::open(self.files, name, create);
        self.counts.settle(opened.is_ok())?;
        self.image = opened.ok();
        Ok(())
    }
}
