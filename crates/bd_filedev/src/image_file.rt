ghost use Rattle.std.specs.Prelude.{◌≡◌, ◌*◌, ◌+◌, ◌<◌, ◌≤◌, ◌^◌, IfOk, IfSome, length};
ghost use Rattle.bd_limits.specs.Limits.{block_size};

use bd_device::BLOCK_SIZE;
use std::fs::{File, Files, OpenOptions};
use std::io;
use std::os::unix::fs::FileExt;

/// An open file that holds an image, of which only the whole blocks count. It is locked while it is
/// open, against other programs that lock it too.
#[derive(Drop)]
pub struct ImageFile {
    pub file: File,
    pub blocks: u64,
    ghost fits: { blocks * 4096 < 2 ^ 64 },
}

impl ImageFile {
    /// Opens the file of this name, or with `Some(n)` makes one, or empties the one that is there,
    /// and gives it `n` blocks of zeroes. A file that another program has locked, and what is no
    /// regular file, are refused and stay as they are.
    pub fn open<R: Files<File = File>>(
        files: &R,
        name: &str,
        create: Option<u64>,
    ) -> io::Result<ImageFile>
        ensures { IfOk result (λ image. IfSome create (λ n. image.blocks ≡ n)) }
    {
        match create {
            None => ImageFile::open_there(files, name),
            Some(blocks) => ImageFile::make(files, name, blocks),
        }
    }

    fn open_there<R: Files<File = File>>(files: &R, name: &str) -> io::Result<ImageFile> {
        let file = OpenOptions::new().read(true).write(true).open(files, name)?;
        lock_regular(&file)?;
        let blocks = file.metadata()?.len() / BLOCK_SIZE as u64;
        Ok(ImageFile { file, blocks })
    }

    fn make<R: Files<File = File>>(files: &R, name: &str, blocks: u64) -> io::Result<ImageFile>
        ensures { IfOk result (λ image. image.blocks ≡ blocks) }
    {
        let Some(len) = blocks.checked_mul(BLOCK_SIZE as u64) else {
            return Err(io::ErrorKind::InvalidInput.into());
        };
        let file = OpenOptions::new()
            .read(true)
            .write(true)
            .create(true)
            .open(files, name)?;
        lock_regular(&file)?;
        file.set_len(0)?;
        file.set_len(len)?;
        file.sync_all()?;
        File::open(files, folder_of(name))?.sync_all()?;
        Ok(ImageFile { file, blocks })
    }

    /// Reads block `b`.
    pub fn read(&self, b: u64, into: &mut [u8; BLOCK_SIZE]) -> io::Result<()>
        requires { b < self.now.blocks }
    {
        self.file.read_exact_at(into, b * BLOCK_SIZE as u64)
    }

    /// Reads so many blocks, from block `first` on, into the front of `into`.
    pub fn read_run(&self, first: u64, into: &mut [u8], count: usize) -> io::Result<()>
        requires room { first + count ≤ self.now.blocks }
        requires length { count * block_size ≤ length into.old }
    {
        self.file
            .read_exact_at(&mut into[..count * BLOCK_SIZE], first * BLOCK_SIZE as u64)
    }

    /// Writes block `b`.
    pub fn write(&self, b: u64, from: &[u8; BLOCK_SIZE]) -> io::Result<()>
        requires { b < self.now.blocks }
    {
        self.file.write_all_at(from, b * BLOCK_SIZE as u64)
    }

    /// Writes so many blocks, from block `first` on, of the front of `from`.
    pub fn write_run(&self, first: u64, from: &[u8], count: usize) -> io::Result<()>
        requires room { first + count ≤ self.now.blocks }
        requires length { count * block_size ≤ length from.now }
    {
        self.file
            .write_all_at(&from[..count * BLOCK_SIZE], first * BLOCK_SIZE as u64)
    }
}

// Locks a file, unless it is no regular one.
fn lock_regular(file: &File) -> io::Result<()> {
    if !file.metadata()?.is_file() {
        return Err(io::ErrorKind::Unsupported.into());
    }
    Ok(file.try_lock()?)
}

// The folder in which a file of this name lies.
fn folder_of(name: &str) -> &str {
    match name.rfind('/') {
        None => ".",
        Some(0) => "/",
        Some(end) => &name[..end],
    }
}
