//! A file in memory, as a database sees it: a [`RamDisk`] keeps what is written, and loses nothing of it.
//!
//! It is for a database that ends with its program, so a sync has nothing to do and costs nothing. The `Memory` of
//! `sqlite_disk` is for tests of stops: it keeps what each of them may leave, and copies the whole file at each sync.
//!
//! ```
//! use ram_disk::RamDisk;
//! use sqlite_disk::Disk;
//! let mut disk = RamDisk::new(alloc);
//! disk.write_at(2, b"ab")?;
//! let mut bytes = [0; 3];
//! disk.read_at(1, &mut bytes)?;
//! assert_eq!(rt; bytes, *b"\0ab");
//! ```
#![tactic(auto)]

mod bytes;
mod disk;

pub use disk::RamDisk;
