//! Files by their names.
ghost use Rattle.std.specs.Prelude.{◌≡◌, ◌↔◌, ℕ, List, codes, IfErr, IfOk, IsTrue};
ghost use Rattle.faults.specs.Refusal.{IsRefusal};
ghost use Rattle.run_parts.specs.Files.{IsContent, IsNotOpened, IsOpened, KnownFile};

use crate::fault::ProgramFault;
use std::alloc::Global;
use std::io::{self, Read};
use transfer::read_source;

/// The files that a run may name.
///
/// Nothing is known of what a system's files have. Other `Files`, such as a list, may know all of it. So a
/// proof about every `Files` says which files a run reads.
pub trait Files {
    type File: Read + Drop;

    /// What is known of the file of a name.
    ghost known_file: { Self → List ℕ → KnownFile };

    /// Opens the file of this name, and returns a reader at its front.
    ///
    /// # Errors
    ///
    /// The file isn't there, or may not be read.
    fn open(&self, name: &str) -> io::Result<Self::File>
        ensures file { IfOk result
            (λ file. IsOpened (known_file self.now name.now) (Self.File.remaining file)) }
        ensures fault { IfErr result (λ _. IsNotOpened (known_file self.now name.now)) };
}

/// Whether a FILE of the command line stands for standard input.
pub fn is_standard_input(file: &str) -> bool
    ensures { IsTrue result ↔ (file.now ≡ codes "-") }
{
    file == "-"
}

/// Reads a whole file, in room of its own size.
///
/// # Errors
///
/// The file can't be read, or memory ran out.
#[tactic(auto, using(crate::proofs::FilesFacts::content_read))]
pub fn read_file<F: Files>(
    files: &F,
    alloc: Global,
    name: &str,
    retries: &mut u32,
) -> Result<Vec<u8>, ProgramFault>
    ensures bytes { IfOk result (λ bytes. IsContent (F.known_file files.now name.now) bytes.items) }
    ensures fault { IfErr result (IsRefusal ProgramFault.Memory (λ fault. fault ≡ ProgramFault.NotRead)) }
{
    match files.open(name) {
        Ok(mut source) => {
            let mut bytes = read_source(alloc, &mut source, usize::MAX, retries)?;
            bytes.shrink_to_fit();
            Ok(bytes)
        }
        Err(_) => Err(ProgramFault::NotRead),
    }
}
