//! The surroundings of a run: the words of its command line, files by their names, ports and the connections to
//! them, and random keys. Stores come in an argument of their own.
ghost use Rattle.std.specs.Prelude.{◌≡◌, ℕ, Bool, List, Option, None, map, string_bytes, IfOk, IfErr, IfSome, OnOk};
ghost use Rattle.faults.specs.Refusal.{IsRefusal};

use command_line::LineFault;
use connections::Rounds;
use run_parts::Files;
use std::alloc::Global;
use std::hash::RandomState;
use std::io;

/// The words of a command line, the files that they may name, and the connections that come to a port.
///
/// Nothing is known of what a system's surroundings have. Others, such as lists of words, of files and of events,
/// may know all of it. So a proof about every `Surroundings` says which words and which files a run reads, and which
/// connections it serves. No connection comes before the run listens on a port.
pub trait Surroundings: Files + Rounds {
    /// The words after the program's name, if they are known.
    ghost known_words: { Self → Option (List (List ℕ)) };

    /// Whether standard error is a terminal, if that is known.
    ghost known_watched: { Self → Option Bool };

    /// That the run listens on this port, for so many connections at once, with a log or without. Only the contract
    /// of a `listen` that succeeded gives it.
    ghost known_port: { Self → ℕ → ℕ → Bool → Type 0 };

    /// The words after the program's name.
    ///
    /// # Errors
    ///
    /// A word is no text, or memory ran out.
    fn words(&self, alloc: Global) -> Result<Vec<String>, LineFault>
        ensures words { IfOk result (λ words. IfSome (known_words self.now)
            (λ known. map string_bytes words.items ≡ known)) }
        ensures fault { IfErr result (IsRefusal LineFault.Memory (λ _. known_words self.now ≡ None)) };

    /// Whether someone looks on: standard error is a terminal.
    fn is_watched(&self) -> bool
        ensures { IfSome (known_watched self.now) (λ known. result ≡ known) };

    /// Listens on a port of 127.0.0.1. From then on the connections are those that come to it, at most so many of
    /// them at once. If a log is kept, standard error gets a line for each of their requests, and for each of them
    /// that failed.
    ///
    /// # Errors
    ///
    /// The port is in use, or may not be listened on; or memory ran out.
    fn listen(&mut self, alloc: Global, port: u16, most_open: u32, log: bool) -> io::Result<()>
        ensures named { OnOk result (known_port self.old port most_open log) }
        ensures none { Self.log self.new ≡ Self.log self.old };

    /// Random keys for a hasher, which no client can know.
    ///
    /// # Errors
    ///
    /// The system gives no random bytes.
    fn random_keys(&self) -> io::Result<RandomState>;
}
