//! The facts on a request that the log notes.
use crate::word::Word;

/// The facts on a request that the log notes, once it is answered.
#[derive(Drop)]
pub struct Note {
    /// The name of the caller whose token it has.
    pub caller: Word,
    /// Its method.
    pub method: Word,
    /// Its path.
    pub path: Word,
    /// The status of the reply.
    pub status: u16,
    /// The number of bytes of the request.
    pub came: u64,
    /// The number of bytes of the reply.
    pub went: u64,
    /// What the call lacked, if the reply says so.
    pub lack: Option<Word>,
}
