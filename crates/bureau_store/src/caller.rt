//! The publisher and the clients.
ghost use Rattle.std.specs.Prelude.{◌≡◌, IfOk};
ghost use Rattle.bureau_store.specs.Caller.{name_text};

use faults::NoMemory;
use mcs_reader::Id;
use std::marker::Model;

/// Who calls: the publisher of SYSMODs and holds, or a client with zones of its own.
#[derive(Clone, Copy, Debug, PartialEq, Eq)]
pub enum Caller {
    /// The publisher, on whose statements all clients' reports rest.
    Publisher,
    /// A client, by its name, which isn't `PUBLISH`.
    Client(Id),
}

impl Caller {
    /// The name, which is `PUBLISH` of the publisher.
    pub fn name(&self) -> &[u8]
        ensures { result.now ≡ name_text self.now }
    {
        match self {
            Caller::Publisher => b"PUBLISH",
            Caller::Client(name) => name.as_bytes(),
        }
    }
}

/// The token that identifies a caller. A contract sees its bytes.
#[derive(Debug, Drop)]
pub struct Token {
    text: Vec<u8>,
}

impl Model for Token {
    ghost use Rattle.std.specs.Prelude.{ℕ, List};

    ghost Value = { List ℕ };

    ghost view = { λ token. token.text.items };
}

impl Token {
    /// The token of these bytes.
    pub fn new(bytes: Vec<u8>) -> Token
        ensures { result ≡ bytes.items }
    {
        Token { text: bytes }
    }

    /// The token's bytes.
    pub fn as_bytes(&self) -> &[u8]
        ensures { result.now ≡ self.now }
    {
        self.text.as_slice()
    }

    /// Returns the bytes.
    pub fn into_vec(self) -> Vec<u8>
        ensures { result.items ≡ self }
    {
        self.text
    }

    /// Copies the token.
    pub fn copy(&self) -> Result<Token, NoMemory>
        ensures { IfOk result (λ copy. copy ≡ self.now) }
    {
        let text = self.text.clone()?;
        Ok(Token { text })
    }
}

/// A row of the callers file: a caller's name, which is `PUBLISH` for the publisher, and its token.
#[derive(Debug, Drop)]
pub struct CallerRow {
    /// The name.
    pub name: Id,
    /// The token. No two rows of a callers file have the same one.
    pub token: Token,
}
