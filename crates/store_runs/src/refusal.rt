//! Why a store can't be opened, as far as that is known.

/// Why a store can't be opened, as far as that is known.
#[derive(Clone, Copy)]
pub enum Refusal {
    /// There is no such path: its folder isn't there.
    NoFolder,
    /// It may not be read and written.
    NoRights,
    /// Another has it open.
    InUse,
    /// It is no database.
    NoDatabase,
    /// No reason is known.
    Unknown,
}

impl Refusal {
    // What people are told of it, and what to do.
    pub(crate) fn words(self) -> Option<&'static str> {
        match self {
            Refusal::NoFolder => Some(
                "the system finds no such path: see that the folder of the store is there\n",
            ),
            Refusal::NoRights => Some(
                "this user may not read and write the store, or its folder: run it as the user of the desk\n",
            ),
            Refusal::InUse => Some(
                "another program has the store open, such as its desk: stop the desk, and run it again\n",
            ),
            Refusal::NoDatabase => Some("the file is no database: give the right path\n"),
            Refusal::Unknown => None,
        }
    }
}
