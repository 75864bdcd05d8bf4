//! Events of connections.
ghost use Rattle.std.specs.Prelude.{◌≡◌};
ghost use Rattle.connections.specs.Items.{comers_in, event_of, slot_of};

/// What happened to the connection in a slot.
#[derive(Drop)]
pub enum Event {
    /// It came.
    Came(usize),
    /// These bytes came over it.
    Bytes(usize, Vec<u8>),
    /// So many of the bytes that have to go out were written.
    Wrote(usize, usize),
    /// Its peer ended its side: no more bytes come.
    Ended(usize),
    /// A read or a write of it failed.
    Failed(usize),
    /// Its time is up.
    Late(usize),
}

// The outcome of an event.
#[derive(Clone, Copy, Debug, PartialEq, Eq)]
pub(crate) enum Told {
    // It did as it says.
    Done,
    // There was no memory for it, and the connection ended.
    Missed,
    // It can't happen in that slot, and changed nothing.
    Stray,
}

impl Event {
    /// The slot of the connection.
    pub fn slot(&self) -> usize
        ensures { result ≡ slot_of (event_of self.now) }
    {
        match self {
            Event::Came(slot) => *slot,
            Event::Bytes(slot, _) => *slot,
            Event::Wrote(slot, _) => *slot,
            Event::Ended(slot) => *slot,
            Event::Failed(slot) => *slot,
            Event::Late(slot) => *slot,
        }
    }

    // The number of connections that come with it.
    pub(crate) fn comers(&self) -> u32
        ensures { result ≡ comers_in (event_of self.now) }
    {
        match self {
            Event::Came(_) => 1,
            Event::Bytes(_, _) => 0,
            Event::Wrote(_, _) => 0,
            Event::Ended(_) => 0,
            Event::Failed(_) => 0,
            Event::Late(_) => 0,
        }
    }
}
