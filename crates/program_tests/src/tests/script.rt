//! Surroundings whose connections are a list of events for each round, so that the log of the rounds is known.
ghost use Rattle.std.specs.Prelude.{◌≡◌, ◌∷◌, ◌++◌, [], Some, None, IfOk, IfSome, OnOk, map, replicate};
ghost use Rattle.connections.specs.Items.{event_of};

use bureau_program::Surroundings;
use command_line::LineFault;
use connections::{Connections, Event, Round, RoundFault, Rounds};
use run_parts::Files;
use std::alloc::{AllocError, Global};
use std::hash::RandomState;
use std::io::{self, ErrorKind};
use testing::Pieces;

/// A round that was told, before which all slots were free.
#[derive(Drop)]
pub(crate) struct Entered {
    slots: usize,
    left: u32,
    told: Vec<Event>,
}

/// The events of each round to come, and the rounds so far. These are known as long as each round finds all slots free,
/// and there is memory for it. They are not, once no round is to come.
#[derive(Drop)]
pub(crate) struct Script {
    alloc: Global,
    /// The events of each round to come, the last round first.
    pub(crate) rounds: Vec<Vec<Event>>,
    /// The rounds so far, if they are known.
    pub(crate) entered: Option<Vec<Entered>>,
    keys: RandomState,
}

impl Script {
    /// No round is to come.
    pub(crate) fn new(alloc: Global, keys: RandomState) -> Script {
        Script {
            alloc,
            rounds: Vec::new(alloc),
            entered: Some(Vec::new(alloc)),
            keys,
        }
    }
}

// So many slots, if they are all free.
#[tactic(auto, using(crate::proofs::FreeFacts::all_free))]
fn free_slots(connections: &Connections) -> Option<usize>
    ensures { IfSome result (λ slots. replicate slots None ≡ connections.now.slots.items) }
{
    if connections.are_free() {
        Some(connections.slots.len())
    } else {
        None
    }
}

// The rounds with one more.
fn with_round(entered: Vec<Entered>, round: Entered) -> Option<Vec<Entered>>
    ensures { IfSome result (λ all. all.items ≡ entered.items ++ round ∷ []) }
{
    let mut all = entered;
    match all.push(round) {
        Ok(()) => Some(all),
        Err(_) => None,
    }
}

// The same event once more.
fn copied(alloc: Global, event: &Event) -> Result<Event, AllocError>
    ensures { IfOk result (λ copy. event_of copy ≡ event_of event.now) }
{
    Ok(match event {
        Event::Came(slot) => Event::Came(*slot),
        Event::Bytes(slot, text) => Event::Bytes(*slot, Vec::from_slice(alloc, text.as_slice())?),
        Event::Wrote(slot, count) => Event::Wrote(*slot, *count),
        Event::Ended(slot) => Event::Ended(*slot),
        Event::Failed(slot) => Event::Failed(*slot),
        Event::Late(slot) => Event::Late(*slot),
    })
}

// Tells these events too.
fn tell(alloc: Global, events: &[Event], told: &mut Vec<Event>) -> Result<(), AllocError>
    ensures { OnOk result (map event_of told.new.items
        ≡ map event_of told.old.items ++ map event_of events.now) }
{
    for event in events {
        told.push(copied(alloc, event)?)?;
    }
    Ok(())
}

impl Rounds for Script {
    ghost use Rattle.std.specs.Prelude.{None, Some, map, option_map, replicate};
    ghost use Rattle.connections.specs.Items.{event_of};
    ghost use Rattle.connections.specs.Rounds.{round_of};

    ghost log = { λ script. option_map (λ entered. map (λ round. round_of (replicate round.slots None) round.left (map event_of round.told.items)) entered.items) script.entered };

    ghost is_over = { λ _ _. Unit {0} };

    fn round(
        &mut self,
        connections: &Connections,
        left: u32,
        told: &mut Vec<Event>,
    ) -> Result<Round, RoundFault> {
        let known = self.entered.take();
        let Some(events) = self.rounds.pop() else {
            return Err(RoundFault::System);
        };
        if tell(self.alloc, events.as_slice(), told).is_err() {
            return Err(RoundFault::Memory);
        }
        if let (Some(entered), Some(slots)) = (known, free_slots(connections)) {
            self.entered = with_round(
                entered,
                Entered {
                    slots,
                    left,
                    told: events,
                },
            );
        }
        Ok(Round::Idle)
    }

    fn let_read(&mut self, _slot: usize, _room: usize) {}

    fn short_at(&self, _index: usize) -> Option<usize> {
        None
    }

    fn show_last(&mut self, _connections: &Connections) {
        self.entered = None;
    }
}

impl Files for Script {
    ghost use Rattle.run_parts.specs.Files.{Unknown};

    type File = Pieces<'static>;

    ghost known_file = { λ _ _. Unknown };

    fn open(&self, _name: &str) -> io::Result<Pieces<'static>> {
        Err(io::Error::from(ErrorKind::NotFound))
    }
}

impl Surroundings for Script {
    ghost use Rattle.std.specs.Prelude.{None};

    ghost known_words = { λ _. None };

    ghost known_watched = { λ _. None };

    ghost known_port = { λ _ _ _ _. Unit {0} };

    fn words(&self, alloc: Global) -> Result<Vec<String>, LineFault> {
        Ok(Vec::new(alloc))
    }

    fn is_watched(&self) -> bool {
        false
    }

    fn listen(&mut self, _alloc: Global, _port: u16, _most: u32, _log: bool) -> io::Result<()> {
        Ok(())
    }

    fn random_keys(&self) -> io::Result<RandomState> {
        Ok(self.keys)
    }
}
