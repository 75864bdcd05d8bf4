//! All holds, as they were read since the last change.
ghost use Rattle.std.specs.Prelude.{◌≡◌, ◌⊎◌, IfSome, None, Some, option_map};
ghost use Rattle.holddata.specs.HoldBook.{IsInKeyOrder};

use holddata::Hold;
use std::marker::Model;

// The most holds that are kept, and the most bytes that their categories take. Besides these, a hold takes less than
// 200 bytes.
const MOST: u64 = 40_000;

const CATEGORIES: usize = 8 << 20;

// Up to so many rows are joined with the holds before these are counted, which takes about as long.
const FEW: u64 = 5_000;

// To find the holds of a row by a join takes as long as to read four in their order, or to go through a hundred that
// are kept.
const READ: u64 = 4;

const WALKED: u64 = 100;

// What is known of how many holds are published. A client's change leaves it.
#[derive(Clone, Copy)]
enum Size {
    Unknown,
    Counted(u64),
    // Their categories take more than the most bytes.
    TooLarge,
}

/// All holds, if they were read since the last change. They are kept up to 40,000, and up to 8 MiB of categories: less
/// than 16 MiB in all. A contract sees the holds. Beside them stands how many rows of zones were joined with the table
/// of holds since, and what is known of their number since the last publication.
#[derive(Drop)]
pub(crate) struct Book {
    holds: Option<Vec<Hold>>,
    joined: u64,
    size: Size,
}

impl Model for Book {
    ghost use Rattle.std.specs.Prelude.{IfSome, List, Option, option_map};
    ghost use Rattle.holddata.specs.HoldBook.{IsInKeyOrder};
    ghost use Rattle.holddata.specs.declared.hold.Hold.{Hold};

    ghost Value = { Option (List Hold) };

    ghost view = { λ book. option_map (λ holds. holds.items) book.holds };

    ghost invariant = { λ book. IfSome book.holds (λ holds. IsInKeyOrder holds.items) };
}

impl Book {
    /// No holds were read yet.
    pub(crate) fn unread() -> Self
        ensures { result ≡ None }
    {
        Book {
            holds: None,
            joined: 0,
            size: Size::Unknown,
        }
    }

    /// Forgets them, and not how many they are.
    pub(crate) fn forget(&mut self)
        ensures { self.new ≡ None }
    {
        self.holds = None;
        self.joined = 0;
    }

    /// Keeps these holds, unless they are too many: then they aren't wanted until the next publication. Joins are
    /// counted anew.
    pub(crate) fn keep(&mut self, holds: Vec<Hold>)
        requires { IsInKeyOrder holds.items }
        ensures { (self.new ≡ self.old) ⊎ (self.new ≡ Some holds.items) }
    {
        self.joined = 0;
        if fits(holds.as_slice()) {
            self.holds = Some(holds);
        } else {
            self.size = Size::TooLarge;
        }
    }

    /// The holds, if they are kept.
    pub(crate) fn holds(&self) -> Option<&[Hold]>
        ensures same { option_map (λ holds. holds.now) result ≡ self.now }
        ensures in_key_order { IfSome result (λ holds. IsInKeyOrder holds.now) }
    {
        match &self.holds {
            Some(holds) => Some(holds.as_slice()),
            None => None,
        }
    }

    /// Counts joins anew.
    pub(crate) fn count_anew(&mut self)
        ensures { self.new ≡ self.old }
    {
        self.joined = 0;
    }

    /// Counts the rows of a join.
    pub(crate) fn count_join(&mut self, rows: usize)
        ensures { self.new ≡ self.old }
    {
        self.joined = self.joined_with(rows);
    }

    /// Whether the holds aren't kept and may be read, before so many rows are joined with them: they were counted, or
    /// should be after so many rows. Those that are known to be too many aren't wanted.
    pub(crate) fn is_wanted(&self, rows: usize) -> bool {
        let is_time = match self.size {
            Size::Unknown => self.joined_with(rows) >= FEW,
            Size::Counted(_) => true,
            Size::TooLarge => false,
        };
        self.holds.is_none() && is_time
    }

    /// Whether to read so many holds costs no more than the joins did, with one of so many rows, for which they would
    /// be used.
    pub(crate) fn is_worth(&self, holds: u64, rows: usize) -> bool {
        let most = self.joined_with(rows).saturating_mul(READ).min(MOST);
        holds <= most && is_few_for(holds, rows)
    }

    // How many rows are joined after so many more.
    fn joined_with(&self, rows: usize) -> u64 {
        self.joined.saturating_add(rows as u64)
    }

    /// Whether the holds are kept, and to go through them costs no more than to join so many rows with them.
    pub(crate) fn is_better(&self, rows: usize) -> bool {
        match &self.holds {
            Some(holds) => is_few_for(holds.len() as u64, rows),
            None => false,
        }
    }
}

impl Book {
    /// How many holds there are, if they were counted.
    pub(crate) fn count(&self) -> Option<u64> {
        match self.size {
            Size::Counted(count) => Some(count),
            _ => None,
        }
    }

    /// Keeps how many there are.
    pub(crate) fn keep_count(&mut self, count: u64)
        ensures { self.new ≡ self.old }
    {
        self.size = Size::Counted(count);
    }

    /// Forgets how many there are.
    pub(crate) fn forget_count(&mut self)
        ensures { self.new ≡ self.old }
    {
        self.size = Size::Unknown;
    }
}

// Whether to go through so many holds that are kept costs no more than to join so many rows with them.
fn is_few_for(holds: u64, rows: usize) -> bool {
    holds <= (rows as u64).saturating_mul(WALKED)
}

// Whether these are few enough to be kept.
fn fits(holds: &[Hold]) -> bool {
    let mut bytes = 0usize;
    for hold in holds {
        bytes = bytes.saturating_add(hold.categories.joined().len());
    }
    holds.len() as u64 <= MOST && bytes <= CATEGORIES
}
