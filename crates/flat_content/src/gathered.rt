//! The content that changes publish, one after the other.
ghost use Rattle.std.specs.Prelude.{◌≡◌, ◌++◌, [], ◌∷◌, List, IfOk};
ghost use Rattle.catalogue.specs.Content.{IsInOrder};
ghost use Rattle.catalogue.specs.Publication.{content_of};
ghost use Rattle.catalogue.specs.declared.change.Change.{Change};

use crate::FlatContent;
use crate::links::links_of;
use crate::records::Records;
use catalogue::{Change, NoMemory};
use holddata::HoldBook;
use std::alloc::Global;
use std::marker::Model;

/// The content that was published so far. A contract sees the content.
#[derive(Drop)]
pub struct Gathered {
    // in the order in which they came, so that one more costs no search
    records: Records,
    book: HoldBook,
}

impl Model for Gathered {
    ghost use Rattle.holddata.specs.HoldBook.{IsInKeyOrder};
    ghost use Rattle.catalogue.specs.Content.{Content};
    ghost use Rattle.catalogue.specs.Publication.{catalogue_of};

    ghost Value = { Content };

    ghost view = { λ gathered. record { sysmods = catalogue_of gathered.records; holds = gathered.book } };

    ghost invariant = { λ gathered. IsInKeyOrder gathered.book };
}

impl Gathered {
    /// Nothing is published.
    pub fn new(alloc: Global) -> Self
        ensures { result ≡ content_of [] }
    {
        Gathered {
            records: Records::new(alloc),
            book: HoldBook::new(alloc),
        }
    }

    /// Adds more changes, in their order: a record replaces one with the same id, or a change of the holds is made. It
    /// takes the changes over, and copies none.
    ///
    /// # Errors
    ///
    /// `NoMemory` if memory ran out, or all lists of the records would have over 4,294,967,295 ids.
    pub fn with(self, changes: Vec<Change>) -> Result<Self, NoMemory>
        ensures { IfOk result (λ now. (earlier : List Change) →
            self ≡ content_of earlier → now ≡ content_of (earlier ++ changes.items)) }
    {
        let mut gathered = self;
        for change in changes {
            gathered = gathered.with_one(change)?;
        }
        Ok(gathered)
    }

    // Adds one more change.
    fn with_one(self, change: Change) -> Result<Self, NoMemory>
        ensures { IfOk result (λ now. (earlier : List Change) →
            self ≡ content_of earlier → now ≡ content_of (earlier ++ change ∷ [])) }
    {
        let Gathered { records, mut book } = self;
        match change {
            Change::Whole(sysmod) => Ok(Gathered {
                records: records.with(sysmod)?,
                book,
            }),
            Change::OfHold(change) => {
                book.apply(change)?;
                Ok(Gathered { records, book })
            }
        }
    }

    /// The content that was gathered.
    ///
    /// # Errors
    ///
    /// `NoMemory` if memory ran out.
    pub fn content(self) -> Result<FlatContent, NoMemory>
        ensures value { IfOk result (λ content. content ≡ self) }
        ensures in_order { IfOk result IsInOrder }
    {
        let Gathered { records, book } = self;
        let records = records.catalogue()?;
        let links = links_of(&records)?;
        Ok(FlatContent {
            alloc: records.alloc,
            records,
            links,
            book,
        })
    }
}
