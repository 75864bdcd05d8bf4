//! A hold, and the change that a statement makes of the holds.
ghost use Rattle.std.specs.Prelude.{◌≡◌, IfOk};
ghost use Rattle.holddata.specs.HoldChange.{key_of};

use crate::{Categories, Date, HoldKey, NoMemory};
use mcs_reader::Id;

/// A hold: a SYSMOD is in exception status (IBM z/OS SMP/E Reference, `++HOLD`).
///
/// The types of the fields keep what the standard asks of a date and of categories.
#[derive(Debug, Drop)]
pub struct Hold {
    /// The key that identifies the hold.
    pub key: HoldKey,
    /// The function to which the held SYSMOD belongs.
    pub fmid: Option<Id>,
    /// The class, such as `PE` or `HIPER`, which says what the hold means for those who install the
    /// SYSMOD.
    pub class: Option<Id>,
    /// The SYSMOD that resolves a FIXCAT hold.
    pub resolver: Option<Id>,
    /// The date on which the hold was put.
    pub dated: Option<Date>,
    /// The categories of the fix that the SYSMOD lacks.
    pub categories: Categories,
}

impl Hold {
    /// Copies the hold.
    ///
    /// # Errors
    ///
    /// Memory ran out.
    pub fn copy(&self) -> Result<Self, NoMemory>
        ensures { IfOk result (λ copy. copy ≡ self.now) }
    {
        Ok(Hold {
            key: self.key,
            fmid: self.fmid,
            class: self.class,
            resolver: self.resolver,
            dated: self.dated,
            categories: self.categories.copy()?,
        })
    }
}

impl Clone for Hold {
    ghost use Rattle.std.specs.Prelude.{◌≡◌};

    ghost is_clone = { λ hold copy. copy ≡ hold };

    fn clone(&self) -> Result<Self, NoMemory> {
        self.copy()
    }
}

/// The change that one statement makes of the holds.
#[derive(Debug, Drop)]
pub enum HoldChange {
    /// The hold is there from now on, in place of one with the same key.
    Put(Hold),
    /// No hold has this key from now on.
    Release(HoldKey),
}

impl HoldChange {
    /// The key that the change names.
    pub fn key(&self) -> HoldKey
        ensures { result ≡ key_of self.now }
    {
        match self {
            HoldChange::Put(hold) => hold.key,
            HoldChange::Release(key) => *key,
        }
    }

    /// Copies the change.
    ///
    /// # Errors
    ///
    /// Memory ran out.
    pub fn copy(&self) -> Result<Self, NoMemory>
        ensures { IfOk result (λ copy. copy ≡ self.now) }
    {
        match self {
            HoldChange::Put(hold) => Ok(HoldChange::Put(hold.copy()?)),
            HoldChange::Release(key) => Ok(HoldChange::Release(*key)),
        }
    }
}
