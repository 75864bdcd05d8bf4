//! The rows of the two reports.
ghost use Rattle.std.specs.Prelude.{◌≡◌, nat_eq, IfOk, Some, refl};
ghost use Rattle.std.specs.Cmp.{partial_equiv_from_equiv};
ghost use Rattle.std.specs.Cmp.Lexicographic.{nat_list_cmp_total, nat_list_eq_equiv, pointwise, slice_cmp, texts_po, texts_ties};
ghost use Rattle.std.specs.Ordering.{nat_cmp};

use faults::NoMemory;
use mcs_reader::Id;
use std::alloc::Global;
use std::cmp::Ordering;
use std::marker::Model;
use verdicts::Status;

/// A row of the exception SYSMOD report: an ERROR hold on an installed SYSMOD whose reason isn't there,
/// and a SYSMOD that resolves it; or that there is none.
#[derive(Clone, Copy, Debug, PartialEq, Eq)]
pub struct ErrRow {
    /// The function to which the held SYSMOD belongs.
    pub fmid: Option<Id>,
    /// The held SYSMOD.
    pub sysmod: Id,
    /// The APAR that reports the error.
    pub reason: Id,
    /// A SYSMOD that gives the reason; none in a row that says that there is none.
    pub resolver: Option<Id>,
    /// The status of the resolver, if there is one.
    pub status: Option<Status>,
    /// Whether the client has received the resolver, if there is one.
    pub received: Option<bool>,
    /// The class of the hold.
    pub class: Option<Id>,
}

/// A fix category. Categories are ordered by their bytes, which a contract sees.
#[derive(Debug, Drop)]
pub struct MissingCategory {
    bytes: Vec<u8>,
}

impl Model for MissingCategory {
    ghost use Rattle.std.specs.Prelude.{ℕ, List};

    ghost Value = { List ℕ };

    ghost view = { λ category. category.bytes.items };
}

impl MissingCategory {
    /// The category of these bytes.
    pub fn new(bytes: Vec<u8>) -> MissingCategory
        ensures { result ≡ bytes.items }
    {
        MissingCategory { bytes }
    }

    /// The category's bytes.
    pub fn as_bytes(&self) -> &[u8]
        ensures { result.now ≡ self.now }
    {
        self.bytes.as_slice()
    }

    /// Returns the bytes.
    pub fn into_vec(self) -> Vec<u8>
        ensures { result.items ≡ self }
    {
        self.bytes
    }

    /// The category of a copy of these bytes.
    pub(crate) fn copy_of(alloc: Global, bytes: &[u8]) -> Result<MissingCategory, NoMemory>
        ensures { IfOk result (λ category. category ≡ bytes.now) }
    {
        let bytes = Vec::from_slice(alloc, bytes)?;
        Ok(MissingCategory { bytes })
    }
}

impl PartialEq for MissingCategory {
    ghost eq = { pointwise nat_eq };

    ghost laws = { partial_equiv_from_equiv nat_list_eq_equiv };

    fn eq(&self, other: &Self) -> bool {
        self.as_bytes() == other.as_bytes()
    }
}

impl Eq for MissingCategory {
    ghost laws = { nat_list_eq_equiv };
}

impl PartialOrd for MissingCategory {
    ghost partial_cmp = { λ a b. Some (slice_cmp nat_cmp a b) };

    ghost laws = { texts_po };

    fn partial_cmp(&self, other: &Self) -> Option<Ordering> {
        Some(self.cmp(other))
    }
}

impl Ord for MissingCategory {
    ghost cmp = { slice_cmp nat_cmp };

    ghost total = { nat_list_cmp_total };

    ghost matches_partial_cmp = { λ a b. refl };

    ghost matches_eq = { texts_ties };

    fn cmp(&self, other: &Self) -> Ordering {
        self.as_bytes().cmp(other.as_bytes())
    }
}

/// A row of the missing fix report: a fix category of a FIXCAT hold on an installed SYSMOD whose reason and
/// resolver aren't there, and a SYSMOD that resolves it; or that there is none.
#[derive(Debug, Drop)]
pub struct MissingRow {
    /// The fix category.
    pub category: MissingCategory,
    /// The held SYSMOD.
    pub sysmod: Id,
    /// The reason of the hold.
    pub reason: Id,
    /// A SYSMOD that resolves the hold; none in a row that says that there is none.
    pub resolver: Option<Id>,
    /// The status of the resolver, if there is one.
    pub status: Option<Status>,
    /// Whether the client has received the resolver, if there is one.
    pub received: Option<bool>,
}
