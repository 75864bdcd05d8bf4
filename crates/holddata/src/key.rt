//! The key that identifies a hold.
ghost use Rattle.std.specs.Prelude.{◌≡◌};
ghost use Rattle.holddata.specs.HoldKey.{key_cmp, kind_name, kind_order};

use mcs_reader::Id;
use std::cmp::Ordering;

/// Why a SYSMOD is held (IBM z/OS SMP/E Reference, `++HOLD`).
#[derive(Clone, Copy, Debug, PartialEq, Eq, Hash)]
pub enum Kind {
    /// An APAR reports an error in the SYSMOD.
    ErrorHold,
    /// Something has to be done outside SMP/E before the SYSMOD is installed.
    SystemHold,
    /// The installation asked for the hold.
    UserHold,
    /// The SYSMOD lacks a fix of a category.
    FixcatHold,
}

impl Kind {
    /// The kind's name in print: `ERROR`, `SYSTEM`, `USER` or `FIXCAT`.
    pub fn name(self) -> &'static str
        ensures { result.now ≡ kind_name self }
    {
        match self {
            Kind::ErrorHold => "ERROR",
            Kind::SystemHold => "SYSTEM",
            Kind::UserHold => "USER",
            Kind::FixcatHold => "FIXCAT",
        }
    }

    // The kind's place in the order of kinds, from 0.
    fn order(self) -> u8
        ensures { result ≡ kind_order self }
    {
        match self {
            Kind::ErrorHold => 0,
            Kind::SystemHold => 1,
            Kind::UserHold => 2,
            Kind::FixcatHold => 3,
        }
    }
}

/// The key that identifies a hold. A book has its holds in the order of SYSMOD, kind and reason.
#[derive(Clone, Copy, Debug, PartialEq, Eq, Hash)]
pub struct HoldKey {
    /// The SYSMOD that is held.
    pub sysmod: Id,
    /// The kind of the hold.
    pub kind: Kind,
    /// The reason: of an ERROR or FIXCAT hold the APAR, of the others a word.
    pub reason: Id,
}

/// Compares two keys in the order of a book: by SYSMOD, then by kind, then by reason.
pub fn key_cmp(a: &HoldKey, b: &HoldKey) -> Ordering
    ensures { result ≡ key_cmp a.now b.now }
{
    a.sysmod
        .cmp(&b.sysmod)
        .then(a.kind.order().cmp(&b.kind.order()))
        .then(a.reason.cmp(&b.reason))
}
