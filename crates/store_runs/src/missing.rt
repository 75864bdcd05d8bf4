//! What becomes of a store whose file isn't there.
ghost use Rattle.std.specs.Prelude.{◌≡◌};
ghost use Rattle.store_runs.specs.Missing.{if_missing, makes, sums};

use faults::AnyFault;

/// What becomes of a store whose file isn't there.
#[derive(Clone, Copy, Debug)]
pub enum IfMissing {
    /// It is refused.
    Refuse,
    /// Its file is made. Each of its pages ends in a sum if `sums` says so.
    Make { sums: bool },
}

impl IfMissing {
    /// Whether its file is made.
    pub fn makes(self) -> bool
        ensures { result ≡ makes self }
    {
        match self {
            IfMissing::Refuse => false,
            IfMissing::Make { .. } => true,
        }
    }

    /// Whether the pages of the database that is made end in sums.
    pub fn sums(self) -> bool
        ensures { result ≡ sums self }
    {
        match self {
            IfMissing::Refuse => false,
            IfMissing::Make { sums } => sums,
        }
    }
}

// For callers without a fault it is made.
pub(crate) fn if_missing(callers: Option<AnyFault>, sums: bool) -> IfMissing
    ensures { result ≡ if_missing sums callers }
{
    match callers {
        None => IfMissing::Make { sums },
        Some(_fault) => IfMissing::Refuse,
    }
}
