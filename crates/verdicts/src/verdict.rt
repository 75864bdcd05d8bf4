//! Verdicts.
ghost use Rattle.std.specs.Prelude.{◌≡◌};
ghost use Rattle.verdicts.specs.Judge as judge;

use mcs_reader::Id;

/// Whether a SYSMOD can be installed in a zone (IBM z/OS SMP/E Reference, `++VER`, operands FMID, PRE
/// and REQ, `++IF`, and `++HOLD`, operand ERROR).
#[derive(Debug, Drop)]
pub enum Verdict {
    /// It can, with these: its chosen plan, ascending, with the SYSMOD itself.
    Good(Vec<Id>),
    /// It can't for want of this: the least of its needs that isn't there and that no SYSMOD gives
    /// which can be installed.
    Held(Id),
    /// It isn't catalogued, or none of its functions is installed.
    Lack,
}

/// A verdict without its plan or need.
#[derive(Clone, Copy, Debug, PartialEq, Eq)]
pub enum Status {
    /// The SYSMOD can be installed.
    Good,
    /// It is held.
    Held,
    /// It doesn't apply.
    Lack,
}

impl Verdict {
    /// The verdict without its plan or need.
    pub fn status(&self) -> Status
        ensures { result ≡ judge.status_of (judge.judged_by self.now) }
    {
        match self {
            Verdict::Good(_) => Status::Good,
            Verdict::Held(_) => Status::Held,
            Verdict::Lack => Status::Lack,
        }
    }
}
