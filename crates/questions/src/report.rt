//! The reports on a zone.
ghost use Rattle.std.specs.Prelude.{◌≡◌};
ghost use Rattle.questions.specs.Report.{name_of};

/// A report on a zone.
#[derive(Clone, Copy, Debug, PartialEq, Eq)]
pub enum Report {
    /// The exception SYSMOD report: the installed SYSMODs that have since been held in error.
    ErrSysmods,
    /// The missing fix report: the fixes of chosen categories that are not installed.
    MissingFix,
}

impl Report {
    /// The report's name, as paths and JSON have it.
    pub fn name(self) -> &'static str
        ensures { result.now ≡ name_of self }
    {
        match self {
            Report::ErrSysmods => "errsysmods",
            Report::MissingFix => "missingfix",
        }
    }
}
