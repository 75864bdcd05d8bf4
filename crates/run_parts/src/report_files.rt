//! The files of a report, by their names on the command line.

/// The files that a report is made of, by their names on the command line. `-` is standard input.
#[derive(Debug, Drop)]
pub struct ReportFiles {
    /// The SYSMODs of the zone: CSV with the header `SYSMOD,STATE`.
    pub zone: String,
    /// The fix categories that are asked for: CSV with the header `CATEGORY`.
    pub categories: Option<String>,
    /// The SYSMODs that are received: CSV with the header `SYSMOD`.
    pub received: Option<String>,
    /// The name of the zone. Without it the zone has the name of its file up to the first period, in upper case.
    pub name: Option<String>,
    /// Whether standard error is told how much was read.
    pub verbose: bool,
    /// Whether standard error is told what a fault means.
    pub explain: bool,
    /// HOLDDATA, SYSMODs or both, in the order in which they are published.
    pub publications: Vec<String>,
}
