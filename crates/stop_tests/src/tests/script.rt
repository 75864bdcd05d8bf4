//! The questions of the publisher and of two clients, one after the other, and the answer to each.
use bureau::Call;
use mcs_reader::Id;
use questions::{Form, Wanted};
use testing::{BASE, LONG_PLAN, ONE_RECEIVED, ONE_RESOLVER, SHORT_PLAN, TWO_RESOLVERS};

/// A value, or what is wrong.
pub(crate) type Checked<T> = Result<T, &'static str>;

/// A token, a question, and the place that it is about.
pub(crate) type Asked = (&'static [u8], Ask, Where);

/// The same, with the body of the answer.
pub(crate) type Told = (Asked, &'static str);

pub(crate) const CALLERS: &[u8] =
    b"NAME,TOKEN\nPUBLISH,publisher-token\nALPHA,alpha-token\nBETA,beta-token\n";

pub(crate) const PUBLISHER: &[u8] = b"publisher-token";

pub(crate) const ALPHA: &[u8] = b"alpha-token";

pub(crate) const BETA: &[u8] = b"beta-token";

// One that supersedes, one with a conditional requisite, and that requisite.
const SUPERSEDING: &[u8] = b"++PTF(UA10005).
++VER(Z038) FMID(HBB7790) SUP(UA10002).
++PTF(UA10020).
++VER(Z038) FMID(HBB7790).
++IF FMID(HXX0001) THEN REQ(UA10021).
++PTF(UA10021).
++VER(Z038) FMID(HBB7790).
";

const BOTH: &[u8] = b"SYSMOD,STATE\nHBB7790,APPLIED\nUA10001,APPLIED\n";

const FUNCTION: &[u8] = b"SYSMOD,STATE\nHBB7790,APPLIED\n";

const FUNCTIONS: &[u8] = b"SYSMOD,STATE\nHBB7790,APPLIED\nHXX0001,APPLIED\n";

const RECEIVED: &[u8] = b"SYSMOD\nUA10002\n";

const PATTERNS: &[u8] = b"CATEGORY\nIBM*\n";

/// The number of requests of the script.
pub(crate) const REQUESTS: usize = 15;

/// The request before which the store's files are closed and opened again.
pub(crate) const OPENED_AGAIN: usize = 7;

/// A zone, and a SYSMOD for a verdict there.
#[derive(Clone, Copy)]
pub(crate) enum Where {
    /// TGT1, and a SYSMOD that another one supersedes later.
    Plain,
    /// A zone in which a requisite under a condition is required, and the SYSMOD that requires it.
    Conditional,
}

/// A question about a zone and a SYSMOD, or about all that is kept. A change has a number.
pub(crate) enum Ask {
    Publish(u64, &'static [u8]),
    Put(u64, &'static [u8]),
    Received(u64, &'static [u8]),
    Patterns(u64, &'static [u8]),
    Dropped(u64),
    Report,
    ReportJson,
    Missing,
    MissingJson,
    ErrPlan,
    MissingPlanJson,
    Chain,
    Zones,
    ZonesJson,
    Counts,
    CountsJson,
}

/// Two publications, a zone of the same name of each of two clients, the other kinds of changes, and the clients'
/// questions.
pub(crate) static SCRIPT: [Told; REQUESTS] = [
    (
        (PUBLISHER, Ask::Publish(1, BASE), Where::Plain),
        "ACCEPTED SYSMODS 3 HOLDS 1 RELEASES 0\n",
    ),
    (
        (ALPHA, Ask::Put(1, BOTH), Where::Plain),
        "ZONE TGT1 ROWS 2\n",
    ),
    (
        (BETA, Ask::Put(1, FUNCTION), Where::Plain),
        "ZONE TGT1 ROWS 1\n",
    ),
    (
        (ALPHA, Ask::Put(2, FUNCTIONS), Where::Conditional),
        "ZONE TGT2 ROWS 2\n",
    ),
    ((ALPHA, Ask::Chain, Where::Plain), SHORT_PLAN),
    ((BETA, Ask::Chain, Where::Plain), LONG_PLAN),
    ((ALPHA, Ask::Report, Where::Plain), ONE_RESOLVER),
    (
        (PUBLISHER, Ask::Publish(2, SUPERSEDING), Where::Plain),
        "ACCEPTED SYSMODS 3 HOLDS 0 RELEASES 0\n",
    ),
    (
        (BETA, Ask::Put(2, BOTH), Where::Plain),
        "ZONE TGT1 ROWS 2\n",
    ),
    ((ALPHA, Ask::Report, Where::Plain), TWO_RESOLVERS),
    ((ALPHA, Ask::Chain, Where::Plain), SHORT_PLAN),
    (
        (ALPHA, Ask::Received(3, RECEIVED), Where::Plain),
        "RECEIVED ROWS 1\n",
    ),
    (
        (ALPHA, Ask::Patterns(4, PATTERNS), Where::Plain),
        "ZONE TGT1 PATTERNS 1\n",
    ),
    ((BETA, Ask::Dropped(3), Where::Plain), "ZONE TGT1 DROPPED\n"),
    ((ALPHA, Ask::Report, Where::Plain), ONE_RECEIVED),
];

/// All questions of each caller about what is kept: the counts of what is published and ALPHA's report come first.
pub(crate) static QUESTIONS: [Asked; 16] = [
    (ALPHA, Ask::Counts, Where::Plain),
    (ALPHA, Ask::Report, Where::Plain),
    (ALPHA, Ask::Zones, Where::Plain),
    (ALPHA, Ask::Chain, Where::Plain),
    (ALPHA, Ask::Chain, Where::Conditional),
    (ALPHA, Ask::Missing, Where::Plain),
    (ALPHA, Ask::ReportJson, Where::Plain),
    (ALPHA, Ask::MissingJson, Where::Plain),
    (ALPHA, Ask::ZonesJson, Where::Plain),
    (ALPHA, Ask::CountsJson, Where::Plain),
    (ALPHA, Ask::ErrPlan, Where::Plain),
    (ALPHA, Ask::MissingPlanJson, Where::Plain),
    (BETA, Ask::Zones, Where::Plain),
    (BETA, Ask::Report, Where::Plain),
    (BETA, Ask::Chain, Where::Plain),
    (BETA, Ask::Missing, Where::Plain),
];

impl Where {
    // The names of the zone and the SYSMOD.
    fn names(self) -> (&'static [u8], &'static [u8]) {
        match self {
            Where::Plain => (b"TGT1", b"UA10002"),
            Where::Conditional => (b"TGT2", b"UA10020"),
        }
    }

    fn ids(self) -> Option<(Id, Id)> {
        let (zone, sysmod) = self.names();
        Some((Id::new(zone)?, Id::new(sysmod)?))
    }
}

impl Ask {
    fn call(&self, zone: Id, sysmod: Id) -> Call<'_> {
        match *self {
            Ask::Publish(number, body) => Call::Publish {
                number: Some(number),
                body,
            },
            Ask::Put(number, body) => Call::PutZone {
                number: Some(number),
                zone,
                body,
            },
            Ask::Received(number, body) => Call::PutReceived {
                number: Some(number),
                body,
            },
            Ask::Patterns(number, body) => Call::PutPatterns {
                number: Some(number),
                zone,
                body,
            },
            Ask::Dropped(number) => Call::DropZone {
                number: Some(number),
                zone,
            },
            Ask::Report => errors(zone, Wanted::Rows(Form::Text)),
            Ask::ReportJson => errors(zone, Wanted::Rows(Form::Json)),
            Ask::Missing => missing(zone, Wanted::Rows(Form::Text)),
            Ask::MissingJson => missing(zone, Wanted::Rows(Form::Json)),
            Ask::ErrPlan => errors(zone, Wanted::Plan(Form::Text)),
            Ask::MissingPlanJson => missing(zone, Wanted::Plan(Form::Json)),
            Ask::Chain => Call::Chain { zone, sysmod },
            Ask::Zones => Call::ListZones { form: Form::Text },
            Ask::ZonesJson => Call::ListZones { form: Form::Json },
            Ask::Counts => Call::Counts { form: Form::Text },
            Ask::CountsJson => Call::Counts { form: Form::Json },
        }
    }

    /// The call, or `None` if a name is no id.
    pub(crate) fn call_in(&self, place: Where) -> Option<Call<'_>> {
        let (zone, sysmod) = place.ids()?;
        Some(self.call(zone, sysmod))
    }
}

fn errors(zone: Id, wanted: Wanted) -> Call<'static> {
    Call::ErrSysmods { zone, wanted }
}

fn missing(zone: Id, wanted: Wanted) -> Call<'static> {
    Call::MissingFix { zone, wanted }
}
