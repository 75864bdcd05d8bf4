//! A desk of a publisher and two clients, from the bytes of connections to the bytes of replies: worked requests, a
//! connection that is cut after any byte, and an output that takes any part of the replies.
use bureau_program::run_replay;
use std::alloc::Global;
use std::fmt::Debug;
use std::hash::RandomState;
use std::io::{ErrorKind, Write};
use std::random::RandomSource;
use std::str;
use std::test::Fail;
use testing::{
    ALPHA, BETA, Exchange, FIRST, Failures, LONG_PLAN, OK, ONE_RESOLVER, PUBLISHER, SECOND,
    SHORT_PLAN, Slow, TWO_RESOLVERS, Told, assert_equal_at, reply_text, request_text,
};

pub const CALLERS: &[u8] =
    b"NAME,TOKEN\nPUBLISH,publisher-token\nALPHA,alpha-token\nBETA,beta-token\n";

const BASE: &str =
    "++FUNCTION(HBB7790).\n++VER(Z038).\n++PTF(UA10001).\n++VER(Z038) FMID(HBB7790).\n++PTF(UA10002).\n++VER(Z038) FMID(HBB7790) PRE(UA10001) SUP(AA20002).\n++HOLD(UA10001) ERROR FMID(HBB7790)\n REASON(AA20002) CLASS(PE) DATE(12045).\n";

const BOTH: &str = "SYSMOD,STATE\nHBB7790,APPLIED\nUA10001,APPLIED\n";

const FUNCTION: &str = "SYSMOD,STATE\nHBB7790,APPLIED\n";

// A publication, zones, and the answers to each client before and after the next publication.
pub(crate) static SCRIPT: [Exchange; 10] = [
    (
        (PUBLISHER, "POST /publish", FIRST, BASE),
        (OK, "", "ACCEPTED SYSMODS 3 HOLDS 1 RELEASES 0\n"),
    ),
    (
        (ALPHA, "PUT /zones/TGT1", FIRST, BOTH),
        (OK, "", "ZONE TGT1 ROWS 2\n"),
    ),
    (
        (BETA, "PUT /zones/TGT1", FIRST, FUNCTION),
        (OK, "", "ZONE TGT1 ROWS 1\n"),
    ),
    (
        (ALPHA, "GET /zones/TGT1/chains/UA10002", "", ""),
        (OK, "", SHORT_PLAN),
    ),
    (
        (BETA, "GET /zones/TGT1/chains/UA10002", "", ""),
        (OK, "", LONG_PLAN),
    ),
    (
        (ALPHA, "GET /zones/TGT1/errsysmods", "", ""),
        (OK, "", ONE_RESOLVER),
    ),
    (
        (
            PUBLISHER,
            "POST /publish",
            SECOND,
            "++PTF(UA10005).\n++VER(Z038) FMID(HBB7790) SUP(UA10002).\n",
        ),
        (OK, "", "ACCEPTED SYSMODS 1 HOLDS 0 RELEASES 0\n"),
    ),
    (
        (BETA, "PUT /zones/TGT1", SECOND, BOTH),
        (OK, "", "ZONE TGT1 ROWS 2\n"),
    ),
    (
        (ALPHA, "GET /zones/TGT1/errsysmods", "", ""),
        (OK, "", TWO_RESOLVERS),
    ),
    (
        (ALPHA, "GET /zones/TGT1/chains/UA10002", "", ""),
        (OK, "", SHORT_PLAN),
    ),
];

const NOT_FOUND: Told = ("404 Not Found", "", "NOT FOUND\n");

const BAD_NUMBER: Told = ("400 Bad Request", "", "BAD NUMBER\n");

const ONLY_GET: Told = (
    "405 Method Not Allowed",
    "allow: GET\r\n",
    "METHOD NOT ALLOWED\n",
);

// Requests after the first two of the script, and after BETA's zone TGT2.
static REQUESTS: [Exchange; 15] = [
    (
        (BETA, "PUT /zones/TGT2", FIRST, FUNCTION),
        (OK, "", "ZONE TGT2 ROWS 1\n"),
    ),
    (
        (ALPHA, "GET /zones", "", ""),
        (OK, "", "ZONE     SYSMODS\nTGT1     2\nROWS 1\n"),
    ),
    ((BETA, "GET /zones/TGT1/errsysmods", "", ""), NOT_FOUND),
    (
        ("nobody-token", "GET /zones", "", ""),
        (
            "401 Unauthorized",
            "www-authenticate: Bureau\r\n",
            "UNKNOWN TOKEN\n",
        ),
    ),
    ((ALPHA, "DELETE /published", "", ""), ONLY_GET),
    ((ALPHA, "HEAD /published", "", ""), ONLY_GET),
    (
        (ALPHA, "GET /zones/TGT1", "", ""),
        (
            "405 Method Not Allowed",
            "allow: DELETE, PUT\r\n",
            "METHOD NOT ALLOWED\n",
        ),
    ),
    (
        (ALPHA, "GET /zones/TGT%31/errsysmods?x=1", "", ""),
        (OK, "", ONE_RESOLVER),
    ),
    ((ALPHA, "GET /zones/tgt1/errsysmods", "", ""), NOT_FOUND),
    (
        (ALPHA, "POST /publish", "", ""),
        ("403 Forbidden", "", "NOT ALLOWED\n"),
    ),
    ((PUBLISHER, "POST /publish", "", ""), BAD_NUMBER),
    (
        (PUBLISHER, "POST /publish", "bureau-number: 0\r\n", ""),
        BAD_NUMBER,
    ),
    (
        (
            PUBLISHER,
            "POST /publish",
            "bureau-number: 9223372036854775808\r\n",
            "",
        ),
        BAD_NUMBER,
    ),
    (
        (ALPHA, "GET http://localhost/zones", "", ""),
        ("400 Bad Request", "connection: close\r\n", "BAD REQUEST\n"),
    ),
    ((ALPHA, "GET /published", "", ""), ("", "", "")),
];

// The report with one resolver, as JSON; a report without rows, and its plan.
const ONE_RESOLVER_JSON: &str =
    "{\"report\":\"errsysmods\",\"rows\":[{\"class\":\"PE\",\"date\":\"2012-02-14\",\
\"fmid\":\"HBB7790\",\"reason\":\"AA20002\",\"received\":false,\"resolver\":\"UA10002\",\"status\":\"GOOD\",\
\"sysmod\":\"UA10001\"}],\"sysmods\":[{\"fmids\":[\"HBB7790\"],\"sysmod\":\"UA10001\"}],\"zone\":\"TGT1\"}";

const NONE_MISSING_JSON: &str =
    "{\"holds\":[],\"report\":\"missingfix\",\"rows\":[],\"sysmods\":[],\"zone\":\"TGT1\"}";

const NO_PLAN_JSON: &str = "{\"blocked\":[],\"held\":[],\"members\":[],\"report\":\"missingfix\",\
\"resolved\":[],\"unresolved\":[],\"zone\":\"TGT1\"}";

// Requests for JSON, after the first two requests of the script.
static JSON_REQUESTS: [Exchange; 7] = [
    (
        (ALPHA, "GET /zones.json", "", ""),
        (OK, "", "{\"zones\":[{\"sysmods\":2,\"zone\":\"TGT1\"}]}"),
    ),
    (
        (PUBLISHER, "GET /published.json", "", ""),
        (OK, "", "{\"holds\":1,\"sysmods\":3}"),
    ),
    (
        (ALPHA, "GET /zones/TGT1/errsysmods.json", "", ""),
        (OK, "", ONE_RESOLVER_JSON),
    ),
    (
        (ALPHA, "GET /zones/TGT1/missingfix.json", "", ""),
        (OK, "", NONE_MISSING_JSON),
    ),
    (
        (ALPHA, "GET /zones/TGT1/missingfix/plan.json", "", ""),
        (OK, "", NO_PLAN_JSON),
    ),
    ((BETA, "GET /zones/TGT1/missingfix.json", "", ""), NOT_FOUND),
    ((ALPHA, "PUT /zones.json", "", ""), ONLY_GET),
];

// The requests one after the other, and the replies so.
fn texts(alloc: Global, exchanges: &[Exchange]) -> Result<(Vec<u8>, Vec<u8>), Fail> {
    let mut requests = Vec::new(alloc);
    let mut replies = Vec::new(alloc);
    for exchange in exchanges {
        push_exchange(alloc, &mut requests, &mut replies, *exchange)?;
    }
    Ok((requests, replies))
}

fn push_exchange(
    alloc: Global,
    requests: &mut Vec<u8>,
    replies: &mut Vec<u8>,
    exchange: Exchange,
) -> Result<(), Fail> {
    requests.extend_from_slice(request_text(alloc, exchange.0)?.as_bytes())?;
    replies.extend_from_slice(reply_text(alloc, exchange)?.as_bytes())?;
    Ok(())
}

// The status and the output of a run over connections.
fn run_over<W: Write>(
    alloc: Global,
    keys: RandomState,
    cache: u32,
    callers: &[u8],
    files: Vec<Vec<u8>>,
    writer: &mut W,
) -> (u8, Vec<u8>) {
    let mut errors = Vec::new(alloc);
    let status = run_replay(alloc, callers, files, cache, keys, writer, &mut errors);
    (status, errors)
}

// Checks that these connections have this on standard output, and that nothing fails. A failure says the case.
fn assert_replayed<P: Debug + Copy + Drop>(
    case: P,
    alloc: Global,
    keys: RandomState,
    cache: u32,
    files: Vec<Vec<u8>>,
    wanted: &[u8],
) -> Result<(), Fail> {
    let mut output = Vec::new(alloc);
    let (status, errors) = run_over(alloc, keys, cache, CALLERS, files, &mut output);
    assert_equal_at(case, (status, errors.as_slice()), (0, b"".as_slice()))?;
    let written = str::from_utf8(output.as_slice());
    assert_equal_at(case, written, str::from_utf8(wanted))
}

fn keys_of(rt: &impl RandomSource) -> Result<RandomState, Fail> {
    Ok(RandomState::new(rt).ok().ok_or("random keys")?)
}

// These as files.
fn files_of(alloc: Global, texts: &[&[u8]]) -> Result<Vec<Vec<u8>>, Fail> {
    let mut files = Vec::new(alloc);
    for text in texts {
        files.push(Vec::from_slice(alloc, *text)?)?;
    }
    Ok(files)
}

// Checks that a connection and the next one have these replies.
fn assert_both_replayed<P: Debug + Copy + Drop>(
    case: P,
    alloc: Global,
    keys: RandomState,
    opening: &[u8],
    next: &[u8],
    wanted: &[u8],
) -> Result<(), Fail> {
    let files = files_of(alloc, &[opening, next])?;
    assert_replayed(case, alloc, keys, 1_024, files, wanted)
}

// Cuts a further request after any byte, after these whole ones, and checks that no byte of a reply to it is written.
fn cut_one_anywhere(
    alloc: Global,
    keys: RandomState,
    opening: &[u8],
    whole: &[u8],
    exchange: Exchange,
    wanted: &[u8],
) -> Result<(), Fail> {
    let (_, first, ..) = exchange.0;
    let text = request_text(alloc, exchange.0)?;
    let mut part = Vec::from_slice(alloc, whole)?;
    for (cut, byte) in text.as_bytes().iter().enumerate() {
        assert_both_replayed((first, cut), alloc, keys, opening, part.as_slice(), wanted)?;
        part.push(*byte)?;
    }
    Ok(())
}

// Cuts a connection after any byte, and checks that it has the replies of the requests that are whole in it, and no
// other byte.
fn cut_anywhere(
    alloc: Global,
    keys: RandomState,
    before: &[Exchange],
    exchanges: &[Exchange],
) -> Result<(), Fail> {
    let (opening, mut wanted) = texts(alloc, before)?;
    let mut whole = Vec::new(alloc);
    for exchange in exchanges {
        cut_one_anywhere(alloc, keys, &opening, &whole, *exchange, &wanted)?;
        push_exchange(alloc, &mut whole, &mut wanted, *exchange)?;
    }
    assert_both_replayed("whole", alloc, keys, &opening, &whole, &wanted)
}

#[test]
fn script_cut_after_every_byte(rt: HostRuntime) -> Result<(), Fail> {
    cut_anywhere(rt.alloc(), keys_of(&rt)?, &[], &SCRIPT)
}

#[test]
fn requests_cut_after_every_byte(rt: HostRuntime) -> Result<(), Fail> {
    cut_anywhere(rt.alloc(), keys_of(&rt)?, &SCRIPT[..2], &REQUESTS)
}

#[test]
fn requests_for_json_cut_after_every_byte(rt: HostRuntime) -> Result<(), Fail> {
    cut_anywhere(rt.alloc(), keys_of(&rt)?, &SCRIPT[..2], &JSON_REQUESTS)
}

#[test]
fn output_that_takes_a_part(rt: HostRuntime) -> Result<(), Fail> {
    let alloc = rt.alloc();
    let keys = keys_of(&rt)?;
    let (requests, replies) = texts(alloc, &SCRIPT[..4])?;
    for room in 0..replies.len() {
        assert_part_taken(alloc, keys, requests.as_slice(), &replies[..room])?;
    }
    Ok(())
}

// Checks that an output with room for the first bytes of the replies takes them.
fn assert_part_taken(
    alloc: Global,
    keys: RandomState,
    requests: &[u8],
    part: &[u8],
) -> Result<(), Fail> {
    let room = part.len();
    let files = files_of(alloc, &[requests])?;
    let mut writer = Slow::new(alloc, usize::MAX, room, Failures::none());
    writer.full = Some(ErrorKind::StorageFull);
    let (status, errors) = run_over(alloc, keys, 1_024, CALLERS, files, &mut writer);
    assert_equal_at(room, status, 3)?;
    assert_equal_at(room, writer.taken.as_slice(), part)?;
    assert_equal_at(room, errors.as_slice(), b"FAULT 72\n".as_slice())
}
