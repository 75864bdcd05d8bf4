//! A desk over a store in a file in memory, and rounds whose log is known.
use super::desk_tests::SCRIPT;
use super::script::Script;
use super::store_tests::{LISTENING, fresh, served};
use connections::Event;
use std::alloc::Global;
use std::hash::RandomState;
use std::test::Fail;
use testing::{Exchange, assert_equal, reply_text, request_text};

// The events of a connection that sends one request, takes so many bytes of its reply, and ends.
fn events_of(alloc: Global, exchange: Exchange, reply: usize) -> Result<Vec<Event>, Fail> {
    let request = request_text(alloc, exchange.0)?;
    let mut events = Vec::new(alloc);
    events.push(Event::Came(0))?;
    events.push(Event::Bytes(0, Vec::from_slice(alloc, request.as_bytes())?))?;
    events.push(Event::Wrote(0, reply))?;
    events.push(Event::Ended(0))?;
    Ok(events)
}

// A round for each exchange, in which its connection comes and goes. Of each reply so many bytes more are written.
fn script_of(rt: &HostRuntime, exchanges: &[Exchange], more: usize) -> Result<Script, Fail> {
    let alloc = rt.alloc();
    let mut script = Script::new(alloc, RandomState::new(rt)?);
    for exchange in exchanges.iter().rev() {
        let reply = reply_text(alloc, *exchange)?.len().saturating_add(more);
        script.rounds.push(events_of(alloc, *exchange, reply)?)?;
    }
    Ok(script)
}

// How the desk of a script ends, and the number of rounds of its log, if that is known.
fn served_by(alloc: Global, script: &mut Script) -> Result<(String, Vec<u8>, Option<usize>), Fail> {
    let (told, errors) = served(script, alloc, fresh(alloc)?, 10)?;
    let known = match &script.entered {
        Some(entered) => Some(entered.len()),
        None => None,
    };
    Ok((told, errors, known))
}

#[test]
fn a_desk_serves_all_rounds_of_a_known_log(rt: HostRuntime) -> Result<(), Fail> {
    let alloc = rt.alloc();
    let mut script = script_of(&rt, &SCRIPT, 0)?;
    let (told, errors, known) = served_by(alloc, &mut script)?;
    assert_equal(told.as_str(), LISTENING)?;
    assert_equal(errors.len(), 0)?;
    assert_equal(known, Some(10))
}

// No reply has a byte more. So the first connection stays, and the next round doesn't find its slot free.
#[test]
fn a_reply_has_no_byte_more_than_it_should(rt: HostRuntime) -> Result<(), Fail> {
    let alloc = rt.alloc();
    let mut script = script_of(&rt, &SCRIPT, 1)?;
    let (told, errors, known) = served_by(alloc, &mut script)?;
    assert_equal(told.as_str(), "3 LISTENING 127.0.0.1:4711\n")?;
    assert_equal(errors.as_slice(), b"FAULT 73\n".as_slice())?;
    assert_equal(known, None)
}
