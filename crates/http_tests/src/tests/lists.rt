//! Connections in memory, one after the other.
use super::echo::{Echo, counts};
use bureau_http::{replay, serve_list};
use chains::Whole;
use std::test::Fail;
use testing::assert_equal;

#[test]
fn a_list_of_connections(rt: HostRuntime) -> Result<(), Fail> {
    let one = counts(rt.alloc())?;
    let mut connections = Vec::new(rt.alloc());
    connections.push(one.clone()?)?;
    connections.push(Vec::from_slice(rt.alloc(), b"GET /publ")?)?;
    connections.push(one)?;
    let mut desk = Echo::desk(rt.alloc());
    match serve_list(rt.alloc(), &mut desk, connections) {
        Ok(written) => {
            assert_equal(written.len(), 3)?;
            assert_equal(written[0].as_slice(), written[2].as_slice())?;
            assert_equal((written[0].len(), written[1].len()), (93, 0))
        }
        Err(_) => Err("no memory".into()),
    }
}

// The bureau knows only the publisher, who asks in the first connection and in the third.
#[test]
fn connections_to_the_bureau(rt: HostRuntime) -> Result<(), Fail> {
    let one = counts(rt.alloc())?;
    let mut connections = Vec::new(rt.alloc());
    connections.push(one.clone()?)?;
    connections.push(Vec::from_slice(rt.alloc(), b"GET /published HTTP/1.1\n\n")?)?;
    connections.push(one)?;
    match replay(
        rt.alloc(),
        Whole::new(),
        b"NAME,TOKEN\nPUBLISH,publisher-token\n",
        connections,
    ) {
        Ok(written) => {
            assert_equal(written.len(), 3)?;
            assert_equal(written[0].as_slice(), written[2].as_slice())?;
            assert_equal((written[0].len(), written[1].len()), (93, 115))
        }
        Err(_) => Err("no memory".into()),
    }
}
