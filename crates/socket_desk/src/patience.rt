//! How long the desk waits for a client.
ghost use Rattle.std.specs.Prelude.{◌≡◌, min};
ghost use Rattle.std.specs.Duration.{as_nanos};
ghost use Rattle.socket_desk.specs.Patience.{is_late, seconds};

use std::time::Duration;

// A head is a few hundred bytes, which any client sends at once. So this bounds who sends one byte by byte.
const HEAD: u64 = 20;

// As long as HTTP libraries keep a connection that they may use again.
const IDLE: u64 = 60;

// A client that sends or takes nothing for so long has gone, or is no client.
const PAUSE: u64 = 60;

// A client that reads its reply takes some of it in less.
const PRESSED: u64 = 2;

// The largest body, 64 MiB, in that time is 112 KB a second.
const WHOLE: u64 = 600;

// A client that got its last reply closes its side at once.
const CLOSING: u64 = 2;

// A desk that can hear looks at its sockets each second.
const STEP: u64 = 2;

/// How far a connection has come, as far as patience goes.
#[derive(Clone, Copy, Debug, PartialEq, Eq)]
pub enum Stage {
    /// No request has begun.
    Idle,
    /// A head has begun, and hasn't come whole.
    Head,
    /// A head has come, and the body hasn't whole.
    Body,
    /// A reply has to go out.
    Reply,
    /// The desk has ended its side, and the client is to end its own.
    Closing,
}

/// How long the desk waits for a client at each stage.
#[derive(Clone, Copy, Debug, PartialEq, Eq)]
pub struct Patience {
    /// For a head, from its first byte on.
    pub head: Duration,
    /// For the first byte of a request.
    pub idle: Duration,
    /// In a pause inside a body or a reply.
    pub pause: Duration,
    /// For a request in all, from its first byte until its reply went out.
    pub whole: Duration,
    /// For the client to end its side, once the desk has ended its own.
    pub closing: Duration,
    /// The most that counts between two looks at the sockets: in a longer time the desk was stopped, or busy with one call,
    /// and could not hear its clients.
    pub step: Duration,
}

impl Patience {
    /// 20 seconds for a head, 60 while idle, 60 in a pause, ten minutes for a request, and 2 seconds to end. Between two
    /// looks 2 seconds count at most.
    pub fn usual() -> Patience
        ensures head { as_nanos result.head ≡ seconds 20 }
        ensures idle { as_nanos result.idle ≡ seconds 60 }
        ensures pause { as_nanos result.pause ≡ seconds 60 }
        ensures whole { as_nanos result.whole ≡ seconds 600 }
        ensures closing { as_nanos result.closing ≡ seconds 2 }
        ensures step { as_nanos result.step ≡ seconds 2 }
    {
        Patience {
            head: Duration::from_secs(HEAD),
            idle: Duration::from_secs(IDLE),
            pause: Duration::from_secs(PAUSE),
            whole: Duration::from_secs(WHOLE),
            closing: Duration::from_secs(CLOSING),
            step: Duration::from_secs(STEP),
        }
    }

    /// The same, with 2 seconds in a pause at most: for a reply that nobody reads while others wait for its room.
    pub fn pressed(&self) -> Patience
        ensures pause { as_nanos result.pause ≡ min (as_nanos self.now.pause) (seconds 2) }
        ensures others { result ≡ record {
          head = self.now.head;
          idle = self.now.idle;
          pause = result.pause;
          whole = self.now.whole;
          closing = self.now.closing;
          step = self.now.step;
        } }
    {
        Patience {
            head: self.head,
            idle: self.idle,
            pause: shorter(self.pause, Duration::from_secs(PRESSED)),
            whole: self.whole,
            closing: self.closing,
            step: self.step,
        }
    }

    /// Whether a connection's time is up: at this stage, if it has been quiet for so long, and its request, or
    /// its end, has taken so long in all.
    pub fn is_over(&self, stage: Stage, quiet: Duration, taken: Duration) -> bool
        ensures { result ≡ is_late self.now stage (as_nanos quiet) (as_nanos taken) }
    {
        let (quiet, taken) = (quiet.as_nanos(), taken.as_nanos());
        match stage {
            Stage::Idle => quiet > self.idle.as_nanos(),
            Stage::Head => taken > self.head.as_nanos(),
            Stage::Body => quiet > self.pause.as_nanos() || taken > self.whole.as_nanos(),
            Stage::Reply => quiet > self.pause.as_nanos() || taken > self.whole.as_nanos(),
            Stage::Closing => taken > self.closing.as_nanos(),
        }
    }
}

// The shorter one.
fn shorter(one: Duration, other: Duration) -> Duration
    ensures { as_nanos result ≡ min (as_nanos one) (as_nanos other) }
{
    if one.as_nanos() < other.as_nanos() {
        one
    } else {
        other
    }
}
