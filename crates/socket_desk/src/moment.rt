//! Time as the desk has it: what passes while it cannot hear its clients doesn't count.
ghost use Rattle.std.specs.Prelude.{◌≡◌, ◌-◌};
ghost use Rattle.std.specs.Duration.{as_nanos};
ghost use Rattle.std.specs.Time.{instant_nanos};
ghost use Rattle.socket_desk.specs.Patience.{own_after};

use std::time::{Duration, Instant};

/// A moment: by the clock, and by the desk's own time.
#[derive(Clone, Copy, Debug)]
pub(crate) struct Moment {
    pub(crate) clock: Instant,
    // how long the desk could hear until then
    pub(crate) own: Duration,
}

impl Moment {
    /// The moment at which a desk begins.
    pub(crate) fn first(clock: Instant) -> Moment {
        Moment {
            clock,
            own: Duration::ZERO,
        }
    }

    /// A later moment. Between both the desk's own time goes on by one step at most: it may have been stopped, or
    /// busy with one call.
    pub(crate) fn next(&self, clock: Instant, step: Duration) -> Moment
        ensures clock { result.clock ≡ clock }
        ensures own { as_nanos result.own ≡ own_after (as_nanos self.now.own)
            (instant_nanos clock - instant_nanos self.now.clock) (as_nanos step) }
    {
        let gap = clock.saturating_duration_since(self.clock);
        let heard = if gap.as_nanos() < step.as_nanos() {
            gap
        } else {
            step
        };
        Moment {
            clock,
            own: self.own.saturating_add(heard),
        }
    }

    /// How long ago an earlier one was, by the clock.
    pub(crate) fn lasted(&self, earlier: &Moment) -> Duration
        ensures { as_nanos result ≡ instant_nanos self.now.clock - instant_nanos earlier.now.clock }
    {
        self.clock.saturating_duration_since(earlier.clock)
    }

    /// How long ago an earlier one was, by the desk's own time.
    pub(crate) fn waited(&self, earlier: &Moment) -> Duration
        ensures { as_nanos result ≡ as_nanos self.now.own - as_nanos earlier.now.own }
    {
        self.own.saturating_sub(earlier.own)
    }
}
