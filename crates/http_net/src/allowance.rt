//! The time that a peer has.
ghost use Rattle.std.specs.Prelude.{◌≡◌, ◌<◌, MatchOption};
ghost use Rattle.std.specs.Duration.{as_nanos};
ghost use Rattle.std.specs.Time.{instant_nanos};
ghost use Rattle.http_net.specs.Allowances as spec;

use std::time::{Duration, Instant};

/// The time that a peer has before a byte counts, in seconds.
const SECONDS: u64 = 30;

/// So many bytes give it a second more.
const BYTES_A_SECOND: u64 = 65_536;

/// The time that a peer has to send all that it sends, or to take all that it takes: 30 seconds,
/// and one more for each 64 KiB that came or went.
#[derive(Clone, Copy)]
pub(crate) struct Allowance {
    begun: Instant,
    moved: u64,
}

/// What is left at an instant of so many seconds that began at another; `None` where nothing is.
pub(crate) fn time_left(begun: Instant, seconds: u64, now: Instant) -> Option<Duration>
    ensures { MatchOption result
        (spec.nanos_left seconds (instant_nanos begun) (instant_nanos now) ≡ 0)
        (λ left. (0 < as_nanos left) × (as_nanos left
        ≡ spec.nanos_left seconds (instant_nanos begun) (instant_nanos now))) }
{
    let left = Duration::from_secs(seconds).saturating_sub(now.duration_since(begun));
    if left.is_zero() { None } else { Some(left) }
}

impl Allowance {
    /// The allowance at a call, which begins with the first one.
    pub(crate) fn at_call(before: Option<Allowance>, now: Instant) -> Allowance
        ensures { result ≡ spec.at_call before now }
    {
        match before {
            Some(allowance) => allowance,
            None => Allowance {
                begun: now,
                moved: 0,
            },
        }
    }

    /// What is left at an instant; `None` where nothing is.
    pub(crate) fn rest_at(self, now: Instant) -> Option<Duration>
        ensures { MatchOption result (spec.left_of self now ≡ 0)
            (λ left. (0 < as_nanos left) × (as_nanos left ≡ spec.left_of self now)) }
    {
        time_left(self.begun, SECONDS + self.moved / BYTES_A_SECOND, now)
    }

    /// The allowance once so many bytes more came or went.
    pub(crate) fn after_bytes(self, bytes: usize) -> Allowance
        ensures { result ≡ spec.counted self bytes }
    {
        Allowance {
            begun: self.begun,
            moved: self.moved.saturating_add(bytes as u64),
        }
    }
}
