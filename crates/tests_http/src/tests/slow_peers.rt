//! Slow peers, by a made-up clock.
ghost use Rattle.std.specs.Prelude.{◌≤◌, IfOk};

use http_exchange::{HttpFault, RequestReader, Served};
use http_net::{Timed, Waits, answer_connection, read_off};
use http_requests::Routes;
use std::alloc::Global;
use std::cell::Cell;
use std::io;
use std::io::{ErrorKind, Read, Write};
use std::test::Fail;
use std::time::{Clock, Duration};
use testing::bytes_of;
use testing_desk::StandIn;

/// A clock that goes on while a peer is waited for, in milliseconds.
#[derive(Drop)]
struct MadeUp {
    now: Cell<u64>,
}

/// Its first time.
const BEGUN: u64 = 7000;

impl MadeUp {
    fn new() -> MadeUp {
        MadeUp {
            now: Cell::new(BEGUN),
        }
    }

    /// The milliseconds that have passed.
    fn went(&self) -> u64 {
        self.now.get().saturating_sub(BEGUN)
    }
}

impl Clock for MadeUp {
    fn monotonic(&self) -> io::Result<Duration> {
        Ok(Duration::from_millis(self.now.get()))
    }

    fn since_1970(&self) -> io::Result<Duration> {
        Ok(Duration::ZERO)
    }
}

/// A peer that sends these bytes, or takes any, this many in each call, each after this many
/// milliseconds.
#[derive(Drop)]
struct Peer<'c> {
    clock: &'c MadeUp,
    rest: &'c [u8],
    most: usize,
    pause: u64,
    /// As long as a call may wait.
    bound: Cell<u64>,
}

impl<'c> Peer<'c> {
    fn new(clock: &'c MadeUp, rest: &'c [u8], most: usize, pause: u64) -> Peer<'c> {
        Peer {
            clock,
            rest,
            most,
            pause,
            bound: Cell::new(u64::MAX),
        }
    }

    /// Waits for the peer, and returns how many of `room` bytes it moves.
    fn moved(&self, room: usize) -> io::Result<usize>
        ensures { IfOk result (λ count. count ≤ room) }
    {
        let bound = self.bound.get();
        let now = self.clock.now.get();
        self.clock
            .now
            .set(now.saturating_add(self.pause.min(bound)));
        if self.pause < bound {
            Ok(room.min(self.most))
        } else {
            Err(io::Error::from(ErrorKind::WouldBlock))
        }
    }

    /// Keeps how long a call may wait.
    fn keep(&self, most: Duration) {
        self.bound
            .set(u64::try_from(most.as_millis()).unwrap_or(u64::MAX));
    }
}

impl Waits for Peer<'_> {
    fn bound_reads(&self, most: Duration) -> io::Result<()> {
        self.keep(most);
        Ok(())
    }

    fn bound_writes(&self, most: Duration) -> io::Result<()> {
        self.keep(most);
        Ok(())
    }
}

impl Read for Peer<'_> {
    fn read(&mut self, buf: &mut [u8]) -> io::Result<usize> {
        let count = self.moved(buf.len().min(self.rest.len()))?;
        let (given, rest) = self.rest.split_at(count);
        buf[..count].copy_from_slice(given);
        self.rest = rest;
        Ok(count)
    }
}

impl Write for Peer<'_> {
    fn write(&mut self, buf: &[u8]) -> io::Result<usize> {
        self.moved(buf.len())
    }

    fn flush(&mut self) -> io::Result<()> {
        Ok(())
    }
}

/// How many bytes come until none comes, or a read fails.
fn come<R: Read>(reader: &mut R) -> usize {
    let mut piece = [0; 8192];
    let mut total = 0usize;
    for _ in 0..100_000 {
        match reader.read(&mut piece) {
            Ok(0) => return total,
            Ok(count) => total = total.saturating_add(count),
            Err(_) => return total,
        }
    }
    total
}

/// How many of these bytes go until all went, or a write fails.
fn go<W: Write>(bytes: &[u8], writer: &mut W) -> usize {
    let mut rest = bytes;
    for _ in 0..100_000 {
        if rest.is_empty() {
            return bytes.len();
        }
        match writer.write(rest) {
            Ok(count) => rest = &rest[count..],
            Err(_) => return bytes.len().saturating_sub(rest.len()),
        }
    }
    0
}

/// How many bytes there are, how many a peer sends in a call, and after how many milliseconds; how
/// many came, and how many milliseconds passed.
const SENT: [(usize, usize, u64, usize, u64); 8] = [
    (53, 1, 1000, 29, 30_000),
    (53, 1, 500, 53, 27_000),
    (100, 100, 31_000, 0, 30_000),
    (1_048_576, 8192, 125, 1_048_576, 16_125),
    (4_194_304, 8192, 125, 4_194_304, 64_125),
    (2_097_152, 8192, 200, 2_097_152, 51_400),
    (4_194_304, 8192, 200, 3_186_688, 78_000),
    (4_194_304, 4096, 1000, 122_880, 31_000),
];

/// The same for bytes that a peer takes.
const TAKEN: [(usize, usize, u64, usize, u64); 6] = [
    (53, 1, 1000, 29, 30_000),
    (100, 100, 29_999, 100, 29_999),
    (100, 100, 31_000, 0, 30_000),
    (4_194_304, 8192, 125, 4_194_304, 64_000),
    (2_097_152, 8192, 200, 2_097_152, 51_200),
    (4_194_304, 8192, 200, 3_186_688, 78_000),
];

/// How many of so many bytes come from a peer, and how many milliseconds pass.
fn came_from(alloc: Global, all: usize, most: usize, pause: u64) -> Result<(usize, u64), Fail> {
    let bytes = vec![in alloc; 0; all]?;
    let clock = MadeUp::new();
    let peer = Peer::new(&clock, bytes.as_slice(), most, pause);
    let total = come(&mut Timed::new(&clock, peer));
    Ok((total, clock.went()))
}

#[test]
fn lets_a_slow_sender_go(rt: HostRuntime) -> Result<(), Fail> {
    for (all, most, pause, came, went) in SENT {
        let found = came_from(rt.alloc(), all, most, pause)?;
        assert!(rt; found == (came, went), "{all} by {most} after {pause}");
    }
    Ok(())
}

/// How many of so many bytes go to a peer, and how many milliseconds pass.
fn went_to(alloc: Global, all: usize, most: usize, pause: u64) -> Result<(usize, u64), Fail> {
    let bytes = vec![in alloc; 0; all]?;
    let clock = MadeUp::new();
    let peer = Peer::new(&clock, &[], most, pause);
    let total = go(bytes.as_slice(), &mut Timed::new(&clock, peer));
    Ok((total, clock.went()))
}

#[test]
fn lets_a_slow_taker_go(rt: HostRuntime) -> Result<(), Fail> {
    for (all, most, pause, took, went) in TAKEN {
        let found = went_to(rt.alloc(), all, most, pause)?;
        assert!(rt; found == (took, went), "{all} by {most} after {pause}");
    }
    Ok(())
}

/// How many bytes still come, how many a peer sends in a call, and after how many milliseconds; how
/// many are left, and how many milliseconds passed.
const READ_OFF: [(usize, usize, u64, usize, u64); 4] = [
    (2_097_152, 8192, 0, 1_048_576, 0),
    (100_000, 8192, 0, 0, 0),
    (1000, 100, 300, 400, 2000),
    (10, 10, 5000, 10, 2000),
];

/// How many of so many bytes of a peer are left, and how many milliseconds pass.
fn left_of(alloc: Global, all: usize, most: usize, pause: u64) -> Result<(usize, u64), Fail> {
    let bytes = vec![in alloc; 0; all]?;
    let clock = MadeUp::new();
    let mut peer = Peer::new(&clock, bytes.as_slice(), most, pause);
    read_off(&clock, &mut peer);
    Ok((peer.rest.len(), clock.went()))
}

#[test]
fn reads_off_what_still_comes(rt: HostRuntime) -> Result<(), Fail> {
    for (all, most, pause, left, went) in READ_OFF {
        let found = left_of(rt.alloc(), all, most, pause)?;
        assert!(rt; found == (left, went), "{all} by {most} after {pause}");
    }
    Ok(())
}

/// A request.
const LEVEL: &str = "GET /level HTTP/1.1|Desk-Token: olga-token-000001||";

/// The result of a connection with this desk.
fn answered<R: Read + Drop, W: Write>(
    alloc: Global,
    desk: &mut StandIn,
    reader: R,
    writer: &mut W,
) -> Result<Served, HttpFault> {
    match Routes::new(alloc) {
        Ok(routes) => answer_connection(
            alloc,
            &routes,
            desk,
            reader,
            &mut RequestReader::new(),
            writer,
        ),
        Err(_) => Err(HttpFault::NoMemory),
    }
}

/// The result for a slow sender of the request, and whether nothing is asked and nothing written.
fn with_a_slow_sender(
    alloc: Global,
    clock: &MadeUp,
    desk: &mut StandIn,
    request: &[u8],
) -> (Result<Served, HttpFault>, bool) {
    let slow = Timed::new(clock, Peer::new(clock, request, 1, 1000));
    let mut written = Vec::new(alloc);
    let served = answered(alloc, desk, slow, &mut written);
    (served, desk.asked.is_empty() && written.is_empty())
}

/// The result for a slow taker of the response to the request.
fn with_a_slow_taker(
    alloc: Global,
    clock: &MadeUp,
    desk: &mut StandIn,
    request: &[u8],
) -> Result<Served, HttpFault> {
    let mut slow = Timed::new(clock, Peer::new(clock, &[], 1, 1000));
    answered(alloc, desk, request, &mut slow)
}

#[test]
fn asks_a_desk_nothing_for_a_slow_peer(rt: HostRuntime) -> Result<(), Fail> {
    let bytes = bytes_of(rt.alloc(), LEVEL)?;
    let request = bytes.as_slice();
    let clock = MadeUp::new();
    let mut desk = StandIn::new(rt.alloc());
    let (served, is_unasked) = with_a_slow_sender(rt.alloc(), &clock, &mut desk, request);
    assert!(rt; served == Err(HttpFault::Read), "a slow sender");
    assert!(rt; is_unasked, "nothing is asked");
    let served = with_a_slow_taker(rt.alloc(), &clock, &mut desk, request);
    assert!(rt; served == Err(HttpFault::Write), "a slow taker");
    assert!(rt; clock.went() == 60_000, "a minute for both");
    Ok(())
}
