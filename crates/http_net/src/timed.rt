//! Streams whose bytes have to come, or go, in time.
ghost use Rattle.std.specs.Prelude.{◌≡◌, Some, IfOk, IsErr, OnErr};
ghost use Rattle.std.specs.Duration.{as_nanos};
ghost use Rattle.std.specs.Io.{ReadsAtMost, WritesAtMost};
ghost use Rattle.std.specs.Io.KnownBytes.{ReadConsumes, WriteAppends};
ghost use Rattle.http_net.specs.Allowances as spec;

use crate::allowance::Allowance;
use std::io;
use std::io::{ErrorKind, Read, Write};
use std::net::TcpStream;
use std::time::{Clock, Duration, Instant};

/// A stream that can be told how long its calls may wait for the peer.
pub trait Waits {
    /// From now on a read that waits longer fails.
    fn bound_reads(&self, most: Duration) -> io::Result<()>;

    /// From now on a write that waits longer fails.
    fn bound_writes(&self, most: Duration) -> io::Result<()>;
}

impl Waits for &TcpStream {
    fn bound_reads(&self, most: Duration) -> io::Result<()> {
        self.set_read_timeout(Some(most))
    }

    fn bound_writes(&self, most: Duration) -> io::Result<()> {
        self.set_write_timeout(Some(most))
    }
}

/// A stream that is read, or written, in the time that its peer has: from the first call on 30
/// seconds, and one more for each 64 KiB that came, or went. No call waits longer than what is left
/// of it. Where nothing is left, a call is TimedOut, and takes or gives no byte; where the clock
/// can't be read, it fails as the clock does.
///
/// One value is for reading alone, or for writing alone, since both count the same time.
#[derive(Drop)]
pub struct Timed<C, S> {
    clock: C,
    /// None before the first call.
    allowance: Option<Allowance>,
    stream: S,
}

impl<C: Clock, S> Timed<C, S> {
    /// The stream, of which no time has passed.
    pub fn new(clock: C, stream: S) -> Timed<C, S>
        ensures { result.stream ≡ stream }
    {
        Timed {
            clock,
            allowance: None,
            stream,
        }
    }

    /// How long a call at this instant may wait.
    fn left_at(&mut self, now: Instant) -> io::Result<Duration>
        ensures left { IfOk result (λ left.
            as_nanos left ≡ spec.left_of (spec.at_call self.old.allowance now) now) }

        ensures late { spec.left_of (spec.at_call self.old.allowance now) now ≡ 0 → IsErr result }

        ensures begun { self.new.allowance ≡ Some (spec.at_call self.old.allowance now) }
        ensures stream { self.new.stream ≡ self.old.stream }
    {
        let allowance = Allowance::at_call(self.allowance, now);
        self.allowance = Some(allowance);
        match allowance.rest_at(now) {
            Some(left) => Ok(left),
            None => Err(io::Error::from(ErrorKind::TimedOut)),
        }
    }

    /// Counts bytes that came or went, since the call at this instant.
    fn count(&mut self, now: Instant, bytes: usize)
        ensures counted { self.new.allowance
            ≡ Some (spec.counted (spec.at_call self.old.allowance now) bytes) }
        ensures stream { self.new.stream ≡ self.old.stream }
    {
        self.allowance = Some(Allowance::at_call(self.allowance, now).after_bytes(bytes));
    }
}

impl<C: Clock, S: Read + Waits> Timed<C, S> {
    /// Reads at this instant.
    fn read_at(&mut self, now: Instant, buf: &mut [u8]) -> io::Result<usize>
        ensures bound { ReadsAtMost result buf.new }
        ensures bytes { ReadConsumes (S.remaining self.old.stream) (S.remaining self.new.stream)
            result buf.new }
        ensures counted { IfOk result (λ count. self.new.allowance
            ≡ Some (spec.counted (spec.at_call self.old.allowance now) count)) }

        ensures late { spec.left_of (spec.at_call self.old.allowance now) now ≡ 0 → IsErr result }
        ensures uncounted { OnErr result
            (self.new.allowance ≡ Some (spec.at_call self.old.allowance now)) }
    {
        let left = self.left_at(now)?;
        self.stream.bound_reads(left)?;
        let count = self.stream.read(buf)?;
        self.count(now, count);
        Ok(count)
    }
}

impl<C: Clock, S: Write + Waits> Timed<C, S> {
    /// Writes at this instant.
    fn write_at(&mut self, now: Instant, buf: &[u8]) -> io::Result<usize>
        ensures bound { WritesAtMost result buf.now }
        ensures bytes { WriteAppends (S.contents self.old.stream) (S.contents self.new.stream)
            result buf.now }
        ensures counted { IfOk result (λ count. self.new.allowance
            ≡ Some (spec.counted (spec.at_call self.old.allowance now) count)) }

        ensures late { spec.left_of (spec.at_call self.old.allowance now) now ≡ 0 → IsErr result }
        ensures uncounted { OnErr result
            (self.new.allowance ≡ Some (spec.at_call self.old.allowance now)) }
    {
        let left = self.left_at(now)?;
        self.stream.bound_writes(left)?;
        let count = self.stream.write(buf)?;
        self.count(now, count);
        Ok(count)
    }
}

impl<C: Clock, S: Read + Waits> Read for Timed<C, S> {
    ghost remaining = { λ timed. S.remaining timed.stream };

    fn read(&mut self, buf: &mut [u8]) -> io::Result<usize> {
        let now = Instant::now(&self.clock)?;
        self.read_at(now, buf)
    }
}

impl<C: Clock, S: Write + Waits> Write for Timed<C, S> {
    ghost contents = { λ timed. S.contents timed.stream };

    fn write(&mut self, buf: &[u8]) -> io::Result<usize> {
        let now = Instant::now(&self.clock)?;
        self.write_at(now, buf)
    }

    fn flush(&mut self) -> io::Result<()> {
        self.stream.flush()
    }
}
