//! Sources of bytes with random access.
ghost use Rattle.std.specs.Prelude.{◌≡◌, ◌+◌, ◌≤◌, ℕ, List, length, slice_range, OnOk, OnErr};
ghost use Rattle.pe_image.specs.Sources.{HaveRisen, OnlyReads};

use base::ReadFailed;

/// Bytes with random access, such as a file's. Offsets count bytes from the beginning. No read
/// changes the content, and the source counts the reads that fail.
pub trait Source {
    /// The bytes of the source.
    ghost content: { Self → List ℕ };

    /// The number of failed reads. It stops at the greatest `u64`.
    ghost failures: { Self → ℕ };

    /// The number of bytes.
    fn len(&self) -> u64
        ensures { result ≡ length (content self.now) };

    /// The number of reads that have failed so far.
    fn failures(&self) -> u64
        ensures { result ≡ failures self.now };

    /// Fills the slice with the bytes from an offset on. The caller stays within the length.
    fn read_at(&mut self, at: u64, out: &mut [u8]) -> Result<(), ReadFailed>
        requires { at + length out.old ≤ length (content self.old) }
        ensures ok { OnOk result (out.new
            ≡ slice_range (content self.old) at (at + length out.old)) }

        ensures device { OnErr result (HaveRisen (failures self.old) (failures self.new)) }
        ensures steady { OnOk result (failures self.new ≡ failures self.old) }

        ensures reads { OnlyReads content failures self.old self.new };
}

/// A source over a slice, which never fails.
#[derive(Debug, Drop)]
pub struct Bytes<'a>(pub &'a [u8]);

impl Source for Bytes<'_> {
    ghost content = { λ b. b.0.now };

    ghost failures = { λ _. 0 };

    fn len(&self) -> u64 {
        self.0.len() as u64
    }

    fn failures(&self) -> u64 {
        0
    }

    fn read_at(&mut self, at: u64, out: &mut [u8]) -> Result<(), ReadFailed>
        requires { at + length out.old ≤ length self.old.0.now }
        ensures always { result ≡ Ok tt }
        ensures ok { OnOk result (out.new ≡ slice_range self.old.0.now at (at + length out.old)) }

        ensures device { OnErr result (HaveRisen 0 0) }
        ensures steady { OnOk result (◌≡◌ {A = ℕ} 0 0) }

        ensures reads { OnlyReads (λ b. b.0.now) (λ _. 0) self.old self.new }
    {
        let at = at as usize;
        out.copy_from_slice(&self.0[at..at + out.len()]);
        Ok(())
    }
}
