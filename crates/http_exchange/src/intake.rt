//! The input of a connection, as it is read.
ghost use Rattle.std.specs.Prelude.{◌≡◌, IfErr, IfOk, IfSome, false};
ghost use Rattle.base.specs.Watches as watches;
ghost use Rattle.http_requests.specs.heads.Heads.{FindsOf};
ghost use Rattle.http_exchange.specs.Bodies.{body_in, items_of};
ghost use Rattle.http_exchange.specs.Intakes.{IsCaused, UnreadHasCause};
ghost use Rattle.http_exchange.specs.Unread.{IsOfInput, IsOwn};

use crate::served::Unread;
use base::{InputFault, Watch};
use http_requests::{HeadRead, read_body, read_head};
use pe_image::{Pieces, PiecesFault, Source};
use std::alloc::Global;
use std::io::Read;

/// Reads the head and the body of an input. It remembers whether a read failed, after which it
/// reads no more, and whether memory for what came was refused.
#[derive(Drop)]
pub struct RequestReader {
    watch: Watch,
    memory_refused: bool,
}

impl RequestReader {
    /// An intake that has read nothing.
    pub fn new() -> RequestReader
        ensures { (result.watch.failed ≡ false) × (result.memory_refused ≡ false) }
    {
        RequestReader {
            watch: Watch::new(),
            memory_refused: false,
        }
    }

    /// The fault of a head or of a body, which has no limit of its own.
    fn unread_of(&mut self, fault: InputFault) -> Unread
        ensures own { IsOwn result }
        ensures input { IsOfInput result }
        ensures cause { watches.HasCause self.old.watch fault
            → UnreadHasCause self.old self.new result }
    {
        match fault {
            InputFault::TooLong | InputFault::Read => Unread::Read,
            InputFault::NoMemory => {
                self.memory_refused = true;
                Unread::NoMemory
            }
        }
    }

    /// Reads a head, as `http_requests::read_head` does.
    pub(crate) fn read_head<R: Read>(
        &mut self,
        alloc: Global,
        reader: &mut R,
    ) -> Result<HeadRead, Unread>
        ensures found { IfOk result (FindsOf (R.remaining reader.old) (R.remaining reader.new)) }
        ensures named { IfErr result IsOwn }
        ensures input { IfErr result IsOfInput }
        ensures cause { IsCaused self.old self.new result }
    {
        match read_head(alloc, reader, &mut self.watch) {
            Ok(begun) => Ok(begun),
            Err(fault) => Err(self.unread_of(fault)),
        }
    }

    /// Reads the `size` bytes of a body, or gives `None` if the input ends before their end. It
    /// reads no byte after them. Takes memory for what it reads, as it comes.
    pub(crate) fn read_bytes<R: Read>(
        &mut self,
        alloc: Global,
        reader: &mut R,
        size: usize,
    ) -> Result<Option<Vec<u8>>, Unread>
        ensures body { IfOk result (λ body. IfSome (R.remaining reader.old)
            (λ b. items_of body ≡ body_in size b)) }
        ensures named { IfErr result IsOwn }
        ensures input { IfErr result IsOfInput }
        ensures cause { IsCaused self.old self.new result }
    {
        match read_body(alloc, reader, &mut self.watch, size) {
            Ok(body) => Ok(body),
            Err(fault) => Err(self.unread_of(fault)),
        }
    }

    /// Reads the `size` bytes of an image into pieces, or gives `None` if the input ends before
    /// their end. It reads no byte after them. Takes memory for what it reads, as it comes.
    pub(crate) fn read_image<R: Read>(
        &mut self,
        alloc: Global,
        reader: &mut R,
        size: usize,
    ) -> Result<Option<Pieces>, Unread>
        ensures body { IfOk result (λ image.
            IfSome (R.remaining reader.old) (λ b. image ≡ body_in size b)) }
        ensures named { IfErr result IsOwn }
        ensures input { IfErr result IsOfInput }
        ensures cause { IsCaused self.old self.new result }
    {
        match Pieces::take(alloc, reader, &mut self.watch, size as u64) {
            Ok(image) => {
                if image.len() < size as u64 {
                    Ok(None)
                } else {
                    Ok(Some(image))
                }
            }
            Err(PiecesFault::Read) => Err(Unread::Read),
            Err(PiecesFault::NoMemory) => {
                self.memory_refused = true;
                Err(Unread::NoMemory)
            }
        }
    }
}
