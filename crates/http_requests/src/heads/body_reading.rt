//! A body of a known length.
ghost use Rattle.std.specs.Prelude.{◌<◌, ◌≤◌, length, take, IfErr, IfOk, OnErr};
ghost use Rattle.std.specs.Io.KnownBytes.{Consumes, IsAtEnd};
ghost use Rattle.base.specs.Watches.{HasCause, HasFailed};
ghost use Rattle.http_requests.specs.heads.Bodies.{TakesBody};

use base::{InputFault, ReadFailed, Watch, read_up_to};
use std::alloc::Global;
use std::io::Read;

/// The longest body that memory is taken for at once. A longer one gets it piece by piece.
const SHORT: usize = 65_536;

/// Reads until the buffer is full or the input ends, and returns how many bytes came.
fn fill<R: Read>(reader: &mut R, watch: &mut Watch, buffer: &mut [u8]) -> Result<usize, ReadFailed>
    ensures ok { IfOk result (λ count.
        Consumes (R.remaining reader.old) (R.remaining reader.new) (take count buffer.new)) }
    ensures bound { IfOk result (λ count. count ≤ length buffer.old) }
    ensures end { IfOk result (λ count. count < length buffer.old
        → IsAtEnd (R.remaining reader.new)) }

    ensures device { OnErr result (HasFailed watch.new) }
{
    let mut count = 0;
    while count < buffer.len() {
        match watch.read(reader, &mut buffer[count..]) {
            Err(ReadFailed) => return Err(ReadFailed),
            Ok(0) => return Ok(count),
            Ok(more) => count += more,
        }
    }
    Ok(count)
}

/// Reads `size` bytes, or those before the input's end, into memory that is taken for them at once.
fn read_short<R: Read>(
    alloc: Global,
    reader: &mut R,
    watch: &mut Watch,
    size: usize,
) -> Result<Vec<u8>, InputFault>
    ensures ok { IfOk result (λ bytes.
        Consumes (R.remaining reader.old) (R.remaining reader.new) bytes.items) }
    ensures bound { IfOk result (λ bytes. length bytes.items ≤ size) }
    ensures end { IfOk result (λ bytes. length bytes.items < size
        → IsAtEnd (R.remaining reader.new)) }

    ensures device { IfErr result (HasCause watch.new) }
{
    let Ok(mut bytes) = vec![in alloc; 0; size] else {
        return Err(InputFault::NoMemory);
    };
    match fill(reader, watch, bytes.as_mut_slice()) {
        Ok(count) => {
            bytes.truncate(count);
            Ok(bytes)
        }
        Err(ReadFailed) => Err(InputFault::Read),
    }
}

/// Reads `size` bytes, or those before the input's end.
fn read_sized<R: Read>(
    alloc: Global,
    reader: &mut R,
    watch: &mut Watch,
    size: usize,
) -> Result<Vec<u8>, InputFault>
    ensures ok { IfOk result (λ bytes.
        Consumes (R.remaining reader.old) (R.remaining reader.new) bytes.items) }
    ensures bound { IfOk result (λ bytes. length bytes.items ≤ size) }
    ensures end { IfOk result (λ bytes. length bytes.items < size
        → IsAtEnd (R.remaining reader.new)) }

    ensures device { IfErr result (HasCause watch.new) }
{
    if size <= SHORT {
        read_short(alloc, reader, watch, size)
    } else {
        read_up_to(alloc, reader, watch, size)
    }
}

/// Reads the `size` bytes of a body, or gives `None` if the input ends before their end. It reads
/// no byte after them. An interrupted read is a fault. Takes memory for a body of up to 65,536
/// bytes at once, and for a longer one as it comes.
///
/// `Read`: the reader failed, or a read of this watch had failed before. `NoMemory`: memory was
/// refused. `TooLong` never comes.
pub fn read_body<R: Read>(
    alloc: Global,
    reader: &mut R,
    watch: &mut Watch,
    size: usize,
) -> Result<Option<Vec<u8>>, InputFault>
    ensures found { IfOk result (TakesBody size (R.remaining reader.old) (R.remaining reader.new)) }
    ensures device { IfErr result (HasCause watch.new) }
{
    let body = read_sized(alloc, reader, watch, size)?;
    if body.len() < size {
        return Ok(None);
    }
    Ok(Some(body))
}
