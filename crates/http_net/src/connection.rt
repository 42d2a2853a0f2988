//! One request, from a reader or a connection.
ghost use Rattle.std.specs.Prelude.{◌≢◌, Err};
ghost use Rattle.http_exchange.specs.Intakes.{EndIsCaused};
ghost use Rattle.http_exchange.specs.Serving.{AnswersOne};
ghost use Rattle.http_net.specs.Wire.{IsOneRequest};

use crate::{Timed, read_off};
use desk_exports::AnswersCalls;
use http_exchange::{HttpFault, RequestReader, Served, serve_one};
use http_requests::Routes;
use std::alloc::Global;
use std::io::{BufReader, Read, Write};
use std::net::{Shutdown, TcpStream};
use std::time::Clock;

/// Whether a response was written.
fn was_answered(served: &Result<Served, HttpFault>) -> bool {
    match served {
        Ok(Served::Answered(_)) => true,
        Ok(Served::Nothing) | Err(HttpFault::Read | HttpFault::Write | HttpFault::NoMemory) =>
            false,
    }
}

/// Ends a connection after its response: closes the writing side, and reads what the peer still
/// sends. A connection that is closed while bytes wait is reset, and the peer may lose the response
/// (RFC 9112, section 9.6).
fn end_response<C: Clock>(clock: &C, stream: &TcpStream) {
    if stream.shutdown(Shutdown::Write).is_ok() {
        let mut peer = stream;
        read_off(clock, &mut peer);
    }
}

/// Answers the one request of a connection, which this reader reads, as http_exchange's `serve_one`
/// does. It reads pieces of the input, which may hold bytes after the request. Takes memory.
///
/// NoMemory: memory for a piece was refused, before anything was read, or as for `serve_one`. Read,
/// Write: as for `serve_one`.
pub fn answer_connection<D: AnswersCalls, R: Read + Drop, W: Write>(
    alloc: Global,
    routes: &Routes,
    desk: &mut D,
    reader: R,
    intake: &mut RequestReader,
    writer: &mut W,
) -> Result<Served, HttpFault>
    ensures serves { AnswersOne D.shows D.clean D.failed D.leaves (R.remaining reader)
        (W.contents writer.old) (W.contents writer.new) desk.old desk.new result }
    ensures cause { result ≢ Err HttpFault.NoMemory → EndIsCaused intake.old intake.new result }
{
    let Ok(mut reader) = BufReader::new(alloc, reader) else {
        return Err(HttpFault::NoMemory);
    };
    serve_one(alloc, routes, desk, &mut reader, intake, writer)
}

/// Serves one request of a connection. If memory for the reader is refused, or the peer misses its
/// deadline, the connection ends without a response, or with the beginning of one.
pub(crate) fn serve_stream<C: Clock, D: AnswersCalls>(
    alloc: Global,
    clock: &C,
    routes: &Routes,
    desk: &mut D,
    stream: &TcpStream,
) -> Result<Served, HttpFault>
    ensures serves { IsOneRequest D.shows D.clean D.failed D.leaves desk.old desk.new result }
{
    let reader = Timed::new(clock, stream);
    let mut writer = Timed::new(clock, stream);
    let mut intake = RequestReader::new();
    let served = answer_connection(alloc, routes, desk, reader, &mut intake, &mut writer);
    if was_answered(&served) {
        end_response(clock, stream);
    }
    served
}
