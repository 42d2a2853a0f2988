//! Requests over HTTP to the desk in a file.
ghost use Rattle.std.specs.Prelude.{◌≡◌, ◌⊎◌, None, IfErr, IfOk, IfSome};
ghost use Rattle.std.specs.Io.KnownBytes.{Keeps};
ghost use Rattle.http_net.specs.Faults.{IsAnsweringRefusal, IsServingRefusal};
ghost use Rattle.http_net.specs.Wire.{IsOneRequest};
ghost use Rattle.cli_output.specs.Faults.{IsRow};
ghost use Rattle.cli_opening.specs.Faults.{IsClosingRefusal, IsLasting, IsOfOpening};
ghost use Rattle.cli_opening.specs.Faults.{IsOpeningRefusal};
ghost use Rattle.cli_opening.specs.Works.{AtADesk, IsUnopened};
ghost use Rattle.cli_output.specs.declared.ending.WorkOutcome.TheVariants.{Done};
ghost use Rattle.cli_requests.specs.Desks.{AnswersRequest, ServesRequest};
ghost use Rattle.cli_requests.specs.Living.{LivesThrough, LivesThroughOne};
ghost use Rattle.cli_requests.specs.Works.{AnswersOnce, Serves, WorksInTurn, WorksOnce};
ghost use Rattle.http_exchange.specs.Serving.{AnswersOne};

use base::Refusal;
use cli_opening::{CacheSize, Work, Worked, on_desk};
use cli_output::{Ending, Fault, WorkOutcome};
use desk_exports::AnswersCalls;
use http_exchange::RequestReader;
use http_net::{answer_connection, listen, serve};
use http_requests::Routes;
use sqlite::{Alter, FileFrom, Start};
use sqlite_disk::Disk;
use std::alloc::Global;
use std::io::{Read, Write};
use std::marker::PhantomData;
use store_desk::Desk;

/// Answers one request of the reader, as a subcommand's work.
fn answer_one<D: AnswersCalls, R: Read + Drop, W: Write>(
    alloc: Global,
    routes: &Routes,
    desk: &mut D,
    reader: R,
    writer: &mut W,
) -> Result<WorkOutcome, Fault>
    ensures answered { WorksOnce (AnswersOne D.shows D.clean D.failed D.leaves (R.remaining reader)
        (W.contents writer.old) (W.contents writer.new)) desk.old desk.new result }
    ensures done { IfOk result (λ outcome. outcome ≡ WorkOutcome.Done) }
    ensures named { IfErr result (IsRow IsAnsweringRefusal) }
{
    let mut intake = RequestReader::new();
    match http_net::outcome(answer_connection(alloc, routes, desk, reader, &mut intake, writer)) {
        Ok(()) => Ok(WorkOutcome::Done),
        Err(refusal) => Err(Fault::from(refusal)),
    }
}

/// Answers one request of a reader.
#[derive(Drop)]
struct OneRequest<'a, R, W> {
    routes: &'a Routes,
    reader: R,
    writer: PhantomData<W>,
}

impl<'a, R: Read + Drop, W: Write> Work for OneRequest<'a, R, W> {
    type Output = W;

    ghost does = { λ _ g w before after old new work. WorksOnce (AnswersRequest g
        (R.remaining w.reader) (W.contents before) (W.contents after)) old new work
        × LivesThroughOne g old new (R.remaining w.reader) (W.contents before) (W.contents after) };

    ghost leaves = { λ _ outcome. outcome ≡ Done };

    ghost stops = { IsRow IsAnsweringRefusal };

    fn work<S: Alter + Drop>(self, rt: &HostRuntime, desk: Desk<S>, output: &mut W) -> Worked<S> {
        let OneRequest { routes, reader, .. } = self;
        let mut desk = desk;
        let work = answer_one(rt.alloc(), routes, &mut desk, reader, output);
        Worked { desk, work }
    }
}

/// Answers one request of the reader, for the desk in a file; if the reader has no byte, nothing is
/// written. The work is done, whatever the response, unless the desk must be opened again after it:
/// then the fault is Store or Reopen.
///
/// The faults of the desk's file come first, as for `add_person`. Read, NoMemory: the request
/// wasn't read. Write: a prefix of the response was written, and the answer's changes stay.
pub fn answer_from<S: Start, R: Read + Drop, W: Write>(
    rt: &HostRuntime,
    path: &str,
    start: S,
    reader: R,
    writer: &mut W,
) -> Ending
    ensures answered { (IsUnopened ⟦<FileFrom<S> as Disk>⟧ S.Start result
        × Keeps (W.contents writer.old) (W.contents writer.new))
        ⊎ AtADesk S.Start (AnswersOnce ⟦<FileFrom<S> as Disk>⟧ (R.remaining reader)
        (W.contents writer.old) (W.contents writer.new) result) }
    ensures done { IfOk result.work (λ outcome. outcome ≡ WorkOutcome.Done) }
    ensures named { IfErr result.work (IsRow (λ refusal.
        IsOpeningRefusal refusal ⊎ IsAnsweringRefusal refusal)) }
    ensures first { IfErr result.work (λ fault. IsOfOpening fault.refusal
        → (result.closing ≡ None) × Keeps (W.contents writer.old) (W.contents writer.new)) }
    ensures closing { IfSome result.closing (IsRow IsClosingRefusal) }
    ensures let_go { IfErr result.work (λ fault. IsLasting fault.refusal → result.closing ≡ None) }
{
    match Routes::new(rt.alloc()) {
        Ok(routes) => {
            let request: OneRequest<'_, R, W> = OneRequest {
                routes: &routes,
                reader,
                writer: PhantomData,
            };
            on_desk(rt, path, start, CacheSize::AsItIs, request, writer)
        }
        Err(_) => Ending::without_desk(Refusal::NoMemory),
    }
}

/// Serves `count` connections at this port of 127.0.0.1, for a desk, as a subcommand's work.
fn serve_all<D: AnswersCalls>(
    rt: &HostRuntime,
    routes: &Routes,
    desk: &mut D,
    port: u16,
    count: u32,
) -> Result<WorkOutcome, Fault>
    ensures in_turn { WorksInTurn (IsOneRequest D.shows D.clean D.failed D.leaves) count
        desk.old desk.new result }
    ensures done { IfOk result (λ outcome. outcome ≡ WorkOutcome.Done) }
    ensures named { IfErr result (IsRow IsServingRefusal) }
{
    let listener = match listen(rt, port) {
        Ok(listener) => listener,
        Err(refusal) => return Err(Fault::from(refusal)),
    };
    match serve(rt.alloc(), rt, routes, desk, &listener, count) {
        Ok(()) => Ok(WorkOutcome::Done),
        Err(refusal) => Err(Fault::from(refusal)),
    }
}

/// Serves connections at a port of 127.0.0.1.
#[derive(Drop)]
struct Connections<'a> {
    routes: &'a Routes,
    port: u16,
    count: u32,
}

impl<'a> Work for Connections<'a> {
    type Output = ();

    ghost does = { λ _ g w _ _ old new work. WorksInTurn (ServesRequest g) w.count old new work
        × LivesThrough g old new };

    ghost leaves = { λ _ outcome. outcome ≡ Done };

    ghost stops = { IsRow IsServingRefusal };

    fn work<S: Alter + Drop>(self, rt: &HostRuntime, desk: Desk<S>, _output: &mut ()) -> Worked<S> {
        let mut desk = desk;
        let work = serve_all(rt, self.routes, &mut desk, self.port, self.count);
        Worked { desk, work }
    }
}

/// Serves `count` connections at this port of 127.0.0.1, one request each, one after another, for
/// the desk in a file. A fault of one connection ends only that connection.
///
/// The faults of the desk's file come first, as for `add_person`. Read: the port couldn't be
/// opened, or no connection could be accepted. Store, Reopen: that response was written, and the
/// desk must be opened again.
pub fn serve_from<S: Start>(rt: &HostRuntime, path: &str, start: S, port: u16, count: u32) -> Ending
    ensures served { IsUnopened ⟦<FileFrom<S> as Disk>⟧ S.Start result
        ⊎ AtADesk S.Start (Serves ⟦<FileFrom<S> as Disk>⟧ count result) }
    ensures done { IfOk result.work (λ outcome. outcome ≡ WorkOutcome.Done) }
    ensures named { IfErr result.work (IsRow (λ refusal.
        IsOpeningRefusal refusal ⊎ IsServingRefusal refusal)) }
    ensures first { IfErr result.work (λ fault. IsOfOpening fault.refusal → result.closing ≡ None) }
    ensures closing { IfSome result.closing (IsRow IsClosingRefusal) }
    ensures let_go { IfErr result.work (λ fault. IsLasting fault.refusal → result.closing ≡ None) }
{
    match Routes::new(rt.alloc()) {
        Ok(routes) => {
            let connections = Connections {
                routes: &routes,
                port,
                count,
            };
            on_desk(rt, path, start, CacheSize::ToGrow, connections, &mut ())
        }
        Err(_) => Ending::without_desk(Refusal::NoMemory),
    }
}
