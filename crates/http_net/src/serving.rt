//! Connections, one after another.
ghost use Rattle.std.specs.Prelude.{◌≡◌, IfErr, IsErrOf};
ghost use Rattle.http_net.specs.Faults.{IsServingRefusal};
ghost use Rattle.http_net.specs.Turns.{ServesInTurn};
ghost use Rattle.http_net.specs.Wire.{IsOneRequest};

use crate::connection::serve_stream;
use crate::peers::Peers;
use crate::served::ending_refusal;
use base::Refusal;
use desk_exports::AnswersCalls;
use http_exchange::{HttpFault, Served};
use http_requests::Routes;
use std::alloc::Global;
use std::net::{Ipv4Addr, Net, SocketAddr, SocketAddrV4, TcpListener, TcpStream};
use std::time::Clock;

/// Listens at this port of 127.0.0.1, and nowhere else. Read: the port isn't available.
pub fn listen<N: Net<Listener = TcpListener, Stream = TcpStream>>(
    net: &N,
    port: u16,
) -> Result<TcpListener, Refusal>
    ensures { IfErr result (λ refusal. refusal ≡ Refusal.Read) }
{
    let home = SocketAddr::V4(SocketAddrV4::new(Ipv4Addr::new(127, 0, 0, 1), port));
    match TcpListener::bind(net, home) {
        Ok(listener) => Ok(listener),
        Err(_) => Err(Refusal::Read),
    }
}

/// The peers that connect to a listener, each with the deadlines of this clock.
#[derive(Drop)]
struct Callers<'l, C> {
    listener: &'l TcpListener,
    clock: &'l C,
    routes: &'l Routes,
}

impl<'l, C: Clock, D: AnswersCalls> Peers<D> for Callers<'l, C> {
    ghost serves = { λ _. IsOneRequest D.shows D.clean D.failed D.leaves };

    fn serve_next(&self, alloc: Global, desk: &mut D) -> Option<Result<Served, HttpFault>> {
        match self.listener.accept() {
            Ok((stream, _)) => Some(serve_stream(alloc, self.clock, self.routes, desk, &stream)),
            Err(_) => None,
        }
    }
}

/// Serves `count` peers, one after another, unless one of them ends the program first.
fn serve_peers<D: AnswersCalls, P: Peers<D>>(
    alloc: Global,
    desk: &mut D,
    peers: &P,
    count: u32,
) -> Result<(), Refusal>
    ensures in_turn { ServesInTurn (P.serves peers.now) count desk.old desk.new result }
    ensures named { IfErr result IsServingRefusal }
    ensures before { D.clean desk.new → D.clean desk.old }
    ensures poisons { IsErrOf result Refusal.Store → D.failed desk.new }
    ensures closed { D.failed desk.old → desk.new ≡ desk.old }
{
    for _ in 0..count {
        let Some(served) = peers.serve_next(alloc, desk) else {
            return Err(Refusal::Read);
        };
        match ending_refusal(served) {
            Some(refusal) => return Err(refusal),
            None => {}
        }
    }
    Ok(())
}

/// Serves `count` connections, one request each, one after another. A fault of one connection ends
/// that connection only. By the clock a peer has 30 seconds for its request, one more for each 64
/// KiB that arrived, and as long to take the response; then its connection is closed. Takes memory
/// for each.
///
/// Read: a connection couldn't be accepted. Store, Reopen: that response was written, and the desk
/// must be opened again.
pub fn serve<C: Clock, D: AnswersCalls>(
    alloc: Global,
    clock: &C,
    routes: &Routes,
    desk: &mut D,
    listener: &TcpListener,
    count: u32,
) -> Result<(), Refusal>
    ensures in_turn { ServesInTurn (IsOneRequest D.shows D.clean D.failed D.leaves) count
        desk.old desk.new result }
    ensures named { IfErr result IsServingRefusal }
    ensures before { D.clean desk.new → D.clean desk.old }
    ensures poisons { IsErrOf result Refusal.Store → D.failed desk.new }
    ensures closed { D.failed desk.old → desk.new ≡ desk.old }
{
    let callers = Callers {
        listener,
        clock,
        routes,
    };
    serve_peers(alloc, desk, &callers, count)
}
