//! `serve` and `listen` with clients.
use super::clients::{client, clients, connected, got, got_each};
use base::Refusal;
use http_net::{listen, serve};
use http_requests::Routes;
use std::io::ErrorKind;
use std::net::{Ipv4Addr, SocketAddr, SocketAddrV4, TcpListener, TcpStream};
use std::test::Fail;
use testing_desk::StandIn;

/// A request for the level.
const LEVEL: &str = "GET /level HTTP/1.1|Desk-Token: olga-token-000001||";

/// The due response to it.
const LEVEL_DUE: &str =
    "HTTP/1.1 200 OK|Content-Type: text/plain|Content-Length: 18|Connection: close||sbat,1,2021030218~";

/// A request for dbx.
const DBX: &str = "GET /dbx HTTP/1.1|Desk-Token: olga-token-000001||";

/// The due response to it.
const DBX_DUE: &str =
    "HTTP/1.1 200 OK|Content-Type: application/octet-stream|Content-Length: 4|Connection: close||~dbx";

/// A request for the report.
const REPORT: &str = "GET /report HTTP/1.1|Desk-Token: olga-token-000001||";

/// The due response to it.
const REPORT_DUE: &str =
    "HTTP/1.1 200 OK|Content-Type: text/plain|Content-Length: 9|Connection: close||people 1~";

/// Two commands, one after the other.
const TWO: &str =
    "POST /requests/7/withdraw HTTP/1.1|Desk-Token: olga-token-000001|Desk-Key: k1|Content-Length: 0||POST /requests/8/withdraw HTTP/1.1|Desk-Token: olga-token-000001|Desk-Key: k2|Content-Length: 0||";

/// The due response to the first.
const TWO_DUE: &str =
    r#"HTTP/1.1 200 OK|Content-Type: application/json|Content-Length: 33|Connection: close||{"reply":"withdrawn","request":7}"#;

/// A head that is cut short.
const CUT: &str = "GET /level";

/// The due response to it.
const CUT_DUE: &str =
    r#"HTTP/1.1 400 Bad Request|Content-Type: application/json|Content-Length: 31|Connection: close||{"name":"BadHead","refused":50}"#;

/// A command under which the store fails.
const STORE: &str =
    "POST /requests/1/withdraw HTTP/1.1|Desk-Token: olga-token-000001|Desk-Key: store|Content-Length: 0||";

/// The due response to it.
const STORE_DUE: &str =
    r#"HTTP/1.1 503 Service Unavailable|Content-Type: application/json|Content-Length: 29|Connection: close||{"name":"Store","refused":41}"#;

/// The due response to each request of a desk that has failed.
const REOPEN_DUE: &str =
    r#"HTTP/1.1 503 Service Unavailable|Content-Type: application/json|Content-Length: 30|Connection: close||{"name":"Reopen","refused":42}"#;

/// A listener at a free port.
fn anywhere(rt: &HostRuntime) -> Result<TcpListener, Fail> {
    match listen(rt, 0) {
        Ok(listener) => Ok(listener),
        Err(_) => Err(Fail::new("no port")),
    }
}

/// The result of `serve` with this desk for so many connections.
fn served(
    rt: &HostRuntime,
    desk: &mut StandIn,
    listener: &TcpListener,
    count: u32,
) -> Result<(), Refusal> {
    match Routes::new(rt.alloc()) {
        Ok(routes) => serve(rt.alloc(), rt, &routes, desk, listener, count),
        Err(_) => Err(Refusal::NoMemory),
    }
}

/// What came of connections.
#[derive(Drop)]
struct Outcome {
    served: Result<(), Refusal>,
    /// The calls that the desk got.
    asked: String,
    /// The number of clients, from the first on, that got the response due to them. If `serve`
    /// failed it is 0, and none is waited for.
    got: usize,
}

/// What comes of this many connections, where a client sends the first line of each row, and the
/// second is due to it.
fn outcome_of(
    rt: &HostRuntime,
    listener: &TcpListener,
    rows: &[(&str, &str)],
    count: u32,
) -> Result<Outcome, Fail> {
    let mut clients = clients(rt, listener, rows)?;
    let mut desk = StandIn::new(rt.alloc());
    let served = served(rt, &mut desk, listener, count);
    let got = match served {
        Ok(()) => got_each(rt, clients.as_mut_slice(), rows)?,
        Err(_) => 0,
    };
    let asked = desk.asked;
    Ok(Outcome { served, asked, got })
}

#[test]
fn serves_three_clients_in_their_order(rt: HostRuntime) -> Result<(), Fail> {
    let rows = [(LEVEL, LEVEL_DUE), (DBX, DBX_DUE), (REPORT, REPORT_DUE)];
    let listener = anywhere(&rt)?;
    let found = outcome_of(&rt, &listener, &rows, 3)?;
    assert!(rt; found.served == Ok(()), "three connections");
    assert!(rt; found.asked.as_str() == "level dbx report", "the order");
    assert!(rt; found.got > 0, "the first");
    assert!(rt; found.got > 1, "the second");
    assert!(rt; found.got == 3, "the third");
    Ok(())
}

#[test]
fn listens_at_one_address_alone(rt: HostRuntime) -> Result<(), Fail> {
    let listener = anywhere(&rt)?;
    let port = listener.local_addr()?.port();
    for (last, is_home) in [(1, true), (2, false)] {
        let there = SocketAddr::V4(SocketAddrV4::new(Ipv4Addr::new(127, 0, 0, last), port));
        let found = match TcpStream::connect(&rt, there) {
            Ok(_) => true,
            Err(e) => e.kind() != ErrorKind::ConnectionRefused,
        };
        assert!(rt; found == is_home, "127.0.0.{last}");
    }
    Ok(())
}

#[test]
fn acts_on_one_request_of_a_connection(rt: HostRuntime) -> Result<(), Fail> {
    let rows = [(TWO, TWO_DUE), (LEVEL, LEVEL_DUE)];
    let listener = anywhere(&rt)?;
    let found = outcome_of(&rt, &listener, &rows, 2)?;
    assert!(rt; found.served == Ok(()), "two connections");
    assert!(rt;
        found.asked.as_str() == "olga k1 withdraw 7 level",
        "one command"
    );
    assert!(rt; found.got > 0, "one response");
    assert!(rt; found.got == 2, "the next connection");
    Ok(())
}

#[test]
fn goes_on_after_a_connections_own_fault(rt: HostRuntime) -> Result<(), Fail> {
    let rows = [(CUT, CUT_DUE), (LEVEL, LEVEL_DUE)];
    let listener = anywhere(&rt)?;
    drop(connected(&rt, &listener)?);
    let found = outcome_of(&rt, &listener, &rows, 3)?;
    assert!(rt; found.served == Ok(()), "three connections");
    assert!(rt; found.asked.as_str() == "level", "one request");
    assert!(rt; found.got > 0, "no head");
    assert!(rt; found.got == 2, "the next connection");
    Ok(())
}

/// Whether `serve` ends with this refusal, and whether the client then has the response due to it.
fn ends(
    rt: &HostRuntime,
    desk: &mut StandIn,
    listener: &TcpListener,
    refusal: Refusal,
    client: &mut TcpStream,
    due: &str,
) -> Result<(bool, bool), Fail> {
    let is_end = served(rt, desk, listener, 3) == Err(refusal);
    Ok((is_end, is_end && got(rt, client, due)?))
}

/// The two ends of a desk whose store fails under the first of two clients.
fn two_ends(rt: &HostRuntime, listener: &TcpListener) -> Result<[(bool, bool); 2], Fail> {
    let mut one = client(rt, listener, STORE)?;
    let mut two = client(rt, listener, LEVEL)?;
    let mut desk = StandIn::new(rt.alloc());
    let failed = ends(rt, &mut desk, listener, Refusal::Store, &mut one, STORE_DUE)?;
    let closed = ends(
        rt,
        &mut desk,
        listener,
        Refusal::Reopen,
        &mut two,
        REOPEN_DUE,
    )?;
    Ok([failed, closed])
}

#[test]
fn ends_where_the_desk_has_failed(rt: HostRuntime) -> Result<(), Fail> {
    let listener = anywhere(&rt)?;
    let [(fails, is_told), (has_failed, is_next_told)] = two_ends(&rt, &listener)?;
    assert!(rt; fails, "the store fails");
    assert!(rt; is_told, "it is told");
    assert!(rt; has_failed, "the desk has failed");
    assert!(rt; is_next_told, "the next connection");
    Ok(())
}
