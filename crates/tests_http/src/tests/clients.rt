//! Clients of a listener, in the process that serves them. They connect and send all of their bytes
//! before the first is served: the listener's backlog holds them.
use std::io;
use std::io::{Read, Write};
use std::net::{Shutdown, TcpListener, TcpStream};
use std::test::Fail;
use testing::bytes_of;

/// A client that has sent nothing yet.
pub(super) fn connected(rt: &HostRuntime, listener: &TcpListener) -> io::Result<TcpStream> {
    TcpStream::connect(rt, listener.local_addr()?)
}

/// A client that sent the bytes of this line, and ended its side.
pub(super) fn client(
    rt: &HostRuntime,
    listener: &TcpListener,
    line: &str,
) -> Result<TcpStream, Fail> {
    let bytes = bytes_of(rt.alloc(), line)?;
    let mut stream = connected(rt, listener)?;
    stream.write_all(bytes.as_slice())?;
    stream.shutdown(Shutdown::Write)?;
    Ok(stream)
}

/// Clients that sent the bytes of the first line of each row, one after another.
pub(super) fn clients(
    rt: &HostRuntime,
    listener: &TcpListener,
    rows: &[(&str, &str)],
) -> Result<Vec<TcpStream>, Fail> {
    let mut clients = Vec::new(rt.alloc());
    for (sent, _) in rows {
        clients.push(client(rt, listener, *sent)?)?;
    }
    Ok(clients)
}

/// How many of the clients, from the first on, got the second line of their row.
pub(super) fn got_each(
    rt: &HostRuntime,
    clients: &mut [TcpStream],
    rows: &[(&str, &str)],
) -> Result<usize, Fail> {
    for (place, (_, due)) in rows.iter().enumerate() {
        match clients.get_mut(place) {
            Some(client) => {
                if !got(rt, client, *due)? {
                    return Ok(place);
                }
            }
            None => return Ok(place),
        }
    }
    Ok(rows.len())
}

/// Whether all that came to the client is the bytes of this line.
pub(super) fn got(rt: &HostRuntime, client: &mut TcpStream, line: &str) -> Result<bool, Fail> {
    let wanted = bytes_of(rt.alloc(), line)?;
    let mut came = Vec::new(rt.alloc());
    client.read_to_end(&mut came)?;
    Ok(came.as_slice() == wanted.as_slice())
}
