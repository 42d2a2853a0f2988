//! Desks made, and opened again.
use super::*;

/// A desk without calls in the connection's store, or the refusal and the connection.
fn make<S: Alter + Drop>(
    alloc: Global,
    conn: Connection<S>,
) -> Result<Desk<S>, (Refusal, Connection<S>)> {
    if !conn.is_autocommit() {
        return Err((Refusal::Reopen, conn));
    }
    Desk::create(alloc, conn, &Guid::from([7; 16]))
}

/// The desk in the connection's store, or the refusal and the connection.
fn open<S: Alter + Drop>(
    alloc: Global,
    conn: Connection<S>,
) -> Result<Desk<S>, (Refusal, Connection<S>)> {
    if !conn.is_autocommit() {
        return Err((Refusal::Reopen, conn));
    }
    Desk::open(alloc, conn)
}

/// The desk that is made in the connection's store, if it is.
pub(super) fn made<S: Alter + Drop>(alloc: Global, conn: Connection<S>) -> Option<Desk<S>> {
    make(alloc, conn).ok()
}

/// The desk that is opened in the connection's store, if it is.
pub(super) fn opened<S: Alter + Drop>(alloc: Global, conn: Connection<S>) -> Option<Desk<S>> {
    open(alloc, conn).ok()
}

/// The first text of the answer to a SELECT; nothing for any other text in SQL, which is executed.
pub(super) fn run<S: Alter + Drop>(
    alloc: Global,
    conn: &mut Connection<S>,
    text: &str,
) -> Option<String> {
    if text.starts_with("SELECT ") {
        conn.query_row(text, &[]).ok()?.get(0).ok()
    } else {
        conn.execute(text, &[]).ok()?;
        Some(String::new(alloc))
    }
}

/// Runs each text of a script.
fn run_each<S: Alter + Drop>(alloc: Global, conn: &mut Connection<S>, script: &str) -> Option<()> {
    for text in script.lines() {
        run(alloc, conn, text)?;
    }
    Some(())
}

/// A desk without calls in the connection's store, beside what a script makes.
pub(super) fn made_beside<S: Alter + Drop>(
    alloc: Global,
    conn: Connection<S>,
    script: &str,
) -> Option<Desk<S>> {
    let mut conn = conn;
    run_each(alloc, &mut conn, script)?;
    made(alloc, conn)
}
