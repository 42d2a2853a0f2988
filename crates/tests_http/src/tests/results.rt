//! Results of `serve_one`.
use super::serving::served;
use http_exchange::{Answered, HttpFault, Said, Served};
use http_responses::{Outage, Refused, Status};
use std::alloc::Global;
use std::io::ErrorKind;
use std::test::Fail;
use testing::{Narrow, Slow, bytes_of};
use testing_desk::{Failing, StandIn};

/// A request for the level.
const LEVEL: &str = "GET /level HTTP/1.1|Desk-Token: olga-token-000001||";

/// A command under which the store fails.
const STORE: &str =
    "POST /requests/1/withdraw HTTP/1.1|Desk-Token: olga-token-000001|Desk-Key: store|Content-Length: 0||";

/// The result for a response of this status that says this.
fn answered(status: Status, said: Said) -> Result<Served, HttpFault> {
    Ok(Served::Answered(Answered { status, said }))
}

/// The next result of the desk, for an input.
fn next(alloc: Global, desk: &mut StandIn, input: &[u8]) -> Result<Served, HttpFault> {
    let mut reader = input;
    let mut writer = Vec::new(alloc);
    served(alloc, desk, &mut reader, &mut writer)
}

/// Whether a desk that has had no call gives this result for the line's bytes.
fn is_result(alloc: Global, line: &str, due: Result<Served, HttpFault>) -> Result<bool, Fail> {
    let input = bytes_of(alloc, line)?;
    let mut desk = StandIn::new(alloc);
    Ok(next(alloc, &mut desk, input.as_slice()) == due)
}

#[test]
fn tells_what_was_served(rt: HostRuntime) -> Result<(), Fail> {
    let level = answered(Status::Ok, Said::Given);
    assert!(rt; is_result(rt.alloc(), LEVEL, level)?, "a level");
    let cut = answered(Status::BadRequest, Said::Refused(Refused::BadHead));
    assert!(rt;
        is_result(rt.alloc(), "GET", cut)?,
        "a head that is cut short"
    );
    let nothing = Ok(Served::Nothing);
    assert!(rt; is_result(rt.alloc(), "", nothing)?, "no byte");
    Ok(())
}

/// The result for the input where the seventh read fails, and whether nothing went out.
fn with_a_failing_read(alloc: Global, input: &[u8]) -> (Result<Served, HttpFault>, bool) {
    let mut desk = StandIn::new(alloc);
    let mut reader = Slow {
        rest: input,
        most: 1,
        calls: 0,
        fails_at: 7,
    };
    let mut writer = Vec::new(alloc);
    let served = served(alloc, &mut desk, &mut reader, &mut writer);
    (served, writer.is_empty())
}

#[test]
fn tells_that_a_read_fails(rt: HostRuntime) -> Result<(), Fail> {
    let input = bytes_of(rt.alloc(), LEVEL)?;
    let (served, is_silent) = with_a_failing_read(rt.alloc(), input.as_slice());
    assert!(rt; served == Err(HttpFault::Read), "a read");
    assert!(rt; is_silent, "nothing went out");
    Ok(())
}

/// The beginning of a response.
const BEGUN: &str = "HTTP/1.1 200 OK|Content-Type: t";

/// The result for the input where the third write of 16 bytes fails, and what went out.
fn with_a_failing_write(alloc: Global, input: &[u8]) -> (Result<Served, HttpFault>, Vec<u8>) {
    let mut desk = StandIn::new(alloc);
    let mut reader = input;
    let mut writer = Narrow {
        taken: Vec::new(alloc),
        most: 16,
        calls: 0,
        fails_at: 3,
        kind: ErrorKind::Interrupted,
    };
    let served = served(alloc, &mut desk, &mut reader, &mut writer);
    (served, writer.taken)
}

/// The same for a request for the level, and whether what went out is a beginning of the response.
fn level_with_a_failing_write(alloc: Global) -> Result<(Result<Served, HttpFault>, bool), Fail> {
    let input = bytes_of(alloc, LEVEL)?;
    let begun = bytes_of(alloc, BEGUN)?;
    let (served, taken) = with_a_failing_write(alloc, input.as_slice());
    Ok((served, taken.as_slice() == begun.as_slice()))
}

#[test]
fn tells_that_a_write_fails(rt: HostRuntime) -> Result<(), Fail> {
    let (served, is_begun) = level_with_a_failing_write(rt.alloc())?;
    assert!(rt; served == Err(HttpFault::Write), "a write");
    assert!(rt; is_begun, "a beginning went out");
    Ok(())
}

/// The results of one desk for the command under which the store fails, a read, and the command
/// again.
fn with_a_failing_store(
    alloc: Global,
    store: &[u8],
    level: &[u8],
) -> [Result<Served, HttpFault>; 3] {
    let mut desk = StandIn::new(alloc);
    let failed = next(alloc, &mut desk, store);
    let after = next(alloc, &mut desk, level);
    let again = next(alloc, &mut desk, store);
    [failed, after, again]
}

/// The result for a response of this outage.
fn unavailable(outage: Outage) -> Result<Served, HttpFault> {
    answered(Status::ServiceUnavailable, Said::Unavailable(outage))
}

#[test]
fn tells_that_the_desk_failed_before(rt: HostRuntime) -> Result<(), Fail> {
    let store = bytes_of(rt.alloc(), STORE)?;
    let level = bytes_of(rt.alloc(), LEVEL)?;
    let [failed, after, again] = with_a_failing_store(
        rt.alloc(),
        store.as_slice(),
        level.as_slice(),
    );
    assert!(rt; failed == unavailable(Outage::Store), "Store");
    assert!(rt; after == unavailable(Outage::Reopen), "Reopen");
    assert!(rt; again == unavailable(Outage::Reopen), "Reopen again");
    Ok(())
}

/// The result of a desk of three calls for a command under which its store fails, and the number of
/// calls that it then keeps.
fn kept_by_a_failing_store(
    alloc: Global,
    input: &[u8],
) -> Result<(Result<Served, HttpFault>, u64), Fail> {
    let mut desk = Failing::new(alloc, 3).ok_or("a desk")?;
    let mut reader = input;
    let mut writer = Vec::new(alloc);
    let served = served(alloc, &mut desk, &mut reader, &mut writer);
    Ok((served, desk.calls))
}

#[test]
fn keeps_its_calls_where_the_store_fails(rt: HostRuntime) -> Result<(), Fail> {
    let store = bytes_of(rt.alloc(), STORE)?;
    let (served, calls) = kept_by_a_failing_store(rt.alloc(), store.as_slice())?;
    assert!(rt; served == unavailable(Outage::Store), "Store");
    assert!(rt; calls == 3, "three calls");
    Ok(())
}
