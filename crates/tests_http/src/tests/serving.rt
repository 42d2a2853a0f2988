//! The service of an input.
use desk_exports::AnswersCalls;
use http_exchange::{HttpFault, RequestReader, Served, serve_one};
use http_requests::Routes;
use std::alloc::Global;
use std::io::{Read, Write};
use std::test::Fail;
use testing::bytes_of;
use testing_desk::StandIn;

/// The result of `serve_one` with this desk.
pub(super) fn served<D: AnswersCalls, R: Read, W: Write>(
    alloc: Global,
    desk: &mut D,
    reader: &mut R,
    writer: &mut W,
) -> Result<Served, HttpFault> {
    match Routes::new(alloc) {
        Ok(routes) => serve_one(
            alloc,
            &routes,
            desk,
            reader,
            &mut RequestReader::new(),
            writer,
        ),
        Err(_) => Err(HttpFault::NoMemory),
    }
}

/// Whether the input gets this response, and a desk this call.
fn is_served(alloc: Global, input: &[u8], asked: &str, response: &[u8]) -> bool {
    let mut desk = StandIn::new(alloc);
    let mut reader = input;
    let mut writer = Vec::new(alloc);
    let served = served(alloc, &mut desk, &mut reader, &mut writer);
    served.is_ok() && desk.asked.as_str() == asked && writer.as_slice() == response
}

/// Whether the row's request gets its response, and the desk its call.
pub(super) fn answers(alloc: Global, row: &str) -> Result<bool, Fail> {
    let (request, rest) = row.split_once(" => ").ok_or("a request")?;
    let (asked, response) = rest.split_once(" => ").ok_or("a response")?;
    let input = bytes_of(alloc, request)?;
    let wanted = bytes_of(alloc, response)?;
    Ok(is_served(alloc, input.as_slice(), asked, wanted.as_slice()))
}
