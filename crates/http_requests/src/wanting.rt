//! Checks of a head, in their order.
ghost use Rattle.std.specs.Prelude.{◌≡◌, ℕ, List};
ghost use Rattle.httparse.specs.Grammar.{ReadsRequest, RequestHead};
ghost use Rattle.http_requests.specs.heads.Fields.{parts_of};
ghost use Rattle.http_requests.specs.heads.Fields as parts;
ghost use Rattle.http_requests.specs.CheckedHead as spec;

use crate::fields::checked_fields;
use crate::{CheckedHead, Head, ParsedHead, Route, Routes, WantedFault};

/// The length of the route's body, where this one is announced.
fn size(route: Route, length: Option<u64>) -> Result<usize, WantedFault>
    ensures { result ≡ spec.size_of route length }
{
    match (route, length) {
        (Route::Get(_), None | Some(0)) => Ok(0),
        (Route::Get(_), Some(_)) => Err(WantedFault::BadField),
        (Route::Post(_), None) => Err(WantedFault::LengthNeeded),
        (Route::Post(route), Some(length)) if length <= route.limit() => Ok(length as usize),
        (Route::Post(_), Some(_)) => Err(WantedFault::TooLarge),
    }
}

/// What the parts of a head ask for.
fn check_parts<'b>(routes: &Routes, head: &Head<'b>) -> Result<CheckedHead<'b>, WantedFault>
    ensures { spec.Gives (spec.wanted_of (parts.shown head.now)) result }
{
    let fields = checked_fields(head)?;
    let Some(resource) = routes.resource_of(head.target) else {
        return Err(WantedFault::NoRoute);
    };
    let Some(route) = resource.route(head.method) else {
        return Err(WantedFault::BadMethod(resource.methods()));
    };
    let size = size(route, fields.length)?;
    Ok(CheckedHead {
        route,
        size,
        part: route.part(head.target.as_bytes()),
        token: fields.token,
        key: fields.key,
        title: fields.title,
        stamp: fields.stamp,
        if_match: head.if_match,
    })
}

/// What a head requests, or the first check that fails, in this order: no Transfer-Encoding; each
/// field that counts comes once at most and Content-Length has 1 to 10 digits; the target is a path
/// of the table, whose minutes and parts of lists have a number of 1 to 7 digits without a leading
/// zero, and whose requests by a digest have 64 hexadecimal digits; the path has the method; POST
/// has a Content-Length and GET has none above 0; the length is within the route's limit. It doesn't
/// check the caller.
pub fn check_head<'b>(routes: &Routes, head: &'b ParsedHead) -> Result<CheckedHead<'b>, WantedFault>
    ensures { (h : RequestHead) (rest : List ℕ) → ReadsRequest head.now h rest
        → spec.Gives (spec.wanted_of (parts_of h)) result }
{
    check_parts(routes, &head.parts())
}
