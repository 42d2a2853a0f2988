//! The entity tags of If-Match.
use super::heads::parsed;
use base::Digest;
use http_requests::{ParsedHead, Route, Routes, check_head, tag_asked};
use std::alloc::Global;
use std::test::Fail;
use testing::bytes_of;

/// Heads of commands and other posts, each after what its If-Match asks for: a digest, `-` for
/// none, or the name of a refusal.
const TAGS: &str = r#"- POST /requests/12/review HTTP/1.1|Content-Length: 0||
0123456789abcdef0123456789abcdef0123456789abcdef0123456789abcdef POST /requests/12/review HTTP/1.1|Content-Length: 0|If-Match: "0123456789abcdef0123456789abcdef0123456789abcdef0123456789abcdef"||
BadField POST /requests/12/review HTTP/1.1|Content-Length: 0|If-Match: *||
BadField POST /requests/12/review HTTP/1.1|Content-Length: 0|If-Match: "0123456789abcdef0123456789abcdef0123456789abcdef0123456789abcdef"|If-Match: "0123456789abcdef0123456789abcdef0123456789abcdef0123456789abcdef"||
- POST /requests/12/withdraw HTTP/1.1|Content-Length: 0||
0123456789abcdef0123456789abcdef0123456789abcdef0123456789abcdef POST /requests/12/withdraw HTTP/1.1|Content-Length: 0|If-Match: "0123456789abcdef0123456789abcdef0123456789abcdef0123456789abcdef"||
BadField POST /requests/12/withdraw HTTP/1.1|Content-Length: 0|If-Match: *||
BadField POST /requests/12/withdraw HTTP/1.1|Content-Length: 0|If-Match: "0123456789abcdef0123456789abcdef0123456789abcdef0123456789abcdef"|If-Match: "0123456789abcdef0123456789abcdef0123456789abcdef0123456789abcdef"||
- POST /requests/12/return HTTP/1.1|Content-Length: 0||
0123456789abcdef0123456789abcdef0123456789abcdef0123456789abcdef POST /requests/12/return HTTP/1.1|Content-Length: 0|If-Match: "0123456789abcdef0123456789abcdef0123456789abcdef0123456789abcdef"||
BadField POST /requests/12/return HTTP/1.1|Content-Length: 0|If-Match: *||
BadField POST /requests/12/return HTTP/1.1|Content-Length: 0|If-Match: "0123456789abcdef0123456789abcdef0123456789abcdef0123456789abcdef"|If-Match: "0123456789abcdef0123456789abcdef0123456789abcdef0123456789abcdef"||
- POST /proposals/12/confirm HTTP/1.1|Content-Length: 0||
0123456789abcdef0123456789abcdef0123456789abcdef0123456789abcdef POST /proposals/12/confirm HTTP/1.1|Content-Length: 0|If-Match: "0123456789abcdef0123456789abcdef0123456789abcdef0123456789abcdef"||
BadField POST /proposals/12/confirm HTTP/1.1|Content-Length: 0|If-Match: *||
BadField POST /proposals/12/confirm HTTP/1.1|Content-Length: 0|If-Match: "0123456789abcdef0123456789abcdef0123456789abcdef0123456789abcdef"|If-Match: "0123456789abcdef0123456789abcdef0123456789abcdef0123456789abcdef"||
- POST /proposals/12/drop HTTP/1.1|Content-Length: 0||
0123456789abcdef0123456789abcdef0123456789abcdef0123456789abcdef POST /proposals/12/drop HTTP/1.1|Content-Length: 0|If-Match: "0123456789abcdef0123456789abcdef0123456789abcdef0123456789abcdef"||
BadField POST /proposals/12/drop HTTP/1.1|Content-Length: 0|If-Match: *||
BadField POST /proposals/12/drop HTTP/1.1|Content-Length: 0|If-Match: "0123456789abcdef0123456789abcdef0123456789abcdef0123456789abcdef"|If-Match: "0123456789abcdef0123456789abcdef0123456789abcdef0123456789abcdef"||
- POST /proposals/12/explain HTTP/1.1|Content-Length: 0||
0123456789abcdef0123456789abcdef0123456789abcdef0123456789abcdef POST /proposals/12/explain HTTP/1.1|Content-Length: 0|If-Match: "0123456789abcdef0123456789abcdef0123456789abcdef0123456789abcdef"||
BadField POST /proposals/12/explain HTTP/1.1|Content-Length: 0|If-Match: *||
BadField POST /proposals/12/explain HTTP/1.1|Content-Length: 0|If-Match: "0123456789abcdef0123456789abcdef0123456789abcdef0123456789abcdef"|If-Match: "0123456789abcdef0123456789abcdef0123456789abcdef0123456789abcdef"||
0123456789abcdef0123456789abcdef0123456789abcdef0123456789abcdef POST /proposals/12/confirm HTTP/1.1|Content-Length: 0|if-match:  "0123456789abcdef0123456789abcdef0123456789abcdef0123456789abcdef"  ||
BadField POST /proposals/12/confirm HTTP/1.1|Content-Length: 0|If-Match:||
BadField POST /proposals/12/confirm HTTP/1.1|Content-Length: 0|If-Match: ""||
BadField POST /proposals/12/confirm HTTP/1.1|Content-Length: 0|If-Match: 0123456789abcdef0123456789abcdef0123456789abcdef0123456789abcdef||
BadField POST /proposals/12/confirm HTTP/1.1|Content-Length: 0|If-Match: '0123456789abcdef0123456789abcdef0123456789abcdef0123456789abcdef'||
BadField POST /proposals/12/confirm HTTP/1.1|Content-Length: 0|If-Match: W/"0123456789abcdef0123456789abcdef0123456789abcdef0123456789abcdef"||
BadField POST /proposals/12/confirm HTTP/1.1|Content-Length: 0|If-Match: "0123456789ABCDEF0123456789ABCDEF0123456789ABCDEF0123456789ABCDEF"||
BadField POST /proposals/12/confirm HTTP/1.1|Content-Length: 0|If-Match: "0123456789abcdef0123456789abcdef0123456789abcdef0123456789abcdef||
BadField POST /proposals/12/confirm HTTP/1.1|Content-Length: 0|If-Match: 0123456789abcdef0123456789abcdef0123456789abcdef0123456789abcdef"||
BadField POST /proposals/12/confirm HTTP/1.1|Content-Length: 0|If-Match: "0123456789abcdef0123456789abcdef0123456789abcdef0123456789abcde"||
BadField POST /proposals/12/confirm HTTP/1.1|Content-Length: 0|If-Match: "0123456789abcdef0123456789abcdef0123456789abcdef0123456789abcdef0"||
BadField POST /proposals/12/confirm HTTP/1.1|Content-Length: 0|If-Match: "0123456789abcdef0123456789abcdef0123456789abcdef0123456789abcd"||
BadField POST /proposals/12/confirm HTTP/1.1|Content-Length: 0|If-Match: "0123456789abcdef0123456789abcdef0123456789abcdef0123456789abcdef", "0123456789abcdef0123456789abcdef0123456789abcdef0123456789abcdef"||
BadField POST /proposals/12/confirm HTTP/1.1|Content-Length: 0|If-Match: "0123456789abcdef0123456789abcdef0123456789abcdef0123456789abcdeg"||
BadField POST /proposals/12/confirm HTTP/1.1|Content-Length: 0|If-Match: " 0123456789abcdef0123456789abcdef0123456789abcdef0123456789abcde"||
BadField POST /proposals/12/confirm HTTP/1.1|Content-Length: 0|If-Match: "0123456789abcdef0123456789abcdef0123456789abcdef0123456789abcdef" x||
BadField POST /proposals/12/confirm HTTP/1.1|Content-Length: 0|If-Match: "0123456789abcdef0123456789abcdef0123456789abcdef0123456789abcdef""||
BadField POST /proposals/12/confirm HTTP/1.1|Content-Length: 0|If-Match: ""0123456789abcdef0123456789abcdef0123456789abcdef0123456789abcdef"||
BadField POST /proposals/12/confirm HTTP/1.1|Content-Length: 0|If-Match: "0123456789abcdef0123456789abcdef0123456789abcdef0123456789abcdef"|IF-MATCH: *||
- POST /requests HTTP/1.1|Content-Length: 0|If-Match: *||
- POST /verdict HTTP/1.1|Content-Length: 0|If-Match: *||
- POST /facts HTTP/1.1|Content-Length: 0|If-Match: *||
- POST /db/certificates HTTP/1.1|Content-Length: 0|If-Match: *||
- POST /db/digests HTTP/1.1|Content-Length: 0|If-Match: *||
- POST /db/unlist HTTP/1.1|Content-Length: 0|If-Match: *||
- POST /dbx/digests HTTP/1.1|Content-Length: 0|If-Match: *||
- POST /dbx/certificates HTTP/1.1|Content-Length: 0|If-Match: *||
- POST /level HTTP/1.1|Content-Length: 0|If-Match: *||
- POST /imports/dbx HTTP/1.1|Content-Length: 0|If-Match: *||
- POST /imports/csv HTTP/1.1|Content-Length: 0|If-Match: *||
- POST /imports/level HTTP/1.1|Content-Length: 0|If-Match: *||
- POST /level HTTP/1.1|Content-Length: 0|If-Match: "0123456789abcdef0123456789abcdef0123456789abcdef0123456789abcdef"||
- POST /level HTTP/1.1|Content-Length: 0|If-Match: "0123456789abcdef0123456789abcdef0123456789abcdef0123456789abcdef"|If-Match: "0123456789abcdef0123456789abcdef0123456789abcdef0123456789abcdef"||
"#;

/// The text of an asked tag.
fn text_of(alloc: Global, tag: Option<Digest>) -> Result<String, Fail> {
    match tag {
        Some(digest) => Ok(digest.to_string(alloc)?),
        None => Ok(String::from_str(alloc, "-")?),
    }
}

/// What the head of a post asks for by its If-Match.
fn told(alloc: Global, routes: &Routes, head: &ParsedHead) -> Result<String, Fail> {
    let wanted = check_head(routes, head).ok().ok_or("what it asks for")?;
    let Route::Post(route) = wanted.route else {
        return Ok(String::from_str(alloc, "a read")?);
    };
    match tag_asked(route, &wanted) {
        Ok(tag) => text_of(alloc, tag),
        Err(fault) => Ok(String::from_str(alloc, fault.refusal().name())?),
    }
}

/// Whether the line's head asks for what its first word says.
fn is_told(alloc: Global, routes: &Routes, line: &str) -> Result<bool, Fail> {
    let (wanted, head) = line.split_once(' ').ok_or("a tag and a head")?;
    let bytes = bytes_of(alloc, head)?;
    let head = parsed(alloc, bytes.as_slice()).ok_or("a head")?;
    Ok(told(alloc, routes, &head)?.as_str() == wanted)
}

#[test]
fn takes_one_tag_at_routes_of_a_number(rt: HostRuntime) -> Result<(), Fail> {
    let alloc = rt.alloc();
    let routes = Routes::new(alloc)?;
    for line in TAGS.lines() {
        assert!(rt; is_told(alloc, &routes, line)?, "{line}");
    }
    Ok(())
}
