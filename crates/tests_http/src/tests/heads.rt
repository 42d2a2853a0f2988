//! Requests by their heads.
use base::{Digest, Refusal, Watch};
use desk_exports::{Published, Reading};
use desk_types::{Command, ProposalNumber, RequestNumber};
use http_requests::{
    AskedFault, BytesAsked, CheckedHead, CommandAsked, HeadRead, ImageAsked, JsonAsked,
    KeyedCommand, ParsedHead, PostRoute, Route, Routes, check_head, command_asked, image_asked,
    read_asked, read_head,
};
use std::alloc::Global;
use std::test::Fail;
use testing::bytes_of;

/// Heads, each after the name of the first check that fails, or of the route. Of two faults the
/// earlier is named.
const HEADS: &str = "\
BadHead POST /nowhere HTTP/1.1|Transfer-Encoding: chunked|No Field: x||
BadHead GET /level HTTP/1.1|Desk-Token: a|Desk-Token: a|No Field: x||
BadHead PUT /level HTTP/1.1|No Field: x||
BadHead POST /verdict HTTP/1.1|No Field: x||
BadHead GET /level HTTP/1.1|Content-Length: 1|No Field: x||
BadHead POST /verdict HTTP/1.1|Content-Length: 134217729|No Field: x||
BadHead POST /level HTTP/1.1|Content-Length: 1|Desk-Key: a b|No Field: x||
BadHead GET /requests/007 HTTP/1.1|No Field: x||
BadHead GET /level HTTP/2.0||
BadHead GET /level||
BadHead GET  /level HTTP/1.1||
BadHead GET /level HTTP/1.1|Desk-Token : a||
BadHead GET /level HTTP/1.1| Desk-Token: a||
BadHead GET /level HTTP/1.1|
NotSupported GET /level HTTP/1.1|Transfer-Encoding: chunked||
NotSupported GET /level HTTP/1.1|Transfer-Encoding: a|Transfer-Encoding: b||
NotSupported GET /level HTTP/1.1|Transfer-Encoding:||
NotSupported POST /verdict HTTP/1.1|Transfer-Encoding: chunked|Content-Length: x||
NotSupported POST /nowhere HTTP/1.1|Transfer-Encoding: chunked|Content-Length: 1||
NotSupported PUT /verdict HTTP/1.1|Transfer-Encoding: chunked|Content-Length: 1||
NotSupported POST /verdict HTTP/1.1|Transfer-Encoding: chunked||
NotSupported GET /level HTTP/1.1|Transfer-Encoding: chunked|Content-Length: 1||
NotSupported POST /verdict HTTP/1.1|Transfer-Encoding: chunked|Content-Length: 134217729||
NotSupported POST /level HTTP/1.1|Transfer-Encoding: chunked|Content-Length: 1||
NotSupported GET /requests/x HTTP/1.1|Transfer-Encoding: chunked||
BadField POST /verdict HTTP/1.1|Content-Length: 1|Content-Length: 1||
BadField POST /verdict HTTP/1.1|Content-Length: 1|content-length: 2||
BadField GET /level HTTP/1.1|Desk-Token: a|Desk-Token: a||
BadField GET /level HTTP/1.1|Desk-Key: a|Desk-Key: b||
BadField GET /level HTTP/1.1|Desk-Title: a|Desk-Title: b||
BadField GET /level HTTP/1.1|Desk-Stamp: a|Desk-Stamp: b||
BadField POST /verdict HTTP/1.1|Content-Length:||
BadField POST /verdict HTTP/1.1|Content-Length: +1||
BadField POST /verdict HTTP/1.1|Content-Length: -1||
BadField POST /verdict HTTP/1.1|Content-Length: 1 1||
BadField POST /verdict HTTP/1.1|Content-Length: 1,1||
BadField POST /verdict HTTP/1.1|Content-Length: 0x1||
BadField POST /verdict HTTP/1.1|Content-Length: 00000000001||
BadField POST /nowhere HTTP/1.1|Content-Length: x||
BadField PUT /verdict HTTP/1.1|Content-Length: x||
BadField POST /verdict HTTP/1.1|Desk-Token: a|Desk-Token: a||
BadField POST /verdict HTTP/1.1|Content-Length: 134217729|Desk-Token: a|Desk-Token: a||
BadField POST /requests/x/review HTTP/1.1|Content-Length: 2|Desk-Key: a|Desk-Key: a||
BadField GET /level HTTP/1.1|Content-Length: 1|Content-Length: 1||
BadField POST /level HTTP/1.1|Content-Length: 1|Desk-Key: a b|Desk-Key: a b||
BadField POST /level HTTP/1.1|Content-Length: x|Desk-Key: a b||
NoRoute GET / HTTP/1.1||
NoRoute GET /level/ HTTP/1.1||
NoRoute GET /level?x HTTP/1.1||
NoRoute GET /LEVEL HTTP/1.1||
NoRoute GET /requests/ HTTP/1.1||
NoRoute POST /requests//review HTTP/1.1|Content-Length: 1||
NoRoute GET http://desk/level HTTP/1.1||
NoRoute OPTIONS * HTTP/1.1||
NoRoute PUT /nowhere HTTP/1.1||
NoRoute POST /nowhere HTTP/1.1||
NoRoute GET /nowhere HTTP/1.1|Content-Length: 1||
NoRoute POST /nowhere HTTP/1.1|Content-Length: 134217729||
NoRoute GET /requests/007/x HTTP/1.1||
NoRoute POST /requests/12/review/x HTTP/1.1|Content-Length: 1||
NoRoute GET /proposals/ HTTP/1.1||
NoRoute GET /proposals/12/ HTTP/1.1||
NoRoute GET /proposals/12/impact/ HTTP/1.1||
NoRoute GET /minutes HTTP/1.1||
NoRoute GET /minutes/ HTTP/1.1||
NoRoute GET /minutes/x HTTP/1.1||
NoRoute GET /minutes/0 HTTP/1.1||
NoRoute GET /minutes/012 HTTP/1.1||
NoRoute GET /minutes/+1 HTTP/1.1||
NoRoute GET /minutes/12345678 HTTP/1.1||
NoRoute POST /minutes/x HTTP/1.1||
NoRoute GET /minutes/1/2 HTTP/1.1||
NoRoute GET /requests/from/ HTTP/1.1||
NoRoute GET /requests/from/x HTTP/1.1||
NoRoute GET /requests/from/0 HTTP/1.1||
NoRoute GET /requests/from/012 HTTP/1.1||
NoRoute GET /requests/from/12345678 HTTP/1.1||
NoRoute POST /requests/from/review HTTP/1.1|Content-Length: 1|Desk-Key: k||
NoRoute GET /requests/from/1/review HTTP/1.1||
NoRoute POST /requests/from/1/review HTTP/1.1|Content-Length: 1|Desk-Key: k||
NoRoute GET /requests/1/from HTTP/1.1||
NoRoute GET /requests/with/ HTTP/1.1||
NoRoute GET /requests/with/1 HTTP/1.1||
NoRoute GET /requests/with/0123456789abcdef0123456789abcdef0123456789abcdef0123456789abcde HTTP/1.1||
NoRoute GET /requests/with/0123456789abcdef0123456789abcdef0123456789abcdef0123456789abcdef0 HTTP/1.1||
NoRoute GET /requests/with/0123456789abcdef0123456789abcdef0123456789abcdef0123456789abcdeg HTTP/1.1||
NoRoute GET /requests/with/0123456789abcdef0123456789abcdef0123456789abcdef0123456789abcd%66 HTTP/1.1||
NoRoute GET /requests/with/%300123456789abcdef0123456789abcdef0123456789abcdef0123456789abc HTTP/1.1||
NoRoute GET /requests/with/0123456789abcdef0123456789abcdef0123456789abcdef0123456789abcdef/ HTTP/1.1||
NoRoute GET /requests/with/0123456789abcdef0123456789abcdef0123456789abcdef0123456789abcdef?x HTTP/1.1||
NoRoute GET /requests/WITH/0123456789abcdef0123456789abcdef0123456789abcdef0123456789abcdef HTTP/1.1||
NoRoute GET /requests/from/0123456789abcdef0123456789abcdef0123456789abcdef0123456789abcdef HTTP/1.1||
NoRoute GET /proposals/with/0123456789abcdef0123456789abcdef0123456789abcdef0123456789abcdef HTTP/1.1||
NoRoute POST /requests/with/review HTTP/1.1|Content-Length: 1|Desk-Key: k||
NoRoute POST /requests/with/0123456789abcdef0123456789abcdef0123456789abcdef0123456789abcdef/review HTTP/1.1|Content-Length: 1|Desk-Key: k||
NoRoute POST /requests/with/0123456789abcdef0123456789abcdef0123456789abcdef0123456789abcde HTTP/1.1||
NoRoute GET /requests/1/with HTTP/1.1||
NoRoute GET /proposals/from/+1 HTTP/1.1||
NoRoute GET /proposals/from/impact HTTP/1.1||
NoRoute GET /proposals/from/1/impact HTTP/1.1||
NoRoute GET /waiting/ HTTP/1.1||
NoRoute GET /changes/1 HTTP/1.1||
NoRoute GET /people/ HTTP/1.1||
NoRoute GET /me/ HTTP/1.1||
NoRoute POST /facts/1 HTTP/1.1|Content-Length: 1||
NoRoute POST /proposals//confirm HTTP/1.1|Content-Length: 0||
BadMethod PUT /level HTTP/1.1||
BadMethod get /level HTTP/1.1||
BadMethod HEAD /level HTTP/1.1||
BadMethod POST /report HTTP/1.1|Content-Length: 1||
BadMethod GET /verdict HTTP/1.1||
BadMethod POST /report HTTP/1.1||
BadMethod GET /verdict HTTP/1.1|Content-Length: 1||
BadMethod PUT /verdict HTTP/1.1|Content-Length: 134217729||
BadMethod GET /imports/csv HTTP/1.1||
BadMethod GET /requests/x/review HTTP/1.1||
BadMethod POST /proposals HTTP/1.1||
BadMethod POST /proposals/12 HTTP/1.1||
BadMethod POST /proposals/x/impact HTTP/1.1||
BadMethod POST /minutes/1 HTTP/1.1||
BadMethod POST /requests/from/1 HTTP/1.1||
BadMethod POST /requests/with/0123456789abcdef0123456789abcdef0123456789abcdef0123456789abcdef HTTP/1.1||
BadMethod HEAD /requests/with/0123456789abcdef0123456789abcdef0123456789abcdef0123456789abcdef HTTP/1.1||
BadMethod POST /proposals/from/1 HTTP/1.1||
BadMethod POST /waiting HTTP/1.1||
BadMethod HEAD /changes HTTP/1.1||
BadMethod POST /people HTTP/1.1||
BadMethod POST /me HTTP/1.1||
BadMethod HEAD /me HTTP/1.1||
BadMethod GET /facts HTTP/1.1||
BadMethod HEAD /facts HTTP/1.1|Content-Length: 134217729||
BadMethod GET /proposals/x/confirm HTTP/1.1||
BadMethod GET /proposals/x/drop HTTP/1.1||
BadMethod GET /proposals/x/explain HTTP/1.1||
LengthNeeded POST /verdict HTTP/1.1||
LengthNeeded POST /facts HTTP/1.1||
LengthNeeded POST /level HTTP/1.1||
LengthNeeded POST /requests/x/review HTTP/1.1|Desk-Key: k||
LengthNeeded POST /proposals/x/confirm HTTP/1.1|Desk-Key: k||
LengthNeeded POST /proposals/x/drop HTTP/1.1||
LengthNeeded POST /proposals/x/explain HTTP/1.1||
BadField GET /level HTTP/1.1|Content-Length: 1||
BadField GET /requests/x HTTP/1.1|Content-Length: 9999999999||
BadField GET /proposals HTTP/1.1|Content-Length: 1||
BadField GET /me HTTP/1.1|Content-Length: 1||
BadField GET /waiting HTTP/1.1|Content-Length: 1||
BadField GET /requests/with/0123456789abcdef0123456789abcdef0123456789abcdef0123456789abcdef HTTP/1.1|Content-Length: 1||
TooLarge POST /verdict HTTP/1.1|Content-Length: 134217729||
TooLarge POST /facts HTTP/1.1|Content-Length: 134217729||
TooLarge POST /requests HTTP/1.1|Content-Length: 9999999999||
TooLarge POST /requests/1/return HTTP/1.1|Content-Length: 134217729||
TooLarge POST /level HTTP/1.1|Content-Length: 4194305||
TooLarge POST /imports/dbx HTTP/1.1|Content-Length: 134217728||
TooLarge POST /requests/x/withdraw HTTP/1.1|Content-Length: 4194305|Desk-Key: k||
TooLarge POST /proposals/x/confirm HTTP/1.1|Content-Length: 4194305||
TooLarge POST /proposals/x/drop HTTP/1.1|Content-Length: 4194305||
TooLarge POST /proposals/x/explain HTTP/1.1|Content-Length: 4194305||
BadField POST /level HTTP/1.1|Content-Length: 4194304||
BadField POST /requests HTTP/1.1|Content-Length: 1|Desk-Title: t||
BadField POST /requests HTTP/1.1|Content-Length: 1|Desk-Key: k||
BadField POST /requests HTTP/1.1|Content-Length: 1|Desk-Key: k|Desk-Title:  ||
BadField POST /requests HTTP/1.1|Content-Length: 1|Desk-Key: a b|Desk-Title: t||
BadField POST /imports/csv HTTP/1.1|Content-Length: 1|Desk-Key: k|Desk-Stamp: 202401010||
BadField POST /imports/csv HTTP/1.1|Content-Length: 1|Desk-Stamp: 2024010100||
BadField POST /imports/csv HTTP/1.1|Content-Length: 1|Desk-Key: k|Desk-Stamp:||
BadField POST /requests/x/review HTTP/1.1|Content-Length: 1||
BadField POST /proposals/x/confirm HTTP/1.1|Content-Length: 0||
BadField POST /proposals/0/drop HTTP/1.1|Content-Length: 0|Desk-Key: a b||
BadField POST /proposals/0/explain HTTP/1.1|Content-Length: 0||
NoSuchRequest POST /requests/x/review HTTP/1.1|Content-Length: 1|Desk-Key: k||
NoSuchRequest GET /requests/0 HTTP/1.1||
NoSuchRequest GET /requests/from HTTP/1.1||
NoSuchRequest GET /requests/with HTTP/1.1||
NoSuchRequest GET /requests/0123456789abcdef0123456789abcdef0123456789abcdef0123456789abcdef HTTP/1.1||
NoSuchRequest GET /requests/007 HTTP/1.1||
NoSuchRequest GET /requests/+7 HTTP/1.1||
NoSuchRequest GET /requests/1000000 HTTP/1.1||
NoSuchRequest GET /requests/%31 HTTP/1.1||
NoSuchRequest POST /requests/07/withdraw HTTP/1.1|Content-Length: 0|Desk-Key: k||
NoSuchProposal GET /proposals/x HTTP/1.1||
NoSuchProposal GET /proposals/from HTTP/1.1||
NoSuchProposal GET /proposals/012 HTTP/1.1||
NoSuchProposal GET /proposals/1000000 HTTP/1.1||
NoSuchProposal GET /proposals/confirm HTTP/1.1||
NoSuchProposal GET /proposals/0/impact HTTP/1.1||
NoSuchProposal GET /proposals/x/impact HTTP/1.1||
NoSuchProposal POST /proposals/x/confirm HTTP/1.1|Content-Length: 0|Desk-Key: k||
NoSuchProposal POST /proposals/0/confirm HTTP/1.1|Content-Length: 0|Desk-Key: k||
NoSuchProposal POST /proposals/07/confirm HTTP/1.1|Content-Length: 0|Desk-Key: k||
NoSuchProposal POST /proposals/1000000/drop HTTP/1.1|Content-Length: 0|Desk-Key: k||
NoSuchProposal POST /proposals/+1/drop HTTP/1.1|Content-Length: 0|Desk-Key: k||
NoSuchProposal POST /proposals/01/explain HTTP/1.1|Content-Length: 0|Desk-Key: k||
Submit POST /requests HTTP/1.1|Content-Length: 0134217728|Desk-Key: k|Desk-Title: t||
Requests GET /requests HTTP/1.1||
Request GET /requests/999999 HTTP/1.1||
RequestsFrom GET /requests/from/1 HTTP/1.1||
RequestsFrom GET /requests/from/9999999 HTTP/1.1||
RequestsWith GET /requests/with/0123456789abcdef0123456789abcdef0123456789abcdef0123456789abcdef HTTP/1.1||
RequestsWith GET /requests/with/0123456789ABCDEF0123456789ABCDEF0123456789ABCDEF0123456789ABCDEF HTTP/1.1||
RequestsWith GET /requests/with/0123456789abcdef0123456789abcdef0123456789abcdef0123456789ABCDEF HTTP/1.1|Content-Length: 0||
Review POST /requests/12/review HTTP/1.1|Content-Length: 4194304|Desk-Key: k||
Withdraw POST /requests/12/withdraw HTTP/1.1|Content-Length: 0|Desk-Key: k||
Return POST /requests/1/return HTTP/1.1|Content-Length: 134217728|Desk-Key: k||
ListCertificate POST /db/certificates HTTP/1.1|Content-Length: 1|Desk-Key: k||
ListDigest POST /db/digests HTTP/1.1|Content-Length: 1|Desk-Key: k||
Unlist POST /db/unlist HTTP/1.1|Content-Length: 1|Desk-Key: k||
RevokeDigest POST /dbx/digests HTTP/1.1|Content-Length: 1|Desk-Key: k||
RevokeCertificate POST /dbx/certificates HTTP/1.1|Content-Length: 1|Desk-Key: k||
RaiseLevel POST /level HTTP/1.1|Content-Length: 1|Desk-Key: k||
ImportDbx POST /imports/dbx HTTP/1.1|Content-Length: 1|Desk-Key: k||
ImportCsv POST /imports/csv HTTP/1.1|Content-Length: 1|Desk-Key: k||
ImportLevel POST /imports/level HTTP/1.1|Content-Length: 1|Desk-Key: k|Desk-Stamp: x||
Confirm POST /proposals/1/confirm HTTP/1.1|Content-Length: 4194304|Desk-Key: k||
Drop POST /proposals/999999/drop HTTP/1.1|Content-Length: 0|Desk-Key: k||
Explain POST /proposals/999999/explain HTTP/1.1|Content-Length: 4194304|Desk-Key: k||
Proposals GET /proposals HTTP/1.1||
Proposal GET /proposals/999999 HTTP/1.1||
Impact GET /proposals/1/impact HTTP/1.1||
ProposalsFrom GET /proposals/from/1 HTTP/1.1||
Waiting GET /waiting HTTP/1.1||
Changes GET /changes HTTP/1.1|Content-Length: 0||
Verdict POST /verdict HTTP/1.1|Content-Length: 134217728||
Facts POST /facts HTTP/1.1|Content-Length: 134217728|Desk-Key: a b||
Dbx GET /dbx HTTP/1.1|Content-Length: 0000000000||
Db GET /db HTTP/1.1|Desk-Key: a b||
Level GET /level HTTP/1.1|If-Match: *|If-Match: *||
Report GET /report HTTP/1.1||
Minutes GET /minutes/1 HTTP/1.1||
Minutes GET /minutes/9999999 HTTP/1.1||
People GET /people HTTP/1.1||
Me GET /me HTTP/1.1||
Level GET /level HTTP/1.0~~
Level ~|~GET /level HTTP/1.1~Host: desk~~
RaiseLevel POST /level HTTP/1.1|CONTENT-LENGTH:\t 7 \t|desk-key:k||
";

/// The request of a head.
#[derive(Drop)]
enum Asked {
    Read(Reading),
    Image(ImageAsked),
    Command(KeyedCommand),
}

/// The request of a head, by its route.
fn ask(alloc: Global, wanted: &CheckedHead<'_>) -> Result<Asked, AskedFault> {
    match wanted.route {
        Route::Get(route) => Ok(Asked::Read(read_asked(route, wanted)?)),
        Route::Post(PostRoute::Image(route)) => {
            Ok(Asked::Image(image_asked(alloc, route, wanted)?))
        }
        Route::Post(PostRoute::Command(route)) => {
            Ok(Asked::Command(command_asked(alloc, route, wanted)?))
        }
    }
}

/// The head that begins the bytes.
pub(super) fn parsed(alloc: Global, mut bytes: &[u8]) -> Option<ParsedHead> {
    match read_head(alloc, &mut bytes, &mut Watch::new()).ok()? {
        HeadRead::Head(head) => Some(head),
        HeadRead::Nothing | HeadRead::NoHead => None,
    }
}

/// The name of the first check that fails, or of the route.
fn outcome(alloc: Global, routes: &Routes, bytes: &[u8]) -> &'static str {
    let Some(head) = parsed(alloc, bytes) else {
        return Refusal::BadHead.name();
    };
    let wanted = match check_head(routes, &head) {
        Ok(wanted) => wanted,
        Err(fault) => return fault.refusal().name(),
    };
    match ask(alloc, &wanted) {
        Ok(Asked::Read(reading)) => name_of_reading(&reading),
        Ok(Asked::Image(asked)) => name_of_image(&asked),
        Ok(Asked::Command(keyed)) => name_of_command(&keyed.asked),
        Err(fault) => fault.refusal().name(),
    }
}

/// The name of a GET.
fn name_of_reading(reading: &Reading) -> &'static str {
    match reading {
        Reading::Requests => "Requests",
        Reading::RequestsFrom(_) => "RequestsFrom",
        Reading::RequestsWith(_) => "RequestsWith",
        Reading::Request(_) => "Request",
        Reading::Proposals => "Proposals",
        Reading::ProposalsFrom(_) => "ProposalsFrom",
        Reading::Proposal(_) => "Proposal",
        Reading::Impact(_) => "Impact",
        Reading::Waiting => "Waiting",
        Reading::Changes => "Changes",
        Reading::Export(Published::Dbx) => "Dbx",
        Reading::Export(Published::Db) => "Db",
        Reading::Export(Published::Level) => "Level",
        Reading::Report => "Report",
        Reading::Minutes(_) => "Minutes",
        Reading::People => "People",
        Reading::Me => "Me",
    }
}

/// The name of a request with an image.
fn name_of_image(asked: &ImageAsked) -> &'static str {
    match asked {
        ImageAsked::Submit(..) => "Submit",
        ImageAsked::Return(..) => "Return",
        ImageAsked::Verdict => "Verdict",
        ImageAsked::Facts => "Facts",
    }
}

/// The name of a command that needs nothing of its content.
fn name_of_whole(command: &Command) -> &'static str {
    match command {
        Command::Withdraw(_) => "Withdraw",
        Command::Confirm(_) => "Confirm",
        Command::Drop(_) => "Drop",
        Command::AddPerson(_)
        | Command::Submit(_)
        | Command::Review(_)
        | Command::Return(_)
        | Command::ListCertificate(_)
        | Command::ListDigest(_)
        | Command::Unlist(_)
        | Command::RevokeDigest(_)
        | Command::RevokeCertificate(_)
        | Command::RaiseLevel(_)
        | Command::ImportRevocations(_)
        | Command::Explain(_) => "a command with content",
    }
}

/// The name of a command.
fn name_of_command(asked: &CommandAsked) -> &'static str {
    match asked {
        CommandAsked::Whole(command) => name_of_whole(command),
        CommandAsked::Json(JsonAsked::Review(_)) => "Review",
        CommandAsked::Json(JsonAsked::ListDigest) => "ListDigest",
        CommandAsked::Json(JsonAsked::Unlist) => "Unlist",
        CommandAsked::Json(JsonAsked::RevokeDigest) => "RevokeDigest",
        CommandAsked::Json(JsonAsked::RevokeCertificate) => "RevokeCertificate",
        CommandAsked::Json(JsonAsked::RaiseLevel) => "RaiseLevel",
        CommandAsked::Json(JsonAsked::Explain(_)) => "Explain",
        CommandAsked::Bytes(BytesAsked::ListCertificate) => "ListCertificate",
        CommandAsked::Bytes(BytesAsked::ImportDbx) => "ImportDbx",
        CommandAsked::Bytes(BytesAsked::ImportCsv(_)) => "ImportCsv",
        CommandAsked::Bytes(BytesAsked::ImportLevel) => "ImportLevel",
    }
}

/// Whether the line's head has the outcome that its first word names.
fn is_told(alloc: Global, line: &str) -> Result<bool, Fail> {
    let (name, head) = line.split_once(' ').ok_or("a name and a head")?;
    let routes = Routes::new(alloc)?;
    let bytes = bytes_of(alloc, head)?;
    Ok(outcome(alloc, &routes, bytes.as_slice()) == name)
}

#[test]
fn tells_the_first_check_that_fails(rt: HostRuntime) -> Result<(), Fail> {
    for line in HEADS.lines() {
        assert!(rt; is_told(rt.alloc(), line)?, "{line}");
    }
    Ok(())
}

/// A head with each field except the title.
const CSV: &str = "POST /imports/csv HTTP/1.1|desk-KEY: k1\t|Content-Length: 0042|Desk-Token:  a b|\
Desk-Stamp: 2024010100||rest";

/// Whether the length is 42, the token `a b`, and there is no title.
fn told_values(wanted: &CheckedHead<'_>) -> [bool; 3] {
    let is_token = match wanted.token {
        Some(token) => token == b"a b".as_slice(),
        None => false,
    };
    [wanted.size == 42, is_token, wanted.title.is_none()]
}

/// Whether this head has its length, its token and no title.
fn csv_values(alloc: Global) -> Result<[bool; 3], Fail> {
    let routes = Routes::new(alloc)?;
    let bytes = bytes_of(alloc, CSV)?;
    let head = parsed(alloc, bytes.as_slice()).ok_or("a head")?;
    let wanted = check_head(&routes, &head).ok().ok_or("what it asks for")?;
    Ok(told_values(&wanted))
}

#[test]
fn gives_the_values_of_fields(rt: HostRuntime) -> Result<(), Fail> {
    let [is_length, is_token, has_no_title] = csv_values(rt.alloc())?;
    assert!(rt; is_length, "the length");
    assert!(rt; is_token, "the token");
    assert!(rt; has_no_title, "no title");
    Ok(())
}

/// The request of a head.
fn asked_by(alloc: Global, head: &str) -> Option<Asked> {
    let routes = Routes::new(alloc).ok()?;
    let bytes = bytes_of(alloc, head).ok()?;
    let head = parsed(alloc, bytes.as_slice())?;
    let wanted = check_head(&routes, &head).ok()?;
    ask(alloc, &wanted).ok()
}

/// Whether the command is an import of CSV with this stamp.
fn is_csv(asked: &CommandAsked, stamp: u64) -> bool {
    match asked {
        CommandAsked::Bytes(BytesAsked::ImportCsv(Some(found))) => found.value() == stamp,
        CommandAsked::Bytes(_) | CommandAsked::Json(_) | CommandAsked::Whole(_) => false,
    }
}

/// Whether this head requests an import of CSV with its key and stamp.
fn asks_for_csv(alloc: Global) -> bool {
    match asked_by(alloc, CSV) {
        Some(Asked::Command(keyed)) => {
            keyed.key.as_str() == "k1" && is_csv(&keyed.asked, 2_024_010_100)
        }
        Some(Asked::Read(_) | Asked::Image(_)) | None => false,
    }
}

/// A head with a title.
const TITLE: &str = "POST /requests HTTP/1.1|Desk-Key: k|Desk-Title: shim 15.8|Content-Length: 1||";

/// Whether the request is for a signature with this title.
fn is_titled(asked: &ImageAsked, title: &str) -> bool {
    match asked {
        ImageAsked::Submit(_, found) => found.as_str() == title,
        ImageAsked::Return(..) | ImageAsked::Verdict | ImageAsked::Facts => false,
    }
}

/// Whether this head requests a signature with its title.
fn asks_for_title(alloc: Global) -> bool {
    match asked_by(alloc, TITLE) {
        Some(Asked::Image(asked)) => is_titled(&asked, "shim 15.8"),
        Some(Asked::Read(_) | Asked::Command(_)) | None => false,
    }
}

/// The reading of the desk that is asked for.
fn read_of(asked: &Asked) -> Option<Reading> {
    match asked {
        Asked::Read(reading) => Some(*reading),
        Asked::Image(_) | Asked::Command(_) => None,
    }
}

/// The reading of the desk that a head asks for.
fn read_by(alloc: Global, head: &str) -> Option<Reading> {
    read_of(&asked_by(alloc, head)?)
}

/// Whether heads with a number ask for what has that number.
fn asks_for_number(alloc: Global) -> Option<bool> {
    let request = Reading::Request(RequestNumber::new(120)?);
    let proposal = Reading::Proposal(ProposalNumber::new(120)?);
    let impact = Reading::Impact(ProposalNumber::new(120)?);
    let minutes = Reading::Minutes(1_000_001);
    let requests = Reading::RequestsFrom(1_000_001);
    let proposals = Reading::ProposalsFrom(12);
    Some(
        read_by(alloc, "GET /requests/120 HTTP/1.1||") == Some(request)
            && read_by(alloc, "GET /proposals/120 HTTP/1.1||") == Some(proposal)
            && read_by(alloc, "GET /proposals/120/impact HTTP/1.1||") == Some(impact)
            && read_by(alloc, "GET /minutes/1000001 HTTP/1.1||") == Some(minutes)
            && read_by(alloc, "GET /requests/from/1000001 HTTP/1.1||") == Some(requests)
            && read_by(alloc, "GET /proposals/from/12 HTTP/1.1||") == Some(proposals),
    )
}

/// Whether the command confirms the proposal of this number.
fn is_confirmation(asked: &CommandAsked, number: u64) -> bool {
    match asked {
        CommandAsked::Whole(Command::Confirm(found)) => found.value() == number,
        CommandAsked::Whole(_) | CommandAsked::Json(_) | CommandAsked::Bytes(_) => false,
    }
}

/// Whether a head with a number confirms the proposal of that number.
fn asks_for_proposal(alloc: Global) -> bool {
    let head = "POST /proposals/120/confirm HTTP/1.1|Desk-Key: k1|Content-Length: 0||";
    match asked_by(alloc, head) {
        Some(Asked::Command(keyed)) => {
            keyed.key.as_str() == "k1" && is_confirmation(&keyed.asked, 120)
        }
        Some(Asked::Read(_) | Asked::Image(_)) | None => false,
    }
}

#[test]
fn gives_keys_stamps_titles_and_numbers(rt: HostRuntime) {
    assert!(rt; asks_for_csv(rt.alloc()), "a key and a stamp");
    assert!(rt; asks_for_title(rt.alloc()), "a title");
    assert!(rt; asks_for_number(rt.alloc()) == Some(true), "a number");
    assert!(rt; asks_for_proposal(rt.alloc()), "the number of a proposal");
}

/// A digest.
const DIGEST: [u8; 32] = [
    0x01, 0x23, 0x45, 0x67, 0x89, 0xab, 0xcd, 0xef, 0x01, 0x23, 0x45, 0x67, 0x89, 0xab, 0xcd, 0xef,
    0x01, 0x23, 0x45, 0x67, 0x89, 0xab, 0xcd, 0xef, 0xfe, 0xdc, 0xba, 0x98, 0x76, 0x54, 0x32, 0x10,
];

/// Heads with this digest, in lower and in upper case.
const WITH_DIGEST: &str = "\
GET /requests/with/0123456789abcdef0123456789abcdef0123456789abcdeffedcba9876543210 HTTP/1.1||
GET /requests/with/0123456789ABCDEF0123456789ABCDEF0123456789ABCDEFFEDCBA9876543210 HTTP/1.1||
";

/// Whether the head asks for the requests that have this digest.
fn asks_for_digest(alloc: Global, head: &str) -> bool {
    read_by(alloc, head) == Some(Reading::RequestsWith(Digest::from(DIGEST)))
}

#[test]
fn gives_a_digest_of_either_case(rt: HostRuntime) {
    for head in WITH_DIGEST.lines() {
        assert!(rt; asks_for_digest(rt.alloc(), head), "{head}");
    }
}
