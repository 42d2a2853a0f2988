//! Requests that are refused before the desk is called.
use super::serving::answers;
use std::test::Fail;

/// Requests and the responses, in the order of the checks. Each fails a later check too.
const CHECKS: &str =
    r#"GET /level HTTP/1.1|Transfer-Encoding: chunked =>  => HTTP/1.1 400 Bad Request|Content-Type: application/json|Content-Length: 31|Connection: close||{"name":"BadHead","refused":50}
GET /level|Transfer-Encoding: chunked|| =>  => HTTP/1.1 400 Bad Request|Content-Type: application/json|Content-Length: 31|Connection: close||{"name":"BadHead","refused":50}
GET /nowhere HTTP/1.1|Transfer-Encoding: chunked|Desk-Key: a|Desk-Key: a|| =>  => HTTP/1.1 501 Not Implemented|Content-Type: application/json|Content-Length: 36|Connection: close||{"name":"NotSupported","refused":57}
GET /nowhere HTTP/1.1|Desk-Key: a|Desk-Key: a|| =>  => HTTP/1.1 400 Bad Request|Content-Type: application/json|Content-Length: 32|Connection: close||{"name":"BadField","refused":51}
GET /nowhere HTTP/1.1|Content-Length: +1|| =>  => HTTP/1.1 400 Bad Request|Content-Type: application/json|Content-Length: 32|Connection: close||{"name":"BadField","refused":51}
PUT /nowhere HTTP/1.1|| =>  => HTTP/1.1 404 Not Found|Content-Type: application/json|Content-Length: 31|Connection: close||{"name":"NoRoute","refused":53}
GET /level?x HTTP/1.1|| =>  => HTTP/1.1 404 Not Found|Content-Type: application/json|Content-Length: 31|Connection: close||{"name":"NoRoute","refused":53}
PUT /level HTTP/1.1|Content-Length: 1|| =>  => HTTP/1.1 405 Method Not Allowed|Content-Type: application/json|Content-Length: 33|Allow: GET, POST|Connection: close||{"name":"BadMethod","refused":54}
GET /verdict HTTP/1.1|Content-Length: 1|| =>  => HTTP/1.1 405 Method Not Allowed|Content-Type: application/json|Content-Length: 33|Allow: POST|Connection: close||{"name":"BadMethod","refused":54}
POST /report HTTP/1.1|| =>  => HTTP/1.1 405 Method Not Allowed|Content-Type: application/json|Content-Length: 33|Allow: GET|Connection: close||{"name":"BadMethod","refused":54}
GET /minutes/x HTTP/1.1|Desk-Token: olga-token-000002|| =>  => HTTP/1.1 404 Not Found|Content-Type: application/json|Content-Length: 31|Connection: close||{"name":"NoRoute","refused":53}
GET /minutes/012 HTTP/1.1|Desk-Token: olga-token-000001|| =>  => HTTP/1.1 404 Not Found|Content-Type: application/json|Content-Length: 31|Connection: close||{"name":"NoRoute","refused":53}
POST /minutes/12345678 HTTP/1.1|Desk-Token: olga-token-000001|| =>  => HTTP/1.1 404 Not Found|Content-Type: application/json|Content-Length: 31|Connection: close||{"name":"NoRoute","refused":53}
POST /minutes/1 HTTP/1.1|| =>  => HTTP/1.1 405 Method Not Allowed|Content-Type: application/json|Content-Length: 33|Allow: GET|Connection: close||{"name":"BadMethod","refused":54}
GET /requests/from/x HTTP/1.1|Desk-Token: olga-token-000002|| =>  => HTTP/1.1 404 Not Found|Content-Type: application/json|Content-Length: 31|Connection: close||{"name":"NoRoute","refused":53}
POST /requests/from/012 HTTP/1.1|Desk-Token: olga-token-000001|| =>  => HTTP/1.1 404 Not Found|Content-Type: application/json|Content-Length: 31|Connection: close||{"name":"NoRoute","refused":53}
POST /requests/from/review HTTP/1.1|Desk-Token: olga-token-000001|Desk-Key: k1|Content-Length: 2||{} =>  => HTTP/1.1 404 Not Found|Content-Type: application/json|Content-Length: 31|Connection: close||{"name":"NoRoute","refused":53}
GET /requests/with/aaaaaaaaaaaaaaaaaaaaaaaaaaaaaaaaaaaaaaaaaaaaaaaaaaaaaaaaaaaaaaa HTTP/1.1|Desk-Token: olga-token-000002|| =>  => HTTP/1.1 404 Not Found|Content-Type: application/json|Content-Length: 31|Connection: close||{"name":"NoRoute","refused":53}
GET /requests/with/aaaaaaaaaaaaaaaaaaaaaaaaaaaaaaaaaaaaaaaaaaaaaaaaaaaaaaaaaaaaaaaaa HTTP/1.1|Desk-Token: olga-token-000001|| =>  => HTTP/1.1 404 Not Found|Content-Type: application/json|Content-Length: 31|Connection: close||{"name":"NoRoute","refused":53}
GET /requests/with/aaaaaaaaaaaaaaaaaaaaaaaaaaaaaaaaaaaaaaaaaaaaaaaaaaaaaaaaaaaaaaax HTTP/1.1|Desk-Token: olga-token-000001|| =>  => HTTP/1.1 404 Not Found|Content-Type: application/json|Content-Length: 31|Connection: close||{"name":"NoRoute","refused":53}
GET /requests/with/aaaaaaaaaaaaaaaaaaaaaaaaaaaaaaaaaaaaaaaaaaaaaaaaaaaaaaaaaaaaaa%61 HTTP/1.1|Desk-Token: olga-token-000001|| =>  => HTTP/1.1 404 Not Found|Content-Type: application/json|Content-Length: 31|Connection: close||{"name":"NoRoute","refused":53}
POST /requests/with/aaaaaaaaaaaaaaaaaaaaaaaaaaaaaaaaaaaaaaaaaaaaaaaaaaaaaaaaaaaaaaa HTTP/1.1|Desk-Token: olga-token-000001|| =>  => HTTP/1.1 404 Not Found|Content-Type: application/json|Content-Length: 31|Connection: close||{"name":"NoRoute","refused":53}
POST /requests/with/aaaaaaaaaaaaaaaaaaaaaaaaaaaaaaaaaaaaaaaaaaaaaaaaaaaaaaaaaaaaaaaa HTTP/1.1|Desk-Token: olga-token-000001|Content-Length: 0|| =>  => HTTP/1.1 405 Method Not Allowed|Content-Type: application/json|Content-Length: 33|Allow: GET|Connection: close||{"name":"BadMethod","refused":54}
GET /proposals/from/1/impact HTTP/1.1|Desk-Token: olga-token-000001|| =>  => HTTP/1.1 404 Not Found|Content-Type: application/json|Content-Length: 31|Connection: close||{"name":"NoRoute","refused":53}
POST /proposals/from/1 HTTP/1.1|Desk-Token: olga-token-000001|Content-Length: 0|| =>  => HTTP/1.1 405 Method Not Allowed|Content-Type: application/json|Content-Length: 33|Allow: GET|Connection: close||{"name":"BadMethod","refused":54}
POST /waiting HTTP/1.1|Desk-Token: olga-token-000001|Content-Length: 0|| =>  => HTTP/1.1 405 Method Not Allowed|Content-Type: application/json|Content-Length: 33|Allow: GET|Connection: close||{"name":"BadMethod","refused":54}
POST /changes HTTP/1.1|| =>  => HTTP/1.1 405 Method Not Allowed|Content-Type: application/json|Content-Length: 33|Allow: GET|Connection: close||{"name":"BadMethod","refused":54}
POST /people HTTP/1.1|Content-Length: 0|| =>  => HTTP/1.1 405 Method Not Allowed|Content-Type: application/json|Content-Length: 33|Allow: GET|Connection: close||{"name":"BadMethod","refused":54}
POST /proposals/x HTTP/1.1|| =>  => HTTP/1.1 405 Method Not Allowed|Content-Type: application/json|Content-Length: 33|Allow: GET|Connection: close||{"name":"BadMethod","refused":54}
POST /proposals/1/impact HTTP/1.1|Content-Length: 0|| =>  => HTTP/1.1 405 Method Not Allowed|Content-Type: application/json|Content-Length: 33|Allow: GET|Connection: close||{"name":"BadMethod","refused":54}
POST /me HTTP/1.1|Desk-Token: olga-token-000001|Content-Length: 0|| =>  => HTTP/1.1 405 Method Not Allowed|Content-Type: application/json|Content-Length: 33|Allow: GET|Connection: close||{"name":"BadMethod","refused":54}
GET /facts HTTP/1.1|Desk-Token: olga-token-000001|| =>  => HTTP/1.1 405 Method Not Allowed|Content-Type: application/json|Content-Length: 33|Allow: POST|Connection: close||{"name":"BadMethod","refused":54}
POST /facts HTTP/1.1|| =>  => HTTP/1.1 411 Length Required|Content-Type: application/json|Content-Length: 36|Connection: close||{"name":"LengthNeeded","refused":55}
POST /level HTTP/1.1|| =>  => HTTP/1.1 411 Length Required|Content-Type: application/json|Content-Length: 36|Connection: close||{"name":"LengthNeeded","refused":55}
GET /level HTTP/1.1|Content-Length: 1|| =>  => HTTP/1.1 400 Bad Request|Content-Type: application/json|Content-Length: 32|Connection: close||{"name":"BadField","refused":51}
GET /me HTTP/1.1|Content-Length: 1||x =>  => HTTP/1.1 400 Bad Request|Content-Type: application/json|Content-Length: 32|Connection: close||{"name":"BadField","refused":51}
POST /facts HTTP/1.1|Content-Length: 134217729|| =>  => HTTP/1.1 413 Payload Too Large|Content-Type: application/json|Content-Length: 32|Connection: close||{"name":"TooLarge","refused":56}
POST /verdict HTTP/1.1|Content-Length: 134217729|| =>  => HTTP/1.1 413 Payload Too Large|Content-Type: application/json|Content-Length: 32|Connection: close||{"name":"TooLarge","refused":56}
POST /level HTTP/1.1|Content-Length: 4194305|| =>  => HTTP/1.1 413 Payload Too Large|Content-Type: application/json|Content-Length: 32|Connection: close||{"name":"TooLarge","refused":56}
GET /level HTTP/1.1|| =>  => HTTP/1.1 401 Unauthorized|Content-Type: application/json|Content-Length: 37|WWW-Authenticate: Desk|Connection: close||{"name":"UnknownCaller","refused":20}
GET /level HTTP/1.1|Desk-Token: olga-token-000002|| =>  => HTTP/1.1 401 Unauthorized|Content-Type: application/json|Content-Length: 37|WWW-Authenticate: Desk|Connection: close||{"name":"UnknownCaller","refused":20}
POST /level HTTP/1.1|Content-Length: 9||{} =>  => HTTP/1.1 401 Unauthorized|Content-Type: application/json|Content-Length: 37|WWW-Authenticate: Desk|Connection: close||{"name":"UnknownCaller","refused":20}
GET /minutes/1 HTTP/1.1|| =>  => HTTP/1.1 401 Unauthorized|Content-Type: application/json|Content-Length: 37|WWW-Authenticate: Desk|Connection: close||{"name":"UnknownCaller","refused":20}
GET /people HTTP/1.1|Desk-Token: olga-token-000002|| =>  => HTTP/1.1 401 Unauthorized|Content-Type: application/json|Content-Length: 37|WWW-Authenticate: Desk|Connection: close||{"name":"UnknownCaller","refused":20}
GET /requests/from/1 HTTP/1.1|| =>  => HTTP/1.1 401 Unauthorized|Content-Type: application/json|Content-Length: 37|WWW-Authenticate: Desk|Connection: close||{"name":"UnknownCaller","refused":20}
GET /requests/with/aaaaaaaaaaaaaaaaaaaaaaaaaaaaaaaaaaaaaaaaaaaaaaaaaaaaaaaaaaaaaaaa HTTP/1.1|Desk-Token: olga-token-000002|| =>  => HTTP/1.1 401 Unauthorized|Content-Type: application/json|Content-Length: 37|WWW-Authenticate: Desk|Connection: close||{"name":"UnknownCaller","refused":20}
GET /waiting HTTP/1.1|Desk-Token: olga-token-000002|| =>  => HTTP/1.1 401 Unauthorized|Content-Type: application/json|Content-Length: 37|WWW-Authenticate: Desk|Connection: close||{"name":"UnknownCaller","refused":20}
GET /changes HTTP/1.1|Desk-Token: olga-token-000002|| =>  => HTTP/1.1 401 Unauthorized|Content-Type: application/json|Content-Length: 37|WWW-Authenticate: Desk|Connection: close||{"name":"UnknownCaller","refused":20}
GET /me HTTP/1.1|Desk-Token: olga-token-000002|| =>  => HTTP/1.1 401 Unauthorized|Content-Type: application/json|Content-Length: 37|WWW-Authenticate: Desk|Connection: close||{"name":"UnknownCaller","refused":20}
POST /facts HTTP/1.1|Content-Length: 3||MZ =>  => HTTP/1.1 401 Unauthorized|Content-Type: application/json|Content-Length: 37|WWW-Authenticate: Desk|Connection: close||{"name":"UnknownCaller","refused":20}
GET /proposals/x HTTP/1.1|| =>  => HTTP/1.1 401 Unauthorized|Content-Type: application/json|Content-Length: 37|WWW-Authenticate: Desk|Connection: close||{"name":"UnknownCaller","refused":20}
GET /requests/from HTTP/1.1|Desk-Token: olga-token-000001|| =>  => HTTP/1.1 404 Not Found|Content-Type: application/json|Content-Length: 37|Connection: close||{"name":"NoSuchRequest","refused":23}
GET /requests/with HTTP/1.1|Desk-Token: olga-token-000001|| =>  => HTTP/1.1 404 Not Found|Content-Type: application/json|Content-Length: 37|Connection: close||{"name":"NoSuchRequest","refused":23}
GET /proposals/07 HTTP/1.1|Desk-Token: olga-token-000001|| =>  => HTTP/1.1 404 Not Found|Content-Type: application/json|Content-Length: 38|Connection: close||{"name":"NoSuchProposal","refused":37}
GET /proposals/1000000/impact HTTP/1.1|Desk-Token: olga-token-000001|| =>  => HTTP/1.1 404 Not Found|Content-Type: application/json|Content-Length: 38|Connection: close||{"name":"NoSuchProposal","refused":37}
POST /level HTTP/1.1|Desk-Token: olga-token-000001|Content-Length: 3||{} =>  => HTTP/1.1 400 Bad Request|Content-Type: application/json|Content-Length: 31|Connection: close||{"name":"BadHead","refused":50}
POST /facts HTTP/1.1|Desk-Token: olga-token-000001|Content-Length: 3||MZ =>  => HTTP/1.1 400 Bad Request|Content-Type: application/json|Content-Length: 31|Connection: close||{"name":"BadHead","refused":50}
POST /requests HTTP/1.1|Desk-Token: olga-token-000001|Content-Length: 1025||@ =>  => HTTP/1.1 400 Bad Request|Content-Type: application/json|Content-Length: 31|Connection: close||{"name":"BadHead","refused":50}
POST /requests/07/review HTTP/1.1|Desk-Token: olga-token-000001|Content-Length: 2||{} =>  => HTTP/1.1 400 Bad Request|Content-Type: application/json|Content-Length: 32|Connection: close||{"name":"BadField","refused":51}
POST /requests HTTP/1.1|Desk-Token: olga-token-000001|Desk-Key: k1|Content-Length: 1024||@ =>  => HTTP/1.1 400 Bad Request|Content-Type: application/json|Content-Length: 32|Connection: close||{"name":"BadField","refused":51}
POST /imports/csv HTTP/1.1|Desk-Token: olga-token-000001|Desk-Key: k1|Desk-Stamp: 999999999|Content-Length: 1||x =>  => HTTP/1.1 400 Bad Request|Content-Type: application/json|Content-Length: 32|Connection: close||{"name":"BadField","refused":51}
POST /requests/07/review HTTP/1.1|Desk-Token: olga-token-000001|Desk-Key: k1|Content-Length: 2||{} =>  => HTTP/1.1 404 Not Found|Content-Type: application/json|Content-Length: 37|Connection: close||{"name":"NoSuchRequest","refused":23}
POST /proposals/07/confirm HTTP/1.1|Desk-Token: olga-token-000001|Content-Length: 0|| =>  => HTTP/1.1 400 Bad Request|Content-Type: application/json|Content-Length: 32|Connection: close||{"name":"BadField","refused":51}
POST /proposals/07/confirm HTTP/1.1|Desk-Token: olga-token-000001|Desk-Key: k1|Content-Length: 0|| =>  => HTTP/1.1 404 Not Found|Content-Type: application/json|Content-Length: 38|Connection: close||{"name":"NoSuchProposal","refused":37}
POST /requests/07/withdraw HTTP/1.1|Desk-Token: olga-token-000001|Desk-Key: k1|If-Match: *|Content-Length: 0|| =>  => HTTP/1.1 404 Not Found|Content-Type: application/json|Content-Length: 37|Connection: close||{"name":"NoSuchRequest","refused":23}
POST /requests/7/review HTTP/1.1|Desk-Token: olga-token-000001|Desk-Key: k1|If-Match: *|Content-Length: 2||{} =>  => HTTP/1.1 400 Bad Request|Content-Type: application/json|Content-Length: 32|Connection: close||{"name":"BadField","refused":51}
POST /requests/7/return HTTP/1.1|Desk-Token: olga-token-000001|Desk-Key: k1|If-Match: W/"aaaaaaaaaaaaaaaaaaaaaaaaaaaaaaaaaaaaaaaaaaaaaaaaaaaaaaaaaaaaaaaa"|Content-Length: 1024||@ =>  => HTTP/1.1 400 Bad Request|Content-Type: application/json|Content-Length: 32|Connection: close||{"name":"BadField","refused":51}
POST /proposals/7/confirm HTTP/1.1|Desk-Token: olga-token-000001|Desk-Key: k1|If-Match: "aaaaaaaaaaaaaaaaaaaaaaaaaaaaaaaaaaaaaaaaaaaaaaaaaaaaaaaaaaaaaaaa"|If-Match: "aaaaaaaaaaaaaaaaaaaaaaaaaaaaaaaaaaaaaaaaaaaaaaaaaaaaaaaaaaaaaaaa"|Content-Length: 0|| =>  => HTTP/1.1 400 Bad Request|Content-Type: application/json|Content-Length: 32|Connection: close||{"name":"BadField","refused":51}
POST /level HTTP/1.1|Desk-Token: olga-token-000001|Desk-Key: k1|Content-Length: 2||{} =>  => HTTP/1.1 422 Unprocessable Entity|Content-Type: application/json|Content-Length: 31|Connection: close||{"name":"BadBody","refused":52}
POST /level HTTP/1.1|Desk-Token: olga-token-000001|Desk-Key: k1|Content-Length: 4||sbat =>  => HTTP/1.1 422 Unprocessable Entity|Content-Type: application/json|Content-Length: 31|Connection: close||{"name":"BadBody","refused":52}
POST /proposals/7/explain HTTP/1.1|Desk-Token: olga-token-000001|Desk-Key: k1|Content-Length: 11||{"text":""} =>  => HTTP/1.1 422 Unprocessable Entity|Content-Type: application/json|Content-Length: 31|Connection: close||{"name":"BadBody","refused":52}
POST /db/certificates HTTP/1.1|Desk-Token: olga-token-000001|Desk-Key: k1|Content-Length: 14||30053003020101 =>  => HTTP/1.1 422 Unprocessable Entity|Content-Type: application/json|Content-Length: 27|Connection: close||{"name":"Der","refused":10}
POST /imports/csv HTTP/1.1|Desk-Token: olga-token-000001|Desk-Key: k1|Content-Length: 33||kind,value,generation~sbat,grub,~ =>  => HTTP/1.1 422 Unprocessable Entity|Content-Type: application/json|Content-Length: 37|Connection: close||{"at":1,"name":"CsvRow","refused":19}
POST /imports/dbx HTTP/1.1|Desk-Token: olga-token-000001|Desk-Key: k1|Content-Length: 1||~ =>  => HTTP/1.1 422 Unprocessable Entity|Content-Type: application/json|Content-Length: 35|Connection: close||{"at":0,"name":"List","refused":15}
POST /verdict HTTP/1.1|Desk-Token: olga-token-000001|Content-Length: 2||MZ =>  => HTTP/1.1 422 Unprocessable Entity|Content-Type: application/json|Content-Length: 28|Connection: close||{"name":"Short","refused":1}
POST /facts HTTP/1.1|Desk-Token: olga-token-000001|Content-Length: 2||MZ =>  => HTTP/1.1 422 Unprocessable Entity|Content-Type: application/json|Content-Length: 28|Connection: close||{"name":"Short","refused":1}
"#;

#[test]
fn answers_the_first_check_that_fails(rt: HostRuntime) -> Result<(), Fail> {
    let alloc = rt.alloc();
    for line in CHECKS.lines() {
        assert!(rt; answers(alloc, line)?, "{line}");
    }
    Ok(())
}
