//! The lines of days: `WHO KEY VERB .. : ANSWER` is a call that the desk's view for it decides
//! first, `alone ..` one without a view, `lists WHO` shows the requests. `requests WHO NUMBER`
//! shows how many there are from that number on, the first and the last, `with WHO DIGEST` the same
//! of those with a digest, `proposals WHO NUMBER` the proposals from there on, `waits WHO` the
//! numbers of requests that wait, and then the proposals, and `changes WHO` the number that tells of
//! changes. A digest is shown by its first byte. After `reopen`, and after a line in capitals, which
//! is SQL for the store under the desk, it is opened again.

/// Requests, reviews, returns and listings, and the requests that people are shown. The certificate
/// is 204, the image 160; 161 is another.
pub(super) const REQUESTS: &str = "\
console p1 add ann submitter 1 : added ann
console p2 add rita reviewer 2 : added rita
console p3 add raul reviewer 3 : added raul
console p4 add rosa reviewer 4 : added rosa
console p5 add sid signer 5 : added sid
console p6 add olga officer 6 : added olga
console p7 add otto officer 7 : added otto
eve a1 list 1 : UnknownCaller
ann a1 submit shim 160 160 0 0 : submitted 1
ann a1 submit shim 160 160 0 0 : submitted 1
ann a1 submit grub 160 160 0 0 : KeyReused
ann a2 yes 1 : NotYourRole
rita r1 yes 1 looked : reviewed 1 open
rita r2 yes 1 : AlreadyReviewed
raul r1 yes 1 : reviewed 1 approved
rosa r1 yes 1 : WrongState
rita r2 submit shim 162 162 2 171 170 2 shim 4 grub 3 : submitted 2
rita r3 yes 2 : OwnRequest
rosa r1 no 2 : reviewed 2 rejected
ann a2 withdraw 2 : NoSuchRequest
sid s1 return 1 160 160 1 204 0 : NotListed
olga o1 list-certificate 204 : listed
olga o2 list-certificate 204 : AlreadyListed
sid s1 return 1 161 161 1 204 0 : DigestDiffers
reopen
sid s1 return 1 160 160 1 204 0 : returned 1
sid s2 return 1 160 160 1 204 0 : WrongState
lists ann : 1 ann shim signed 1024 8 240 160 160 raul yes rita yes looked returned 1024 240 160;
lists rita : 1 ann shim signed 1024 8 240 160 160 raul yes rita yes looked returned 1024 240 160; \
2 rita shim rejected 1024 8 240 162 162 certificate 170 certificate 171 component shim 4 component grub 3 rosa no;
olga o2 revoke-certificate 204 : proposed 1
otto t1 confirm 1 : confirmed 1 0 1 0 0
olga o3 unlist-certificate 204 : unlisted
olga o4 revoke-certificate 204 : AlreadyRevoked
olga o4 unlist-certificate 204 : NotThere
ann a2 submit shim 160 160 0 0 : submitted 3
ann a3 withdraw 3 : withdrawn 3
olga o4 revoke 160 : proposed 2
reopen
otto t2 confirm 2 : confirmed 2 1 0 0 0
ann a4 submit shim 160 160 0 0 : Revoked
reopen
sid s1 return 1 160 160 1 204 0 : returned 1
olga o5 list 33 : listed
olga o6 unlist 33 : unlisted";

/// What one officer proposes and another confirms or drops: digests, certificates, levels, imports.
pub(super) const PROPOSALS: &str = "\
console p1 add ann submitter 1 : added ann
console p2 add olga officer 2 : added olga
console p3 add otto officer 3 : added otto
console p4 add olga officer 4 : NameTaken
console p4 add rita reviewer 2 : NameTaken
olga o1 revoke 187 : proposed 1
olga o2 revoke 187 : proposed 2
olga o3 confirm 1 : OwnProposal
ann a1 confirm 1 : NotYourRole
otto t1 confirm 1 : confirmed 1 1 0 0 0
otto t2 confirm 1 : ProposalClosed
otto t2 confirm 3 : NoSuchProposal
reopen
otto t2 confirm 2 : AlreadyRevoked
olga o3 drop 2 : dropped 2
olga o3 drop 2 : dropped 2
otto t2 drop 2 : ProposalClosed
ann a1 drop 2 : NotYourRole
otto t2 drop 3 : NoSuchProposal
otto t2 explain 3 found : NoSuchProposal
ann a1 explain 2 found : NotYourRole
otto t6 explain 2 found : explained 2
reopen
otto t6 explain 2 found : explained 2
otto t6 explain 1 found : KeyReused
olga o10 explain 1 found : explained 1
otto t2 drop 2 : ProposalClosed
olga o4 revoke 187 : AlreadyRevoked
olga o4 raise grub 3 2024010100 : proposed 3
olga o5 raise grub 4 2024010101 : proposed 4
otto t2 confirm 4 : confirmed 4 0 0 1 0
otto t3 confirm 3 : NotHigher
olga o6 raise grub 4 2024010102 : NotHigher
olga o6 raise sbat 2 2024010102 : NotHigher
olga o6 raise grub 5 2024010101 : StampNotLater
reopen
olga o6 import 0 1 1 170 1 204 0 : proposed 5
olga o7 revoke-certificate 204 : proposed 6
otto t3 confirm 5 : confirmed 5 1 1 0 1
otto t4 confirm 6 : AlreadyRevoked
olga o8 revoke-certificate 204 : AlreadyRevoked
olga o8 import 0 0 1 171 0 2 grub 4 shim 2 : StampNotLater
olga o8 import 2024010102 0 1 171 0 2 grub 4 shim 2 : proposed 7
otto t4 confirm 7 : confirmed 7 1 0 1 0
olga o9 import 0 0 1 171 0 2 grub 4 shim 2 : proposed 8
otto t5 confirm 8 : confirmed 8 0 0 0 0
reopen
olga o8 import 2024010102 0 1 171 0 2 grub 4 shim 2 : proposed 7
ann a1 submit shim 170 34 0 0 : Revoked
ann a1 submit shim 32 32 1 204 0 : Revoked
ann a1 submit shim 32 32 0 2 shim 2 grub 3 : Revoked
ann a1 submit shim 32 32 0 2 shim 2 grub 4 : submitted 1";

/// What waits for each role, as the day goes on, and the number that tells of changes.
pub(super) const WAITING: &str = "\
console p1 add ann submitter 1 : added ann
console p2 add rita reviewer 2 : added rita
console p3 add raul reviewer 3 : added raul
console p4 add sid signer 4 : added sid
console p5 add olga officer 5 : added olga
console p6 add otto officer 6 : added otto
console p7 add abe submitter 7 : added abe
waits ann : and
waits olga : and
waits eve : UnknownCaller
changes ann : 0
changes rita : 7
changes eve : UnknownCaller
ann a1 submit shim 160 160 0 0 : submitted 1
rita r1 submit shim 161 161 0 0 : submitted 2
abe b1 submit shim 162 162 0 0 : submitted 3
waits ann : 1 and
waits abe : 3 and
waits rita : 1 2 3 and
waits raul : 1 2 3 and
waits sid : and
waits olga : and
changes ann : 1
changes abe : 1
changes rita : 10
raul q1 yes 1 : reviewed 1 open
waits raul : 2 3 and
waits rita : 1 2 3 and
changes ann : 2
changes abe : 1
rita r2 yes 1 : reviewed 1 approved
raul q2 no 3 : reviewed 3 rejected
waits ann : 1 and
waits abe : and
waits rita : 2 and
waits raul : 2 and
waits sid : 1 and
changes ann : 3
changes abe : 2
rita r3 withdraw 2 : withdrawn 2
waits rita : and
waits raul : and
olga o1 list-certificate 204 : listed
sid s1 return 1 160 160 1 204 0 : returned 1
waits sid : and
waits ann : and
changes ann : 5
ann a2 submit shim 163 163 0 0 : submitted 4
ann a3 withdraw 4 : withdrawn 4
changes ann : 7
changes abe : 2
changes sid : 18
olga o2 revoke 170 : proposed 1
otto t1 import 0 0 1 171 1 204 0 : proposed 2
olga o3 revoke 172 : proposed 3
waits olga : and 2 otto
waits otto : and 1 olga 3 olga
waits ann : and
changes ann : 7
changes otto : 21
otto t2 confirm 1 : confirmed 1 1 0 0 0
olga o4 drop 2 : dropped 2
reopen
waits olga : and
waits otto : and 3 olga
proposals olga 0 : 1 olga 2 otto 3 olga
proposals olga 1 : 1 olga 2 otto 3 olga
proposals otto 2 : 2 otto 3 olga
proposals otto 4 : 
proposals otto 18446744073709551615 : 
proposals ann 1 : NotYourRole
proposals eve 1 : UnknownCaller
requests ann 0 : 2 1 4
requests ann 2 : 1 4 4
requests abe 1 : 1 3 3
requests abe 4 : 0
requests sid 1 : 4 1 4
requests olga 3 : 2 3 4
requests olga 5 : 0
requests eve 1 : UnknownCaller";

/// Requests by each digest that they may have. Each file is 240 until its column is changed; then
/// only the returned file is, and at last only its image.
pub(super) const SEARCHES: &str = "\
console p1 add ann submitter 1 : added ann
console p2 add abe submitter 2 : added abe
console p3 add rita reviewer 3 : added rita
console p4 add raul reviewer 4 : added raul
console p5 add sid signer 5 : added sid
console p6 add olga officer 6 : added olga
with rita 160 : 0
ann a1 submit shim 160 161 1 170 0 : submitted 1
abe b1 submit grub 162 160 2 170 171 0 : submitted 2
ann a2 submit shim 163 163 0 0 : submitted 3
with rita 160 : 2 1 2
with rita 161 : 1 1 1
with rita 162 : 1 2 2
with rita 163 : 1 3 3
with rita 170 : 2 1 2
with rita 171 : 1 2 2
with rita 240 : 3 1 3
with rita 99 : 0
with ann 160 : 1 1 1
with ann 240 : 2 1 3
with ann 171 : 0
with abe 160 : 1 2 2
with abe 161 : 0
with eve 160 : UnknownCaller
rita r1 yes 1 : reviewed 1 open
raul q1 yes 1 : reviewed 1 approved
olga o1 list-certificate 204 : listed
sid s1 return 1 161 161 1 204 0 : returned 1
with sid 161 : 1 1 1
with sid 204 : 0
UPDATE requests SET file = digest
with sid 240 : 1 1 1
with ann 240 : 1 1 1
with abe 240 : 0
UPDATE returns SET digest = file, file = digest
with sid 240 : 1 1 1
with abe 240 : 0";

/// A part holds 1,000 requests: the others stand in the next one. So many are shown of those with a
/// digest, too.
pub(super) const PARTS: &str = "\
console p1 add ann submitter 1 : added ann
console p2 add abe submitter 2 : added abe
console p3 add rita reviewer 3 : added rita
ann a1 submit shim 160 160 0 0 : submitted 1
INSERT INTO requests WITH RECURSIVE n (i) AS (SELECT 2 UNION ALL SELECT i + 1 FROM n WHERE i < 1000) SELECT i, submitter, title, length, gap, file, digest, signing, state FROM n, requests WHERE no = 1
requests rita 1 : 1000 1 1000
abe b1 submit shim 161 161 0 0 : submitted 1001
requests rita 1 : 1000 1 1000
requests rita 2 : 1000 2 1001
requests rita 1001 : 1 1001 1001
requests rita 1002 : 0
requests rita 18446744073709551615 : 0
requests ann 1001 : 0
requests abe 1 : 1 1001 1001
with rita 240 : 1000 1 1000
with rita 161 : 1 1001 1001
with abe 240 : 1 1001 1001";

/// A row that no desk writes: a call that needs it is `Store`, then each is `Reopen`, and nothing
/// was changed.
pub(super) const SPOILT: &str = "\
console p1 add ann officer 1 : added ann
ann a1 list 1 : listed
UPDATE people SET role = 'king'
alone ann a2 list 2 : Store
console p2 add rita reviewer 2 : Reopen
lists ann : Reopen
reopen
ann a2 list 2 : Store
UPDATE people SET role = 'officer'
ann a2 list 2 : listed";
