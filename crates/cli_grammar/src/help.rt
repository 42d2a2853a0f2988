//! The texts of help and of the version. The program's help groups the subcommands by purpose; each
//! subcommand's help has, after its arguments, its input and output, an example and its exit
//! statuses. A refusal has its number and name of docs/REFUSALS.md. checks/help.sh runs the
//! examples and compares these texts with that table.

/// The program's version, the newest of CHANGELOG.md, as checks/help.sh compares. The kit that
/// proved a program is in the record beside it.
pub const VERSION: &str = "0.2.0";

/// Each row begins the subcommand's own help.
pub const DESK: &str = "\
The Secure Boot signing and revocation desk

Usage: desk <COMMAND>

Make and keep a desk:
  init     Makes a desk without calls in a file
  person   Adds a person to a desk, with the token on standard input
  enrol    Adds a person to a desk, with the token's SHA-256 on standard input
  minutes  Prints the accepted calls of a desk
  follow   Makes a desk that follows the minutes of another, or goes on with it

Take requests:
  serve    Serves requests to a desk over HTTP, one connection after another
  answer   Answers one request to a desk, an HTTP request on standard input

Look at an image:
  facts    Prints the digests, certificates and SBAT components of an EFI image
  ranges   Prints the ranges of an EFI image that Authenticode hashes
  verdict  Prints whether a desk allows an EFI image, or why it refuses it

Look at a proposal:
  impact   Prints the images that the Confirm of a proposal would bar

Publish what a desk decided:
  db       Writes what a desk allows as signature lists (db)
  dbx      Writes what a desk has revoked as signature lists (dbx)
  shim     Writes what a desk has revoked in the form that shim reads
  level    Writes the SBAT level of a desk

Follow minutes without a desk:
  audit    Follows the minutes of a desk, and prints what its exports must be

Work on signature lists without a desk:
  list     Prints the place, kind and count of each signature list in a file
  pack     Packs the SHA-256 digests on standard input into a signature list

Ask for help:
  help     Prints this, or the help of the COMMAND that follows

Options:
  -h, --help     Print help
  -V, --version  Print version

Exit status: 0 done, 1 refused, 2 an argument is wrong, 3 a device failed";

pub const INIT: &str = "\
DB has to be missing, empty, or a database in which no table, index or view has
a name of the desk's: desk, people, calls, requests, request_certificates,
request_components, votes, returns, listed, revoked_digests,
revoked_certificates, components, proposals, proposal_items, migrated.
OWNER is the owner of every entry that the desk exports. Reads no input and
prints nothing.

Example:
  desk init desk.db 00112233-4455-6677-8899-aabbccddeeff

Exit status:
  0  the desk is made
  1  refused: 46 Exists, a table, an index or a view of DB has such a name
  2  an argument is missing or wrong
  3  a device failed: 45 File, DB can't be opened";

pub const PERSON: &str = "\
The token is the first line of standard input, 16 to 128 visible characters of
ASCII; the desk keeps its SHA-256 alone. With `enrol` nobody but its owner
knows the token. An officer lists entries alone; a revocation takes two
officers. KEY names the call: the same call under the same key is answered
again and changes nothing. Prints `added NAME`.

Example:
  desk person desk.db olga officer k1 < token.txt

Exit status:
  0  the person is added
  1  refused: 22 KeyReused, KEY named another call; 35 NameTaken, the name or
     the token is taken; 36 Full, the desk has as many people or calls as it
     may; 43 NotADesk, DB holds no desk; 44 Version, it holds one of another
     version
  2  an argument or the token is missing or wrong
  3  a device failed: 45 File, DB is missing or in use";

pub const ENROL: &str = "\
The first line of standard input is the SHA-256 of the token, 64 hexadecimal
digits, alone or followed by a space and anything, as sha256sum writes it. So
nobody but its owner knows the token, which has 16 to 128 visible characters of
ASCII; a desk can't check that here. KEY names the call, as for `person`, which
does the same with the token itself. Prints `added NAME`.

Example:
  desk enrol desk.db olga officer k1 < olga.sha256

Exit status:
  0  the person is added
  1  refused: 22 KeyReused, KEY named another call; 35 NameTaken, the name or
     the token is taken; 36 Full, the desk has as many people or calls as it
     may; 43 NotADesk, DB holds no desk; 44 Version, it holds one of another
     version
  2  an argument or the token's SHA-256 is missing or wrong
  3  a device failed: 45 File, DB is missing or in use";

pub const MINUTES: &str = "\
Prints a line for each call, the first call first: its number, caller, key,
text and reply, separated by tabs.

Example:
  desk minutes desk.db > minutes.txt

Exit status:
  0  the minutes are printed
  1  refused: 43 NotADesk, DB holds no desk; 44 Version, it holds one of another
     version
  2  an argument is missing or wrong
  3  a device failed: 45 File, DB is missing or in use";

pub const FOLLOW: &str = "\
FILE has minutes as `minutes` prints them. If DB is missing or has no table,
makes a desk of OWNER in it; otherwise the minutes of the desk in DB have to be
a beginning of FILE, or FILE a beginning of them. Follows the other lines of
FILE, one commit each: the number, caller, key, text and reply of each have to
be what the rules give. A run that was stopped is finished by the next. Prints
`calls N`, and with `minutes`, `dbx`, `db` and `level` the SHA-256 of what the
desk exports.

Example:
  desk follow standby.db 00112233-4455-6677-8899-aabbccddeeff minutes.txt

Exit status:
  0  the desk in DB has followed each line of FILE
  1  refused: 47 Minute, at the number of the first line that isn't that of the
     desk or what the rules give, or isn't whole; the lines before it are
     followed; 48 Owner, the desk in DB has another owner; 43 NotADesk, DB holds
     no desk; 44 Version, it holds one of another version. Refused or not, a file
     of version 1 is one of version 2 then
  2  an argument is missing or wrong
  3  a device failed: 45 File, DB or FILE can't be opened";

pub const SERVE: &str = "\
Takes COUNT connections at PORT of 127.0.0.1, one after another, and ends. It
reads one HTTP request of each and writes its response. A peer has 30 seconds
to send its request, and one more for each 64 KiB of it; then as long to take
the response. A fault of a connection ends that connection alone. Prints
nothing.

Example:
  desk serve desk.db 8080 1000

Exit status:
  0  COUNT connections are served, whatever the responses were
  1  refused: 43 NotADesk, DB holds no desk; 44 Version, it holds one of another
     version
  2  an argument is missing or wrong
  3  a device failed: 45 File, DB is missing or in use; 14 Read, PORT can't be
     opened; 41 Store or 42 Reopen, after the response that says so";

pub const ANSWER: &str = "\
Reads one HTTP request from standard input and writes to standard output the
response that `serve` would give. Empty input gets no response.

Example:
  desk answer desk.db < request.txt

Exit status:
  0  the request is answered, whatever the response is
  1  refused: 43 NotADesk, DB holds no desk; 44 Version, it holds one of another
     version
  2  an argument is missing or wrong
  3  a device failed: 45 File, DB is missing or in use; 41 Store or 42 Reopen,
     after the response that says so";

pub const FACTS: &str = "\
Prints a line for the length of FILE, for each of its digests, the gap, each
certificate and each component: what a desk keeps of the image. It keeps no
image.

Example:
  desk facts shimx64.efi

Exit status:
  0  the facts are printed
  1  refused: 1 Short to 13 TooLong, FILE is no EFI image that a desk takes
  2  an argument is missing or wrong
  3  a device failed: 45 File, FILE can't be opened";

pub const RANGES: &str = "\
Prints a line FROM-TO for each range, bytes FROM up to but not TO, and then the
gap.

Example:
  desk ranges shimx64.efi

Exit status:
  0  the ranges are printed
  1  refused: 1 Short to 9 Table, 11 TwoSbat or 13 TooLong, FILE is no EFI
     image that a desk takes
  2  an argument is missing or wrong
  3  a device failed: 45 File, FILE can't be opened";

pub const VERDICT: &str = "\
Prints `allowed`, or `refused` and why: `dbx-digest`, `dbx-certificate`,
`not-listed`, or `sbat NAME HAS NEEDS` with the image's generation of a
component and the one that the level needs. No signature is checked: `allowed`
means that the digest, or a certificate that the image carries, is listed, and
that nothing bars the image.

Example:
  desk verdict desk.db shimx64.efi

Exit status:
  0  the image is allowed
  1  the image is refused; or refused: 1 Short to 13 TooLong, FILE is no EFI
     image that a desk takes; 43 NotADesk, DB holds no desk; 44 Version, it
     holds one of another version
  2  an argument is missing or wrong
  3  a device failed: 45 File, DB is missing or in use, or FILE can't be opened";

pub const IMPACT: &str = "\
Prints a line for each image that another officer's Confirm of the proposal
would bar and that isn't barred now: its request, `submitted` or `returned`, the
request's state, the submitter, `allowed` or `refused` (the verdict now, which
checks no signature), the rule (`dbx-digest`, `dbx-certificate`, or
`sbat NAME HAS NEEDS`) and the title, separated by tabs. Then `dbx N`: the
length of dbx in bytes after the Confirm.
The desk knows the images that were submitted or returned to it, and no others.

Example:
  desk impact desk.db 1

Exit status:
  0  no image that is allowed now would be barred
  1  at least one would be; or refused, as the Confirm would be: 37
     NoSuchProposal, 39 ProposalClosed, 30 AlreadyRevoked, 31 NotHigher,
     32 StampNotLater, 36 Full; or 43 NotADesk, DB holds no desk; 44 Version, it
     holds one of another version
  2  an argument is missing or wrong
  3  a device failed: 45 File, DB is missing or in use";

pub const DB: &str = "\
Writes signature lists to standard output: one of all digests that are listed,
then one for each certificate. If nothing is listed, it writes nothing.

Example:
  desk db desk.db > db.esl

Exit status:
  0  the lists are written
  1  refused: 43 NotADesk, DB holds no desk; 44 Version, it holds one of another
     version
  2  an argument is missing or wrong
  3  a device failed: 45 File, DB is missing or in use";

pub const DBX: &str = "\
Writes signature lists to standard output: one of all digests that are revoked,
then one of the revoked certificates, each by the SHA-256 of its
TBSCertificate. If nothing is revoked, it writes nothing.

Example:
  desk dbx desk.db > dbx.esl

Exit status:
  0  the lists are written
  1  refused: 43 NotADesk, DB holds no desk; 44 Version, it holds one of another
     version
  2  an argument is missing or wrong
  3  a device failed: 45 File, DB is missing or in use";

pub const SHIM: &str = "\
Writes what dbx revokes in the form that shim reads, which passes over revoked
certificates that are given by a digest. Signature lists, to standard output:
the list of digests that dbx has; for each revoked certificate one list for each
body that a ListCertificate gave, also if it was unlisted since; then one list
of the other revoked certificates, as dbx has them. If nothing is revoked, it
writes nothing.

Example:
  desk shim desk.db > shim-dbx.esl

Exit status:
  0  the lists are written
  1  refused: 43 NotADesk, DB holds no desk; 44 Version, it holds one of another
     version
  2  an argument is missing or wrong
  3  a device failed: 45 File, DB is missing or in use";

pub const LEVEL: &str = "\
Writes the level as shim reads it: a line `sbat,1,STAMP`, then a line
`NAME,GENERATION` for each component.

Example:
  desk level desk.db > sbat_level.csv

Exit status:
  0  the level is written
  1  refused: 43 NotADesk, DB holds no desk; 44 Version, it holds one of another
     version
  2  an argument is missing or wrong
  3  a device failed: 45 File, DB is missing or in use";

pub const AUDIT: &str = "\
FILE has minutes as `minutes` prints them. Follows them in memory, line by
line: the number, caller, key, text and reply of each have to be what the rules
give. Prints `calls N`, and with `minutes`, `dbx`, `db` and `level` the SHA-256
of FILE and of what a desk of OWNER with these minutes exports. With EXPORT it
writes the bytes of that export in place of the lines.

Example:
  desk audit 00112233-4455-6677-8899-aabbccddeeff minutes.txt

Exit status:
  0  each line is what the rules give; the lines are printed, or the export is
     written
  1  refused: 47 Minute, at the number of the first line that isn't what the
     rules give, or isn't whole
  2  an argument is missing or wrong
  3  a device failed: 45 File, FILE can't be opened";

pub const LIST: &str = "\
Prints a line OFFSET KIND COUNT for each signature list in FILE: the byte where
it begins, the kind and the number of its entries.

Example:
  desk list dbx.esl

Exit status:
  0  the lists are printed
  1  refused: 15 List or 16 EntrySize, at the first offset where FILE holds no
     list; 13 TooLong, it is longer than 128 MiB
  2  an argument is missing or wrong
  3  a device failed: 45 File, FILE can't be opened";

pub const PACK: &str = "\
Reads a digest a line, 64 hexadecimal digits, from standard input, and writes
one signature list of them to standard output, ascending and each once. Without
a digest it writes nothing.

Example:
  desk pack 00112233-4455-6677-8899-aabbccddeeff < digests.txt > dbx.esl

Exit status:
  0  the list is written
  1  refused: 18 Line, at the number of a line that is no digest; 13 TooLong,
     the input is longer than 8 MiB
  2  an argument is missing or wrong
  3  a device failed: 14 Read or 17 Write";
