//! The words of the command line.
use super::{Call, check};
use cli_arguments::{WordsFault, words};
use std::alloc::{AllocError, Global};
use std::fmt::Write;
use std::test::Fail;

const WORDS: &str = r#"init a.db 0011 = Init { db: "a.db", owner: "0011" }
person a.db olga officer k1 = Person(PersonWords { db: "a.db", name: "olga", role: "officer", key: "k1" })
enrol a.db olga officer k1 = Enrol(PersonWords { db: "a.db", name: "olga", role: "officer", key: "k1" })
serve a.db 80 5 = Serve(ServeWords { db: "a.db", port: "80", count: "5" })
answer a.db = Answer { db: "a.db" }
facts a/b.efi = Facts { file: "a/b.efi" }
ranges a/b.efi = Ranges { file: "a/b.efi" }
verdict a.db b.efi = Verdict { db: "a.db", file: "b.efi" }
impact a.db 7 = Impact { db: "a.db", number: "7" }
db a.db = Db { db: "a.db" }
dbx a.db = Dbx { db: "a.db" }
shim a.db = Shim { db: "a.db" }
level a.db = Level { db: "a.db" }
audit 0011 m.txt = Audit(AuditWords { owner: "0011", file: "m.txt", export: None })
audit 0011 - = Audit(AuditWords { owner: "0011", file: "-", export: None })
audit 0011 m.txt dbx = Audit(AuditWords { owner: "0011", file: "m.txt", export: Some("dbx") })
audit 0011 m.txt shim = Audit(AuditWords { owner: "0011", file: "m.txt", export: Some("shim") })
follow a.db 0011 m.txt = Follow(FollowWords { db: "a.db", owner: "0011", file: "m.txt" })
follow a.db 0011 - = Follow(FollowWords { db: "a.db", owner: "0011", file: "-" })
list a/b.esl = List { file: "a/b.esl" }
pack 0011 = Pack { owner: "0011" }
minutes a.db = Minutes { db: "a.db" }
--help = Usage: desk <COMMAND>
-h = Usage: desk <COMMAND>
help = Usage: desk <COMMAND>
help init = Usage: desk init <DB> <OWNER>
help person = Usage: desk person <DB> <NAME> <ROLE> <KEY>
help enrol = Usage: desk enrol <DB> <NAME> <ROLE> <KEY>
help serve = Usage: desk serve <DB> <PORT> <COUNT>
help answer = Usage: desk answer <DB>
help facts = Usage: desk facts <FILE>
help ranges = Usage: desk ranges <FILE>
help verdict = Usage: desk verdict <DB> <FILE>
help impact = Usage: desk impact <DB> <NUMBER>
help db = Usage: desk db <DB>
help dbx = Usage: desk dbx <DB>
help shim = Usage: desk shim <DB>
help level = Usage: desk level <DB>
help audit = Usage: desk audit <OWNER> <FILE> [EXPORT]
help follow = Usage: desk follow <DB> <OWNER> <FILE>
help list = Usage: desk list <FILE>
help pack = Usage: desk pack <OWNER>
help minutes = Usage: desk minutes <DB>
pack --help = Usage: desk pack <OWNER>
--version = desk 0.2.0
-V = desk 0.2.0
pack --version = desk-pack 0.2.0
 = mistake
x = mistake
unpack x = mistake
-x = mistake
pack -x = mistake
pack --owner=x = mistake
help x = mistake
init a.db = mistake
init a.db 0011 more = mistake
person a.db olga officer = mistake
person a.db olga officer k1 more = mistake
enrol a.db olga officer = mistake
enrol a.db olga officer k1 more = mistake
serve a.db 80 = mistake
serve a.db 80 5 more = mistake
answer = mistake
answer a.db more = mistake
facts = mistake
facts a/b.efi more = mistake
ranges = mistake
ranges a/b.efi more = mistake
verdict a.db = mistake
verdict a.db b.efi more = mistake
impact a.db = mistake
impact a.db 7 more = mistake
db = mistake
db a.db more = mistake
dbx = mistake
dbx a.db more = mistake
shim = mistake
shim a.db more = mistake
level = mistake
level a.db more = mistake
audit 0011 = mistake
audit 0011 m.txt dbx more = mistake
follow a.db 0011 = mistake
follow a.db 0011 m.txt more = mistake
list = mistake
list a/b.esl more = mistake
pack = mistake
pack 0011 more = mistake
minutes = mistake
minutes a.db more = mistake
"#;

/// Appends the line that begins with `Usage:`, or else the first.
fn tell_usage(told: &mut String, text: &str) -> Result<(), AllocError> {
    for line in text.lines() {
        if line.starts_with("Usage: ") {
            return told.push_str(line);
        }
    }
    told.push_str(text.lines().next().unwrap_or(""))
}

/// The words of a line.
fn words_of(alloc: Global, input: &str) -> Result<Vec<String>, AllocError> {
    let mut words = Vec::new(alloc);
    for word in input.split_whitespace() {
        words.push(String::from_str(alloc, word)?)?;
    }
    Ok(words)
}

/// Appends the meaning of the words.
pub fn of_words(alloc: Global, told: &mut String, input: &str) -> Result<(), Fail> {
    let given = words_of(alloc, input)?;
    match words(alloc, given.as_slice()) {
        Ok(line) => write!(told, "{line:?}")?,
        Err(WordsFault::Refused(error)) => {
            if error.use_stderr() {
                return Ok(told.push_str("mistake")?);
            }
            tell_usage(told, error.to_string(alloc)?.as_str())?;
        }
        Err(WordsFault::NoMemory) => told.push_str("NoMemory")?,
        Err(WordsFault::Missing) => told.push_str("Missing")?,
    }
    Ok(())
}

#[test]
fn reads_the_words_of_a_line(rt: HostRuntime) -> Result<(), Fail> {
    check(&rt, rt.alloc(), Call::Words, WORDS)
}
