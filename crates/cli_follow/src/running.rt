//! The subcommand `follow`.
ghost use Rattle.cli_follow.specs.Named.{FollowsBytes, FollowsNamed};

use crate::follow_input;
use base::Guid;
use cli_audit::{LineWatch, is_input};
use cli_output::{Buffered, Ending, open_file};
use sqlite::{FileFrom, Start};
use sqlite_disk::Disk;
use std::io::Read;

/// Follows the minutes of an input, and lets go of what is left of the desk's files.
fn follow_all<S: Start, R: Read + Drop, W: Buffered>(
    rt: &HostRuntime,
    db: &str,
    start: S,
    owner: &Guid,
    input: R,
    out: &mut W,
) -> Ending
    ensures { FollowsBytes ⟦<FileFrom<S> as Disk>⟧ S.Start owner.now
        (W.contents out.old) (W.contents out.new) result (R.remaining input) }
{
    let mut watch = LineWatch::new();
    follow_input(rt, db, start, owner, input, &mut watch, out).ending()
}

/// Follows the minutes in the file of this name, or those of the input if it is named `-`, on the
/// desk in a file, as `follow_input` does. The file of minutes is opened first.
pub fn follow_named<S: Start, R: Read + Drop, W: Buffered>(
    rt: &HostRuntime,
    db: &str,
    start: S,
    owner: &Guid,
    name: &str,
    input: R,
    out: &mut W,
) -> Ending
    ensures { FollowsNamed ⟦<FileFrom<S> as Disk>⟧ S.Start owner.now
        (W.contents out.old) (W.contents out.new) result name.now (R.remaining input) }
{
    if is_input(name) {
        return follow_all(rt, db, start, owner, input, out);
    }
    match open_file(rt, name) {
        Ok(file) => follow_all(rt, db, start, owner, file, out),
        Err(fault) => Ending {
            work: Err(fault),
            closing: None,
        },
    }
}
