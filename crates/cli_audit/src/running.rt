//! The subcommand `audit`.
ghost use Rattle.std.specs.Prelude.{◌≡◌};
ghost use Rattle.cli_audit.specs.Named.{AuditsBytes, AuditsNamed, is_input as names_input};

use crate::{LineWatch, audit_file, audit_input};
use base::Guid;
use cli_output::{Buffered, Fault};
use desk_exports::Export;
use std::alloc::Global;
use std::io::Read;

/// True if the file of this name is the input: `-`.
pub fn is_input(name: &str) -> bool
    ensures { result ≡ names_input name.now }
{
    match name {
        "-" => true,
        _ => false,
    }
}

/// Follows the minutes of an input.
fn audit_all<R: Read + Drop, W: Buffered>(
    alloc: Global,
    owner: &Guid,
    what: Option<Export>,
    input: R,
    out: &mut W,
) -> Result<(), Fault>
    ensures { AuditsBytes what owner.now (W.contents out.old) (W.contents out.new) result
        (R.remaining input) }
{
    let mut watch = LineWatch::new();
    audit_input(alloc, owner, input, &mut watch, what, out)
}

/// Follows the minutes in the file of this name, or those of the input if it is named `-`, as
/// `audit_input` does.
pub fn audit_named<R: Read + Drop, W: Buffered>(
    rt: &HostRuntime,
    owner: &Guid,
    name: &str,
    what: Option<Export>,
    input: R,
    out: &mut W,
) -> Result<(), Fault>
    ensures { AuditsNamed what owner.now (W.contents out.old) (W.contents out.new) result
        name.now (R.remaining input) }
{
    if is_input(name) {
        return audit_all(rt.alloc(), owner, what, input, out);
    }
    let mut watch = LineWatch::new();
    audit_file(rt, owner, name, &mut watch, what, out)
}
