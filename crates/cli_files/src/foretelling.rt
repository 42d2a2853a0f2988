//! The impact of a proposal to the desk in a file.
ghost use Rattle.std.specs.Prelude.{◌≡◌, ◌⊎◌, None, IfErr, IfSome, OnOk};
ghost use Rattle.std.specs.Io.KnownBytes.{Keeps};
ghost use Rattle.cli_output.specs.Faults.{IsRow};
ghost use Rattle.cli_files.specs.Works.{ForetellsImpact, WritesImpact};
ghost use Rattle.cli_commands.specs.Faults.{IsForetellingRefusal};
ghost use Rattle.cli_opening.specs.Faults.{IsClosingRefusal, IsLasting};
ghost use Rattle.cli_opening.specs.Faults.{IsOfOpening, IsOpeningRefusal};
ghost use Rattle.cli_opening.specs.Works.{AtADesk, IsUnopened};

use cli_commands::foretell;
use cli_opening::{CacheSize, Work, Worked, on_desk};
use cli_output::{Buffered, Ending};
use desk_types::ProposalNumber;
use sqlite::{Alter, FileFrom, Start};
use sqlite_disk::Disk;
use std::marker::PhantomData;
use store_desk::Desk;

/// Writes the impact of a proposal.
#[derive(Drop)]
struct Foretelling<W> {
    number: ProposalNumber,
    writer: PhantomData<W>,
}

impl<W: Buffered> Work for Foretelling<W> {
    type Output = W;

    ghost does = { λ _ g w before after. ForetellsImpact g w.number
        (W.contents before) (W.contents after) };

    ghost leaves = { λ after _. W.flushed after };

    ghost stops = { IsRow IsForetellingRefusal };

    fn work<S: Alter + Drop>(
        self,
        _rt: &HostRuntime,
        mut desk: Desk<S>,
        output: &mut W,
    ) -> Worked<S> {
        let work = foretell(&mut desk, self.number, output);
        Worked { desk, work }
    }
}

/// Writes the impact of the proposal of this number to the desk in a file: a line for each image
/// that another officer's Confirm would bar, and the length of dbx afterwards. The outcome is
/// `Refused` if one of these images is allowed now. The desk's history doesn't change.
///
/// The faults of the desk's file come first, as for `add_person`; then the refusal that the Confirm
/// would get, then NoMemory, Store, Reopen or Write. Only after Write may a prefix of the lines be
/// written; after any other fault nothing is.
pub fn foretell_from<S: Start, W: Buffered>(
    rt: &HostRuntime,
    path: &str,
    start: S,
    number: ProposalNumber,
    writer: &mut W,
) -> Ending
    ensures foretold { (IsUnopened ⟦<FileFrom<S> as Disk>⟧ S.Start result
        × Keeps (W.contents writer.old) (W.contents writer.new))
        ⊎ AtADesk S.Start (WritesImpact ⟦<FileFrom<S> as Disk>⟧ number
        (W.contents writer.old) (W.contents writer.new) result) }
    ensures flushed { OnOk result.work (W.flushed writer.new) }
    ensures named { IfErr result.work (IsRow (λ refusal.
        IsOpeningRefusal refusal ⊎ IsForetellingRefusal refusal)) }
    ensures first { IfErr result.work (λ fault. IsOfOpening fault.refusal
        → (result.closing ≡ None) × Keeps (W.contents writer.old) (W.contents writer.new)) }
    ensures closing { IfSome result.closing (IsRow IsClosingRefusal) }
    ensures let_go { IfErr result.work (λ fault. IsLasting fault.refusal → result.closing ≡ None) }
{
    let foretelling: Foretelling<W> = Foretelling {
        number,
        writer: PhantomData,
    };
    on_desk(rt, path, start, CacheSize::AsItIs, foretelling, writer)
}
