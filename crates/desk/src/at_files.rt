//! The calls that subcommands make, on files and the standard streams, each passed on with its
//! values. No clause of this crate says what they do: the crates below say it of their calls.
ghost use Rattle.std.specs.Prelude.{⊤};

use base::Guid;
use cli_arguments::{
    Calls, Newcomer, Place, Stop, TokenForm, ending_after, pack_lines, person_from, tell_facts,
    tell_lists, tell_ranges,
};
use cli_audit::audit_named;
use cli_files::{add_person, export_from, foretell_from, judge_image};
use cli_follow::follow_named;
use cli_opening::make_desk;
use cli_output::{Buffered, Ending};
use cli_requests::{answer_from, serve_from};
use desk_exports::Export;
use desk_types::ProposalNumber;
use sqlite::Start;
use std::io::Read;

/// Subcommands on files, of which those of a desk held this at first.
#[derive(Drop)]
pub struct AtFiles<S> {
    pub start: S,
}

impl<S: Start> Calls for AtFiles<S> {
    ghost does = { λ _ _ _ _. ⊤ };

    fn init(self, rt: &HostRuntime, db: &str, owner: &Guid) -> Ending {
        make_desk(rt, db, self.start, owner).ending()
    }

    fn add<R: Read, W: Buffered>(
        self,
        rt: &HostRuntime,
        db: &str,
        newcomer: Newcomer,
        token: TokenForm,
        input: &mut R,
        out: &mut W,
    ) -> Result<Ending, Stop> {
        let (key, person) = person_from(rt.alloc(), newcomer, token, input)?;
        Ok(add_person(rt, db, self.start, &key, person, out))
    }

    fn follow<R: Read + Drop, W: Buffered>(
        self,
        rt: &HostRuntime,
        db: &str,
        owner: &Guid,
        file: &str,
        input: R,
        out: &mut W,
    ) -> Ending {
        follow_named(rt, db, self.start, owner, file, input, out)
    }

    fn serve(self, rt: &HostRuntime, db: &str, place: Place) -> Ending {
        serve_from(rt, db, self.start, place.port, place.count)
    }

    fn answer(self, rt: &HostRuntime, db: &str) -> Ending {
        answer_from(rt, db, self.start, rt.stdin(), &mut rt.stdout())
    }

    fn facts<W: Buffered>(self, rt: &HostRuntime, file: &str, out: &mut W) -> Ending {
        tell_facts(rt, file, out)
    }

    fn ranges<W: Buffered>(self, rt: &HostRuntime, file: &str, out: &mut W) -> Ending {
        tell_ranges(rt, file, out)
    }

    fn verdict<W: Buffered>(self, rt: &HostRuntime, db: &str, file: &str, out: &mut W) -> Ending {
        judge_image(rt, db, self.start, file, out)
    }

    fn impact<W: Buffered>(
        self,
        rt: &HostRuntime,
        db: &str,
        number: ProposalNumber,
        out: &mut W,
    ) -> Ending {
        foretell_from(rt, db, self.start, number, out)
    }

    fn export<W: Buffered>(self, rt: &HostRuntime, db: &str, what: Export, out: &mut W) -> Ending {
        export_from(rt, db, self.start, what, out)
    }

    fn audit<R: Read + Drop, W: Buffered>(
        self,
        rt: &HostRuntime,
        owner: &Guid,
        file: &str,
        what: Option<Export>,
        input: R,
        out: &mut W,
    ) -> Ending {
        ending_after(audit_named(rt, owner, file, what, input, out))
    }

    fn list<W: Buffered>(self, rt: &HostRuntime, file: &str, out: &mut W) -> Ending {
        tell_lists(rt, file, out)
    }

    fn pack<R: Read, W: Buffered>(
        self,
        rt: &HostRuntime,
        owner: &Guid,
        input: &mut R,
        out: &mut W,
    ) -> Ending {
        pack_lines(rt.alloc(), owner, input, out)
    }
}
