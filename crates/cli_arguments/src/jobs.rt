//! What a subcommand's words mean: a job, with the values that they spell.
ghost use Rattle.std.specs.Prelude.{◌≡◌, IfErr, IfOk, option_map};
ghost use Rattle.cli_arguments.specs.Lines as lines;
ghost use Rattle.cli_arguments.specs.Lines.{line_of};
ghost use Rattle.cli_arguments.specs.Meanings as meant;
ghost use Rattle.cli_arguments.specs.Meanings.{AddsWith, Means, StopsWords, meaning_of};
ghost use Rattle.cli_arguments.specs.values.People.{StopsFirst};

use crate::line::{AuditWords, FollowWords, PersonWords, ServeWords, Words};
use crate::values::{
    Newcomer, Place, Stop, TokenForm, asked_export, newcomer_from, owner_from, place_from,
    proposal_from,
};
use base::Guid;
use desk_exports::Export;
use desk_types::ProposalNumber;
use std::alloc::Global;

/// A subcommand with its values. A contract sees its `meaning_of`.
#[derive(Drop)]
pub enum Job<'a> {
    /// Makes a desk with this owner in this file.
    Init {
        db: &'a str,
        owner: Guid,
    },
    /// Adds a person, whose token the first line of the standard input gives in this form.
    Add {
        db: &'a str,
        newcomer: Newcomer,
        token: TokenForm,
    },
    /// Follows the minutes in a file, or those of the standard input if it is named `-`, on a desk
    /// with this owner.
    Follow {
        db: &'a str,
        owner: Guid,
        file: &'a str,
    },
    /// Serves requests, one connection after another.
    Serve {
        db: &'a str,
        place: Place,
    },
    /// Answers the request on the standard input.
    Answer {
        db: &'a str,
    },
    /// Prints the facts of an image's file that the desk keeps.
    Facts {
        file: &'a str,
    },
    /// Prints the ranges of an image's file that Authenticode hashes.
    Ranges {
        file: &'a str,
    },
    /// Prints the verdict on an image's file.
    Verdict {
        db: &'a str,
        file: &'a str,
    },
    /// Prints the impact of a proposal.
    Impact {
        db: &'a str,
        number: ProposalNumber,
    },
    /// Writes an export.
    Export {
        db: &'a str,
        what: Export,
    },
    /// Follows the minutes in a file, or those of the standard input if it is named `-`.
    Audit {
        owner: Guid,
        file: &'a str,
        what: Option<Export>,
    },
    /// Prints the signature lists in a file.
    List {
        file: &'a str,
    },
    /// Packs the digests of the standard input under this owner.
    Pack {
        owner: Guid,
    },
}

/// Makes a desk.
fn init_job<'a>(db: &'a str, owner: &str) -> Result<Job<'a>, Stop>
    ensures means { IfOk result (λ job. Means (lines.init db.now owner.now) (meaning_of job)) }
    ensures stops { IfErr result (StopsWords (lines.init db.now owner.now)) }
{
    let owner = owner_from(owner)?;
    Ok(Job::Init { db, owner })
}

/// Adds a person with a token in this form.
fn add_job<'a>(alloc: Global, words: PersonWords<'a>, token: TokenForm) -> Result<Job<'a>, Stop>
    ensures means { IfOk result (λ job. AddsWith token words.entry.db.now words.entry.name.now
        words.entry.role.now words.entry.key.now (meaning_of job)) }
    ensures stops { IfErr result (StopsFirst words.entry.name.now words.entry.role.now
        words.entry.key.now) }
{
    let newcomer = newcomer_from(alloc, words.name, words.role, words.key)?;
    Ok(Job::Add {
        db: words.db,
        newcomer,
        token,
    })
}

/// Follows minutes on a desk.
fn follow_job(words: FollowWords<'_>) -> Result<Job<'_>, Stop>
    ensures means { IfOk result (λ job. Means (lines.follow words.entry.db.now
        words.entry.owner.now words.entry.file.now) (meaning_of job)) }
    ensures stops { IfErr result (StopsWords (lines.follow words.entry.db.now
        words.entry.owner.now words.entry.file.now)) }
{
    let owner = owner_from(words.owner)?;
    Ok(Job::Follow {
        db: words.db,
        owner,
        file: words.file,
    })
}

/// Serves requests.
fn serve_job(words: ServeWords<'_>) -> Result<Job<'_>, Stop>
    ensures means { IfOk result (λ job. Means (lines.serve words.entry.db.now
        words.entry.port.now words.entry.count.now) (meaning_of job)) }
    ensures stops { IfErr result (StopsWords (lines.serve words.entry.db.now
        words.entry.port.now words.entry.count.now)) }
{
    let place = place_from(words.port, words.count)?;
    Ok(Job::Serve {
        db: words.db,
        place,
    })
}

/// Prints the impact of a proposal.
fn impact_job<'a>(db: &'a str, number: &str) -> Result<Job<'a>, Stop>
    ensures means { IfOk result (λ job. Means (lines.impact db.now number.now) (meaning_of job)) }
    ensures stops { IfErr result (StopsWords (lines.impact db.now number.now)) }
{
    let number = proposal_from(number)?;
    Ok(Job::Impact { db, number })
}

/// Writes an export.
fn export_job(db: &str, what: Export) -> Result<Job<'_>, Stop>
    ensures means { IfOk result (λ job. meaning_of job ≡ meant.export db.now what) }
    ensures stops { IfErr result (λ why. ⊥) }
{
    Ok(Job::Export { db, what })
}

/// Follows minutes.
fn audit_job(words: AuditWords<'_>) -> Result<Job<'_>, Stop>
    ensures means { IfOk result (λ job. Means (lines.audit words.entry.owner.now
        words.entry.file.now (option_map (λ word. word.now) words.entry.export))
        (meaning_of job)) }
    ensures stops { IfErr result (StopsWords (lines.audit words.entry.owner.now
        words.entry.file.now (option_map (λ word. word.now) words.entry.export))) }
{
    let owner = owner_from(words.owner)?;
    let what = asked_export(words.export)?;
    Ok(Job::Audit {
        owner,
        file: words.file,
        what,
    })
}

/// Packs digests.
fn pack_job<'a>(owner: &str) -> Result<Job<'a>, Stop>
    ensures means { IfOk result (λ job. Means (lines.pack owner.now) (meaning_of job)) }
    ensures stops { IfErr result (StopsWords (lines.pack owner.now)) }
{
    let owner = owner_from(owner)?;
    Ok(Job::Pack { owner })
}

/// The job that a subcommand's words mean, each in its form. Takes memory for a person's name and
/// key; reads and prints nothing.
///
/// `Word`: this is the first word that isn't in its form. `Fault`: memory was refused.
pub fn job_of<'a>(alloc: Global, words: Words<'a>) -> Result<Job<'a>, Stop>
    ensures means { IfOk result (λ job. Means (line_of words.entry) (meaning_of job)) }
    ensures stops { IfErr result (StopsWords (line_of words.entry)) }
{
    match words {
        Words::Init { db, owner } => init_job(db, owner),
        Words::Person(words) => add_job(alloc, words, TokenForm::Token),
        Words::Enrol(words) => add_job(alloc, words, TokenForm::Digest),
        Words::Minutes { db } => export_job(db, Export::Minutes),
        Words::Follow(words) => follow_job(words),
        Words::Serve(words) => serve_job(words),
        Words::Answer { db } => Ok(Job::Answer { db }),
        Words::Facts { file } => Ok(Job::Facts { file }),
        Words::Ranges { file } => Ok(Job::Ranges { file }),
        Words::Verdict { db, file } => Ok(Job::Verdict { db, file }),
        Words::Impact { db, number } => impact_job(db, number),
        Words::Db { db } => export_job(db, Export::Db),
        Words::Dbx { db } => export_job(db, Export::Dbx),
        Words::Shim { db } => export_job(db, Export::Shim),
        Words::Level { db } => export_job(db, Export::Level),
        Words::Audit(words) => audit_job(words),
        Words::List { file } => Ok(Job::List { file }),
        Words::Pack { owner } => pack_job(owner),
    }
}
