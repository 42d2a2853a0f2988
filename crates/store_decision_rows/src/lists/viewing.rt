//! The rows of the lists that a command names.
ghost use Rattle.std.specs.Prelude.{◌≡◌, IfOk, option_copied};
ghost use Rattle.store_decision_rows.specs.lists.Lists.{HoldsNoOther};
ghost use Rattle.store_reads.specs.Reads.{ReadsTables};
ghost use Rattle.desk_rules.specs.Keys.{keys_with};
ghost use Rattle.desk_rules.specs.Views.{ShowsLists};
ghost use Rattle.store_sql.specs.States.{DoesInside, CommitsNothing, Spares};

use crate::lists::keys::Digests;
use crate::lists::naming::{import_view, list_view, listed_view, revoked_view, submission_view};
use crate::lists::reading::rows_of;
use desk_history::ProposalRow;
use desk_rules::ListView;
use desk_types::{Command, ListedKind};
use sqlite::{Alter, Transaction};
use std::alloc::Global;
use std::slice;
use store_reads::ReadFault;

/// The rows of the lists that the command names, or, for a Confirm, those that its proposal, of
/// this row, names. Takes memory for them. Costs one keyed statement for each key.
pub(crate) fn lists_asked<S: Alter>(
    alloc: Global,
    tx: &mut Transaction<'_, S>,
    command: &Command,
    proposal: Option<&ProposalRow>,
) -> Result<ListView, ReadFault>
    ensures same_reference { tx.new.conn.ghost_name ≡ tx.old.conn.ghost_name }
    ensures value { DoesInside S.Store tx.old.conn.now tx.new.conn.now result
        (λ view. ReadsTables (λ t.
        ShowsLists view t (keys_with command.now (λ k. option_copied proposal.entry)))) }
    ensures only { IfOk result (λ view.
        HoldsNoOther view (keys_with command.now (λ k. option_copied proposal.entry))) }
    ensures kept { CommitsNothing S.Store tx.old.conn.now tx.new.conn.now }
    ensures survives { Spares S.Store tx.old.conn.now tx.new.conn.now }
{
    match command {
        Command::AddPerson(_)
        | Command::Review(_)
        | Command::Withdraw(_)
        | Command::Drop(_)
        | Command::Explain(_) => { rows_of(alloc, tx, Digests::none(), Digests::none(), &[]) }
        Command::Submit(submission) => submission_view(alloc, tx, &submission.facts),
        Command::Return(returned) => list_view(alloc, tx, &returned.facts),
        Command::ListCertificate(certificate) => {
            listed_view(alloc, tx, ListedKind::Certificate, certificate.tbs())
        }
        Command::ListDigest(digest) => listed_view(alloc, tx, ListedKind::Digest, *digest),
        Command::Unlist(listing) => listed_view(alloc, tx, listing.kind, listing.digest),
        Command::RevokeDigest(digest) => revoked_view(alloc, tx, ListedKind::Digest, *digest),
        Command::RevokeCertificate(digest) => {
            revoked_view(alloc, tx, ListedKind::Certificate, *digest)
        }
        Command::RaiseLevel(raise) => {
            let named = slice::from_ref(&raise.component);
            rows_of(alloc, tx, Digests::none(), Digests::none(), named)
        }
        Command::ImportRevocations(import) => import_view(alloc, tx, import),
        Command::Confirm(_) => match proposal {
            None => rows_of(alloc, tx, Digests::none(), Digests::none(), &[]),
            Some(row) => import_view(alloc, tx, &row.named),
        },
    }
}
