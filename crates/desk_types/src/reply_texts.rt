//! The canonical texts of replies.
ghost use Rattle.std.specs.Prelude.{◌≡◌, IfOk, [], ◌∷◌, decimal, string_bytes};
ghost use Rattle.desk_types.specs.ReplyTexts.{reply_text_of};
ghost use Rattle.desk_types.specs.Items.{spaced};
ghost use Rattle.desk_types.specs.declared.reply.Reply.TheVariants.{Confirmed, Reviewed, Imported};

use crate::reply::{Confirmation, Counts, Outcome, Reply};
use std::alloc::{AllocError, Global};

fn reviewed_text(alloc: Global, outcome: Outcome) -> Result<String, AllocError>
    ensures { IfOk result (λ text. string_bytes text ≡ reply_text_of (Reviewed outcome)) }
{
    let request = outcome.request.value();
    let state = outcome.state.text();
    format!(in alloc; "reviewed {request} {state}")
}

fn imported_text(alloc: Global, counts: Counts) -> Result<String, AllocError>
    ensures { IfOk result (λ text. string_bytes text ≡ reply_text_of (Imported counts)) }
{
    let Counts {
        digests,
        certificates,
        components,
        passed,
    } = counts;
    format!(in alloc; "imported {digests} {certificates} {components} {passed}")
}

fn confirmed_text(alloc: Global, confirmation: Confirmation) -> Result<String, AllocError>
    ensures { IfOk result (λ text. string_bytes text ≡ reply_text_of (Confirmed confirmation)) }
{
    let proposal = confirmation.proposal.value();
    let Counts {
        digests,
        certificates,
        components,
        passed,
    } = confirmation.counts;
    format!(in alloc; "confirmed {proposal} {digests} {certificates} {components} {passed}")
}

/// A word and the number of a request or a proposal.
fn numbered_text(alloc: Global, word: &str, number: u64) -> Result<String, AllocError>
    ensures { IfOk result (λ text. string_bytes text ≡ spaced (word.now ∷ decimal number ∷ [])) }
{
    format!(in alloc; "{word} {number}")
}

/// The canonical text of a reply: its word and its parts, joined by one space. Takes memory for the
/// text.
pub fn reply_text(alloc: Global, reply: &Reply) -> Result<String, AllocError>
    ensures { IfOk result (λ text. string_bytes text ≡ reply_text_of reply.now) }
{
    match reply {
        Reply::Added(name) => {
            let name = name.as_str();
            format!(in alloc; "added {name}")
        }
        Reply::Submitted(request) => numbered_text(alloc, "submitted", request.value()),
        Reply::Reviewed(outcome) => reviewed_text(alloc, *outcome),
        Reply::Withdrawn(request) => numbered_text(alloc, "withdrawn", request.value()),
        Reply::Returned(request) => numbered_text(alloc, "returned", request.value()),
        Reply::Listed => String::from_str(alloc, "listed"),
        Reply::Unlisted => String::from_str(alloc, "unlisted"),
        Reply::Revoked => String::from_str(alloc, "revoked"),
        Reply::Raised => String::from_str(alloc, "raised"),
        Reply::Imported(counts) => imported_text(alloc, *counts),
        Reply::Proposed(proposal) => numbered_text(alloc, "proposed", proposal.value()),
        Reply::Confirmed(confirmation) => confirmed_text(alloc, *confirmation),
        Reply::Dropped(proposal) => numbered_text(alloc, "dropped", proposal.value()),
        Reply::Explained(proposal) => numbered_text(alloc, "explained", proposal.value()),
    }
}
