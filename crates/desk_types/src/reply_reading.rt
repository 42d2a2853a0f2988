//! Replies read back from their canonical texts.
ghost use Rattle.std.specs.Prelude.{◌≡◌, ◌≢◌, ◌∷◌, ◌++◌, [], ℕ, List, IfNone, IfOk, IfSome, MatchResult, codes, decimal, true};
ghost use Rattle.desk_types.specs.Commands.{AreCounts, IsReply};
ghost use Rattle.desk_types.specs.Forms.{is_ordinal};
ghost use Rattle.desk_types.specs.Items.{spaced};
ghost use Rattle.desk_types.specs.ReplyTexts.{reply_text_of};
ghost use Rattle.desk_types.specs.Words.{state_text};
ghost use Rattle.desk_types.specs.declared.reply.Confirmation.{Confirmation};
ghost use Rattle.desk_types.specs.declared.reply.Counts.{Counts};
ghost use Rattle.desk_types.specs.declared.reply.Outcome.{Outcome};
ghost use Rattle.desk_types.specs.declared.reply.Reply.{Reply};
ghost use Rattle.desk_types.specs.declared.reply.Reply.TheVariants.{Added, Reviewed, Imported, Confirmed};

use crate::counting::{count_before, count_of};
use crate::forms::parted_at_space;
use crate::ordinal::Ordinal;
use crate::{
    Confirmation, Counts, Outcome, PersonName, ProposalNumber, Reply, RequestNumber, State,
    TextFault,
};
use std::alloc::Global;

/// The number after this beginning.
pub(crate) fn number_behind(beginning: &[u8], text: &[u8]) -> Option<Ordinal>
    ensures found { IfSome result (λ number. text.now ≡ beginning.now ++ decimal number) }
    ensures only { IfNone result ((number : ℕ) → is_ordinal number ≡ true
        → text.now ≢ beginning.now ++ decimal number) }
{
    Ordinal::parse(text.strip_prefix(beginning)?)
}

/// The number and the state of a review's reply, after its word.
fn outcome_of(text: &[u8]) -> Option<Outcome>
    ensures found { IfSome result (λ o. IsReply (Reviewed o)
        × (text.now ≡ spaced (decimal o.request ∷ state_text o.state ∷ []))) }
    ensures only { IfNone result ((o : Outcome) → IsReply (Reviewed o)
        → text.now ≢ spaced (decimal o.request ∷ state_text o.state ∷ [])) }
{
    let (number, state) = parted_at_space(text)?;
    let request = RequestNumber::parse(number)?;
    let state = State::parse(state)?;
    Some(Outcome { request, state })
}

/// The four counts of a reply.
fn counts_of(text: &[u8]) -> Option<Counts>
    ensures found { IfSome result (λ c. AreCounts c
        × (text.now ≡ spaced (decimal c.digests ∷ decimal c.certificates
        ∷ decimal c.components ∷ decimal c.passed ∷ []))) }
    ensures only { IfNone result ((c : Counts) → AreCounts c
        → text.now ≢ spaced (decimal c.digests ∷ decimal c.certificates
        ∷ decimal c.components ∷ decimal c.passed ∷ [])) }
{
    let (digests, text) = count_before(text)?;
    let (certificates, text) = count_before(text)?;
    let (components, text) = count_before(text)?;
    let passed = count_of(text)?;
    Some(Counts {
        digests,
        certificates,
        components,
        passed,
    })
}

/// The numbers of a confirmation's reply, after its word.
fn confirmation_of(text: &[u8]) -> Option<Confirmation>
    ensures found { IfSome result (λ c. IsReply (Confirmed c)
        × (text.now ≡ decimal c.proposal ++ (32 ∷ spaced (decimal c.counts.digests
        ∷ decimal c.counts.certificates ∷ decimal c.counts.components
        ∷ decimal c.counts.passed ∷ [])))) }
    ensures only { IfNone result ((c : Confirmation) → IsReply (Confirmed c)
        → text.now ≢ decimal c.proposal ++ (32 ∷ spaced (decimal c.counts.digests
        ∷ decimal c.counts.certificates ∷ decimal c.counts.components
        ∷ decimal c.counts.passed ∷ []))) }
{
    let (number, counts) = parted_at_space(text)?;
    let proposal = ProposalNumber::parse(number)?;
    let counts = counts_of(counts)?;
    Some(Confirmation { proposal, counts })
}

/// A review's reply.
fn read_reviewed(text: &[u8]) -> Option<Outcome>
    ensures found { IfSome result (λ o. IsReply (Reviewed o)
        × (text.now ≡ reply_text_of (Reviewed o))) }
    ensures only { IfNone result ((o : Outcome) → IsReply (Reviewed o)
        → text.now ≢ reply_text_of (Reviewed o)) }
{
    outcome_of(text.strip_prefix(b"reviewed ".as_slice())?)
}

/// An import's reply.
fn read_imported(text: &[u8]) -> Option<Counts>
    ensures found { IfSome result (λ c. IsReply (Imported c)
        × (text.now ≡ reply_text_of (Imported c))) }
    ensures only { IfNone result ((c : Counts) → IsReply (Imported c)
        → text.now ≢ reply_text_of (Imported c)) }
{
    counts_of(text.strip_prefix(b"imported ".as_slice())?)
}

/// A confirmation's reply.
fn read_confirmed(text: &[u8]) -> Option<Confirmation>
    ensures found { IfSome result (λ c. IsReply (Confirmed c)
        × (text.now ≡ reply_text_of (Confirmed c))) }
    ensures only { IfNone result ((c : Confirmation) → IsReply (Confirmed c)
        → text.now ≢ reply_text_of (Confirmed c)) }
{
    confirmation_of(text.strip_prefix(b"confirmed ".as_slice())?)
}

/// A reply of one word.
fn word_alone(text: &[u8]) -> Option<Reply>
    ensures found { IfSome result (λ reply. IsReply reply × (text.now ≡ reply_text_of reply)) }
    ensures only { IfNone result ((text.now ≢ codes "listed") × (text.now ≢ codes "unlisted")
        × (text.now ≢ codes "revoked") × (text.now ≢ codes "raised")) }
{
    match text {
        b"listed" => Some(Reply::Listed),
        b"unlisted" => Some(Reply::Unlisted),
        b"revoked" => Some(Reply::Revoked),
        b"raised" => Some(Reply::Raised),
        _ => None,
    }
}

/// A reply that names nobody.
fn without_name(text: &[u8]) -> Option<Reply>
    ensures found { IfSome result (λ reply. IsReply reply × (text.now ≡ reply_text_of reply)) }
    ensures only { IfNone result ((reply : Reply) → IsReply reply → text.now ≡ reply_text_of reply
        → (name : List ℕ) × (reply ≡ Added name)) }
{
    if let Some(request) = number_behind(b"submitted ", text) {
        return Some(Reply::Submitted(RequestNumber::of(request)));
    }
    if let Some(request) = number_behind(b"withdrawn ", text) {
        return Some(Reply::Withdrawn(RequestNumber::of(request)));
    }
    if let Some(request) = number_behind(b"returned ", text) {
        return Some(Reply::Returned(RequestNumber::of(request)));
    }
    if let Some(outcome) = read_reviewed(text) {
        return Some(Reply::Reviewed(outcome));
    }
    if let Some(counts) = read_imported(text) {
        return Some(Reply::Imported(counts));
    }
    if let Some(proposal) = number_behind(b"proposed ", text) {
        return Some(Reply::Proposed(ProposalNumber::of(proposal)));
    }
    if let Some(confirmation) = read_confirmed(text) {
        return Some(Reply::Confirmed(confirmation));
    }
    if let Some(proposal) = number_behind(b"dropped ", text) {
        return Some(Reply::Dropped(ProposalNumber::of(proposal)));
    }
    if let Some(proposal) = number_behind(b"explained ", text) {
        return Some(Reply::Explained(ProposalNumber::of(proposal)));
    }
    word_alone(text)
}

impl Reply {
    /// The reply whose canonical text this is. Takes memory for a name.
    ///
    /// `Form`: it is no reply's text. `NoMemory`: memory was refused.
    pub fn parse(alloc: Global, text: &[u8]) -> Result<Reply, TextFault>
        ensures found { (reply : Reply) → IsReply reply → text.now ≡ reply_text_of reply
            → MatchResult result (λ read. read ≡ reply) (λ fault. fault ≡ TextFault.NoMemory) }
        ensures only { IfOk result (λ reply. IsReply reply × (text.now ≡ reply_text_of reply)) }
    {
        if let Some(reply) = without_name(text) {
            return Ok(reply);
        }
        let Some(name) = text.strip_prefix(b"added ".as_slice()) else {
            return Err(TextFault::Form);
        };
        match PersonName::parse(alloc, name) {
            Ok(name) => Ok(Reply::Added(name)),
            Err(fault) => Err(fault),
        }
    }
}
