//! Commands read back from their canonical texts.
ghost use Rattle.std.specs.Prelude.{◌≡◌, ◌≢◌, ◌≤◌, ◌∷◌, ◌++◌, ℕ, All, IfNone, IfOk, IfSome, IsErrOf, List, length, true};
ghost use Rattle.hex.specs.Hex.{encode_lower};
ghost use Rattle.sbat.specs.declared.component.Component.{Component};
ghost use Rattle.desk_types.specs.Certificates.{WholeCertificate};
ghost use Rattle.desk_types.specs.Commands.{IsCommand, IsComponent, IsDigest};
ghost use Rattle.desk_types.specs.CommandTexts.{text_of};
ghost use Rattle.desk_types.specs.Formed.{IsWithin};
ghost use Rattle.desk_types.specs.Forms.{most_imported};
ghost use Rattle.desk_types.specs.Imports.{Imported};
ghost use Rattle.desk_types.specs.Items.{components_text, digests_text};
ghost use Rattle.desk_types.specs.Raising.{names_no_sbat};
ghost use Rattle.desk_types.specs.Reading.{IsLong, behind_word};
ghost use Rattle.desk_types.specs.declared.command.Ballot.{Ballot};
ghost use Rattle.desk_types.specs.declared.command.Command.{Command};
ghost use Rattle.desk_types.specs.declared.command.Command.TheVariants.{AddPerson, Submit, Review, Return, ListCertificate, Unlist, RaiseLevel, ImportRevocations, Explain};
ghost use Rattle.desk_types.specs.declared.command.Explanation.{Explanation};
ghost use Rattle.desk_types.specs.declared.command.Listing.{Listing};
ghost use Rattle.desk_types.specs.declared.command.Person.{Person};
ghost use Rattle.desk_types.specs.declared.command.Raise.{Raise};
ghost use Rattle.desk_types.specs.declared.command.ReturnedFile.{ReturnedFile};
ghost use Rattle.desk_types.specs.declared.command.Submission.{Submission};

use crate::counting::count_before;
use crate::facts_reading::{facts_of, facts_with, measures_before};
use crate::form_keeping::command_is_formed;
use crate::forms::parted_at_space;
use crate::items_reading::{
    bytes_of, components_of, digest_before, digest_of, digests_of, generation_of, named_component,
    stamp_of, stamp_or_none,
};
use crate::reply_reading::number_behind;
use crate::{
    Ballot, Certificate, Command, Digests, Explanation, Import, ImportedComponents, ListedKind,
    Listing, Note, Person, PersonName, ProposalNumber, Raise, Reason, RequestNumber, ReturnedFile,
    Role, Submission, TextFault, Title, Vote,
};
use base::Digest;
use std::alloc::{AllocError, Global};

/// The person of a name, a role and a token's digest. Takes memory for the name.
fn person_of(alloc: Global, text: &[u8]) -> Result<Person, TextFault>
    ensures found { IfOk result (λ person. text.now ≡ behind_word (AddPerson person)) }
    ensures only { IsErrOf result TextFault.Form → (person : Person) → IsCommand (AddPerson person)
        → IsWithin (AddPerson person) → text.now ≢ behind_word (AddPerson person) }
{
    let Some((name, text)) = parted_at_space(text) else {
        return Err(TextFault::Form);
    };
    let Some((role, token)) = parted_at_space(text) else {
        return Err(TextFault::Form);
    };
    let Some(role) = Role::parse(role) else {
        return Err(TextFault::Form);
    };
    let Some(token) = digest_of(token) else {
        return Err(TextFault::Form);
    };
    match PersonName::parse(alloc, name) {
        Ok(name) => Ok(Person { name, role, token }),
        Err(fault) => Err(fault),
    }
}

/// The submission of an image's facts and a title. Takes memory for both.
fn submission_of(alloc: Global, text: &[u8]) -> Result<Submission, TextFault>
    ensures found { IfOk result (λ submission. text.now ≡ behind_word (Submit submission)) }
    ensures only { IsErrOf result TextFault.Form → (submission : Submission)
        → IsCommand (Submit submission) → IsWithin (Submit submission)
        → text.now ≢ behind_word (Submit submission) }
{
    let Some((text, measures)) = measures_before(text) else {
        return Err(TextFault::Form);
    };
    let Some((carried, text)) = parted_at_space(text) else {
        return Err(TextFault::Form);
    };
    let Some((components, title)) = parted_at_space(text) else {
        return Err(TextFault::Form);
    };
    let facts = facts_with(alloc, measures, carried, components)?;
    let title = Title::parse(alloc, title)?;
    Ok(Submission { title, facts })
}

/// The vote of a number, a word and a note. Takes memory for the note.
fn ballot_of(alloc: Global, text: &[u8]) -> Result<Ballot, TextFault>
    ensures found { IfOk result (λ ballot. text.now ≡ behind_word (Review ballot)) }
    ensures only { IsErrOf result TextFault.Form → (ballot : Ballot) → IsCommand (Review ballot)
        → IsWithin (Review ballot) → text.now ≢ behind_word (Review ballot) }
{
    let Some((request, text)) = parted_at_space(text) else {
        return Err(TextFault::Form);
    };
    let Some((vote, note)) = parted_at_space(text) else {
        return Err(TextFault::Form);
    };
    let Some(request) = RequestNumber::parse(request) else {
        return Err(TextFault::Form);
    };
    let Some(vote) = Vote::parse(vote) else {
        return Err(TextFault::Form);
    };
    match Note::parse(alloc, note) {
        Ok(note) => Ok(Ballot {
            request,
            vote,
            note,
        }),
        Err(fault) => Err(fault),
    }
}

/// The signed file of a number and an image's facts. Takes memory for the facts.
fn returned_file_of(alloc: Global, text: &[u8]) -> Result<ReturnedFile, TextFault>
    ensures found { IfOk result (λ file. text.now ≡ behind_word (Return file)) }
    ensures only { IsErrOf result TextFault.Form → (file : ReturnedFile) → IsCommand (Return file)
        → IsWithin (Return file) → text.now ≢ behind_word (Return file) }
{
    let Some((request, facts)) = parted_at_space(text) else {
        return Err(TextFault::Form);
    };
    let Some(request) = RequestNumber::parse(request) else {
        return Err(TextFault::Form);
    };
    let facts = facts_of(alloc, facts)?;
    Ok(ReturnedFile { request, facts })
}

/// The certificate of a digest and its bytes. Takes memory for the bytes.
fn certificate_of(alloc: Global, text: &[u8]) -> Result<Certificate, TextFault>
    ensures found { IfOk result (λ certificate.
        text.now ≡ behind_word (ListCertificate certificate)) }
    ensures only { IsErrOf result TextFault.Form → (certificate : WholeCertificate)
        → IsCommand (ListCertificate certificate) → IsWithin (ListCertificate certificate)
        → text.now ≢ behind_word (ListCertificate certificate) }
{
    let Some((body, tbs)) = digest_before(text) else {
        return Err(TextFault::Form);
    };
    let body = bytes_of(alloc, body)?;
    match Certificate::new(body, tbs) {
        Some(certificate) => Ok(certificate),
        None => Err(TextFault::Form),
    }
}

/// The entry of a kind and a digest.
fn listing_of(text: &[u8]) -> Option<Listing>
    ensures found { IfSome result (λ listing. text.now ≡ behind_word (Unlist listing)) }
    ensures only { IfNone result ((listing : Listing) → IsCommand (Unlist listing)
        → text.now ≢ behind_word (Unlist listing)) }
{
    let (kind, digest) = parted_at_space(text)?;
    let kind = ListedKind::parse(kind)?;
    let digest = digest_of(digest)?;
    Some(Listing { kind, digest })
}

/// The raise of a name, a generation and a stamp. Takes memory for the name.
fn raise_of(alloc: Global, text: &[u8]) -> Result<Raise, TextFault>
    ensures found { IfOk result (λ raise. text.now ≡ behind_word (RaiseLevel raise)) }
    ensures only { IsErrOf result TextFault.Form → (raise : Raise) → IsCommand (RaiseLevel raise)
        → IsWithin (RaiseLevel raise) → text.now ≢ behind_word (RaiseLevel raise) }
{
    let Some((name, text)) = parted_at_space(text) else {
        return Err(TextFault::Form);
    };
    let Some((generation, stamp)) = parted_at_space(text) else {
        return Err(TextFault::Form);
    };
    let Some(generation) = generation_of(generation) else {
        return Err(TextFault::Form);
    };
    let Some(stamp) = stamp_of(stamp) else {
        return Err(TextFault::Form);
    };
    let component = named_component(alloc, name, generation)?;
    Ok(Raise { component, stamp })
}

/// The digests of a list that an import names. Takes memory for them.
fn imported_digests_of(alloc: Global, text: &[u8]) -> Result<Digests, TextFault>
    ensures found { IfOk result (λ digests. All IsDigest digests
        × (text.now ≡ digests_text digests)) }
    ensures only { IsErrOf result TextFault.Form → (digests : List (List ℕ))
        → All IsDigest digests → length digests ≤ most_imported → text.now ≢ digests_text digests }
{
    let digests = digests_of(alloc, text)?;
    match Digests::new(digests) {
        Some(digests) => Ok(digests),
        None => Err(TextFault::Form),
    }
}

/// The components of a list that an import names. Takes memory for them.
fn imported_components_of(alloc: Global, text: &[u8]) -> Result<ImportedComponents, TextFault>
    ensures found { IfOk result (λ components. All IsComponent components
        × (text.now ≡ components_text components)) }
    ensures only { IsErrOf result TextFault.Form → (components : List Component)
        → All IsComponent components → length components ≤ most_imported
        → names_no_sbat components ≡ true → text.now ≢ components_text components }
{
    let components = components_of(alloc, text)?;
    match ImportedComponents::new(components) {
        Some(components) => Ok(components),
        None => Err(TextFault::Form),
    }
}

/// The import of a stamp or 0, a count and three lists. Takes memory for the lists.
fn import_of(alloc: Global, text: &[u8]) -> Result<Import, TextFault>
    ensures found { IfOk result (λ import. text.now ≡ behind_word (ImportRevocations import)) }
    ensures only { IsErrOf result TextFault.Form → (import : Imported)
        → IsCommand (ImportRevocations import) → IsWithin (ImportRevocations import)
        → text.now ≢ behind_word (ImportRevocations import) }
{
    let Some((stamp, text)) = parted_at_space(text) else {
        return Err(TextFault::Form);
    };
    let Some(stamp) = stamp_or_none(stamp) else {
        return Err(TextFault::Form);
    };
    let Some((passed, text)) = count_before(text) else {
        return Err(TextFault::Form);
    };
    let Some((digests, text)) = parted_at_space(text) else {
        return Err(TextFault::Form);
    };
    let Some((certificates, components)) = parted_at_space(text) else {
        return Err(TextFault::Form);
    };
    let digests = imported_digests_of(alloc, digests)?;
    let certificates = imported_digests_of(alloc, certificates)?;
    let components = imported_components_of(alloc, components)?;
    match Import::new(stamp, passed, digests, certificates, components) {
        Some(import) => Ok(import),
        None => Err(TextFault::Form),
    }
}

/// The explanation of a number and a reason. Takes memory for the reason.
fn explanation_of(alloc: Global, text: &[u8]) -> Result<Explanation, TextFault>
    ensures found { IfOk result (λ explanation. text.now ≡ behind_word (Explain explanation)) }
    ensures only { IsErrOf result TextFault.Form → (explanation : Explanation)
        → IsCommand (Explain explanation) → IsWithin (Explain explanation)
        → text.now ≢ behind_word (Explain explanation) }
{
    let Some((proposal, reason)) = parted_at_space(text) else {
        return Err(TextFault::Form);
    };
    let Some(proposal) = ProposalNumber::parse(proposal) else {
        return Err(TextFault::Form);
    };
    match Reason::parse(alloc, reason) {
        Ok(reason) => Ok(Explanation { proposal, reason }),
        Err(fault) => Err(fault),
    }
}

/// The digest after this beginning.
fn digest_behind(beginning: &[u8], text: &[u8]) -> Option<Digest>
    ensures found { IfSome result (λ digest. text.now ≡ beginning.now ++ encode_lower digest) }
    ensures only { IfNone result ((digest : List ℕ) → IsDigest digest
        → text.now ≢ beginning.now ++ encode_lower digest) }
{
    digest_of(text.strip_prefix(beginning)?)
}

/// The removal of an entry from its list.
fn read_unlist(text: &[u8]) -> Option<Listing>
    ensures found { IfSome result (λ listing. text.now ≡ text_of (Unlist listing)) }
    ensures only { IfNone result ((listing : Listing) → IsCommand (Unlist listing)
        → text.now ≢ text_of (Unlist listing)) }
{
    listing_of(text.strip_prefix(b"unlist ".as_slice())?)
}

/// A command of one number, one digest, or a kind and a digest.
fn short_command(text: &[u8]) -> Option<Command>
    ensures found { IfSome result (λ command. text.now ≡ text_of command) }
    ensures only { IfNone result ((command : Command) → IsCommand command
        → text.now ≡ text_of command → IsLong command) }
{
    if let Some(request) = number_behind(b"withdraw ", text) {
        return Some(Command::Withdraw(RequestNumber::of(request)));
    }
    if let Some(digest) = digest_behind(b"list-digest ", text) {
        return Some(Command::ListDigest(digest));
    }
    if let Some(listing) = read_unlist(text) {
        return Some(Command::Unlist(listing));
    }
    if let Some(digest) = digest_behind(b"revoke-digest ", text) {
        return Some(Command::RevokeDigest(digest));
    }
    if let Some(digest) = digest_behind(b"revoke-certificate ", text) {
        return Some(Command::RevokeCertificate(digest));
    }
    if let Some(proposal) = number_behind(b"confirm ", text) {
        return Some(Command::Confirm(ProposalNumber::of(proposal)));
    }
    if let Some(proposal) = number_behind(b"drop ", text) {
        return Some(Command::Drop(ProposalNumber::of(proposal)));
    }
    None
}

/// A command of several parts. Takes memory for it.
fn long_command(alloc: Global, text: &[u8]) -> Result<Command, TextFault>
    ensures found { IfOk result (λ command. text.now ≡ text_of command) }
    ensures only { IsErrOf result TextFault.Form → (command : Command) → IsCommand command
        → IsWithin command → IsLong command → text.now ≢ text_of command }
{
    if let Some(rest) = text.strip_prefix(b"add-person ".as_slice()) {
        return Ok(Command::AddPerson(person_of(alloc, rest)?));
    }
    if let Some(rest) = text.strip_prefix(b"submit ".as_slice()) {
        return Ok(Command::Submit(submission_of(alloc, rest)?));
    }
    if let Some(rest) = text.strip_prefix(b"review ".as_slice()) {
        return Ok(Command::Review(ballot_of(alloc, rest)?));
    }
    if let Some(rest) = text.strip_prefix(b"return ".as_slice()) {
        return Ok(Command::Return(returned_file_of(alloc, rest)?));
    }
    if let Some(rest) = text.strip_prefix(b"list-certificate ".as_slice()) {
        return Ok(Command::ListCertificate(certificate_of(alloc, rest)?));
    }
    if let Some(rest) = text.strip_prefix(b"raise ".as_slice()) {
        return Ok(Command::RaiseLevel(raise_of(alloc, rest)?));
    }
    if let Some(rest) = text.strip_prefix(b"import ".as_slice()) {
        return Ok(Command::ImportRevocations(import_of(alloc, rest)?));
    }
    if let Some(rest) = text.strip_prefix(b"explain ".as_slice()) {
        return Ok(Command::Explain(explanation_of(alloc, rest)?));
    }
    Err(TextFault::Form)
}

/// The command whose text this is. Takes memory for it.
fn command_of(alloc: Global, text: &[u8]) -> Result<Command, TextFault>
    ensures found { IfOk result (λ command. text.now ≡ text_of command) }
    ensures only { IsErrOf result TextFault.Form → (command : Command) → IsCommand command
        → IsWithin command → text.now ≢ text_of command }
{
    match short_command(text) {
        Some(command) => Ok(command),
        None => long_command(alloc, text),
    }
}

impl Command {
    /// The command whose canonical text this is, or `None` if there is none. Takes memory for the
    /// command, and for the text of a certificate; the time is linear in the text's length.
    pub fn parse(alloc: Global, text: &[u8]) -> Result<Option<Command>, AllocError>
        ensures found { IfOk result (λ read. IfSome read (λ command. IsCommand command
            × IsWithin command × (text.now ≡ text_of command))) }
        ensures only { IfOk result (λ read. IfNone read ((command : Command) → IsCommand command
            → IsWithin command → text.now ≢ text_of command)) }
    {
        match command_of(alloc, text) {
            Ok(command) => {
                command_is_formed(&command);
                Ok(Some(command))
            }
            Err(TextFault::Form) => Ok(None),
            Err(TextFault::NoMemory) => Err(AllocError),
        }
    }
}
