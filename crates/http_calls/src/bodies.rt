//! The reading of calls' bodies: what they say, or why they are refused.
ghost use Rattle.std.specs.Prelude.{◌≡◌, IfOk};
ghost use Rattle.desk_types.specs.declared.command.Command.TheVariants as command;
ghost use Rattle.http_calls.specs.Bodies as spec;

use crate::refusing::{of_facts, of_import};
use base::tbs;
use desk_exports::Octets;
use desk_inputs::{
    ImportFault, facts, import_csv, import_dbx, import_level, tbs_is_read, token_digest,
};
use desk_types::{
    Certificate, Command, Facts, LONGEST_CERTIFICATE, RequestNumber, ReturnedFile, Submission,
    Title,
};
use http_requests::BytesAsked;
use http_responses::Refused;
use pe_image::{Pieces, no_slice_fails};
use std::alloc::{AllocError, Global};

/// The facts of an image.
pub(crate) fn read_facts(alloc: Global, image: Pieces) -> Result<Result<Facts, Refused>, AllocError>
    ensures reads { IfOk result (spec.ReadsFacts image) }
{
    no_slice_fails();
    let mut source = image;
    match facts(alloc, &mut source) {
        Ok(found) => Ok(Ok(found)),
        Err(fault) => Ok(Err(of_facts(fault)?)),
    }
}

/// The command that requests a signature of the image, with this title.
pub(crate) fn submission(
    alloc: Global,
    title: Title,
    image: Pieces,
) -> Result<Result<Command, Refused>, AllocError>
    ensures reads { IfOk result (spec.ReadsImage
        (λ x. command.Submit (record { title = title; facts = x })) image) }
{
    match read_facts(alloc, image)? {
        Ok(facts) => Ok(Ok(Command::Submit(Submission { title, facts }))),
        Err(refused) => Ok(Err(refused)),
    }
}

/// The command that returns the signed image of a request.
pub(crate) fn returned_file(
    alloc: Global,
    request: RequestNumber,
    image: Pieces,
) -> Result<Result<Command, Refused>, AllocError>
    ensures reads { IfOk result (spec.ReadsImage
        (λ x. command.Return (record { request = request; facts = x })) image) }
{
    match read_facts(alloc, image)? {
        Ok(facts) => Ok(Ok(Command::Return(ReturnedFile { request, facts }))),
        Err(refused) => Ok(Err(refused)),
    }
}

/// The command that lists a certificate.
fn listing(body: Octets) -> Result<Command, Refused>
    ensures reads { result ≡ spec.listing_of body }
{
    tbs_is_read();
    let bytes = body.into_vec();
    let digest = match tbs(&bytes) {
        Ok(inner) => token_digest(inner),
        Err(_) if LONGEST_CERTIFICATE < bytes.len() => return Err(Refused::TooLong),
        Err(_) => return Err(Refused::Der),
    };
    match Certificate::new(bytes, digest) {
        Some(certificate) => Ok(Command::ListCertificate(certificate)),
        None => Err(Refused::TooLong),
    }
}

/// The command of an import, or the refusal for its fault.
fn import_command(
    given: Result<Command, ImportFault>,
) -> Result<Result<Command, Refused>, AllocError>
    ensures reads { spec.TellsImport given result }
{
    match given {
        Ok(command) => Ok(Ok(command)),
        Err(fault) => Ok(Err(of_import(fault)?)),
    }
}

/// The command of the bytes, in the requested format.
pub(crate) fn command_of(
    alloc: Global,
    asked: BytesAsked,
    body: Octets,
) -> Result<Result<Command, Refused>, AllocError>
    ensures reads { IfOk result (spec.ReadsBytes asked body) }
{
    match asked {
        BytesAsked::ListCertificate => Ok(listing(body)),
        BytesAsked::ImportDbx => import_command(import_dbx(alloc, body.as_slice())),
        BytesAsked::ImportCsv(stamp) => import_command(import_csv(alloc, body.as_slice(), stamp)),
        BytesAsked::ImportLevel => import_command(import_level(alloc, body.as_slice())),
    }
}
