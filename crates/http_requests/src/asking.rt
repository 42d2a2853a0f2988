//! The values of a request's fields, in their forms.
ghost use Rattle.std.specs.Prelude.{◌≡◌};
ghost use Rattle.http_requests.specs.Asked as spec;
ghost use Rattle.http_requests.specs.CheckedHead as want;
ghost use Rattle.http_requests.specs.declared.fault.AskedFault.TheVariants.{BadField, NoRoute};
ghost use Rattle.http_requests.specs.declared.fault.AskedFault.TheVariants.{NoSuchProposal, NoSuchRequest};

use crate::target::minute_number;
use crate::{
    AskedFault, BytesAsked, CheckedHead, CommandAsked, CommandRoute, GetRoute, ImageAsked,
    ImageRoute, JsonAsked, KeyedCommand,
};
use base::Digest;
use desk_exports::{Published, Reading};
use desk_types::{Command, GREATEST_NUMBER, Key, ProposalNumber, RequestNumber, TextFault, Title};
use sbat::Stamp;
use std::alloc::Global;

/// The fault for a text that wasn't accepted.
fn of_text(fault: TextFault) -> AskedFault
    ensures { result ≡ spec.of_text fault }
{
    match fault {
        TextFault::Form => AskedFault::BadField,
        TextFault::NoMemory => AskedFault::NoMemory,
    }
}

/// The value of Desk-Key.
fn key(alloc: Global, wanted: &CheckedHead<'_>) -> Result<Key, AskedFault>
    ensures { spec.GivesOr BadField (spec.key_in (want.shown wanted.now)) result }
{
    let Some(text) = wanted.key else {
        return Err(AskedFault::BadField);
    };
    match Key::parse(alloc, text) {
        Ok(key) => Ok(key),
        Err(fault) => Err(of_text(fault)),
    }
}

/// The value of Desk-Title.
fn title(alloc: Global, wanted: &CheckedHead<'_>) -> Result<Title, AskedFault>
    ensures { spec.GivesOr BadField (spec.title_in (want.shown wanted.now)) result }
{
    let Some(text) = wanted.title else {
        return Err(AskedFault::BadField);
    };
    match Title::parse(alloc, text) {
        Ok(title) => Ok(title),
        Err(fault) => Err(of_text(fault)),
    }
}

/// The value of Desk-Stamp, which may be missing.
fn stamp(wanted: &CheckedHead<'_>) -> Result<Option<Stamp>, AskedFault>
    ensures { spec.GivesOr BadField (spec.stamp_in (want.shown wanted.now)) result }
{
    let Some(text) = wanted.stamp else {
        return Ok(None);
    };
    match Stamp::parse(text) {
        Some(stamp) => Ok(Some(stamp)),
        None => Err(AskedFault::BadField),
    }
}

/// The request's number in the place of `{no}`.
fn number(wanted: &CheckedHead<'_>) -> Result<RequestNumber, AskedFault>
    ensures { spec.GivesOr NoSuchRequest (spec.number_in (want.shown wanted.now)) result }
{
    let Some(number) = RequestNumber::parse(wanted.part) else {
        return Err(AskedFault::NoSuchRequest);
    };
    prove!(number.value() <= GREATEST_NUMBER);
    Ok(number)
}

/// The proposal's number in the place of `{no}`.
fn proposal(wanted: &CheckedHead<'_>) -> Result<ProposalNumber, AskedFault>
    ensures { spec.GivesOr NoSuchProposal (spec.number_in (want.shown wanted.now)) result }
{
    let Some(number) = ProposalNumber::parse(wanted.part) else {
        return Err(AskedFault::NoSuchProposal);
    };
    prove!(number.value() <= GREATEST_NUMBER);
    Ok(number)
}

/// The number of a minute, or of the first entry of a part of a list, in the place of `{no}`.
fn minute(wanted: &CheckedHead<'_>) -> Result<u64, AskedFault>
    ensures { spec.GivesOr NoRoute (spec.minute_in (want.shown wanted.now)) result }
{
    match minute_number(wanted.part) {
        Some(number) => Ok(number),
        None => Err(AskedFault::NoRoute),
    }
}

/// The digest in the place of `{digest}`.
fn digest(wanted: &CheckedHead<'_>) -> Result<Digest, AskedFault>
    ensures { spec.GivesOr NoRoute (spec.digest_in (want.shown wanted.now)) result }
{
    match Digest::parse(wanted.part) {
        Ok(digest) => Ok(digest),
        Err(_) => Err(AskedFault::NoRoute),
    }
}

/// The request of a GET, or NoSuchRequest if `{no}` isn't 1 to 6 digits without a leading zero, and
/// at a path of proposals NoSuchProposal; at the paths of the minutes and of parts of lists it is 1
/// to 7 such digits, and `{digest}` 64 hexadecimal digits, or NoRoute, which `check_head` gives
/// before. To be called once the caller is known.
pub fn read_asked(route: GetRoute, wanted: &CheckedHead<'_>) -> Result<Reading, AskedFault>
    ensures { spec.Gives (spec.read_at route (want.shown wanted.now)) result }
{
    match route {
        GetRoute::Requests => Ok(Reading::Requests),
        GetRoute::Request => Ok(Reading::Request(number(wanted)?)),
        GetRoute::RequestsFrom => Ok(Reading::RequestsFrom(minute(wanted)?)),
        GetRoute::RequestsWith => Ok(Reading::RequestsWith(digest(wanted)?)),
        GetRoute::Proposals => Ok(Reading::Proposals),
        GetRoute::Proposal => Ok(Reading::Proposal(proposal(wanted)?)),
        GetRoute::Impact => Ok(Reading::Impact(proposal(wanted)?)),
        GetRoute::ProposalsFrom => Ok(Reading::ProposalsFrom(minute(wanted)?)),
        GetRoute::Waiting => Ok(Reading::Waiting),
        GetRoute::Changes => Ok(Reading::Changes),
        GetRoute::Dbx => Ok(Reading::Export(Published::Dbx)),
        GetRoute::Db => Ok(Reading::Export(Published::Db)),
        GetRoute::Level => Ok(Reading::Export(Published::Level)),
        GetRoute::Report => Ok(Reading::Report),
        GetRoute::Minutes => Ok(Reading::Minutes(minute(wanted)?)),
        GetRoute::People => Ok(Reading::People),
        GetRoute::Me => Ok(Reading::Me),
    }
}

/// The request with an image, or the first check that fails: a command needs a Desk-Key in its
/// form, a new request a Desk-Title (otherwise BadField); `{no}` must be 1 to 6 digits without a
/// leading zero (otherwise NoSuchRequest). To be called once the caller and the whole image are
/// known. Takes memory for texts.
pub fn image_asked(
    alloc: Global,
    route: ImageRoute,
    wanted: &CheckedHead<'_>,
) -> Result<ImageAsked, AskedFault>
    ensures { spec.Gives (spec.image_at route (want.shown wanted.now)) result }
{
    match route {
        ImageRoute::Submit => {
            let key = key(alloc, wanted)?;
            Ok(ImageAsked::Submit(key, title(alloc, wanted)?))
        }
        ImageRoute::Return => {
            let key = key(alloc, wanted)?;
            Ok(ImageAsked::Return(key, number(wanted)?))
        }
        ImageRoute::Verdict => Ok(ImageAsked::Verdict),
        ImageRoute::Facts => Ok(ImageAsked::Facts),
    }
}

/// The command of a route, in the parts that the target and the fields give.
fn command(route: CommandRoute, wanted: &CheckedHead<'_>) -> Result<CommandAsked, AskedFault>
    ensures { spec.Gives (spec.command_at route (want.shown wanted.now)) result }
{
    Ok(match route {
        CommandRoute::Review => CommandAsked::Json(JsonAsked::Review(number(wanted)?)),
        CommandRoute::Withdraw => CommandAsked::Whole(Command::Withdraw(number(wanted)?)),
        CommandRoute::ListCertificate => CommandAsked::Bytes(BytesAsked::ListCertificate),
        CommandRoute::ListDigest => CommandAsked::Json(JsonAsked::ListDigest),
        CommandRoute::Unlist => CommandAsked::Json(JsonAsked::Unlist),
        CommandRoute::RevokeDigest => CommandAsked::Json(JsonAsked::RevokeDigest),
        CommandRoute::RevokeCertificate => CommandAsked::Json(JsonAsked::RevokeCertificate),
        CommandRoute::RaiseLevel => CommandAsked::Json(JsonAsked::RaiseLevel),
        CommandRoute::ImportDbx => CommandAsked::Bytes(BytesAsked::ImportDbx),
        CommandRoute::ImportCsv => CommandAsked::Bytes(BytesAsked::ImportCsv(stamp(wanted)?)),
        CommandRoute::ImportLevel => CommandAsked::Bytes(BytesAsked::ImportLevel),
        CommandRoute::Confirm => CommandAsked::Whole(Command::Confirm(proposal(wanted)?)),
        CommandRoute::Drop => CommandAsked::Whole(Command::Drop(proposal(wanted)?)),
        CommandRoute::Explain => CommandAsked::Json(JsonAsked::Explain(proposal(wanted)?)),
    })
}

/// The command of a route with its key, or the first check that fails: it needs a Desk-Key in its
/// form, and any Desk-Stamp of `/imports/csv` must be in its form (otherwise BadField); `{no}` must
/// be 1 to 6 digits without a leading zero (otherwise NoSuchRequest, or NoSuchProposal at a path of
/// proposals). To be called once the caller and the whole body are known. Takes memory for the key.
pub fn command_asked(
    alloc: Global,
    route: CommandRoute,
    wanted: &CheckedHead<'_>,
) -> Result<KeyedCommand, AskedFault>
    ensures { spec.Gives (spec.keyed_at route (want.shown wanted.now)) result }
{
    let key = key(alloc, wanted)?;
    let asked = command(route, wanted)?;
    Ok(KeyedCommand { key, asked })
}
