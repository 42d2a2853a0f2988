//! Refusals of a request.
ghost use Rattle.std.specs.Prelude.{◌≡◌, IfSome};
ghost use Rattle.http_responses.specs.Refusals as spec;

use crate::status::Status;
use base::Refusal;
use http_requests::Methods;

/// Why a request is refused: a row of the table of refusals, with what its response adds. Rows that
/// no desk gives to a request have no variant: Read, Write, Line, Version, File, Exists, Minute and
/// Owner; nor have those of an `Outage`. NameTaken has one, though no request that the routes know
/// is refused for it.
#[derive(Clone, Copy, Debug, PartialEq, Eq)]
pub enum Refused {
    /// The file ends before a header that it needs.
    Short,
    /// The file doesn't begin with `MZ`.
    NoMz,
    /// There is no `PE`, 0, 0 where the u32 at 0x3C points.
    NoPe,
    /// The optional header is neither PE32 (0x10B) nor PE32+ (0x20B).
    Magic,
    /// Subsystem is none of EFI's, 10 to 13.
    NotEfi,
    /// The headers' sizes don't fit one another or the file.
    Headers,
    /// There are more than 96 sections, or one's raw data passes the file's end.
    Sections,
    /// A section's raw data begins within the headers, or shares a byte with another's.
    Overlap,
    /// The certificate table isn't the end of the file or begins before the sections' end, or an
    /// entry of it isn't whole.
    Table,
    /// There is no DER element, SignedData or certificate where one is needed.
    Der,
    /// Two sections are named `.sbat`.
    TwoSbat,
    /// A line of SBAT text is wrong. The place is its number from 1.
    SbatRow(u64),
    /// The input passes a stated limit of size or count.
    TooLong,
    /// There is no signature list there. The place is its offset in bytes.
    List(u64),
    /// A signature list's entries can't have the size that it gives. The place is its offset in
    /// bytes.
    EntrySize(u64),
    /// A CSV record is wrong. The place is its number; the header's is 0.
    CsvRow(u64),
    /// Nobody has that name or token.
    UnknownCaller,
    /// The caller's role has no such command or read.
    NotYourRole,
    /// The caller used that key for another command.
    KeyReused,
    /// No request that the caller may see, or withdraw, has that number.
    NoSuchRequest,
    /// The request's state doesn't allow it.
    WrongState,
    /// Nobody reviews a request of their own.
    OwnRequest,
    /// The caller has reviewed the request already.
    AlreadyReviewed,
    /// The returned file isn't the image that was reviewed.
    DigestDiffers,
    /// The image is barred: revoked, or below the level.
    Revoked,
    /// Neither the image's digest nor a certificate that it carries is listed.
    NotListed,
    /// It is revoked already.
    AlreadyRevoked,
    /// The generation isn't above the current one, or can't be raised.
    NotHigher,
    /// The stamp is missing, or isn't above the current one.
    StampNotLater,
    /// It is listed already.
    AlreadyListed,
    /// It isn't listed.
    NotThere,
    /// The person's name or token is taken.
    NameTaken,
    /// The desk has reached a stated limit.
    Full,
    /// No proposal has that number.
    NoSuchProposal,
    /// Nobody confirms a proposal of their own.
    OwnProposal,
    /// The proposal was confirmed or dropped before.
    ProposalClosed,
    /// The request or proposal of that number isn't the one that `If-Match` names.
    Mismatch,
    /// The head of an HTTP request is wrong or too long, or the request is cut short.
    BadHead,
    /// A field of an HTTP request is missing, wrong or given twice.
    BadField,
    /// The JSON body of an HTTP request is wrong.
    BadBody,
    /// No resource has that path.
    NoRoute,
    /// The resource doesn't have that method.
    BadMethod(Methods),
    /// The HTTP request has no Content-Length.
    LengthNeeded,
    /// The body of the HTTP request passes the resource's limit.
    TooLarge,
    /// The HTTP request has a Transfer-Encoding.
    NotSupported,
}

impl Refused {
    /// The refusal of a request for this row alone, or `None` if no request is refused for it, or
    /// if it needs more: the place of SbatRow, List, EntrySize and CsvRow, the methods of
    /// BadMethod.
    pub fn of(refusal: Refusal) -> Option<Refused>
        ensures value { result ≡ spec.refused_of refusal }
        ensures row { IfSome result (λ refused. spec.refusal_of refused ≡ refusal) }
    {
        let refused = match refusal {
            Refusal::Short => Refused::Short,
            Refusal::NoMz => Refused::NoMz,
            Refusal::NoPe => Refused::NoPe,
            Refusal::Magic => Refused::Magic,
            Refusal::NotEfi => Refused::NotEfi,
            Refusal::Headers => Refused::Headers,
            Refusal::Sections => Refused::Sections,
            Refusal::Overlap => Refused::Overlap,
            Refusal::Table => Refused::Table,
            Refusal::Der => Refused::Der,
            Refusal::TwoSbat => Refused::TwoSbat,
            Refusal::TooLong => Refused::TooLong,
            Refusal::UnknownCaller => Refused::UnknownCaller,
            Refusal::NotYourRole => Refused::NotYourRole,
            Refusal::KeyReused => Refused::KeyReused,
            Refusal::NoSuchRequest => Refused::NoSuchRequest,
            Refusal::WrongState => Refused::WrongState,
            Refusal::OwnRequest => Refused::OwnRequest,
            Refusal::AlreadyReviewed => Refused::AlreadyReviewed,
            Refusal::DigestDiffers => Refused::DigestDiffers,
            Refusal::Revoked => Refused::Revoked,
            Refusal::NotListed => Refused::NotListed,
            Refusal::AlreadyRevoked => Refused::AlreadyRevoked,
            Refusal::NotHigher => Refused::NotHigher,
            Refusal::StampNotLater => Refused::StampNotLater,
            Refusal::AlreadyListed => Refused::AlreadyListed,
            Refusal::NotThere => Refused::NotThere,
            Refusal::NameTaken => Refused::NameTaken,
            Refusal::Full => Refused::Full,
            Refusal::NoSuchProposal => Refused::NoSuchProposal,
            Refusal::OwnProposal => Refused::OwnProposal,
            Refusal::ProposalClosed => Refused::ProposalClosed,
            Refusal::Mismatch => Refused::Mismatch,
            Refusal::BadHead => Refused::BadHead,
            Refusal::BadField => Refused::BadField,
            Refusal::BadBody => Refused::BadBody,
            Refusal::NoRoute => Refused::NoRoute,
            Refusal::LengthNeeded => Refused::LengthNeeded,
            Refusal::TooLarge => Refused::TooLarge,
            Refusal::NotSupported => Refused::NotSupported,
            Refusal::NoMemory
            | Refusal::Store
            | Refusal::Reopen
            | Refusal::NotADesk
            | Refusal::SbatRow
            | Refusal::List
            | Refusal::EntrySize
            | Refusal::CsvRow
            | Refusal::BadMethod
            | Refusal::Read
            | Refusal::Write
            | Refusal::Line
            | Refusal::Version
            | Refusal::File
            | Refusal::Exists
            | Refusal::Minute
            | Refusal::Owner => return None,
        };
        Some(refused)
    }

    /// Its row in the table of refusals.
    pub fn refusal(self) -> Refusal
        ensures { result ≡ spec.refusal_of self }
    {
        match self {
            Refused::Short => Refusal::Short,
            Refused::NoMz => Refusal::NoMz,
            Refused::NoPe => Refusal::NoPe,
            Refused::Magic => Refusal::Magic,
            Refused::NotEfi => Refusal::NotEfi,
            Refused::Headers => Refusal::Headers,
            Refused::Sections => Refusal::Sections,
            Refused::Overlap => Refusal::Overlap,
            Refused::Table => Refusal::Table,
            Refused::Der => Refusal::Der,
            Refused::TwoSbat => Refusal::TwoSbat,
            Refused::SbatRow(_) => Refusal::SbatRow,
            Refused::TooLong => Refusal::TooLong,
            Refused::List(_) => Refusal::List,
            Refused::EntrySize(_) => Refusal::EntrySize,
            Refused::CsvRow(_) => Refusal::CsvRow,
            Refused::UnknownCaller => Refusal::UnknownCaller,
            Refused::NotYourRole => Refusal::NotYourRole,
            Refused::KeyReused => Refusal::KeyReused,
            Refused::NoSuchRequest => Refusal::NoSuchRequest,
            Refused::WrongState => Refusal::WrongState,
            Refused::OwnRequest => Refusal::OwnRequest,
            Refused::AlreadyReviewed => Refusal::AlreadyReviewed,
            Refused::DigestDiffers => Refusal::DigestDiffers,
            Refused::Revoked => Refusal::Revoked,
            Refused::NotListed => Refusal::NotListed,
            Refused::AlreadyRevoked => Refusal::AlreadyRevoked,
            Refused::NotHigher => Refusal::NotHigher,
            Refused::StampNotLater => Refusal::StampNotLater,
            Refused::AlreadyListed => Refusal::AlreadyListed,
            Refused::NotThere => Refusal::NotThere,
            Refused::NameTaken => Refusal::NameTaken,
            Refused::Full => Refusal::Full,
            Refused::NoSuchProposal => Refusal::NoSuchProposal,
            Refused::OwnProposal => Refusal::OwnProposal,
            Refused::ProposalClosed => Refusal::ProposalClosed,
            Refused::Mismatch => Refusal::Mismatch,
            Refused::BadHead => Refusal::BadHead,
            Refused::BadField => Refusal::BadField,
            Refused::BadBody => Refusal::BadBody,
            Refused::NoRoute => Refusal::NoRoute,
            Refused::BadMethod(_) => Refusal::BadMethod,
            Refused::LengthNeeded => Refusal::LengthNeeded,
            Refused::TooLarge => Refusal::TooLarge,
            Refused::NotSupported => Refusal::NotSupported,
        }
    }

    /// The refused line, record or offset in bytes, as a number.
    pub fn place(self) -> Option<u64>
        ensures { result ≡ spec.place_of self }
    {
        if let Refused::SbatRow(place)
        | Refused::List(place)
        | Refused::EntrySize(place)
        | Refused::CsvRow(place) = self
        {
            Some(place)
        } else {
            None
        }
    }

    /// The status of its response.
    pub fn status(self) -> Status
        ensures { result ≡ spec.status_of self }
    {
        match self {
            Refused::BadHead | Refused::BadField => Status::BadRequest,
            Refused::UnknownCaller => Status::Unauthorized,
            Refused::NotYourRole => Status::Forbidden,
            Refused::NoSuchRequest | Refused::NoSuchProposal | Refused::NoRoute => {
                Status::NotFound
            }
            Refused::BadMethod(methods) => Status::MethodNotAllowed(methods),
            Refused::KeyReused
            | Refused::WrongState
            | Refused::OwnRequest
            | Refused::AlreadyReviewed
            | Refused::DigestDiffers
            | Refused::Revoked
            | Refused::NotListed
            | Refused::AlreadyRevoked
            | Refused::NotHigher
            | Refused::StampNotLater
            | Refused::AlreadyListed
            | Refused::NotThere
            | Refused::NameTaken
            | Refused::Full
            | Refused::OwnProposal
            | Refused::ProposalClosed => Status::Conflict,
            Refused::LengthNeeded => Status::LengthRequired,
            Refused::Mismatch => Status::PreconditionFailed,
            Refused::TooLarge => Status::PayloadTooLarge,
            Refused::Short
            | Refused::NoMz
            | Refused::NoPe
            | Refused::Magic
            | Refused::NotEfi
            | Refused::Headers
            | Refused::Sections
            | Refused::Overlap
            | Refused::Table
            | Refused::Der
            | Refused::TwoSbat
            | Refused::SbatRow(_)
            | Refused::TooLong
            | Refused::List(_)
            | Refused::EntrySize(_)
            | Refused::CsvRow(_)
            | Refused::BadBody => Status::UnprocessableEntity,
            Refused::NotSupported => Status::NotImplemented,
        }
    }
}
