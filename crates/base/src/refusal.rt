//! The one table of refusals.
ghost use Rattle.std.specs.Prelude.{◌≡◌, Some};
ghost use Rattle.base.specs.Refusals.{is_device, name_of, number_of};
ghost use Rattle.base.specs.declared.refusal.Refusal.TheVariants.{NoMemory};

use std::alloc::AllocError;
use std::fmt;

/// Why a call was refused, or which device failed it.
///
/// A refusal's number and name never change. Some have a place, a line, a record or an offset,
/// which the fault of the refusing call holds.
#[derive(Clone, Copy, Debug, PartialEq, Eq)]
pub enum Refusal {
    /// The file ends before a header that it needs.
    Short,
    /// The file doesn't begin with `MZ`.
    NoMz,
    /// There is no `PE`, 0, 0 where the u32 at 0x3C points.
    NoPe,
    /// The optional header is neither PE32 (0x10B) nor PE32+ (0x20B).
    Magic,
    /// Subsystem is none of EFI's, 10 to 13.
    NotEfi,
    /// The headers' sizes don't fit one another or the file.
    Headers,
    /// There are more than 96 sections, or one's raw data passes the file's end.
    Sections,
    /// A section's raw data begins within the headers, or shares a byte with another's.
    Overlap,
    /// The certificate table isn't the end of the file or begins before the sections' end, or an
    /// entry of it isn't whole.
    Table,
    /// There is no DER element, SignedData or certificate where one is needed.
    Der,
    /// Two sections are named `.sbat`.
    TwoSbat,
    /// A line of SBAT text is wrong. The place is its number from 1.
    SbatRow,
    /// The input passes a stated limit of size or count.
    TooLong,
    /// A device: a read failed or was interrupted, a port can't be opened, or a connection can't be
    /// accepted.
    Read,
    /// There is no signature list there. The place is its offset in bytes.
    List,
    /// A signature list's entries can't have the size that it gives. The place is its offset in
    /// bytes.
    EntrySize,
    /// A device: a write failed, was interrupted or took nothing.
    Write,
    /// A line isn't 64 hexadecimal digits. The place is its number from 1.
    Line,
    /// A CSV record is wrong. The place is its number; the header's is 0.
    CsvRow,
    /// Nobody has that name or token.
    UnknownCaller,
    /// The caller's role has no such command or read.
    NotYourRole,
    /// The caller used that key for another command.
    KeyReused,
    /// No request that the caller may see, or withdraw, has that number.
    NoSuchRequest,
    /// The request's state doesn't allow it.
    WrongState,
    /// Nobody reviews a request of their own.
    OwnRequest,
    /// The caller has reviewed the request already.
    AlreadyReviewed,
    /// The returned file isn't the image that was reviewed.
    DigestDiffers,
    /// The image is barred: revoked, or below the level.
    Revoked,
    /// Neither the image's digest nor a certificate that it carries is listed.
    NotListed,
    /// It is revoked already.
    AlreadyRevoked,
    /// The generation isn't above the current one, or can't be raised.
    NotHigher,
    /// The stamp is missing, or isn't above the current one.
    StampNotLater,
    /// It is listed already.
    AlreadyListed,
    /// It isn't listed.
    NotThere,
    /// The person's name or token is taken.
    NameTaken,
    /// The desk has reached a stated limit.
    Full,
    /// No proposal has that number.
    NoSuchProposal,
    /// Nobody confirms a proposal of their own.
    OwnProposal,
    /// The proposal was confirmed or dropped before.
    ProposalClosed,
    /// A device: memory was refused.
    NoMemory,
    /// A device: the database failed.
    Store,
    /// A device: the desk failed before, and must be opened again.
    Reopen,
    /// The database holds no desk; or it holds one of version 1, and a table, an index or a view
    /// with a name that version 2 adds.
    NotADesk,
    /// The database holds a desk of a version that this program doesn't know.
    Version,
    /// A device: a file can't be opened or made, isn't a database, or is in use.
    File,
    /// The database has a table, an index or a view with a name of the desk's already, so no desk
    /// is made in it.
    Exists,
    /// A line of minutes isn't the desk's, isn't what the rules give there, or isn't whole. The
    /// place is its number from 1.
    Minute,
    /// The desk in the database has another owner than the one given.
    Owner,
    /// The request or proposal of that number isn't the one that `If-Match` names.
    Mismatch,
    /// The head of an HTTP request is wrong or too long, or the request is cut short.
    BadHead,
    /// A field of an HTTP request is missing, wrong or given twice.
    BadField,
    /// The JSON body of an HTTP request is wrong.
    BadBody,
    /// No resource has that path.
    NoRoute,
    /// The resource doesn't have that method.
    BadMethod,
    /// The HTTP request has no Content-Length.
    LengthNeeded,
    /// The body of the HTTP request passes the resource's limit.
    TooLarge,
    /// The HTTP request has a Transfer-Encoding.
    NotSupported,
}

impl From<AllocError> for Refusal {
    ghost from_gives = { λ error refusal. refusal ≡ NoMemory };

    fn from(_error: AllocError) -> Refusal {
        Refusal::NoMemory
    }
}

impl Refusal {
    /// The number, by which programs know the refusal.
    pub fn number(self) -> u8
        ensures { result ≡ number_of self }
    {
        match self {
            Refusal::Short => 1,
            Refusal::NoMz => 2,
            Refusal::NoPe => 3,
            Refusal::Magic => 4,
            Refusal::NotEfi => 5,
            Refusal::Headers => 6,
            Refusal::Sections => 7,
            Refusal::Overlap => 8,
            Refusal::Table => 9,
            Refusal::Der => 10,
            Refusal::TwoSbat => 11,
            Refusal::SbatRow => 12,
            Refusal::TooLong => 13,
            Refusal::Read => 14,
            Refusal::List => 15,
            Refusal::EntrySize => 16,
            Refusal::Write => 17,
            Refusal::Line => 18,
            Refusal::CsvRow => 19,
            Refusal::UnknownCaller => 20,
            Refusal::NotYourRole => 21,
            Refusal::KeyReused => 22,
            Refusal::NoSuchRequest => 23,
            Refusal::WrongState => 24,
            Refusal::OwnRequest => 25,
            Refusal::AlreadyReviewed => 26,
            Refusal::DigestDiffers => 27,
            Refusal::Revoked => 28,
            Refusal::NotListed => 29,
            Refusal::AlreadyRevoked => 30,
            Refusal::NotHigher => 31,
            Refusal::StampNotLater => 32,
            Refusal::AlreadyListed => 33,
            Refusal::NotThere => 34,
            Refusal::NameTaken => 35,
            Refusal::Full => 36,
            Refusal::NoSuchProposal => 37,
            Refusal::OwnProposal => 38,
            Refusal::ProposalClosed => 39,
            Refusal::NoMemory => 40,
            Refusal::Store => 41,
            Refusal::Reopen => 42,
            Refusal::NotADesk => 43,
            Refusal::Version => 44,
            Refusal::File => 45,
            Refusal::Exists => 46,
            Refusal::Minute => 47,
            Refusal::Owner => 48,
            Refusal::Mismatch => 49,
            Refusal::BadHead => 50,
            Refusal::BadField => 51,
            Refusal::BadBody => 52,
            Refusal::NoRoute => 53,
            Refusal::BadMethod => 54,
            Refusal::LengthNeeded => 55,
            Refusal::TooLarge => 56,
            Refusal::NotSupported => 57,
        }
    }

    /// The name, by which people know the refusal.
    pub fn name(self) -> &'static str
        ensures { result.now ≡ name_of self }
    {
        match self {
            Refusal::Short => "Short",
            Refusal::NoMz => "NoMz",
            Refusal::NoPe => "NoPe",
            Refusal::Magic => "Magic",
            Refusal::NotEfi => "NotEfi",
            Refusal::Headers => "Headers",
            Refusal::Sections => "Sections",
            Refusal::Overlap => "Overlap",
            Refusal::Table => "Table",
            Refusal::Der => "Der",
            Refusal::TwoSbat => "TwoSbat",
            Refusal::SbatRow => "SbatRow",
            Refusal::TooLong => "TooLong",
            Refusal::Read => "Read",
            Refusal::List => "List",
            Refusal::EntrySize => "EntrySize",
            Refusal::Write => "Write",
            Refusal::Line => "Line",
            Refusal::CsvRow => "CsvRow",
            Refusal::UnknownCaller => "UnknownCaller",
            Refusal::NotYourRole => "NotYourRole",
            Refusal::KeyReused => "KeyReused",
            Refusal::NoSuchRequest => "NoSuchRequest",
            Refusal::WrongState => "WrongState",
            Refusal::OwnRequest => "OwnRequest",
            Refusal::AlreadyReviewed => "AlreadyReviewed",
            Refusal::DigestDiffers => "DigestDiffers",
            Refusal::Revoked => "Revoked",
            Refusal::NotListed => "NotListed",
            Refusal::AlreadyRevoked => "AlreadyRevoked",
            Refusal::NotHigher => "NotHigher",
            Refusal::StampNotLater => "StampNotLater",
            Refusal::AlreadyListed => "AlreadyListed",
            Refusal::NotThere => "NotThere",
            Refusal::NameTaken => "NameTaken",
            Refusal::Full => "Full",
            Refusal::NoSuchProposal => "NoSuchProposal",
            Refusal::OwnProposal => "OwnProposal",
            Refusal::ProposalClosed => "ProposalClosed",
            Refusal::NoMemory => "NoMemory",
            Refusal::Store => "Store",
            Refusal::Reopen => "Reopen",
            Refusal::NotADesk => "NotADesk",
            Refusal::Version => "Version",
            Refusal::File => "File",
            Refusal::Exists => "Exists",
            Refusal::Minute => "Minute",
            Refusal::Owner => "Owner",
            Refusal::Mismatch => "Mismatch",
            Refusal::BadHead => "BadHead",
            Refusal::BadField => "BadField",
            Refusal::BadBody => "BadBody",
            Refusal::NoRoute => "NoRoute",
            Refusal::BadMethod => "BadMethod",
            Refusal::LengthNeeded => "LengthNeeded",
            Refusal::TooLarge => "TooLarge",
            Refusal::NotSupported => "NotSupported",
        }
    }

    /// Whether a device failed: a read, a write, memory or the desk's file. Otherwise the input was
    /// refused.
    pub fn is_device(self) -> bool
        ensures { result ≡ is_device self }
    {
        match self {
            Refusal::Read
            | Refusal::Write
            | Refusal::NoMemory
            | Refusal::Store
            | Refusal::Reopen
            | Refusal::File => true,
            Refusal::Short
            | Refusal::NoMz
            | Refusal::NoPe
            | Refusal::Magic
            | Refusal::NotEfi
            | Refusal::Headers
            | Refusal::Sections
            | Refusal::Overlap
            | Refusal::Table
            | Refusal::Der
            | Refusal::TwoSbat
            | Refusal::SbatRow
            | Refusal::TooLong
            | Refusal::List
            | Refusal::EntrySize
            | Refusal::Line
            | Refusal::CsvRow
            | Refusal::UnknownCaller
            | Refusal::NotYourRole
            | Refusal::KeyReused
            | Refusal::NoSuchRequest
            | Refusal::WrongState
            | Refusal::OwnRequest
            | Refusal::AlreadyReviewed
            | Refusal::DigestDiffers
            | Refusal::Revoked
            | Refusal::NotListed
            | Refusal::AlreadyRevoked
            | Refusal::NotHigher
            | Refusal::StampNotLater
            | Refusal::AlreadyListed
            | Refusal::NotThere
            | Refusal::NameTaken
            | Refusal::Full
            | Refusal::NoSuchProposal
            | Refusal::OwnProposal
            | Refusal::ProposalClosed
            | Refusal::NotADesk
            | Refusal::Version
            | Refusal::Exists
            | Refusal::Minute
            | Refusal::Owner
            | Refusal::Mismatch
            | Refusal::BadHead
            | Refusal::BadField
            | Refusal::BadBody
            | Refusal::NoRoute
            | Refusal::BadMethod
            | Refusal::LengthNeeded
            | Refusal::TooLarge
            | Refusal::NotSupported => false,
        }
    }
}

impl fmt::Display for Refusal {
    ghost output = { λ refusal. Some (name_of refusal) };

    fn fmt<W: fmt::Write>(&self, f: &mut fmt::Formatter<W>) -> fmt::Result {
        f.write_str(self.name())
    }
}
