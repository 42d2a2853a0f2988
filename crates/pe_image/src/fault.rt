//! Reasons why an image has no layout.
ghost use Rattle.std.specs.Prelude.{◌≡◌};
ghost use Rattle.pe_image.specs.Faults.{read_failed, refusal_of};

use base::{ReadFailed, Refusal};
use thiserror::Error;

/// The first condition that an image fails, or a failed read.
#[derive(Clone, Copy, Debug, PartialEq, Eq, Error)]
pub enum LayoutFault {
    #[error("the file ends before a header that it needs")]
    Short,
    #[error("the file doesn't begin with MZ")]
    NoMz,
    #[error("there is no PE, 0, 0 where the u32 at 0x3C points")]
    NoPe,
    #[error("the optional header is neither PE32 nor PE32+")]
    Magic,
    #[error("Subsystem is none of EFI's, 10 to 13")]
    NotEfi,
    #[error("the headers' sizes don't fit one another or the file")]
    Headers,
    #[error("there are more than 96 sections, or one's raw data passes the file's end")]
    Sections,
    #[error("a section's raw data begins within the headers, or shares a byte with another's")]
    Overlap,
    #[error("the certificate table isn't the end of the file, or begins before the sections' end")]
    Table,
    #[error("two sections are named .sbat")]
    TwoSbat,
    #[error("the file, its certificate table or its .sbat text is too long")]
    TooLong,
    #[error("a read failed")]
    Read,
}

impl From<ReadFailed> for LayoutFault {
    ghost from_gives = { λ _ fault. fault ≡ read_failed };

    fn from(_: ReadFailed) -> LayoutFault {
        LayoutFault::Read
    }
}

impl LayoutFault {
    /// Its place in the table of refusals.
    pub fn refusal(self) -> Refusal
        ensures { result ≡ refusal_of self }
    {
        match self {
            LayoutFault::Short => Refusal::Short,
            LayoutFault::NoMz => Refusal::NoMz,
            LayoutFault::NoPe => Refusal::NoPe,
            LayoutFault::Magic => Refusal::Magic,
            LayoutFault::NotEfi => Refusal::NotEfi,
            LayoutFault::Headers => Refusal::Headers,
            LayoutFault::Sections => Refusal::Sections,
            LayoutFault::Overlap => Refusal::Overlap,
            LayoutFault::Table => Refusal::Table,
            LayoutFault::TwoSbat => Refusal::TwoSbat,
            LayoutFault::TooLong => Refusal::TooLong,
            LayoutFault::Read => Refusal::Read,
        }
    }
}
