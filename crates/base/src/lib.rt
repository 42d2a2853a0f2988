//! Bytes that all crates share: the table of refusals, GUIDs, digests, DER elements, lines,
//! numbers, limits, input and output.
#![tactic(auto)]

mod certificate;
mod der;
mod digest;
mod elements;
mod guid;
mod input;
mod laws;
mod length_form;
mod limits;
mod line;
mod number;
mod order;
mod output;
mod parting;
mod refusal;
mod watch;

pub use certificate::tbs;
pub use der::{Element, NotDer};
pub use digest::{BadDigest, Digest};
pub use elements::element;
pub use guid::{BadGuid, Guid};
pub use input::{InputFault, read_all, read_up_to};
pub use laws::{
    arranged_is_one, digest_text_reads_back, element_is_one, element_is_read, guid_text_is_one,
    guid_texts_differ, refusal_numbers_differ, tbs_is_one,
};
pub use limits::{LONGEST_IMAGE, MOST_CERTIFICATES, MOST_COMPONENTS};
pub use line::{Line, Parted};
pub use number::{u16_at, u32_at};
pub use order::arrange;
pub use output::{WriteFailed, put, put_each};
pub use parting::parted;
pub use refusal::Refusal;
pub use watch::{ReadFailed, Watch};
