//! The layout of EFI images, and the ranges of them that Authenticode hashes.
#![tactic(auto)]

mod certificates;
mod extent;
mod fault;
mod field;
mod front;
mod header;
mod laws;
mod layout_reading;
mod listing;
mod number;
mod optional;
mod passes;
mod pieces;
mod places;
mod sbat;
mod sections;
mod source;
mod span;
mod span_list;
mod spans;
mod start;

pub use base::ReadFailed;
pub use extent::Extent;
pub use fault::LayoutFault;
pub use laws::{hashes_all_else, no_slice_fails, none_fails_where_laid, sections_are_in_order};
pub use layout_reading::layout;
pub use listing::ranges;
pub use passes::{first_pass, second_pass};
pub use pieces::{PIECE, Pieces, PiecesFault};
pub use places::{Layout, gap, lengths, sbat_range, table};
pub use source::{Bytes, Source};
pub use span::Span;
pub use span_list::Ranges;
