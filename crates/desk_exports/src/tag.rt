//! Entity tags.
ghost use Rattle.std.specs.Prelude.{◌≡◌, IfOk};
ghost use Rattle.desk_exports.specs.Tags.{tag_of};

use base::Digest;
use desk_types::{Import, import_text};
use sha2::{Digest as _, Sha256};
use std::alloc::{AllocError, Global};

/// The tag of a proposal that names this: the SHA-256 of the canonical text of the import that
/// names it. Takes memory for the text.
#[tactic(auto, unfolding(crate::specs::Tags::tag_of))]
pub fn proposal_tag(alloc: Global, named: &Import) -> Result<Digest, AllocError>
    ensures { IfOk result (λ tag. tag ≡ tag_of named.now) }
{
    let text = import_text(alloc, named)?;
    Ok(Digest::from(Sha256::digest(text.as_bytes())))
}
