//! Facts of an image.
ghost use Rattle.std.specs.Prelude.{◌≡◌};

use crate::carried::Carried;
use base::Digest;
use pe_image::Extent;
use sbat::Components;
use std::alloc::AllocError;

/// The facts of an image that the desk keeps: the lengths of its file and of its gap, the SHA-256
/// of the file, its Authenticode digest and the digest that a signature of it holds, the
/// certificates that it carries and its SBAT components.
#[derive(Debug, Drop)]
pub struct Facts {
    pub extent: Extent,
    pub file: Digest,
    pub digest: Digest,
    pub signing: Digest,
    pub carried: Carried,
    pub components: Components,
}

impl Clone for Facts {
    ghost is_clone = { λ facts copy. copy ≡ facts };

    /// A copy. Takes memory for its certificates and components.
    fn clone(&self) -> Result<Facts, AllocError> {
        let carried = self.carried.clone()?;
        let components = self.components.clone()?;
        Ok(Facts {
            extent: self.extent,
            file: self.file,
            digest: self.digest,
            signing: self.signing,
            carried,
            components,
        })
    }
}
