//! Limits that several crates hold to.

/// The most bytes of an image's file: 128 MiB.
pub const LONGEST_IMAGE: u64 = 134_217_728;

/// The most different certificates that an image carries.
pub const MOST_CERTIFICATES: usize = 64;

/// The most components of an image.
pub const MOST_COMPONENTS: usize = 256;
