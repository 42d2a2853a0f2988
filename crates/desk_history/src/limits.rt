//! Limits of a desk.
/// The most people of a desk.
pub const MOST_PEOPLE: usize = 1_000;
/// The most requests of a desk.
pub const MOST_REQUESTS: usize = 100_000;
/// The most proposals of a desk, closed ones included.
pub const MOST_PROPOSALS: usize = 100_000;
/// The most listed entries of a desk, image digests and certificates together.
pub const MOST_LISTED: usize = 10_000;
/// The most revoked image digests of a desk.
pub const MOST_REVOKED_DIGESTS: usize = 100_000;
/// The most revoked certificates of a desk.
pub const MOST_REVOKED_CERTIFICATES: usize = 10_000;
/// The most components of a desk's SBAT level.
pub const MOST_LEVEL_COMPONENTS: usize = 10_000;
/// The most calls that a desk accepts.
pub const MOST_CALLS: usize = 1_000_000;
