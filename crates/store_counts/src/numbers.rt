//! Counts.
use sbat::Stamp;

/// The number of requests, and of those in each state.
#[derive(Clone, Copy, Debug, PartialEq, Eq)]
pub struct RequestCounts {
    pub all: u64,
    /// Neither approved nor rejected, nor withdrawn.
    pub still_open: u64,
    pub approved: u64,
    pub rejected: u64,
    pub withdrawn: u64,
    pub signed: u64,
}

/// The number of digests of images, and of certificates.
#[derive(Clone, Copy, Debug, PartialEq, Eq)]
pub struct KindCounts {
    pub digests: u64,
    pub certificates: u64,
}

/// The numbers of listed and of revoked entries, and the level: the number of components that it
/// names apart from `sbat`, and its stamp.
#[derive(Clone, Copy, Debug, PartialEq, Eq)]
pub struct ListCounts {
    pub listed: KindCounts,
    pub revoked: KindCounts,
    pub components: u64,
    pub stamp: Stamp,
}

/// All counts of a desk.
#[derive(Clone, Copy, Debug, PartialEq, Eq)]
pub struct Counts {
    pub people: u64,
    /// The accepted calls, each key once.
    pub calls: u64,
    pub requests: RequestCounts,
    pub lists: ListCounts,
}
