//! Routes: a path and a method.
ghost use Rattle.std.specs.Prelude.{◌≡◌};
ghost use Rattle.http_requests.specs.Routes as spec;

use crate::target::{minute_number, second_part, third_part};
use base::{Digest, LONGEST_IMAGE};

/// The most bytes of a body that isn't an image: 4 MiB.
const LONGEST_BODY: u64 = 4_194_304;

/// The route of a request: a path with one of its methods.
#[derive(Clone, Copy, Debug, PartialEq, Eq)]
pub enum Route {
    Get(GetRoute),
    Post(PostRoute),
}

/// A route of GET. `{no}` stands for the number of a request, of a proposal or of a minute,
/// `{digest}` for 64 hexadecimal digits.
#[derive(Clone, Copy, Debug, PartialEq, Eq)]
pub enum GetRoute {
    /// `/requests`
    Requests,
    /// `/requests/{no}`
    Request,
    /// `/requests/from/{no}`
    RequestsFrom,
    /// `/requests/with/{digest}`
    RequestsWith,
    /// `/proposals`
    Proposals,
    /// `/proposals/{no}`
    Proposal,
    /// `/proposals/{no}/impact`
    Impact,
    /// `/proposals/from/{no}`
    ProposalsFrom,
    /// `/waiting`
    Waiting,
    /// `/changes`
    Changes,
    /// `/dbx`
    Dbx,
    /// `/db`
    Db,
    /// `/level`
    Level,
    /// `/report`
    Report,
    /// `/minutes/{no}`
    Minutes,
    /// `/people`
    People,
    /// `/me`
    Me,
}

/// A route of POST, by the content that it takes.
#[derive(Clone, Copy, Debug, PartialEq, Eq)]
pub enum PostRoute {
    Image(ImageRoute),
    Command(CommandRoute),
}

/// A route for an image. `{no}` stands for a request's number.
#[derive(Clone, Copy, Debug, PartialEq, Eq)]
pub enum ImageRoute {
    /// `/requests`: a new request, for this image.
    Submit,
    /// `/requests/{no}/return`: the signed image.
    Return,
    /// `/verdict`
    Verdict,
    /// `/facts`
    Facts,
}

/// A route for a command whose content isn't an image. `{no}` stands for the number of a request or
/// of a proposal.
#[derive(Clone, Copy, Debug, PartialEq, Eq)]
pub enum CommandRoute {
    /// `/requests/{no}/review`, with a vote and a note.
    Review,
    /// `/requests/{no}/withdraw`; the content has no effect.
    Withdraw,
    /// `/db/certificates`, with a certificate's bytes.
    ListCertificate,
    /// `/db/digests`, with a digest.
    ListDigest,
    /// `/db/unlist`, with a digest and a kind.
    Unlist,
    /// `/dbx/digests`, with a digest.
    RevokeDigest,
    /// `/dbx/certificates`, with a digest.
    RevokeCertificate,
    /// `/level`, with a component, a generation and a stamp.
    RaiseLevel,
    /// `/imports/dbx`, with signature lists.
    ImportDbx,
    /// `/imports/csv`, with CSV.
    ImportCsv,
    /// `/imports/level`, with a level's text.
    ImportLevel,
    /// `/proposals/{no}/confirm`; the content has no effect.
    Confirm,
    /// `/proposals/{no}/drop`; the content has no effect.
    Drop,
    /// `/proposals/{no}/explain`, with a reason.
    Explain,
}

impl Route {
    /// The part of a target that `{no}` or `{digest}` stands for where the route's path has it.
    pub(crate) fn part(self, target: &[u8]) -> &[u8]
        ensures { result.now ≡ spec.part_of self target.now }
    {
        match self {
            Route::Get(route) => route.part(target),
            Route::Post(_) => second_part(target),
        }
    }
}

impl GetRoute {
    /// The part of a target that `{no}` or `{digest}` stands for where the route's path has it.
    pub(crate) fn part(self, target: &[u8]) -> &[u8]
        ensures { result.now ≡ spec.part_read self target.now }
    {
        match self {
            GetRoute::RequestsFrom | GetRoute::RequestsWith | GetRoute::ProposalsFrom => {
                third_part(target)
            }
            GetRoute::Requests
            | GetRoute::Request
            | GetRoute::Proposals
            | GetRoute::Proposal
            | GetRoute::Impact
            | GetRoute::Waiting
            | GetRoute::Changes
            | GetRoute::Dbx
            | GetRoute::Db
            | GetRoute::Level
            | GetRoute::Report
            | GetRoute::Minutes
            | GetRoute::People
            | GetRoute::Me => second_part(target),
        }
    }

    /// Whether the route's path is found with this part: the minutes and the parts of lists need a
    /// number to read from, and a digest must be one; the others are found with any.
    pub(crate) fn takes(self, part: &[u8]) -> bool
        ensures { result ≡ spec.takes self part.now }
    {
        match self {
            GetRoute::RequestsFrom | GetRoute::ProposalsFrom | GetRoute::Minutes => {
                minute_number(part).is_some()
            }
            GetRoute::RequestsWith => Digest::parse(part).is_ok(),
            GetRoute::Requests
            | GetRoute::Request
            | GetRoute::Proposals
            | GetRoute::Proposal
            | GetRoute::Impact
            | GetRoute::Waiting
            | GetRoute::Changes
            | GetRoute::Dbx
            | GetRoute::Db
            | GetRoute::Level
            | GetRoute::Report
            | GetRoute::People
            | GetRoute::Me => true,
        }
    }
}

impl PostRoute {
    /// The most bytes of a body: `LONGEST_IMAGE` for an image, otherwise `LONGEST_BODY`.
    pub(crate) fn limit(self) -> u64
        ensures { result ≡ spec.limit_of self }
    {
        match self {
            PostRoute::Image(_) => LONGEST_IMAGE,
            PostRoute::Command(_) => LONGEST_BODY,
        }
    }
}
