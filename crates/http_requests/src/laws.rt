//! Laws of the definitions that this crate's contracts cite.
ghost use Rattle.std.specs.Prelude.{◌≡◌, ℕ, List, None, Some, codes, length};
ghost use Rattle.hex.specs.Hex.{IsBytes};
ghost use Rattle.http_requests.specs.Paths.{get, post_command, post_image, resource_of};
ghost use Rattle.http_requests.specs.Tags.{digest_in_tag, entity_tag};
ghost use Rattle.http_requests.specs.declared.resource.Resource.TheVariants.{GetAndPost};
ghost use Rattle.http_requests.specs.declared.route.GetRoute.TheVariants as read;
ghost use Rattle.http_requests.specs.declared.route.PostRoute.TheVariants.{Command, Image};
ghost use Rattle.http_requests.specs.declared.route.ImageRoute.TheVariants as image;
ghost use Rattle.http_requests.specs.declared.route.CommandRoute.TheVariants as command;

/// The paths of requests are found, even if a part isn't a request's number.
pub fn paths_of_requests_are_found()
    ensures requests { resource_of (codes "/requests")
        ≡ Some (GetAndPost read.Requests (Image image.Submit)) }
    ensures request { resource_of (codes "/requests/12") ≡ Some (get read.Request) }
    ensures review { resource_of (codes "/requests/12/review")
        ≡ Some (post_command command.Review) }
    ensures withdraw { resource_of (codes "/requests/12/withdraw")
        ≡ Some (post_command command.Withdraw) }
    ensures handback { resource_of (codes "/requests/12/return") ≡ Some (post_image image.Return) }
    ensures no_number { resource_of (codes "/requests/x/review")
        ≡ Some (post_command command.Review) }
{}

/// The paths of proposals are found, even if a part isn't a proposal's number.
pub fn paths_of_proposals_are_found()
    ensures proposals { resource_of (codes "/proposals") ≡ Some (get read.Proposals) }
    ensures proposal { resource_of (codes "/proposals/12") ≡ Some (get read.Proposal) }
    ensures impact { resource_of (codes "/proposals/12/impact") ≡ Some (get read.Impact) }
    ensures confirm { resource_of (codes "/proposals/12/confirm")
        ≡ Some (post_command command.Confirm) }
    ensures drop { resource_of (codes "/proposals/12/drop") ≡ Some (post_command command.Drop) }
    ensures explain { resource_of (codes "/proposals/12/explain")
        ≡ Some (post_command command.Explain) }
    ensures no_number { resource_of (codes "/proposals/x/confirm")
        ≡ Some (post_command command.Confirm) }
{}

/// The paths of the lists are found.
pub fn paths_of_lists_are_found()
    ensures db { resource_of (codes "/db") ≡ Some (get read.Db) }
    ensures db_certificates { resource_of (codes "/db/certificates")
        ≡ Some (post_command command.ListCertificate) }
    ensures db_digests { resource_of (codes "/db/digests")
        ≡ Some (post_command command.ListDigest) }
    ensures db_unlist { resource_of (codes "/db/unlist") ≡ Some (post_command command.Unlist) }
    ensures dbx { resource_of (codes "/dbx") ≡ Some (get read.Dbx) }
    ensures dbx_digests { resource_of (codes "/dbx/digests")
        ≡ Some (post_command command.RevokeDigest) }
    ensures dbx_certificates { resource_of (codes "/dbx/certificates")
        ≡ Some (post_command command.RevokeCertificate) }
{}

/// All other paths are found.
pub fn other_paths_are_found()
    ensures level { resource_of (codes "/level")
        ≡ Some (GetAndPost read.Level (Command command.RaiseLevel)) }
    ensures imports_dbx { resource_of (codes "/imports/dbx")
        ≡ Some (post_command command.ImportDbx) }
    ensures imports_csv { resource_of (codes "/imports/csv")
        ≡ Some (post_command command.ImportCsv) }
    ensures imports_level { resource_of (codes "/imports/level")
        ≡ Some (post_command command.ImportLevel) }
    ensures verdict { resource_of (codes "/verdict") ≡ Some (post_image image.Verdict) }
    ensures facts { resource_of (codes "/facts") ≡ Some (post_image image.Facts) }
    ensures report { resource_of (codes "/report") ≡ Some (get read.Report) }
{}

/// The paths of the minutes, of people and of the caller are found.
pub fn paths_of_records_are_found()
    ensures minutes { resource_of (codes "/minutes/12") ≡ Some (get read.Minutes) }
    ensures last { resource_of (codes "/minutes/1000000") ≡ Some (get read.Minutes) }
    ensures people { resource_of (codes "/people") ≡ Some (get read.People) }
    ensures me { resource_of (codes "/me") ≡ Some (get read.Me) }
{}

/// The paths of parts of lists, of requests by a digest in either case, of what waits and of the
/// number of changes are found; `from` or `with` alone stands in the place of a request's number.
pub fn paths_of_parts_are_found()
    ensures requests { resource_of (codes "/requests/from/12") ≡ Some (get read.RequestsFrom) }
    ensures digest { resource_of
        (codes "/requests/with/0123456789abcdef0123456789abcdef0123456789abcdef0123456789abcdef")
        ≡ Some (get read.RequestsWith) }
    ensures upper_case { resource_of
        (codes "/requests/with/0123456789ABCDEF0123456789ABCDEF0123456789ABCDEF0123456789ABCDEF")
        ≡ Some (get read.RequestsWith) }
    ensures proposals { resource_of (codes "/proposals/from/1000000")
        ≡ Some (get read.ProposalsFrom) }
    ensures waiting { resource_of (codes "/waiting") ≡ Some (get read.Waiting) }
    ensures changes { resource_of (codes "/changes") ≡ Some (get read.Changes) }
    ensures no_number { resource_of (codes "/requests/from") ≡ Some (get read.Request) }
    ensures no_digest { resource_of (codes "/requests/with") ≡ Some (get read.Request) }
{}

/// A path isn't found with a query, with a slash at its end, or with an empty part, none of the
/// minutes or of a part of a list with a part that isn't such a number, and none of requests by a
/// digest with a part that isn't one.
pub fn no_other_path_is_found()
    ensures query { resource_of (codes "/level?x") ≡ None }
    ensures end { resource_of (codes "/level/") ≡ None }
    ensures no_part { resource_of (codes "/requests/") ≡ None }
    ensures no_digit { resource_of (codes "/minutes/x") ≡ None }
    ensures leading_zero { resource_of (codes "/minutes/012") ≡ None }
    ensures eight_digits { resource_of (codes "/minutes/12345678") ≡ None }
    ensures from_no_digit { resource_of (codes "/requests/from/review") ≡ None }
    ensures from_zero { resource_of (codes "/proposals/from/0") ≡ None }
    ensures with_63_digits { resource_of
        (codes "/requests/with/0123456789abcdef0123456789abcdef0123456789abcdef0123456789abcde")
        ≡ None }
{}

/// An entity tag is read as its digest, and no other text is.
pub fn tags_are_read_alone()
    ensures found { (digest : List ℕ) → length digest ≡ 32 → IsBytes digest
        → digest_in_tag (entity_tag digest) ≡ Some digest }
    ensures only { (text digest : List ℕ) → digest_in_tag text ≡ Some digest
        → text ≡ entity_tag digest }
{}
