//! The table of paths.
ghost use Rattle.std.specs.Prelude.{◌≡◌, IfOk, OnOk};
ghost use Rattle.http_requests.specs.Paths.{added, get, if_taken, listed_at, post_command};
ghost use Rattle.http_requests.specs.Paths.{post_image, read_if_taken, resource_of, table};
ghost use Rattle.http_requests.specs.Paths.{with_images, with_lists, with_parts, with_proposals};
ghost use Rattle.http_requests.specs.Paths.{with_records, with_requests, with_rest};

use crate::{CommandRoute, GetRoute, ImageRoute, PostRoute, Resource};
use matchit::{InsertError, Router};
use std::alloc::{AllocError, Global};
use std::marker::Model;

/// The table of paths, made once for all requests.
pub struct Routes {
    router: Router<Resource>,
}

// It is written out, so that a caller does not prove again how a router is dropped.
impl Drop for Routes {
    fn drop(self) {
        let Routes { router: _ } = self;
    }
}

impl Model for Routes {
    ghost Value = { Unit {0} };

    ghost view = { λ _. tt };

    ghost invariant = { λ routes. routes.router ≡ table };
}

impl Routes {
    /// Makes the table. Takes memory, and fails only where it is refused.
    pub fn new(alloc: Global) -> Result<Routes, AllocError> {
        match router(alloc) {
            Ok(router) => Ok(Routes { router }),
            Err(_) => Err(AllocError),
        }
    }

    /// The resource at a target in the table. `matchit` matches it byte by byte, a query and
    /// percent signs included.
    #[tactic(auto, unfolding(crate::specs::Paths::listed_at))]
    fn listed_at(&self, target: &str) -> Option<Resource>
        ensures { result ≡ listed_at target.now }
    {
        match self.router.at(target) {
            Ok(found) => Some(*found.value),
            Err(_) => None,
        }
    }

    /// The resource of a request's target, if the target is a path of the table whose route takes
    /// the target's part.
    pub(crate) fn resource_of(&self, target: &str) -> Option<Resource>
        ensures { result ≡ resource_of target.now }
    {
        match self.listed_at(target) {
            Some(resource) => if_taken(target.as_bytes(), resource),
            None => None,
        }
    }
}

/// The route of GET at a target, if it takes the target's part.
fn read_if_taken(target: &[u8], route: GetRoute) -> Option<Resource>
    ensures { result ≡ read_if_taken target.now route }
{
    if route.takes(route.part(target)) {
        Some(Resource::Get(route))
    } else {
        None
    }
}

/// The resource at a target. One of GET alone must take the target's part.
fn if_taken(target: &[u8], resource: Resource) -> Option<Resource>
    ensures { result ≡ if_taken target.now resource }
{
    match resource {
        Resource::Get(route) => read_if_taken(target, route),
        Resource::Post(_) | Resource::GetAndPost(_, _) => Some(resource),
    }
}

/// The whole table.
fn router(alloc: Global) -> Result<Router<Resource>, InsertError>
    ensures { IfOk result (λ router. router ≡ table) }
{
    let mut router = Router::new(alloc);
    add_requests(&mut router)?;
    add_images(&mut router)?;
    add_proposals(&mut router)?;
    add_lists(&mut router)?;
    add_rest(&mut router)?;
    add_records(&mut router)?;
    add_parts(&mut router)?;
    Ok(router)
}

/// The paths of requests.
fn add_requests(router: &mut Router<Resource>) -> Result<(), InsertError>
    ensures { OnOk result (router.new ≡ with_requests router.old) }
{
    let submit = PostRoute::Image(ImageRoute::Submit);
    add(
        router,
        "/requests",
        Resource::GetAndPost(GetRoute::Requests, submit),
    )?;
    add_get(router, "/requests/{no}", GetRoute::Request)?;
    add_command(router, "/requests/{no}/review", CommandRoute::Review)?;
    add_command(router, "/requests/{no}/withdraw", CommandRoute::Withdraw)?;
    add_image(router, "/requests/{no}/return", ImageRoute::Return)?;
    Ok(())
}

/// The paths of images that no request has.
fn add_images(router: &mut Router<Resource>) -> Result<(), InsertError>
    ensures { OnOk result (router.new ≡ with_images router.old) }
{
    add_image(router, "/verdict", ImageRoute::Verdict)?;
    add_image(router, "/facts", ImageRoute::Facts)?;
    Ok(())
}

/// The paths of proposals.
fn add_proposals(router: &mut Router<Resource>) -> Result<(), InsertError>
    ensures { OnOk result (router.new ≡ with_proposals router.old) }
{
    add_get(router, "/proposals", GetRoute::Proposals)?;
    add_get(router, "/proposals/{no}", GetRoute::Proposal)?;
    add_get(router, "/proposals/{no}/impact", GetRoute::Impact)?;
    add_command(router, "/proposals/{no}/confirm", CommandRoute::Confirm)?;
    add_command(router, "/proposals/{no}/drop", CommandRoute::Drop)?;
    add_command(router, "/proposals/{no}/explain", CommandRoute::Explain)?;
    Ok(())
}

/// The paths of what is listed and revoked.
fn add_lists(router: &mut Router<Resource>) -> Result<(), InsertError>
    ensures { OnOk result (router.new ≡ with_lists router.old) }
{
    add_get(router, "/db", GetRoute::Db)?;
    add_command(router, "/db/certificates", CommandRoute::ListCertificate)?;
    add_command(router, "/db/digests", CommandRoute::ListDigest)?;
    add_command(router, "/db/unlist", CommandRoute::Unlist)?;
    add_get(router, "/dbx", GetRoute::Dbx)?;
    add_command(router, "/dbx/digests", CommandRoute::RevokeDigest)?;
    Ok(())
}

/// All other paths.
fn add_rest(router: &mut Router<Resource>) -> Result<(), InsertError>
    ensures { OnOk result (router.new ≡ with_rest router.old) }
{
    let raise = PostRoute::Command(CommandRoute::RaiseLevel);
    add_command(router, "/dbx/certificates", CommandRoute::RevokeCertificate)?;
    add(
        router,
        "/level",
        Resource::GetAndPost(GetRoute::Level, raise),
    )?;
    add_command(router, "/imports/dbx", CommandRoute::ImportDbx)?;
    add_command(router, "/imports/csv", CommandRoute::ImportCsv)?;
    add_command(router, "/imports/level", CommandRoute::ImportLevel)?;
    add_get(router, "/report", GetRoute::Report)?;
    Ok(())
}

/// The paths of the minutes, of people and of the caller.
fn add_records(router: &mut Router<Resource>) -> Result<(), InsertError>
    ensures { OnOk result (router.new ≡ with_records router.old) }
{
    add_get(router, "/minutes/{no}", GetRoute::Minutes)?;
    add_get(router, "/people", GetRoute::People)?;
    add_get(router, "/me", GetRoute::Me)?;
    Ok(())
}

/// The paths of parts of lists, of requests by a digest, of what waits and of the number of
/// changes.
fn add_parts(router: &mut Router<Resource>) -> Result<(), InsertError>
    ensures { OnOk result (router.new ≡ with_parts router.old) }
{
    add_get(router, "/requests/from/{no}", GetRoute::RequestsFrom)?;
    add_get(router, "/requests/with/{digest}", GetRoute::RequestsWith)?;
    add_get(router, "/proposals/from/{no}", GetRoute::ProposalsFrom)?;
    add_get(router, "/waiting", GetRoute::Waiting)?;
    add_get(router, "/changes", GetRoute::Changes)?;
    Ok(())
}

/// A path that has GET alone.
fn add_get(router: &mut Router<Resource>, path: &str, route: GetRoute) -> Result<(), InsertError>
    ensures { OnOk result (router.new ≡ added path.now (get route) router.old) }
{
    add(router, path, Resource::Get(route))
}

/// A path that has POST alone, with an image.
fn add_image(
    router: &mut Router<Resource>,
    path: &str,
    route: ImageRoute,
) -> Result<(), InsertError>
    ensures { OnOk result (router.new ≡ added path.now (post_image route) router.old) }
{
    add(router, path, Resource::Post(PostRoute::Image(route)))
}

/// A path that has POST alone, of a command.
fn add_command(
    router: &mut Router<Resource>,
    path: &str,
    route: CommandRoute,
) -> Result<(), InsertError>
    ensures { OnOk result (router.new ≡ added path.now (post_command route) router.old) }
{
    add(router, path, Resource::Post(PostRoute::Command(route)))
}

/// One path.
fn add(router: &mut Router<Resource>, path: &str, resource: Resource) -> Result<(), InsertError>
    ensures { OnOk result (router.new ≡ added path.now resource router.old) }
{
    router.insert(path, resource)
}
