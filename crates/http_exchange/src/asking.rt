//! A person's requests: reads, and commands and images with their bodies.
ghost use Rattle.std.specs.Prelude.{◌≡◌, ◌≢◌, Err, IfErr, IfOk, IfSome, MatchResult};
ghost use Rattle.http_requests.specs.Asked as asks;
ghost use Rattle.http_requests.specs.Tags.{tag_at};
ghost use Rattle.http_requests.specs.CheckedHead.{shown};
ghost use Rattle.http_requests.specs.declared.route.PostRoute.TheVariants.{Command, Image};
ghost use Rattle.http_exchange.specs.Asked as spec;
ghost use Rattle.http_exchange.specs.Bodies.{body_in};
ghost use Rattle.http_exchange.specs.Intakes.{IsCaused};
ghost use Rattle.http_exchange.specs.Refused.{refused_by_fields};
ghost use Rattle.http_exchange.specs.Unread.{IsOwn};
ghost use Rattle.http_exchange.specs.declared.intake.RequestReader.{RequestReader as Reading};

use crate::intake::RequestReader;
use crate::served::{CallOrRefusal, Unread};
use crate::tasks::task_with_body;
use desk_types::Person;
use http_calls::{Task, TaskAsked};
use http_requests::{
    AskedFault, BodyFault, CheckedHead, CommandRoute, GetRoute, ImageRoute, PostRoute, Route,
    command_asked, image_asked, read_asked, tag_asked,
};
use http_responses::{Outage, Refused};
use std::alloc::Global;
use std::io::Read;

/// The refusal of fields that have this fault.
fn refuse(fault: AskedFault) -> Result<CallOrRefusal, Unread>
    ensures refused { MatchResult result
        (λ due. (fault ≢ AskedFault.NoMemory) × (due ≡ Err (refused_by_fields fault)))
        (λ unread. unread ≡ Unread.Outage Outage.NoMemory) }
    ensures named { IfErr result IsOwn }
    ensures cause { (intake : Reading) → IsCaused intake intake result }
{
    match fault {
        AskedFault::BadField => Ok(Err(Refused::BadField)),
        AskedFault::NoSuchRequest => Ok(Err(Refused::NoSuchRequest)),
        AskedFault::NoSuchProposal => Ok(Err(Refused::NoSuchProposal)),
        AskedFault::NoRoute => Ok(Err(Refused::NoRoute)),
        AskedFault::NoMemory => Err(Unread::Outage(Outage::NoMemory)),
    }
}

/// The call of a person for a reading.
fn ask_to_read(
    person: Person,
    route: GetRoute,
    wanted: &CheckedHead<'_>,
) -> Result<CallOrRefusal, Unread>
    ensures asked { IfOk result (λ due.
        due ≡ spec.of_read person (asks.read_at route (shown wanted.now))) }
    ensures named { IfErr result IsOwn }
    ensures cause { (intake : Reading) → IsCaused intake intake result }
{
    match read_asked(route, wanted) {
        Ok(reading) => Ok(Ok(TaskAsked {
            person,
            tag: None,
            task: Task::Read(reading),
        })),
        Err(fault) => refuse(fault),
    }
}

/// The call of a person with the image that comes next.
fn ask_with_image<R: Read>(
    alloc: Global,
    person: Person,
    route: ImageRoute,
    wanted: &CheckedHead<'_>,
    reader: &mut R,
    intake: &mut RequestReader,
) -> Result<CallOrRefusal, Unread>
    ensures asked { IfOk result (λ due. IfSome (R.remaining reader.old) (λ rest.
        due ≡ spec.with_image person (asks.image_at route (shown wanted.now))
        (tag_at (Image route) (shown wanted.now)) (body_in wanted.now.size rest))) }
    ensures named { IfErr result IsOwn }
    ensures cause { IsCaused intake.old intake.new result }
{
    let Some(image) = intake.read_image(alloc, reader, wanted.size)? else {
        return Ok(Err(Refused::BadHead));
    };
    let asked = match image_asked(alloc, route, wanted) {
        Ok(asked) => asked,
        Err(fault) => return refuse(fault),
    };
    match tag_asked(PostRoute::Image(route), wanted) {
        Ok(tag) => Ok(Ok(TaskAsked {
            person,
            tag,
            task: Task::Image(asked, image),
        })),
        Err(fault) => refuse(fault),
    }
}

/// The command of a person with the body that comes next.
fn ask_with_body<R: Read>(
    alloc: Global,
    person: Person,
    route: CommandRoute,
    wanted: &CheckedHead<'_>,
    reader: &mut R,
    intake: &mut RequestReader,
) -> Result<CallOrRefusal, Unread>
    ensures asked { IfOk result (λ due. IfSome (R.remaining reader.old) (λ rest.
        due ≡ spec.with_body person (asks.keyed_at route (shown wanted.now))
        (tag_at (Command route) (shown wanted.now)) (body_in wanted.now.size rest))) }
    ensures named { IfErr result IsOwn }
    ensures cause { IsCaused intake.old intake.new result }
{
    let Some(body) = intake.read_bytes(alloc, reader, wanted.size)? else {
        return Ok(Err(Refused::BadHead));
    };
    let keyed = match command_asked(alloc, route, wanted) {
        Ok(keyed) => keyed,
        Err(fault) => return refuse(fault),
    };
    let tag = match tag_asked(PostRoute::Command(route), wanted) {
        Ok(tag) => tag,
        Err(fault) => return refuse(fault),
    };
    match task_with_body(alloc, keyed.key, keyed.asked, body) {
        Ok(task) => Ok(Ok(TaskAsked { person, tag, task })),
        Err(BodyFault::BadBody) => Ok(Err(Refused::BadBody)),
        Err(BodyFault::NoMemory) => Err(Unread::Outage(Outage::NoMemory)),
    }
}

/// The call of a person with the body that comes next. For a GET nothing more is read.
pub(crate) fn ask<R: Read>(
    alloc: Global,
    person: Person,
    wanted: &CheckedHead<'_>,
    reader: &mut R,
    intake: &mut RequestReader,
) -> Result<CallOrRefusal, Unread>
    ensures asked { IfOk result (λ due. IfSome (R.remaining reader.old) (λ rest.
        due ≡ spec.of_route person (shown wanted.now) rest wanted.now.route)) }
    ensures named { IfErr result IsOwn }
    ensures cause { IsCaused intake.old intake.new result }
{
    match wanted.route {
        Route::Get(route) => ask_to_read(person, route, wanted),
        Route::Post(PostRoute::Image(route)) => {
            ask_with_image(alloc, person, route, wanted, reader, intake)
        }
        Route::Post(PostRoute::Command(route)) => {
            ask_with_body(alloc, person, route, wanted, reader, intake)
        }
    }
}
