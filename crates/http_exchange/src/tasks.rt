//! The task of a request with a body.
ghost use Rattle.std.specs.Prelude.{◌≡◌, IfErr, IfOk, Some};
ghost use Rattle.http_requests.specs.bodies.Bodies.{Refuses};
ghost use Rattle.http_exchange.specs.Tasks as spec;

use desk_exports::Octets;
use desk_types::{Command, Key};
use http_calls::Task;
use http_requests::{
    BodyFault, CommandAsked, JsonAsked, read_digest, read_explanation, read_level, read_review,
    read_unlist,
};
use std::alloc::Global;

/// The command that a JSON body says. Takes memory.
fn read_command(alloc: Global, asked: JsonAsked, body: &[u8]) -> Result<Command, BodyFault>
    ensures ok { IfOk result (λ command. spec.command_in asked body.now ≡ Some command) }
    ensures err { IfErr result (Refuses (spec.command_in asked body.now)) }
{
    match asked {
        JsonAsked::Review(request) => Ok(Command::Review(read_review(alloc, request, body)?)),
        JsonAsked::ListDigest => Ok(Command::ListDigest(read_digest(alloc, body)?)),
        JsonAsked::Unlist => Ok(Command::Unlist(read_unlist(alloc, body)?)),
        JsonAsked::RevokeDigest => Ok(Command::RevokeDigest(read_digest(alloc, body)?)),
        JsonAsked::RevokeCertificate => Ok(Command::RevokeCertificate(read_digest(alloc, body)?)),
        JsonAsked::RaiseLevel => Ok(Command::RaiseLevel(read_level(alloc, body)?)),
        JsonAsked::Explain(proposal) => {
            Ok(Command::Explain(read_explanation(alloc, proposal, body)?))
        }
    }
}

/// The task of a command with this body. BadBody where a JSON body doesn't say it. Takes memory
/// where the body is JSON.
pub(crate) fn task_with_body(
    alloc: Global,
    key: Key,
    asked: CommandAsked,
    body: Vec<u8>,
) -> Result<Task, BodyFault>
    ensures ok { IfOk result (λ task. spec.task_of key asked body.items ≡ Some task) }
    ensures err { IfErr result (Refuses (spec.task_of key asked body.items)) }
{
    match asked {
        CommandAsked::Whole(command) => Ok(Task::Command(key, command)),
        CommandAsked::Json(asked) => Ok(Task::Command(key, read_command(alloc, asked, &body)?)),
        CommandAsked::Bytes(asked) => Ok(Task::Bytes(key, asked, Octets::new(body))),
    }
}
