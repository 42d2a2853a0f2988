//! The outcome of a served connection.
ghost use Rattle.std.specs.Prelude.{◌≡◌, IfErr, IfSome};
ghost use Rattle.http_net.specs.Faults.{IsAnsweringRefusal, IsLasting};
ghost use Rattle.http_net.specs.Served as spec;

use base::Refusal;
use http_exchange::{Answered, HttpFault, Said, Served};
use http_responses::Outage;

/// The refusal after which the desk has to be opened again, where a response says so.
fn lasting_refusal(answered: Answered) -> Option<Refusal>
    ensures value { result ≡ spec.lasting answered.said }
    ensures named { IfSome result IsLasting }
{
    let Said::Unavailable(outage) = answered.said else {
        return None;
    };
    match outage {
        Outage::Store => Some(Refusal::Store),
        Outage::Reopen => Some(Refusal::Reopen),
        Outage::NoMemory | Outage::NotADesk => None,
    }
}

/// What ends the program that serves one connection after another.
pub(crate) fn ending_refusal(served: Result<Served, HttpFault>) -> Option<Refusal>
    ensures { result ≡ spec.ending_of served }
{
    match served {
        Ok(Served::Nothing) => None,
        Ok(Served::Answered(answered)) => lasting_refusal(answered),
        Err(HttpFault::Read | HttpFault::Write | HttpFault::NoMemory) => None,
    }
}

/// The outcome of a program that serves one request. Store, Reopen: the desk has to be opened
/// again. Read, Write, NoMemory: the request itself was stopped.
pub fn outcome(served: Result<Served, HttpFault>) -> Result<(), Refusal>
    ensures value { result ≡ spec.outcome_of served }
    ensures named { IfErr result IsAnsweringRefusal }
{
    match served {
        Ok(Served::Nothing) => Ok(()),
        Ok(Served::Answered(answered)) => match lasting_refusal(answered) {
            None => Ok(()),
            Some(refusal) => Err(refusal),
        },
        Err(HttpFault::Read) => Err(Refusal::Read),
        Err(HttpFault::Write) => Err(Refusal::Write),
        Err(HttpFault::NoMemory) => Err(Refusal::NoMemory),
    }
}
