//! Laws of a desk's life: the effect of its openings and its calls.
ghost use Rattle.store_desk.specs.Living.{BeginsLiving, GoesOnLiving, LivesAgain, MayEndLiving};
ghost use Rattle.store_desk.specs.Living.{MayStopLiving};

use crate::desk::Desk;
use sqlite::Alter;

/// A new desk begins the first life, an opened one the next; whenever no call is running, a stop
/// leaves what such lives may leave.
pub fn openings_begin_lives<S: Alter>(desk: &Desk<S>)
    ensures first { BeginsLiving S.Store desk.now }
    ensures next { LivesAgain S.Store desk.now }
    ensures rest { MayStopLiving S.Store desk.now }
{
    let _ = desk;
}

/// A call adds one event to its desk's life, by the clauses of `Desk::apply`: after an answer or a
/// refusal the desk lives on; whatever the call's outcome, a stop at its end leaves what the lives
/// with this call may leave.
pub fn calls_make_lives<S: Alter>(old: &Desk<S>, new: &Desk<S>)
    ensures on { GoesOnLiving S.Store old.now new.now }
    ensures end { MayEndLiving S.Store old.now new.now }
{
    let _ = old;
    let _ = new;
}
