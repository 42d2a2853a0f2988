//! A call, by its borrowed parts.
use desk_types::{Caller, Command, Key};
use std::marker::Model;

/// A call whose parts are borrowed: a command, its caller, and the key under which the caller gives
/// it. Contracts see the call.
#[derive(Drop)]
pub struct CallRef<'a> {
    pub caller: &'a Caller,
    pub key: &'a Key,
    pub command: &'a Command,
}

impl<'a> Model for CallRef<'a> {
    ghost use Rattle.desk_types.specs.declared.command.Call.{Call};
    ghost use Rattle.desk_history.specs.Called.{called};

    ghost Value = { Call };

    ghost view = { λ c. called c.caller.now c.key.now c.command.now };
}
