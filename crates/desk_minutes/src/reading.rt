//! Lines of minutes, read.
ghost use Rattle.std.specs.Prelude.{◌≡◌, ◌≢◌, IfOk, IsErrOf, bytes_eq, decimal, true};
ghost use Rattle.desk_types.specs.Callers.{is_told_by_name};
ghost use Rattle.desk_types.specs.Formed.{IsCall};
ghost use Rattle.desk_types.specs.declared.command.Call.{Call};
ghost use Rattle.desk_types.specs.declared.reply.Reply.{Reply};
ghost use Rattle.desk_minutes.specs.Fields.{IsCallOf};
ghost use Rattle.desk_minutes.specs.Lines.{IsTold, line_with};

use crate::fields::{Fields, fields_of};
use desk_types::{Call, Caller, Command, Key, Reply, TextFault};
use itoa::Buffer;
use std::alloc::Global;

/// What a line of minutes tells: a call that was accepted, and its reply.
#[derive(Drop)]
pub struct MinuteRead {
    pub call: Call,
    pub reply: Reply,
}

/// Whether this is the decimal text of the number.
fn is_number(number: u64, text: &[u8]) -> bool
    ensures { result ≡ bytes_eq (decimal number) text.now }
{
    let mut digits = Buffer::new();
    digits.format(number).as_bytes() == text
}

/// The call of a caller's name, a key and a command's text. Takes memory for it.
fn call_of(alloc: Global, fields: &Fields<'_>) -> Result<Call, TextFault>
    ensures found { IfOk result (λ c. IsCall c × (is_told_by_name c.caller ≡ true)
        × IsCallOf c fields.now.caller.now fields.now.key.now fields.now.text.now) }
    ensures only { IsErrOf result TextFault.Form → (c : Call) → IsCall c
        → is_told_by_name c.caller ≡ true
        → IsCallOf c fields.now.caller.now fields.now.key.now fields.now.text.now → ⊥ }
{
    let caller = match Caller::parse(alloc, fields.caller) {
        Ok(caller) => caller,
        Err(fault) => return Err(fault),
    };
    let key = match Key::parse(alloc, fields.key) {
        Ok(key) => key,
        Err(fault) => return Err(fault),
    };
    match Command::parse(alloc, fields.text) {
        Ok(Some(command)) => Ok(Call {
            caller,
            key,
            command,
        }),
        Ok(None) => Err(TextFault::Form),
        Err(_) => Err(TextFault::NoMemory),
    }
}

/// The call and the reply of which this is the line, with its line break, under this number. Takes
/// memory for both; the time is linear in the line's length.
///
/// `Form`: it is the line of no call and no reply in their forms and within their limits.
/// `NoMemory`: memory was refused.
pub fn read_minute(alloc: Global, number: u64, line: &[u8]) -> Result<MinuteRead, TextFault>
    ensures found { IfOk result (λ read. IsTold read.call read.reply
        × (line.now ≡ line_with number read.call read.reply)) }
    ensures only { IsErrOf result TextFault.Form → (c : Call) (given : Reply) → IsTold c given
        → line.now ≢ line_with number c given }
{
    let Some(fields) = fields_of(line) else {
        return Err(TextFault::Form);
    };
    if !is_number(number, fields.number) {
        return Err(TextFault::Form);
    }
    let call = match call_of(alloc, &fields) {
        Ok(call) => call,
        Err(fault) => return Err(fault),
    };
    match Reply::parse(alloc, fields.reply) {
        Ok(reply) => Ok(MinuteRead { call, reply }),
        Err(fault) => Err(fault),
    }
}
