//! A person's token, on the standard input.
ghost use Rattle.std.specs.Prelude.{◌≡◌, IfErr, IfOk, IfSome, Some};
ghost use Rattle.cli_arguments.specs.declared.values.token.TokenForm.TheVariants as forms;
ghost use Rattle.cli_arguments.specs.values.Tokens.{IsWithToken, StopsByToken, kept_in};

use crate::values::newcomer::Newcomer;
use crate::values::stop::{Stop, Word};
use base::{Digest, InputFault, Refusal};
use cli_output::Fault;
use desk_inputs::{read_token, read_token_digest};
use desk_types::{Key, Person};
use std::alloc::Global;
use std::io::Read;

/// The form in which the first line of the standard input gives a token.
#[derive(Clone, Copy, Debug, PartialEq, Eq)]
pub enum TokenForm {
    /// The token itself.
    Token,
    /// Its SHA-256, in hexadecimal digits.
    Digest,
}

/// The SHA-256 of the token, the first line of the reader.
fn token_from<R: Read>(alloc: Global, reader: &mut R) -> Result<Digest, Stop>
    ensures ok { IfOk result (λ token. IfSome (R.remaining reader.old)
        (λ given. Some token ≡ kept_in forms.Token given)) }
    ensures err { IfErr result (StopsByToken forms.Token (R.remaining reader.old)) }
{
    match read_token(alloc, reader) {
        Ok(Some(token)) => Ok(token),
        Ok(None) => Err(Stop::Word(Word::Token)),
        Err(InputFault::TooLong) => Err(Stop::Word(Word::Token)),
        Err(InputFault::Read) => Err(Stop::Fault(Fault::from(Refusal::Read))),
        Err(InputFault::NoMemory) => Err(Stop::Fault(Fault::from(Refusal::NoMemory))),
    }
}

/// The SHA-256 of a token that the first line of the reader gives.
fn token_digest_from<R: Read>(alloc: Global, reader: &mut R) -> Result<Digest, Stop>
    ensures ok { IfOk result (λ token. IfSome (R.remaining reader.old)
        (λ given. Some token ≡ kept_in forms.Digest given)) }
    ensures err { IfErr result (StopsByToken forms.Digest (R.remaining reader.old)) }
{
    match read_token_digest(alloc, reader) {
        Ok(Some(token)) => Ok(token),
        Ok(None) => Err(Stop::Word(Word::Token)),
        Err(InputFault::TooLong) => Err(Stop::Word(Word::Token)),
        Err(InputFault::Read) => Err(Stop::Fault(Fault::from(Refusal::Read))),
        Err(InputFault::NoMemory) => Err(Stop::Fault(Fault::from(Refusal::NoMemory))),
    }
}

/// What the desk keeps of the token that the first line of the reader gives in this form.
fn kept_from<R: Read>(alloc: Global, form: TokenForm, reader: &mut R) -> Result<Digest, Stop>
    ensures ok { IfOk result (λ token. IfSome (R.remaining reader.old)
        (λ given. Some token ≡ kept_in form given)) }
    ensures err { IfErr result (StopsByToken form (R.remaining reader.old)) }
{
    match form {
        TokenForm::Token => token_from(alloc, reader),
        TokenForm::Digest => token_digest_from(alloc, reader),
    }
}

/// The person to be added, with the SHA-256 of the token that the first line of the reader gives in
/// this form, and the key of the call.
///
/// `Word`: the line gives no token in this form. `Fault`: `Read`, if the reader failed, or
/// `NoMemory`, if memory was refused.
pub fn person_from<R: Read>(
    alloc: Global,
    newcomer: Newcomer,
    form: TokenForm,
    reader: &mut R,
) -> Result<(Key, Person), Stop>
    ensures key { IfOk result (λ read. read.0 ≡ newcomer.key) }
    ensures ok { IfOk result (λ read. IsWithToken newcomer form (R.remaining reader.old) read.1) }
    ensures err { IfErr result (StopsByToken form (R.remaining reader.old)) }
{
    let Newcomer { name, role, key } = newcomer;
    let token = kept_from(alloc, form, reader)?;
    Ok((key, Person { name, role, token }))
}
