//! The fields that the desk knows.
ghost use Rattle.std.specs.Prelude.{◌≡◌};
ghost use Rattle.http_requests.specs.heads.Fields.{occurrence, shown};
ghost use Rattle.http_requests.specs.Lengths.{length_in, length_of};
ghost use Rattle.http_requests.specs.Fields.{GivesFields, GivesLength, GivesValue, fields_of, value_of};

use crate::{Given, Head, WantedFault};
use sbat::{are_digits, decimal};

/// The values of the fields that the desk knows, each given at most once.
#[derive(Clone, Copy)]
pub(crate) struct Fields<'b> {
    pub(crate) length: Option<u64>,
    pub(crate) token: Option<&'b [u8]>,
    pub(crate) key: Option<&'b [u8]>,
    pub(crate) title: Option<&'b [u8]>,
    pub(crate) stamp: Option<&'b [u8]>,
}

/// The number that 1 to 10 decimal digits spell. Leading zeros are allowed.
fn length(text: &[u8]) -> Option<u64>
    ensures { result ≡ length_of text.now }
{
    if text.is_empty() || 10 < text.len() || !are_digits(text) {
        return None;
    }
    Some(decimal(text))
}

/// The value of a field that may be given once.
fn value<'b>(given: Given<'b>) -> Result<Option<&'b [u8]>, WantedFault>
    ensures { GivesValue (value_of (occurrence given.entry)) result }
{
    match given {
        Given::Missing => Ok(None),
        Given::Once(value) => Ok(Some(value)),
        Given::Repeated => Err(WantedFault::BadField),
    }
}

/// The value of Content-Length.
fn content_length(given: Given<'_>) -> Result<Option<u64>, WantedFault>
    ensures { GivesLength (length_in (occurrence given.entry)) result }
{
    match given {
        Given::Missing => Ok(None),
        Given::Once(text) => match length(text) {
            Some(length) => Ok(Some(length)),
            None => Err(WantedFault::BadField),
        },
        Given::Repeated => Err(WantedFault::BadField),
    }
}

/// The fields of a head, or the first fault: Transfer-Encoding, then any field that is wrong.
pub(crate) fn checked_fields<'b>(head: &Head<'b>) -> Result<Fields<'b>, WantedFault>
    ensures { GivesFields (fields_of (shown head.now)) result }
{
    match head.transfer_encoding {
        Given::Missing => {}
        Given::Once(_) | Given::Repeated => return Err(WantedFault::NotSupported),
    }
    let length = content_length(head.content_length)?;
    let token = value(head.desk_token)?;
    let key = value(head.desk_key)?;
    let title = value(head.desk_title)?;
    let stamp = value(head.desk_stamp)?;
    Ok(Fields {
        length,
        token,
        key,
        title,
        stamp,
    })
}
