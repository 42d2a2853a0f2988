//! The 28 bytes before a list's header.
ghost use Rattle.std.specs.Prelude.{◌≡◌, None, Some, MatchResult, IfOk};
ghost use Rattle.siglist.specs.Heads.{size_at};
ghost use Rattle.siglist.specs.Steps.Reading.{lack_at};

use crate::entry::first_guid;
use crate::fault::Lack;
use crate::kind::kind_of;
use base::u32_at;

/// The length of the list at the front, or why there is none.
#[tactic(auto, unfolding(crate::specs::Steps::Reading::lack_at))]
pub(crate) fn read_size(bytes: &[u8]) -> Result<usize, Lack>
    ensures lack { MatchResult result (λ _. lack_at bytes.now ≡ None)
        (λ lack. lack_at bytes.now ≡ Some lack) }
    ensures size { IfOk result (λ size. size ≡ size_at bytes.now) }
{
    if bytes.len() < 28 {
        return Err(Lack::List);
    }
    let size = u32_at(bytes, 16) as usize;
    let header_size = u32_at(bytes, 20) as usize;
    let entry_size = u32_at(bytes, 24) as usize;
    if size < 28 + header_size || bytes.len() < size {
        return Err(Lack::List);
    }
    let kind = kind_of(first_guid(bytes));
    let is_bare = kind.is_bare();
    let suits = kind.suits(entry_size);
    if 0 < header_size && is_bare {
        return Err(Lack::List);
    }
    if entry_size < 16 || !suits {
        return Err(Lack::EntrySize);
    }
    if (size - (28 + header_size)) % entry_size != 0 {
        return Err(Lack::EntrySize);
    }
    Ok(size)
}
