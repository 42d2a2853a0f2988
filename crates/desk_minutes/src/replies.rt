//! Replies, compared.
ghost use Rattle.std.specs.Prelude.{◌≡◌, ◌≢◌, false, true};

use desk_types::Reply;

/// Whether the replies are the same.
pub fn is_same_reply(one: &Reply, other: &Reply) -> bool
    ensures same { result ≡ true → one.now ≡ other.now }
    ensures differ { result ≡ false → one.now ≢ other.now }
{
    match one {
        Reply::Added(name) => {
            matches!(other, Reply::Added(told) if name.as_str() == told.as_str())
        }
        Reply::Submitted(number) => matches!(other, Reply::Submitted(told) if number == told),
        Reply::Reviewed(outcome) => matches!(other, Reply::Reviewed(told) if outcome == told),
        Reply::Withdrawn(number) => matches!(other, Reply::Withdrawn(told) if number == told),
        Reply::Returned(number) => matches!(other, Reply::Returned(told) if number == told),
        Reply::Listed => matches!(other, Reply::Listed),
        Reply::Unlisted => matches!(other, Reply::Unlisted),
        Reply::Revoked => matches!(other, Reply::Revoked),
        Reply::Raised => matches!(other, Reply::Raised),
        Reply::Imported(counts) => matches!(other, Reply::Imported(told) if counts == told),
        Reply::Proposed(number) => matches!(other, Reply::Proposed(told) if number == told),
        Reply::Confirmed(made) => matches!(other, Reply::Confirmed(told) if made == told),
        Reply::Dropped(number) => matches!(other, Reply::Dropped(told) if number == told),
        Reply::Explained(number) => matches!(other, Reply::Explained(told) if number == told),
    }
}
