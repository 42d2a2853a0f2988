//! The members of an object.
ghost use Rattle.std.specs.Prelude.{◌≡◌, option_map};
ghost use Rattle.serde_json.specs.View.{view};
ghost use Rattle.http_requests.specs.bodies.Members as spec;

use serde_json::Value;

/// The value of an object with this one key.
pub(crate) fn one_member<'v>(value: &'v Value, key: &str) -> Option<&'v Value>
    ensures { option_map (λ v. view v.now) result ≡ spec.one_of key.now (view value.now) }
{
    let Value::Object(members) = value else {
        return None;
    };
    let mut entries = members.iter();
    let (found, value) = entries.next()?;
    if entries.next().is_some() || found.as_str() != key {
        return None;
    }
    Some(value)
}

/// The values of an object with these two keys, in ascending order.
pub(crate) fn two_members<'v>(
    value: &'v Value,
    keys: (&str, &str),
) -> Option<(&'v Value, &'v Value)>
    ensures { option_map (λ v. (view v.0.now, view v.1.now)) result
        ≡ spec.two_of keys.entry.0.now keys.entry.1.now (view value.now) }
{
    let Value::Object(members) = value else {
        return None;
    };
    let mut entries = members.iter();
    let (first, one) = entries.next()?;
    let (second, two) = entries.next()?;
    if entries.next().is_some() || first.as_str() != keys.0 || second.as_str() != keys.1 {
        return None;
    }
    Some((one, two))
}

/// The values of an object with these three keys, in ascending order.
pub(crate) fn three_members<'v>(
    value: &'v Value,
    keys: (&str, &str, &str),
) -> Option<(&'v Value, &'v Value, &'v Value)>
    ensures { option_map (λ v. (view v.0.now, view v.1.now, view v.2.now)) result
        ≡ spec.three_of keys.entry.0.now keys.entry.1.now keys.entry.2.now (view value.now) }
{
    let Value::Object(members) = value else {
        return None;
    };
    let mut entries = members.iter();
    let (first, one) = entries.next()?;
    let (second, two) = entries.next()?;
    let (third, three) = entries.next()?;
    if entries.next().is_some()
        || first.as_str() != keys.0
        || second.as_str() != keys.1
        || third.as_str() != keys.2
    {
        return None;
    }
    Some((one, two, three))
}
