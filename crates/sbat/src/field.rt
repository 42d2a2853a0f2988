//! Fields of a line.
ghost use Rattle.std.specs.Prelude.{◌≡◌, ◌∷◌, [], MatchOption, count_by, length, nat_lt, position};
ghost use Rattle.sbat.specs.Fields.{fields_of, is_comma};

/// The place of the first comma.
fn first_comma(line: &[u8]) -> Option<usize>
    ensures { result ≡ position is_comma line.now }
{
    line.iter().position(|b| *b == b',')
}

/// The number of commas.
fn count_commas(line: &[u8]) -> usize
    ensures { result ≡ count_by is_comma line.now }
{
    line.iter().filter(|b| **b == b',').count()
}

/// The field at the front, and the bytes after its comma, if there is one.
pub(crate) fn first_field(line: &[u8]) -> (&[u8], Option<&[u8]>)
    ensures { MatchOption result.1 (fields_of line.now ≡ result.0.now ∷ [])
        (λ rest. fields_of line.now ≡ result.0.now ∷ fields_of rest.now) }
{
    match first_comma(line) {
        Some(end) => (&line[..end], Some(&line[end + 1..])),
        None => (line, None),
    }
}

/// Whether there are fewer than six fields.
pub(crate) fn has_few_fields(line: &[u8]) -> bool
    ensures { result ≡ nat_lt (length (fields_of line.now)) 6 }
{
    count_commas(line) < 5
}
