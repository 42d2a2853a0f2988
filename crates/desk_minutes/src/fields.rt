//! The fields of a line, as bytes.
ghost use Rattle.std.specs.Prelude.{◌≡◌, ◌≢◌, ◌==◌, ◌∷◌, ◌++◌, IfNone, IfSome, List, position, true, ℕ};
ghost use Rattle.desk_minutes.specs.Fields.{AreFields, is_without, spelt};

/// The fields of a line. None but the last has a tab, and that has no line break.
#[derive(Drop)]
pub(crate) struct Fields<'a> {
    pub(crate) number: &'a [u8],
    pub(crate) caller: &'a [u8],
    pub(crate) key: &'a [u8],
    pub(crate) text: &'a [u8],
    pub(crate) reply: &'a [u8],
}

/// The place of the first such byte.
fn first_place(end: u8, text: &[u8]) -> Option<usize>
    ensures { result ≡ position (λ b. b == end) text.now }
{
    text.iter().position(|byte| *byte == end)
}

/// The texts before and after the first such byte, if there is one.
fn parted_at(end: u8, text: &[u8]) -> Option<(&[u8], &[u8])>
    ensures found { IfSome result (λ parts. (text.now ≡ parts.0.now ++ (end ∷ parts.1.now))
        × (is_without end parts.0.now ≡ true)) }
    ensures only { IfNone result (is_without end text.now ≡ true) }
{
    let place = first_place(end, text)?;
    Some((&text[..place], &text[place + 1..]))
}

/// The fields of a line, with its line break.
pub(crate) fn fields_of(line: &[u8]) -> Option<Fields<'_>>
    ensures found { IfSome result (λ f.
        (line.now ≡ spelt f.number.now f.caller.now f.key.now f.text.now f.reply.now)
        × AreFields f.number.now f.caller.now f.key.now f.text.now f.reply.now) }
    ensures only { IfNone result ((number caller key text reply : List ℕ)
        → AreFields number caller key text reply
        → line.now ≢ spelt number caller key text reply) }
{
    let (number, rest) = parted_at(b'\t', line)?;
    let (caller, rest) = parted_at(b'\t', rest)?;
    let (key, rest) = parted_at(b'\t', rest)?;
    let (text, rest) = parted_at(b'\t', rest)?;
    let (reply, rest) = parted_at(b'\n', rest)?;
    if !rest.is_empty() {
        return None;
    }
    Some(Fields {
        number,
        caller,
        key,
        text,
        reply,
    })
}
