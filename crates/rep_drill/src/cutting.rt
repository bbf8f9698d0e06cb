//! The fields of a line, with bars between them.
ghost use Rattle.std.specs.Prelude.{◌≡◌, ◌≢◌, [], ◌∷◌, ◌==◌, length, position, MatchOption};
ghost use Rattle.std.specs.Option.{option_copied};
ghost use Rattle.rep_fields.specs.Identity.{bar};
ghost use Rattle.rep_wire.specs.Fields.{fields_of, fields_behind};

/// Stands between two fields of a line.
const BAR: u8 = b'|';

/// The first field of a text, and what stands behind its bar, where it has one.
pub(crate) fn cut(text: &[u8]) -> (&[u8], Option<&[u8]>)
    ensures { fields_of text.now ≡ result.0.now ∷ fields_behind (option_copied result.1) }
{
    match first_bar(text) {
        Some(at) => (&text[..at], Some(&text[at + 1..])),
        None => (text, None),
    }
}

// Where the first bar stands.
fn first_bar(text: &[u8]) -> Option<usize>
    ensures { result ≡ position (λ byte. byte == bar) text.now }
{
    text.iter().position(|byte| *byte == BAR)
}

/// The next field, and what stands behind it, where there is a field.
pub(crate) fn next(fields: Option<&[u8]>) -> Option<(&[u8], Option<&[u8]>)>
    ensures { MatchOption result (fields_behind (option_copied fields.entry) ≡ [])
        (λ next. fields_behind (option_copied fields.entry) ≡ next.0.now ∷ fields_behind (option_copied next.1)) }
{
    let text = fields?;
    Some(cut(text))
}

/// The last field, where there is exactly one.
pub(crate) fn one(fields: Option<&[u8]>) -> Option<&[u8]>
    ensures { MatchOption result (length (fields_behind (option_copied fields.entry)) ≢ 1)
        (λ one. fields_behind (option_copied fields.entry) ≡ one.now ∷ []) }
{
    let (first, rest) = next(fields)?;
    match rest {
        Some(_) => None,
        None => Some(first),
    }
}

// The last fields, where there are exactly two.
fn two(fields: Option<&[u8]>) -> Option<(&[u8], &[u8])>
    ensures { MatchOption result (length (fields_behind (option_copied fields.entry)) ≢ 2)
        (λ two. fields_behind (option_copied fields.entry) ≡ two.0.now ∷ two.1.now ∷ []) }
{
    let (first, rest) = next(fields)?;
    Some((first, one(rest)?))
}

/// The last fields, where there are exactly three.
pub(crate) fn three(fields: Option<&[u8]>) -> Option<(&[u8], &[u8], &[u8])>
    ensures { MatchOption result (length (fields_behind (option_copied fields.entry)) ≢ 3)
        (λ three. fields_behind (option_copied fields.entry)
        ≡ three.0.now ∷ three.1.now ∷ three.2.now ∷ []) }
{
    let (first, rest) = next(fields)?;
    let (second, third) = two(rest)?;
    Some((first, second, third))
}
