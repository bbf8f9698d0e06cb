ghost use Rattle.std.specs.Prelude.{◌≡◌, ◌≢◌, [], ◌∷◌, ◌==◌, length, position, MatchOption};
ghost use Rattle.std.specs.Option.{option_copied};
ghost use Rattle.rep_fields.specs.Identity.{bar};
ghost use Rattle.rep_wire.specs.Fields.{fields_of, fields_behind};

/// Stands between two fields of a line.
const BAR: u8 = b'|';

/// The first field of a text, and what stands behind its bar, where it has one.
pub fn cut(text: &[u8]) -> (&[u8], Option<&[u8]>)
    ensures { fields_of text.now ≡ result.0.now ∷ fields_behind (option_copied result.1) }
{
    match first_bar(text) {
        Some(at) => (&text[..at], Some(&text[at + 1..])),
        None => (text, None),
    }
}

// Where the first bar stands.
fn first_bar(text: &[u8]) -> Option<usize>
    ensures { result ≡ position (λ byte. byte == bar) text.now }
{
    text.iter().position(|byte| *byte == BAR)
}

/// The next field, and what stands behind it, where there is a field.
pub fn next(fields: Option<&[u8]>) -> Option<(&[u8], Option<&[u8]>)>
    ensures { MatchOption result (fields_behind (option_copied fields.entry) ≡ [])
        (λ next. fields_behind (option_copied fields.entry) ≡ next.0.now ∷ fields_behind (option_copied next.1)) }
{
    let text = fields?;
    Some(cut(text))
}

/// The last field, where there is exactly one.
pub fn one(fields: Option<&[u8]>) -> Option<&[u8]>
    ensures { MatchOption result (length (fields_behind (option_copied fields.entry)) ≢ 1)
        (λ one. fields_behind (option_copied fields.entry) ≡ one.now ∷ []) }
{
    let (first, rest) = next(fields)?;
    match rest {
        Some(_) => None,
        None => Some(first),
    }
}

/// The last fields, where there are exactly two.
pub fn two(fields: Option<&[u8]>) -> Option<(&[u8], &[u8])>
    ensures { MatchOption result (length (fields_behind (option_copied fields.entry)) ≢ 2)
        (λ two. fields_behind (option_copied fields.entry) ≡ two.0.now ∷ two.1.now ∷ []) }
{
    let (first, rest) = next(fields)?;
    Some((first, one(rest)?))
}

/// The last fields, where there are exactly three.
pub fn three(fields: Option<&[u8]>) -> Option<(&[u8], &[u8], &[u8])>
    ensures { MatchOption result (length (fields_behind (option_copied fields.entry)) ≢ 3)
        (λ three. fields_behind (option_copied fields.entry)
        ≡ three.0.now ∷ three.1.now ∷ three.2.now ∷ []) }
{
    let (first, rest) = next(fields)?;
    let (second, third) = two(rest)?;
    Some((first, second, third))
}

/// The fields of a worker's line behind its sequence number.
pub struct WorkerFields<'a> {
    pub op: &'a [u8],
    pub cpf: &'a [u8],
    pub name: &'a [u8],
    pub extra: &'a [u8],
    pub resp: &'a [u8],
}

/// The last fields, where there are exactly five.
pub fn five(fields: Option<&[u8]>) -> Option<WorkerFields<'_>>
    ensures { MatchOption result (length (fields_behind (option_copied fields.entry)) ≢ 5)
        (λ five. fields_behind (option_copied fields.entry)
        ≡ five.op.now ∷ five.cpf.now ∷ five.name.now ∷ five.extra.now ∷ five.resp.now ∷ []) }
{
    let (op, rest) = next(fields)?;
    let (cpf, rest) = next(rest)?;
    let (name, extra, resp) = three(rest)?;
    Some(WorkerFields {
        op,
        cpf,
        name,
        extra,
        resp,
    })
}

/// The fields of an employer's line behind its sequence number.
pub struct EmployerFields<'a> {
    pub resp: &'a [u8],
    pub kind: &'a [u8],
    pub id: &'a [u8],
    pub cno: &'a [u8],
    pub name: &'a [u8],
    pub place: &'a [u8],
}

/// The last fields, where there are exactly six.
pub fn six(fields: Option<&[u8]>) -> Option<EmployerFields<'_>>
    ensures { MatchOption result (length (fields_behind (option_copied fields.entry)) ≢ 6)
        (λ six. fields_behind (option_copied fields.entry)
        ≡ six.resp.now ∷ six.kind.now ∷ six.id.now ∷ six.cno.now ∷ six.name.now ∷ six.place.now ∷ []) }
{
    let (resp, rest) = next(fields)?;
    let (kind, rest) = next(rest)?;
    let (id, rest) = next(rest)?;
    let (cno, name, place) = three(rest)?;
    Some(EmployerFields {
        resp,
        kind,
        id,
        cno,
        name,
        place,
    })
}
