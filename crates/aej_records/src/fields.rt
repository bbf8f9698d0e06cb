ghost use Rattle.std.specs.Prelude.{◌≡◌, ◌≢◌, ◌≤◌, ◌<◌, ◌+◌, ◌↔◌, [], ◌∷◌, ◌==◌, length, min, position, MatchOption, MatchResult, IsTrue, take, Some, None, OnOk};
ghost use Rattle.std.specs.Option.{option_copied};
ghost use Rattle.std.specs.Fn.{FnOnceReturnsAt};
ghost use Rattle.rep_fields.specs.Identity.{bar};
ghost use Rattle.aej_records.specs.Fields.{fields_of, fields_behind, field_at};

use crate::error::BadAej;
use std::marker::Model;

/// Stands between two fields of a line.
pub const BAR: u8 = b'|';

/// The fields of the longest line, a schedule's of ten pairs, and one that is too many.
pub const MOST_FIELDS: usize = 24;

/// The first fields of a line, as many as one of any type can have, and one more.
#[derive(Drop)]
pub struct Fields<'a> {
    texts: [&'a [u8]; MOST_FIELDS],
    count: usize,
}

impl<'a> Model for Fields<'a> {
    ghost use Rattle.std.specs.Prelude.{◌≡◌, ◌≤◌, ℕ, List, map, take, length};

    ghost Value = { List (List ℕ) };

    ghost view = { λ f. take f.count (map (λ t. t.now) f.texts) };

    ghost invariant = { λ f. (length f.texts ≡ 24) × (f.count ≤ 24) };
}

impl<'a> Fields<'a> {
    /// The fields of the line.
    pub fn of(line: &'a [u8]) -> Fields<'a>
        ensures { result ≡ take MOST_FIELDS (fields_of line.now) }
    {
        let mut texts = [&line[..0]; MOST_FIELDS];
        let mut count = 0;
        let mut rest = Some(line);
        while count < MOST_FIELDS {
            let Some(text) = rest else {
                break;
            };
            let (first, behind) = cut(text);
            texts[count] = first;
            count += 1;
            rest = behind;
        }
        Fields { texts, count }
    }

    /// How many there are.
    pub fn count(&self) -> usize
        ensures { result ≡ length self.now }
    {
        self.count
    }

    /// The field of this number, counted from 1; a missing one is empty.
    pub fn text(&self, number: u8) -> &'a [u8]
        requires least { 1 ≤ number }
        requires most { number ≤ MOST_FIELDS }
        ensures { result.now ≡ field_at number self.now }
    {
        let place = usize::from(number) - 1;
        if place < self.count {
            self.texts[place]
        } else {
            &[]
        }
    }

    /// What `read` makes of the field of this number.
    ///
    /// # Errors
    ///
    /// The field's number where it makes nothing of it.
    // inlined, since a text that is handed on from function to function is copied each time
    #[inline(always)]
    pub fn read<V, F: FnOnce(&[u8]) -> Option<V>>(&self, number: u8, read: F) -> Result<V, BadAej>
        requires least { 1 ≤ number }
        requires most { number ≤ MOST_FIELDS }
        requires callable { F.IsAlwaysCallable read }
        ensures { MatchResult result
            (λ value. FnOnceReturnsAt F.FnOnce read (field_at number self.now) (Some value))
            (λ bad. (bad.field ≡ number) × FnOnceReturnsAt F.FnOnce read (field_at number self.now) None) }
    {
        read(self.text(number)).ok_or(BadAej { field: number })
    }

    /// The same of a field that may be empty.
    #[inline(always)]
    pub fn read_optional<V, F: FnOnce(&[u8]) -> Option<V>>(
        &self,
        number: u8,
        read: F,
    ) -> Result<Option<V>, BadAej>
        requires least { 1 ≤ number }
        requires most { number ≤ MOST_FIELDS }
        requires callable { F.IsAlwaysCallable read }
        ensures { MatchResult result
            (λ optional. MatchOption optional (field_at number self.now ≡ [])
            (λ value. FnOnceReturnsAt F.FnOnce read (field_at number self.now) (Some value)))
            (λ bad. (bad.field ≡ number) × (field_at number self.now ≢ [])
            × FnOnceReturnsAt F.FnOnce read (field_at number self.now) None) }
    {
        if self.text(number).is_empty() {
            return Ok(None);
        }
        let value = self.read(number, read)?;
        Ok(Some(value))
    }

    /// Whether the field of this number is the last there may be.
    ///
    /// # Errors
    ///
    /// The next number, where there is a field behind.
    pub fn end(&self, number: u8) -> Result<(), BadAej>
        requires { number < MOST_FIELDS }
        ensures { MatchResult result (λ _. length self.now ≤ number)
            (λ bad. (bad.field ≡ number + 1) × (number + 1 ≤ length self.now)) }
    {
        if self.count > usize::from(number) {
            return Err(BadAej { field: number + 1 });
        }
        Ok(())
    }
}

/// The first field of a text, and what stands behind its bar, where it has one.
pub fn cut(text: &[u8]) -> (&[u8], Option<&[u8]>)
    ensures { fields_of text.now ≡ result.0.now ∷ fields_behind (option_copied result.1) }
{
    match first_bar(text) {
        Some(at) => (&text[..at], Some(&text[at + 1..])),
        None => (text, None),
    }
}

// Where the first bar stands.
fn first_bar(text: &[u8]) -> Option<usize>
    ensures { result ≡ position (λ byte. byte == bar) text.now }
{
    text.iter().position(|byte| *byte == BAR)
}
