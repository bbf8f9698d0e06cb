ghost use Rattle.std.specs.Prelude.{◌≡◌, ◌↔◌, IsTrue, MatchOption};
ghost use Rattle.rep_fields.specs.Decoding.{Decodes};
ghost use Rattle.rep_wire.specs.LaneGrammar.{letter_text, MaySend, IsNoLetter};

use crate::head::{LaneHead, OPERATOR};

/// What a line of a lane file orders, by its first field.
#[derive(Clone, Copy, Debug, PartialEq, Eq)]
pub enum Letter {
    /// `M`: a clocking.
    Mark,
    /// `E`: the employer's identification.
    Employer,
    /// `C`: a worker's registration, its change or its end.
    Worker,
    /// `T`: an adjustment of the clock.
    Adjust,
    /// `V`: an event.
    Event,
    /// `X`: an extraction.
    Extract,
}

/// The letter of a line with this first field, where lines of the lane may have it.
pub fn letter_on(head: &LaneHead, field: &[u8]) -> Option<Letter>
    ensures { MatchOption result (IsNoLetter head.now field.now)
        (λ letter. MaySend head.now letter × (field.now ≡ letter_text letter)) }
{
    let letter = read_letter(field)?;
    if may_send(head, letter) {
        Some(letter)
    } else {
        None
    }
}

// The letter that a field is.
fn read_letter(field: &[u8]) -> Option<Letter>
    ensures { Decodes (λ _. Unit {0}) letter_text field.now result }
{
    if field == b"M".as_slice() {
        return Some(Letter::Mark);
    }
    if field == b"E".as_slice() {
        return Some(Letter::Employer);
    }
    if field == b"C".as_slice() {
        return Some(Letter::Worker);
    }
    if field == b"T".as_slice() {
        return Some(Letter::Adjust);
    }
    if field == b"V".as_slice() {
        return Some(Letter::Event);
    }
    if field == b"X".as_slice() {
        return Some(Letter::Extract);
    }
    None
}

// Whether lines of the lane may have the letter.
fn may_send(head: &LaneHead, letter: Letter) -> bool
    ensures { IsTrue result ↔ MaySend head.now letter }
{
    match letter {
        Letter::Mark => true,
        Letter::Employer | Letter::Worker | Letter::Adjust | Letter::Event | Letter::Extract => {
            head.kind == OPERATOR
        }
    }
}
