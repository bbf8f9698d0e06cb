//! The number of a recorder.
ghost use Rattle.std.specs.Prelude.{◌≡◌, ◌↔◌, All, IsTrue};
ghost use Rattle.rep_fields.specs.Decoding.{Decodes};
ghost use Rattle.rep_fields.specs.Digits.{IsDigitByte};
ghost use Rattle.rep_fields.specs.Identity.{IsRepNumber, IsRepByte};

use crate::latin::is_latin;
use std::marker::Model;

/// How many characters the number of a recorder has.
pub const REP_NUMBER_LEN: usize = 17;

const BAR: u8 = b'|';

/// The number of a recorder: 17 Latin characters but `|`, taken as they stand, also where they end in spaces.
#[derive(Clone, Copy, Debug, PartialEq, Eq)]
pub struct RepNumber {
    pub text: [u8; REP_NUMBER_LEN],
}

impl Model for RepNumber {
    ghost use Rattle.std.specs.Prelude.{ℕ, List};
    ghost use Rattle.rep_fields.specs.Identity.{IsRepNumber};

    ghost Value = { List ℕ };

    ghost view = { λ r. r.text };

    ghost invariant = { λ r. IsRepNumber r.text };

    ghost inverse = { λ text. record { text = text } };
}

impl RepNumber {
    /// The number that the 17 bytes are. `None` exactly where there are more or fewer, and where one is `|` or isn't
    /// Latin.
    pub fn read(text: &[u8]) -> Option<RepNumber>
        ensures { Decodes IsRepNumber (λ number. number) text.now result }
    {
        if text.len() != REP_NUMBER_LEN || !all_rep_bytes(text) {
            return None;
        }
        let mut number = [0; REP_NUMBER_LEN];
        number.copy_from_slice(text);
        Some(RepNumber { text: number })
    }

    /// Whether all 17 characters are digits.
    pub fn is_digits(&self) -> bool
        ensures { IsTrue result ↔ All IsDigitByte self.now }
    {
        self.text.iter().all(|byte| matches!(*byte, b'0'..=b'9'))
    }

    /// The 17 bytes.
    pub fn bytes(&self) -> &[u8]
        ensures value { result.now ≡ self.now }
        ensures valid { IsRepNumber self.now }
    {
        &self.text
    }
}

// Looks at each byte, so that the loop has no branch.
fn all_rep_bytes(text: &[u8]) -> bool
    ensures { IsTrue result ↔ All IsRepByte text.now }
{
    let mut all = true;
    for byte in text {
        all &= is_rep_byte(*byte);
    }
    all
}

fn is_rep_byte(byte: u8) -> bool
    ensures { IsTrue result ↔ IsRepByte byte }
{
    is_latin(byte) & (byte != BAR)
}
