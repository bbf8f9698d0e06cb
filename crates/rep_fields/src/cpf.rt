//! A person's CPF.
ghost use Rattle.std.specs.Prelude.{◌≡◌, ◌≤◌, length};
ghost use Rattle.rep_fields.specs.Decoding.{Decodes};
ghost use Rattle.rep_fields.specs.Digits.{numeral};
ghost use Rattle.rep_fields.specs.Identity.{IsCpf, cpf_text};

use crate::check::has_cpf_checks;
use crate::digits::{MOST_DIGITS, get_n, put_n};
use std::marker::Model;

/// How many digits a CPF has.
pub const CPF_DIGITS: usize = 11;

// The least number that has more digits.
const CPF_END: u64 = 100_000_000_000;

/// A person's CPF, the number with its two check digits: 0 to 99,999,999,999.
#[derive(Clone, Copy, Debug, PartialEq, Eq)]
pub struct Cpf {
    pub number: u64,
}

impl Model for Cpf {
    ghost use Rattle.std.specs.Prelude.{ℕ};

    ghost Value = { ℕ };

    ghost use Rattle.rep_fields.specs.Identity.{IsCpf};

    ghost view = { λ c. c.number };

    ghost invariant = { λ c. IsCpf c.number };

    ghost inverse = { λ n. record { number = n } };
}

impl Cpf {
    /// The CPF that eleven digits show. `None` exactly where the text has another length or another byte, where a
    /// check digit is wrong, and where all eleven digits are equal.
    pub fn read(text: &[u8]) -> Option<Cpf>
        ensures { Decodes IsCpf cpf_text text.now result }
    {
        if text.len() != CPF_DIGITS {
            return None;
        }
        Cpf::read_field(text)
    }

    /// The CPF in a field of 11 to 19 digits, with zeros in front. `None` exactly where the field shows no CPF.
    pub fn read_field(field: &[u8]) -> Option<Cpf>
        requires least { CPF_DIGITS ≤ length field.now }
        requires most { length field.now ≤ MOST_DIGITS }
        ensures { Decodes IsCpf (numeral (length field.now)) field.now result }
    {
        let Some(number) = get_n(field) else {
            return None;
        };
        if number >= CPF_END {
            return None;
        }
        if !has_cpf_checks(&field[field.len() - CPF_DIGITS..]) {
            return None;
        }
        Some(Cpf { number })
    }

    /// The eleven digits.
    pub fn write(&self) -> [u8; CPF_DIGITS]
        ensures text { result ≡ cpf_text self.now }
        ensures valid { IsCpf self.now }
    {
        let mut text = [0; CPF_DIGITS];
        put_n(&mut text, self.number);
        text
    }
}
