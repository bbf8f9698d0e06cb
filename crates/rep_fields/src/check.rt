//! The check digits of CPF and CNPJ, by the rule of Receita Federal do Brasil.
ghost use Rattle.std.specs.Prelude.{◌≡◌, ◌+◌, ◌≤◌, ◌↔◌, All, IsTrue, length, replicate};
ghost use Rattle.rep_fields.specs.Digits.{IsDigitByte, digits_in};
ghost use Rattle.rep_fields.specs.Identity.{check_digit as check_digit_of, IsChecked, HasCpfChecks, HasCnpjChecks};

use crate::cpf::CPF_DIGITS;
use crate::employer::EMPLOYER_DIGITS;

// The most digits that one check digit stands for.
const MOST_WEIGHTS: usize = 13;

const CPF_FIRST_WEIGHTS: [u8; 9] = [10, 9, 8, 7, 6, 5, 4, 3, 2];

const CPF_SECOND_WEIGHTS: [u8; 10] = [11, 10, 9, 8, 7, 6, 5, 4, 3, 2];

const CNPJ_FIRST_WEIGHTS: [u8; 12] = [5, 4, 3, 2, 9, 8, 7, 6, 5, 4, 3, 2];

const CNPJ_SECOND_WEIGHTS: [u8; 13] = [6, 5, 4, 3, 2, 9, 8, 7, 6, 5, 4, 3, 2];

// Whether the eleven digits are those of a CPF.
pub(crate) fn has_cpf_checks(digits: &[u8]) -> bool
    requires long { length digits.now ≡ CPF_DIGITS }
    requires digits { All IsDigitByte digits.now }
    ensures { IsTrue result ↔ HasCpfChecks (digits_in digits.now) }
{
    let first = is_checked(&CPF_FIRST_WEIGHTS, &digits[..CPF_DIGITS - 1]);
    let second = is_checked(&CPF_SECOND_WEIGHTS, digits);
    let equal = is_all(digits, digits[0]);
    first & second & !equal
}

// Whether the fourteen digits are those of a CNPJ.
pub(crate) fn has_cnpj_checks(digits: &[u8]) -> bool
    requires long { length digits.now ≡ EMPLOYER_DIGITS }
    requires digits { All IsDigitByte digits.now }
    ensures { IsTrue result ↔ HasCnpjChecks (digits_in digits.now) }
{
    let first = is_checked(&CNPJ_FIRST_WEIGHTS, &digits[..EMPLOYER_DIGITS - 1]);
    let second = is_checked(&CNPJ_SECOND_WEIGHTS, digits);
    first & second
}

// Whether each byte is this one.
fn is_all(bytes: &[u8], byte: u8) -> bool
    ensures { IsTrue result ↔ All (λ b. b ≡ byte) bytes.now }
{
    bytes.iter().all(|b| *b == byte)
}

// Whether the last digit checks those before it.
fn is_checked(weights: &[u8], digits: &[u8]) -> bool
    requires few { length weights.now ≤ MOST_WEIGHTS }
    requires long { length digits.now ≡ length weights.now + 1 }
    requires digits { All IsDigitByte digits.now }
    ensures { IsTrue result ↔ IsChecked weights.now (digits_in digits.now) }
{
    let (front, last) = digits.split_at(weights.len());
    u32::from(last[0] - b'0') == check_digit(weights, front)
}

// The digit that checks these ones.
fn check_digit(weights: &[u8], digits: &[u8]) -> u32
    requires few { length weights.now ≤ MOST_WEIGHTS }
    requires long { length digits.now ≡ length weights.now }
    requires digits { All IsDigitByte digits.now }
    ensures { result ≡ check_digit_of weights.now (digits_in digits.now) }
{
    let mut sum = 0;
    for (place, weight) in weights.iter().enumerate() {
        sum += u32::from(*weight) * u32::from(digits[place] - b'0');
    }
    let remainder = sum % 11;
    if remainder < 2 { 0 } else { 11 - remainder }
}
