//! An employer's id, as Portaria MTP 671/2021, annex V, writes it.
ghost use Rattle.std.specs.Prelude.{◌≡◌, ◌∷◌, length};
ghost use Rattle.rep_fields.specs.Decoding.{Decodes};
ghost use Rattle.rep_fields.specs.Digits.{numeral};
ghost use Rattle.rep_fields.specs.Employer.{IsEmployerId, kind_byte, id_text};
ghost use Rattle.rep_fields.specs.Identity.{IsCnpj};

use crate::check::has_cnpj_checks;
use crate::cpf::Cpf;
use crate::digits::{get_n, put_n};

/// How many digits an employer's id has: those of a CNPJ. A CPF has three zeros in front.
pub const EMPLOYER_DIGITS: usize = 14;

const CNPJ_KIND: u8 = b'1';

const CPF_KIND: u8 = b'2';

/// Who employs.
#[derive(Clone, Copy, Debug, PartialEq, Eq)]
pub enum EmployerId {
    /// An organisation, by the number of its CNPJ with the two check digits: 0 to 99,999,999,999,999.
    Cnpj(u64),
    /// A person, by the CPF.
    Person(Cpf),
}

impl EmployerId {
    /// The id of the kind `1`, a CNPJ, or `2`, a CPF, that fourteen digits show. `None` exactly where the kind is
    /// another byte or the digits show no id of that kind.
    pub fn read(kind: u8, digits: &[u8]) -> Option<EmployerId>
        ensures { Decodes IsEmployerId (λ id. kind_byte id ∷ id_text id) (kind ∷ digits.now) result }
    {
        if digits.len() != EMPLOYER_DIGITS {
            return None;
        }
        match kind {
            CNPJ_KIND => {
                let Some(number) = read_cnpj(digits) else {
                    return None;
                };
                Some(EmployerId::Cnpj(number))
            }
            CPF_KIND => {
                let Some(cpf) = Cpf::read_field(digits) else {
                    return None;
                };
                Some(EmployerId::Person(cpf))
            }
            _ => None,
        }
    }

    /// The byte of the kind: `1` for a CNPJ and `2` for a CPF.
    pub fn kind(&self) -> u8
        ensures { result ≡ kind_byte self.now }
    {
        match self {
            EmployerId::Cnpj(_) => CNPJ_KIND,
            EmployerId::Person(_) => CPF_KIND,
        }
    }

    /// The fourteen digits.
    pub fn write(&self) -> [u8; EMPLOYER_DIGITS]
        requires valid { IsEmployerId self.now }
        ensures { result ≡ id_text self.now }
    {
        let number = match self {
            EmployerId::Cnpj(number) => *number,
            EmployerId::Person(cpf) => cpf.number,
        };
        let mut text = [0; EMPLOYER_DIGITS];
        put_n(&mut text, number);
        text
    }
}

// The number of a CNPJ that fourteen digits show.
fn read_cnpj(digits: &[u8]) -> Option<u64>
    requires { length digits.now ≡ EMPLOYER_DIGITS }
    ensures { Decodes IsCnpj (numeral 14) digits.now result }
{
    let Some(number) = get_n(digits) else {
        return None;
    };
    if !has_cnpj_checks(digits) {
        return None;
    }
    Some(number)
}
