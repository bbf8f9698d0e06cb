//! Laws of the definitions that the readers and writers of numbers, texts and ids stand on.
ghost use Rattle.std.specs.Prelude.{◌≡◌, ℕ, List, ◌∷◌, decimal};
ghost use Rattle.rep_fields.specs.Decoding.{TellsApart};
ghost use Rattle.rep_fields.specs.Digits.{numeral, FitsDigits};
ghost use Rattle.rep_fields.specs.Employer.{IsEmployerId, kind_byte, id_text};
ghost use Rattle.rep_fields.specs.Identity.{IsCpf, IsCnpj, cpf_text};
ghost use Rattle.rep_fields.specs.Latin.{IsText, IsFilled, padded};
ghost use Rattle.rep_fields.specs.Numbers.{IsNumber};

/// Different numbers, texts and ids have different fields: a field tells its value.
pub fn fields_tell_values_apart()
    ensures numbers { (width : ℕ) → TellsApart (FitsDigits width) (numeral width) }
    ensures decimals { TellsApart IsNumber decimal }
    ensures people { TellsApart IsCpf cpf_text }
    ensures organisations { TellsApart IsCnpj (numeral 14) }
    ensures employers { TellsApart IsEmployerId (λ id. kind_byte id ∷ id_text id) }
    ensures texts { (width : ℕ) → TellsApart (IsText width) (padded width) }
{}

/// A field is filled by one text at most, and by each text that is padded to its width.
pub fn fields_have_one_text()
    ensures alone { (most other_most : ℕ) (text other field : List ℕ)
        → IsText most text → IsText other_most other
        → IsFilled text field → IsFilled other field → text ≡ other }
    ensures padded { (width : ℕ) (text : List ℕ) → IsFilled text (padded width text) }
{}
