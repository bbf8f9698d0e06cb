ghost use Rattle.std.specs.Prelude.{◌≡◌};
ghost use Rattle.afd_records.specs.File.{trailer_text, signature_text, HasTrailerText};

use crate::line::filled;
use rep_fields::Row;

/// The bytes of an AFD's trailer.
pub const TRAILER_LEN: usize = 64;

/// The bytes of the line for the signature.
pub const SIGNATURE_LEN: usize = 100;

/// The trailer of an AFD: type 9 of Portaria MTP 671/2021, annex V (`trailer`). It counts the records of each type.
#[derive(Clone, Copy, Debug, PartialEq, Eq)]
pub struct Trailer {
    /// How many records of the types 2, 3, 4, 5, 6 and 7 there are, of at most nine digits each (`qtdRegistrosTipo2`
    /// to `qtdRegistrosTipo7`).
    pub counts: [u32; 6],
}

/// The line of the trailer, without its end.
#[tactic(auto, unfolding(crate::specs::File::trailer_text))]
pub fn print_trailer(trailer: &Trailer) -> [u8; TRAILER_LEN]
    requires { HasTrailerText trailer.now.counts }
    ensures { result ≡ trailer_text trailer.now.counts }
{
    let mut row = Row::<TRAILER_LEN>::new();
    row.push_bytes(b"999999999");
    for count in &trailer.counts {
        row.push_numeral(9, u64::from(*count));
    }
    row.push(b'9');
    filled(&row)
}

/// The line that stands for the signature, which is kept in a file of its own: the last line of an AFD, without its
/// end.
pub fn signature() -> [u8; SIGNATURE_LEN]
    ensures { result ≡ signature_text }
{
    let mut row = Row::<SIGNATURE_LEN>::new();
    row.push_padded(SIGNATURE_LEN, b"ASSINATURA_DIGITAL_EM_ARQUIVO_P7S");
    filled(&row)
}
