ghost use Rattle.std.specs.Prelude.{◌≡◌, ◌↔◌, length, take, drop, option_copied, IsTrue};
ghost use Rattle.std.specs.Str.{str_to_ascii_lowercase};
ghost use Rattle.afd_records.specs.Line.{IsHashText};
ghost use Rattle.hex.specs.Hex.{encode_lower};
ghost use Rattle.afd_chain.specs.Chain.{link_text};

use afd_records::{CLOCKING_LEN, HASH_LEN};
use sha2::{Digest, Sha256};

/// The bytes of a clocking's line that stand before its hash.
pub const PAYLOAD_LEN: usize = 73;

/// The hash of a clocking: the SHA-256 of its payload, the first 73 bytes of its line, followed by the 64 characters
/// of the hash of the clocking before. `prev` is `None` for the first clocking. The hash is given in 64 lower-case
/// hexadecimal digits.
pub fn link(prev: Option<&[u8; 64]>, line73: &[u8]) -> [u8; 64]
    requires { length line73.now ≡ 73 }
    ensures value { result ≡ link_text line73.now (option_copied prev.entry) }
    ensures lower { IsHashText result }
{
    let mut hasher = Sha256::new();
    hasher.update(line73);
    if let Some(before) = prev {
        hasher.update(before);
    }
    digits_of(&hasher.finalize())
}

/// Whether the whole line of a clocking, of 137 bytes, ends in the hash that `link` gives for it. The digits of the
/// line may be in upper or lower case; those of `prev` are hashed as they stand.
pub fn verify(prev: Option<&[u8; 64]>, line: &[u8]) -> bool
    requires { length line.now ≡ CLOCKING_LEN }
    ensures { IsTrue result ↔ (str_to_ascii_lowercase (drop 73 line.now)
        ≡ link_text (take 73 line.now) (option_copied prev.entry)) }
{
    let (payload, hash) = line.split_at(PAYLOAD_LEN);
    hash.eq_ignore_ascii_case(&link(prev, payload))
}

// The digest in lower-case hexadecimal digits.
pub(crate) fn digits_of(digest: &[u8; 32]) -> [u8; 64]
    ensures value { result ≡ encode_lower digest.now }
    ensures lower { IsHashText result }
{
    let mut text = [0; HASH_LEN];
    let _written = hex::encode_to_slice(digest, &mut text);
    text
}
