//! Numbers in as many decimal digits as they need.
ghost use Rattle.std.specs.Prelude.{decimal};
ghost use Rattle.rep_fields.specs.Decoding.{Decodes};
ghost use Rattle.rep_fields.specs.Numbers.{IsNumber};

/// The number of 64 bits that decimal digits without zeros in front show. `None` exactly where the text is anything
/// else.
pub fn read_decimal(text: &[u8]) -> Option<u64>
    ensures { Decodes IsNumber decimal text.now result }
{
    let mut value: u64 = 0;
    for byte in text {
        value = value
            .wrapping_mul(10)
            .wrapping_add(u64::from(byte.wrapping_sub(b'0')));
    }
    // A text that isn't written so, or that wrapped round, differs from what its value is written as.
    let mut buffer = itoa::Buffer::new();
    if buffer.format(value).as_bytes() != text {
        return None;
    }
    Some(value)
}
