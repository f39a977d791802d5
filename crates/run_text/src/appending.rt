//! Appends bytes, numbers and digests to a text that has room for them. Nothing here takes memory.

ghost use Rattle.std.specs.Prelude.{◌≡◌, ◌≤◌, ◌+◌, ◌++◌, length, vec_len, vec_capacity, decimal};
ghost use Rattle.hex.specs.Hex.{encode_lower};

use itoa::Buffer;

/// Appends a text.
pub(crate) fn push_text(into: &mut Vec<u8>, text: &[u8])
    requires room { vec_len into.old + length text.now ≤ vec_capacity into.old }
    ensures text { into.new.items ≡ into.old.items ++ text.now }
    ensures len { vec_len into.new ≡ vec_len into.old + length text.now }
    ensures capacity { vec_capacity into.old ≤ vec_capacity into.new }
{
    match into.extend_from_slice(text) {
        Ok(()) => {}
        Err(_) => unreachable!(),
    }
}

/// Appends a text and a number.
pub(crate) fn push_number(into: &mut Vec<u8>, text: &str, number: u128)
    requires room { vec_len into.old + length (text.now ++ decimal number) ≤ vec_capacity into.old }
    ensures text { into.new.items ≡ into.old.items ++ (text.now ++ decimal number) }
    ensures len { vec_len into.new ≡ vec_len into.old + length (text.now ++ decimal number) }
    ensures capacity { vec_capacity into.old ≤ vec_capacity into.new }
{
    let mut buffer = Buffer::new();
    push_text(into, text.as_bytes());
    push_text(into, buffer.format(number).as_bytes());
}

/// A digest in 64 lower-case hexadecimal digits.
pub(crate) fn hexadecimal(digest: &[u8; 32]) -> [u8; 64]
    ensures { result ≡ encode_lower digest.now }
{
    let mut digits = [0u8; 64];
    match hex::encode_to_slice(digest.as_slice(), &mut digits) {
        Ok(()) => digits,
        Err(_) => unreachable!(),
    }
}
