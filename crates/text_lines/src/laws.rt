//! What reading and printing have in common.

ghost use Rattle.std.specs.Prelude.{ℕ, ◌<◌, ◌^◌};
ghost use Rattle.text_lines.specs.Numbers.{IsReadAsPrinted};

/// A number within a bound of 128 bits is read from what is printed of it, and from no other text.
pub fn numbers_are_read_as_printed()
    ensures { (most : ℕ) → most < 2 ^ 128 → IsReadAsPrinted most }
{}
