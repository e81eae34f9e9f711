//! Laws of the image text: each function does nothing, and its contract is the law.

ghost use Rattle.std.specs.Prelude.{◌≡◌, ℕ, ◌^◌, ◌<◌, Ok};
ghost use Rattle.std.specs.Fmt.{decimal};
ghost use Rattle.std.specs.Int.{w32, to_be_bytes};
ghost use Rattle.hex.specs.Hex.{encode_lower};
ghost use Rattle.rv32_image.specs.ImageText.{number_in, word_in};

/// A decimal number that is printed is read back as it was.
pub fn a_printed_number_reads_back()
    ensures { (n : ℕ) → n < 10 ^ 10 → number_in (decimal n) ≡ Ok n }
{}

/// So is a number that is printed as eight hexadecimal digits.
pub fn a_printed_word_reads_back()
    ensures { (n : ℕ) → n < 2 ^ 32 → word_in (encode_lower (to_be_bytes w32 n)) ≡ Ok n }
{}
