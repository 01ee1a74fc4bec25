// Digits in hexadecimal.
ghost use Rattle.std.specs.Prelude.{◌≡◌, ◌-◌, ◌/◌, ◌%◌, ◌^◌, ◌<◌, [], ◌∷◌, length, slice_index, EachIndex};
ghost use Rattle.answers.specs.Digits.{hex_digit};

fn glyph(digit: u8) -> u8
    requires { digit < 16 }
    ensures { result ≡ hex_digit digit }
{
    if digit < 10 {
        b'0' + digit
    } else {
        b'a' - 10 + digit
    }
}

// A byte's two digits.
pub(crate) fn pair_of(byte: u8) -> [u8; 2]
    ensures { result ≡ hex_digit (byte / 16) ∷ hex_digit (byte % 16) ∷ [] }
{
    [glyph(byte / 16), glyph(byte % 16)]
}

// A number's sixteen digits, the first for the most.
pub(crate) fn digits_of(n: u64) -> [u8; 16]
    ensures length { 16 ≡ length result }
    ensures digits { EachIndex result (λ k. slice_index result k ≡ hex_digit (n / 16 ^ (15 - k) % 16)) }
{
    let mut digits = [0; 16];
    let mut left = n;
    for k in (0..16).rev() {
        digits[k] = glyph((left % 16) as u8);
        left = left / 16;
    }
    digits
}
