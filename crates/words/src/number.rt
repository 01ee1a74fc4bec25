// Numbers in decimal: digits, at least one, and nothing else but a sign where one may stand.
ghost use Rattle.std.specs.Prelude.{Some, None, ◌≡◌, ◌-◌, cond};
ghost use Rattle.words.specs.Numbers.{is_digit, number_in, signed_of};

const MINUS: u8 = b'-';

// The number that a digit spells.
fn units(c: u8) -> Option<u32>
    ensures { result ≡ cond (is_digit c) (Some (c - 48)) None }
{
    (c as char).to_digit(10)
}

// The number that the word spells, where it is at most so much.
pub fn number_in(word: &[u8], most: u32) -> Option<u32>
    ensures { result ≡ number_in most word.now }
{
    if word.is_empty() {
        return None;
    }
    let limit = most as u64;
    let mut sum: u64 = 0;
    for c in word {
        sum = sum * 10 + units(*c)? as u64;
        if limit < sum {
            return None;
        }
    }
    Some(sum as u32)
}

// A number from -32768 to 32767, as two bytes hold it.
pub fn signed_in(word: &[u8]) -> Option<u32>
    ensures { result ≡ signed_of word.now }
{
    let (sign, digits) = word.split_first()?;
    if *sign != MINUS {
        return number_in(word, 32767);
    }
    let below = 65536_u32.checked_sub(number_in(digits, 32768)?)?;
    Some(below % 65536)
}
