// Bytes in hexadecimal: two digits each, in either case.
ghost use Rattle.std.specs.Prelude.{◌≡◌, ◌<◌, true, cond};
ghost use Rattle.std.specs.List.{list_all};
ghost use Rattle.exact.specs.Bytes.{put};
ghost use Rattle.words.specs.Hex.{digit_of, is_hex, in_pairs, bytes_in};

#[tactic(auto, unfolding(crate::specs::Hex::digit_of))]
fn is_hex(c: u8) -> bool
    ensures { result ≡ is_hex c }
{
    (c as char).is_digit(16)
}

// What a digit counts.
#[tactic(auto, unfolding(crate::specs::Hex::digit_of))]
fn digit_of(c: u8) -> u8
    requires { is_hex c ≡ true }
    ensures value { result ≡ digit_of c }
    ensures within { result < 16 }
{
    match c {
        b'0'..=b'9' => c - b'0',
        b'a'..=b'f' => c - b'a' + 10,
        _ => c - b'A' + 10,
    }
}

// Whether the word is digits, two and two.
fn in_pairs(word: &[u8]) -> bool
    ensures { result ≡ in_pairs word.now }
{
    word.len() % 2 == 0 && are_hex(word)
}

fn are_hex(word: &[u8]) -> bool
    ensures { result ≡ list_all is_hex word.now }
{
    word.iter().all(|c| is_hex(*c))
}

// Puts the byte of each two digits into out from its start on, as far as it goes.
fn fill(word: &[u8], out: &mut [u8])
    requires { in_pairs word.now ≡ true }
    ensures { out.new ≡ put out.old 0 (bytes_in word.now) }
{
    for k in 0..word.len() / 2 {
        let high = digit_of(word[2 * k]);
        let low = digit_of(word[2 * k + 1]);
        numbers::put(out, k, high * 16 + low);
    }
}

// A Bool and no Option: what it says of the word stands in its contract.
// Puts the bytes that the word spells into out from its start on, as far as it goes, where the word is digits, two and two; else nothing. Answers which: of the empty word true, as it spells no bytes.
pub fn put_bytes(word: &[u8], out: &mut [u8]) -> bool
    ensures { (result ≡ in_pairs word.now) × (out.new ≡ cond (in_pairs word.now) (put out.old 0 (bytes_in word.now)) out.old) }
{
    if in_pairs(word) {
        fill(word, out);
        true
    } else {
        false
    }
}
