// Text and numbers put into a buffer, each after the other.
#![tactic(auto)]

ghost use Rattle.std.specs.Prelude.{◌≡◌, ◌+◌, ◌≤◌, length};
ghost use Rattle.text.specs.Places.{Puts};
ghost use Rattle.text.specs.Text.{decimal};
ghost use Rattle.text.specs.scaffold.Digits.{last};

// A buffer that is written from a place on, and the place after what was put last.
#[derive(Drop)]
pub struct Page<'a> {
    pub buffer: &'a mut [u8],
    pub at: usize,
}

impl Page<'_> {
    #[tactic(auto, using(crate::proofs::Putting::put_part))]
    pub fn text(&mut self, words: &[u8])
        requires { self.old.at + length words.now ≤ length self.old.buffer.now }
        ensures { Puts self.old words.now self.new }
    {
        let end = self.at + words.len();
        self.buffer[self.at..end].copy_from_slice(words);
        self.at = end;
    }

    #[tactic(auto, using(crate::proofs::Putting::put_part, crate::proofs::Decimals::whole))]
    pub fn decimal(&mut self, n: u64)
        requires { self.old.at + 20 ≤ length self.old.buffer.now }
        ensures put_from { Puts self.old (decimal n) self.new }
        ensures within { self.new.at ≤ self.old.at + 20 }
    {
        let end = self.at + places(n);
        put_digits(&mut self.buffer[self.at..end], n);
        self.at = end;
    }
}

// How many digits n has in decimal.
fn places(n: u64) -> usize
    ensures value { result ≡ length (decimal n) }
    ensures within { result ≤ 20 }
{
    match n.checked_ilog10() {
        Some(power) => power as usize + 1,
        None => 1,
    }
}

// The last digits of n, as many as there is room for: two at a time, for half the divisions.
fn put_digits(digits: &mut [u8], n: u64)
    ensures { digits.new ≡ last (length digits.old) n }
{
    if let Some((front, pair)) = digits.split_last_chunk_mut::<2>() {
        let last = (n % 100) as u8;
        *pair = [b'0' + last / 10, b'0' + last % 10];
        put_digits(front, n / 100);
    } else if let Some(one) = digits.last_mut() {
        *one = b'0' + (n % 10) as u8;
    }
}
