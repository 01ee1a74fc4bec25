// Taking the words of a call from its line.
ghost use Rattle.std.specs.Prelude.{◌≡◌, ◌≤◌, length, min, IfOk, IfErr};

use crate::word::{Kind, Word, next_word};

// Where the bytes of a second record stand.
pub const SECOND_AT: usize = 160_000;

// How the words are not as the call's form has them: one is missing or left over, or one is not of its kind.
#[derive(Clone, Copy, PartialEq, Eq, Debug)]
pub enum Misfit {
    Form,
    Wrong(Word),
}

// What a line gives to its call: a number for each of its words, in two's complement where it has a sign, and for bytes how many there are; and the bytes that they spell. No call has more words; of more, the first so many are kept.
#[derive(Clone, Copy)]
pub struct Given<'b> {
    pub numbers: [u32; 15],
    pub bytes: &'b [u8],
}

impl Given<'_> {
    // The number of the word at a place, 0 where it is none of this type.
    pub fn number<N: TryFrom<u32> + Default + Drop>(&self, place: usize) -> N
    where
        <N as TryFrom<u32>>::Error: Drop,
    {
        N::try_from(self.numbers.get(place).copied().unwrap_or(0)).unwrap_or_default()
    }

    pub fn signed(&self, place: usize) -> i16 {
        self.number::<u16>(place).cast_signed()
    }

    fn count(&self, place: usize) -> usize {
        self.number::<u32>(place) as usize
    }

    // The bytes of the word at a place.
    pub fn bytes(&self, place: usize) -> &[u8] {
        let bytes = self.bytes;
        match bytes.get(..self.count(place)) {
            Some(word) => word,
            None => &[],
        }
    }

    // The bytes of the word at a place, where they are a second record's.
    pub fn second(&self, place: usize) -> &[u8] {
        let end = SECOND_AT.saturating_add(self.count(place));
        let bytes = self.bytes;
        match bytes.get(SECOND_AT..end) {
            Some(word) => word,
            None => &[],
        }
    }
}

// The first so many bytes, or all where there are no more, to be written too.
pub fn first_mut(bytes: &mut [u8], count: u32) -> &mut [u8]
    ensures { length result.now ≡ min count (length bytes.old) }
{
    let count = (count as usize).min(bytes.len());
    &mut bytes[..count]
}

// The bytes that a word spells, put from a place on.
fn count_of(word: &[u8], bytes: &mut [u8], from: usize) -> Option<u32> {
    if words::put_bytes(word, bytes.get_mut(from..)?) {
        u32::try_from(word.len() / 2).ok()
    } else {
        None
    }
}

fn number_of(word: &[u8], kind: Kind, bytes: &mut [u8]) -> Option<u32> {
    match kind {
        Kind::Byte => words::number_in(word, u8::MAX as u32),
        Kind::Word => words::number_in(word, u16::MAX as u32),
        Kind::Long => words::number_in(word, u32::MAX),
        Kind::Signed => words::signed_in(word),
        Kind::Hex => count_of(word, bytes, 0),
        Kind::Second => count_of(word, bytes, SECOND_AT),
    }
}

// Takes these words in turn from what is left of a line behind its name: the numbers that they give, the bytes that they spell, which are put, and what is left behind them, or behind the one that does not fit.
pub fn take<'l>(
    words: &[Word],
    line: &'l [u8],
    bytes: &mut [u8],
) -> Result<([u32; 15], &'l [u8]), (Misfit, &'l [u8])>
    ensures taken { IfOk result (λ taken. length taken.1.now ≤ length line.now) }
    ensures misfit { IfErr result (λ wrong. length wrong.1.now ≤ length line.now) }
{
    let mut numbers = [0; 15];
    let mut rest = line;
    for (place, word) in words.iter().enumerate() {
        let (text, left) = next_word(rest).ok_or((Misfit::Form, rest))?;
        rest = left;
        let number = number_of(text, word.1, bytes).ok_or((Misfit::Wrong(*word), rest))?;
        if place < numbers.len() {
            numbers[place] = number;
        }
    }
    Ok((numbers, rest))
}
