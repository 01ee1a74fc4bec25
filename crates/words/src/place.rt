// Where words stand: a line is cut at every space, so that two spaces have an empty word between them.
ghost use Rattle.std.specs.Prelude.{◌≡◌, ◌+◌, ◌≤◌, ◌==◌, length, drop, position};
ghost use Rattle.words.specs.Words.{until_space};

const SPACE: u8 = b' ';

// Where the word ends that starts at a place: at the next space, or with the line.
pub fn end_of_word(line: &[u8], from: usize) -> usize
    requires { from ≤ length line.now }
    ensures value { result ≡ from + length (until_space (drop from line.now)) }
    ensures within { (from ≤ result) × (result ≤ length line.now) }
{
    match first_space(&line[from..]) {
        Some(place) => from + place,
        None => line.len(),
    }
}

fn first_space(text: &[u8]) -> Option<usize>
    ensures { result ≡ position (λ c. c == 32) text.now }
{
    text.iter().position(|c| *c == SPACE)
}
