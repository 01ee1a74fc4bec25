// The words of a line of text, which stand one space apart: numbers in decimal, bytes in hexadecimal.
#![tactic(auto)]

mod hex;
mod number;
mod place;

pub use hex::put_bytes;
pub use number::{number_in, signed_in};
pub use place::end_of_word;
