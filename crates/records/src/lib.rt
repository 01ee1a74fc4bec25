// The house form: a two-byte length, which counts the bytes after it, then a version byte, then the fields.
#![tactic(auto)]

ghost use Rattle.std.specs.Prelude.{◌≡◌, [], ◌∷◌};
ghost use Rattle.exact.specs.Bytes.{bytes_of, put};
ghost use Rattle.refusals.specs.Tables.{first_of};
ghost use Rattle.records.specs.House.{head_lines};

use refusals::{Refusal, Verdict};

// The first of the refusals 1 and 2 of bytes that should be a record of so many bytes and of that version.
pub fn head(b: &[u8], size: usize, version: u8) -> Result<(), Refusal>
    ensures { result ≡ first_of (head_lines size version b.now) }
{
    let whole = numbers::at::<u16>(b, 0) as usize + 2;
    let first: u8 = numbers::at(b, 2);
    Ok(())
        .also((b.len() != size) | (whole != size), Refusal::Length)
        .also(first != version, Refusal::Version)
}

// Puts the length field and the version of a record into its buffer.
pub fn put_head(b: &mut [u8], length: u16, version: u8)
    ensures { b.new ≡ put (put b.old 0 (bytes_of 2 length)) 2 (version ∷ []) }
{
    numbers::put(b, 0, length);
    numbers::put(b, 2, version);
}
