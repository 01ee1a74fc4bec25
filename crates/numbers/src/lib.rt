// Numbers in bytes, the most significant first. Past the end a byte is read as 0 and none is put, so any place can be asked for.
#![tactic(auto)]

ghost use Rattle.std.specs.Prelude.{◌≡◌, ℕ};
ghost use Rattle.exact.specs.Bytes.{cells, number_at, bytes_of, put, signed, unsigned};

// A number that records hold in so many bytes.
pub trait Number: Copy {
    ghost size: { ℕ };

    // The value whose bytes spell a number, and the number that a value's bytes spell.
    ghost of: { ℕ → Self };

    ghost number: { Self → ℕ };

    // What the first bytes of b hold.
    fn first(b: &[u8]) -> Self
        ensures { result ≡ of (number_at size b.now 0) };

    // Puts the value's bytes first, as far as b goes.
    fn put_first(self, b: &mut [u8])
        ensures { b.new ≡ put b.old 0 (bytes_of size (number self)) };
}

// The number that stands in b from place k on.
pub fn at<N: Number>(b: &[u8], k: usize) -> N
    ensures { result ≡ N.of (number_at N.size b.now k) }
{
    N::first(&b[k.min(b.len())..])
}

// Puts a number's bytes into b from place k on, as far as b goes.
pub fn put<N: Number>(b: &mut [u8], k: usize, x: N)
    ensures { b.new ≡ put b.old k (bytes_of N.size (N.number x)) }
{
    let start = k.min(b.len());
    x.put_first(&mut b[start..]);
}

// Puts these bytes first, as far as b goes.
fn put_front(b: &mut [u8], bytes: &[u8])
    ensures { b.new ≡ put b.old 0 bytes.now }
{
    let n = b.len().min(bytes.len());
    b[..n].copy_from_slice(&bytes[..n]);
}

// Puts a number's bytes first, as far as b goes. Where there is room for all, they are stored as one.
fn put_whole<const N: usize>(b: &mut [u8], bytes: [u8; N])
    ensures { b.new ≡ put b.old 0 bytes.entry }
{
    if let Some(whole) = b.first_chunk_mut() {
        *whole = bytes;
    } else {
        put_front(b, &bytes);
    }
}

// The first bytes of b, with 0 for those past its end. Where all are there, they are loaded as one.
fn front<const N: usize>(b: &[u8]) -> [u8; N]
    ensures { result ≡ cells N b.now 0 }
{
    if let Some(whole) = b.first_chunk() {
        return *whole;
    }
    let mut bytes = [0; N];
    put_front(&mut bytes, b);
    bytes
}

impl Number for u8 {
    ghost size = { 1 };

    ghost of = { λ x. x };

    ghost number = { λ x. x };

    fn first(b: &[u8]) -> u8 {
        u8::from_be_bytes(front(b))
    }

    fn put_first(self, b: &mut [u8]) {
        put_whole(b, u8::to_be_bytes(self));
    }
}

impl Number for u16 {
    ghost size = { 2 };

    ghost of = { λ x. x };

    ghost number = { λ x. x };

    fn first(b: &[u8]) -> u16 {
        u16::from_be_bytes(front(b))
    }

    fn put_first(self, b: &mut [u8]) {
        put_whole(b, u16::to_be_bytes(self));
    }
}

impl Number for u32 {
    ghost size = { 4 };

    ghost of = { λ x. x };

    ghost number = { λ x. x };

    fn first(b: &[u8]) -> u32 {
        u32::from_be_bytes(front(b))
    }

    fn put_first(self, b: &mut [u8]) {
        put_whole(b, u32::to_be_bytes(self));
    }
}

impl Number for u64 {
    ghost size = { 8 };

    ghost of = { λ x. x };

    ghost number = { λ x. x };

    fn first(b: &[u8]) -> u64 {
        u64::from_be_bytes(front(b))
    }

    fn put_first(self, b: &mut [u8]) {
        put_whole(b, u64::to_be_bytes(self));
    }
}

impl Number for i16 {
    ghost size = { 2 };

    ghost of = { signed };

    ghost number = { unsigned };

    fn first(b: &[u8]) -> i16 {
        signed(u16::first(b))
    }

    fn put_first(self, b: &mut [u8]) {
        unsigned(self).put_first(b);
    }
}

// Two's complement: the signed number that two bytes hold, and its two bytes. Calls of their own, which their contracts define.
pub fn signed(x: u16) -> i16
    ensures { result ≡ signed x }
{
    x.cast_signed()
}

pub fn unsigned(x: i16) -> u16
    ensures { result ≡ unsigned x }
{
    x.cast_unsigned()
}
