// Whether there is room for a line on a page, from its place on.
#![tactic(auto)]

ghost use Rattle.std.specs.Prelude.{◌≡◌, ◌-◌, length};

use text::Page;

// How many bytes there are from the place on.
pub fn room(page: &Page) -> usize
    ensures { result ≡ length page.now.buffer.now - page.now.at }
{
    room_from(page.buffer, page.at)
}

// The same of any buffer and any place.
pub fn room_from(buffer: &[u8], at: usize) -> usize
    ensures { result ≡ length buffer.now - at }
{
    buffer.len().saturating_sub(at)
}
