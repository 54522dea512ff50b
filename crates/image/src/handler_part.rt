//! The handler's part of an image: n and the pointer, low byte first, and whether a pointer is due.
ghost use Rattle.std.specs.Prelude.{◌≡◌, ◌≤◌, length};
ghost use Rattle.image.specs.HandlerPart.{handler_length, handler_part, handler_from, handler_valid, is_handler};

use firmware::Handler;
use memory::peek;

pub const HANDLER_LENGTH: usize = 5;

// Stays: functions on a handler, no methods. The type is of another crate, and an `impl` for it is refused here.

/// n, the pointer, and whether one is due.
pub fn handler_part(h: Handler) -> [u8; HANDLER_LENGTH]
    ensures { result ≡ handler_part h }
{
    let [n_low, n_high] = h.n.to_le_bytes();
    let [pointer_low, pointer_high] = h.pointer.to_le_bytes();
    [n_low, n_high, pointer_low, pointer_high, u8::from(h.due)]
}

/// The handler that bytes name; bytes past their end are 0.
pub fn handler_from(b: &[u8]) -> Handler
    ensures { result ≡ handler_from b.now }
{
    Handler {
        n: u16::from_le_bytes([peek(b, 0), peek(b, 1)]),
        pointer: u16::from_le_bytes([peek(b, 2), peek(b, 3)]),
        due: peek(b, 4) == 1,
    }
}

// An n that a window can have, and a pointer below it.
fn is_valid(h: Handler) -> bool
    ensures { result ≡ handler_valid h }
{
    firmware::is_window_length(u64::from(h.n)) & (h.pointer < h.n)
}

/// Whether bytes begin with the part of a valid handler.
#[tactic(auto, using(crate::specs::Laws::alike_same))]
pub fn is_handler(b: &[u8]) -> bool
    requires { handler_length ≤ length b.now }
    ensures { result ≡ is_handler b.now }
{
    let h = handler_from(b);
    crate::same(&handler_part(h), &b[..HANDLER_LENGTH]) & is_valid(h)
}
