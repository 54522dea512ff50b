//! A memory with a pointer: what the handler and the plain device do to it, said once.
#![tactic(auto)]

ghost use Rattle.std.specs.Prelude.{◌≡◌, slice_index_or, slice_set};
ghost use Rattle.memory.specs.Memory.{modulo, pointer_on};

// Stays: `n` and `pointer` come as two numbers. The handler and the plain device each keep both as fields of their own, which
// images, reports and theorems name; a struct for the pair would be taken apart and put together at every call.

// x modulo n; 0 where there is no memory at all.
fn wrap(x: u32, n: u16) -> u16
    ensures { result ≡ modulo n x }
{
    if n == 0 { 0 } else { (x % u32::from(n)) as u16 }
}

/// The pointer that a byte sets.
pub fn aim(n: u16, byte: u8) -> u16
    ensures { result ≡ modulo n byte }
{
    wrap(u32::from(byte), n)
}

/// The pointer, one on.
pub fn pointer_on(n: u16, pointer: u16) -> u16
    ensures { result ≡ pointer_on n pointer }
{
    wrap(u32::from(pointer) + 1, n)
}

/// The byte at the pointer, or at another place of some bytes; 0 past their end.
pub fn peek(bytes: &[u8], pointer: u16) -> u8
    ensures { result ≡ slice_index_or bytes.now pointer 0 }
{
    bytes.get(usize::from(pointer)).copied().unwrap_or(0)
}

/// A byte stored at the pointer; past the end nothing is.
pub fn store(bytes: &mut [u8], pointer: u16, byte: u8)
    ensures { bytes.new ≡ slice_set bytes.old pointer byte }
{
    // Stays: tried by `get_mut` in an `if let`, a `match` and a `let .. else`, and by `first_mut`; the proof did not close, since a
    // slice's `get_mut` leaves its length known and no element.
    let at = usize::from(pointer);
    if at < bytes.len() {
        bytes[at] = byte;
    }
}
