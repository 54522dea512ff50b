//! A history: samples, handler calls and register accesses as numbers, one after the other over a state and its window, and
//! what the first so many of them leave.
#![tactic(auto)]

ghost use Rattle.std.specs.Prelude.{◌≡◌, take};
ghost use Rattle.firmware.specs.Handler.{served};
ghost use Rattle.history.specs.History.{item_of, history_of};

use firmware::State;
use steps::Item;

// Stays: no plainer as a From: Item is of another crate, and these numbers are a history's alone.
// An item as a number: 0 to 3 a sample, 4 a handler call, 10000 + 100 × R a read, 20000 + 100 × R + V a write (hex); any other
// is none.
fn item_of(code: u32) -> Item
    ensures { result ≡ item_of code }
{
    match code / 65536 {
        1 => Item::Read(code / 256 % 256),
        2 => Item::Write(code / 256 % 256, (code % 256) as u8),
        _ if code < 4 => Item::Sample(code / 2 % 2 == 1, code % 2 == 1),
        _ if code == 4 => Item::Call,
        _ => Item::NotAnItem,
    }
}

/// State and window after all the items. What is refused is passed over.
pub fn run(state: &mut State, window: &mut [u8], items: &[u32])
    ensures { served state.new window.new ≡ history_of (served state.old window.old) items.now }
{
    for &code in items {
        let _ = steps::step(state, window, item_of(code));
    }
}

/// State and window after the first `count` items, all of them where there are fewer.
pub fn after(state: &mut State, window: &mut [u8], items: &[u32], count: usize)
    ensures { served state.new window.new ≡ history_of (served state.old window.old) (take count items.now) }
{
    run(state, window, &items[..count.min(items.len())]);
}
