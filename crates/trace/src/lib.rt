//! A run: the items of a trace one after the other, 0 to 3 a sample, 4 a handler call.
#![tactic(auto)]

ghost use Rattle.std.specs.Prelude.{◌≡◌};
ghost use Rattle.refusals.specs.Numbers.{verdict_in, item_in};
ghost use Rattle.firmware.specs.Handler.{served};
ghost use Rattle.firmware.specs.Window.{window_outcome};
ghost use Rattle.trace.specs.Run.{run_of};
ghost use Rattle.trace.specs.Window.{judged_of, run_in_of};

use firmware::State;
use refusals::{Refusal, Refused};

// All the items, in their order: the samples up to the next that is none, then what that one is.
fn run(state: &mut State, window: &mut [u8], items: &[u8])
    ensures { served state.new window.new ≡ run_of state.old window.old items.now }
{
    let mut i = 0;
    // Stays: no plainer: the index goes by the samples that feed counts and then by one, and the laws of the loop go by it.
    while i < items.len() {
        i += samples::feed(&mut state.mssp, &items[i..]);
        if i < items.len() {
            if items[i] == 4 {
                state.handle(window);
            }
            i += 1;
        }
    }
}

/// A look at the window and at the items of 0 to the largest, before anything is changed. Refuses with 5, then with 4 and the
/// first bad item's number.
pub fn judge(
    state: &State,
    buffer: &[u8],
    start: u64,
    n: u64,
    items: &[u8],
    most: u8,
) -> Result<(), Refused>
    ensures { window_outcome (verdict_in result) (item_in result) state.now buffer.now ≡ judged_of most state.now buffer.now start n items.now (served state.now buffer.now) }
{
    if !firmware::window_fits(buffer.len(), start, n, state.handler.n) {
        return Err(Refused::from(Refusal::NoWindow));
    }
    let bad = items::first_above(items, most);
    if bad < items.len() {
        return Err(Refused {
            why: Refusal::NoItem,
            item: bad as u64,
        });
    }
    Ok(())
}

/// A run over a window of the caller's buffer. Refuses with 5, 4, and then nothing changes.
pub fn run_in(
    state: &mut State,
    buffer: &mut [u8],
    start: u64,
    n: u64,
    items: &[u8],
) -> Result<(), Refused>
    ensures { window_outcome (verdict_in result) (item_in result) state.new buffer.new ≡ run_in_of state.old buffer.old start n items.now }
{
    judge(state, buffer, start, n, items, 4)?;
    let end = start + n;
    run(state, &mut buffer[start as usize..end as usize], items);
    Ok(())
}
