// The door as C calls it: each function of `door` under its own name. What it promises is what door promises.
#![tactic(auto)]

// Stays: the C interface: a crate is a library or a static library, and doorkept and demands rest on door.

ghost use Rattle.std.specs.Prelude.{◌≡◌};
ghost use Rattle.settling.specs.Outcome.{outcome, lent};
ghost use Rattle.firmware_calls.specs.Calls.{door_setup, door_call, door_run};
ghost use Rattle.module_calls.specs.Calls.{door_read, door_write, door_sample, door_look, door_hit};
ghost use Rattle.door.specs.Door.{door_find, drawn, door_draw};

use door::{Part, Taken};
use settling::Answer;
use view::View;

// Makes a state and writes its image. Refuses with 6 (not 48 bytes), 5 (n outside 1 to 256).
#[unsafe(no_mangle)]
pub extern "C" fn wherryoar_setup(state: &mut [u8], add: u8, n: u64) -> Answer
    ensures { outcome result state.new ≡ door_setup state.old add n }
{
    door::wherryoar_setup(state, add, n)
}

// Reads a register. Refuses with 6, 1.
#[unsafe(no_mangle)]
pub extern "C" fn wherryoar_read(state: &mut [u8], number: u32) -> Answer
    ensures { outcome result state.new ≡ door_read state.old number }
{
    door::wherryoar_read(state, number)
}

// Writes a register. Refuses with 6, 1, 2, 3, 8, 9.
#[unsafe(no_mangle)]
pub extern "C" fn wherryoar_write(state: &mut [u8], number: u32, value: u8) -> Answer
    ensures { outcome result state.new ≡ door_write state.old number value }
{
    door::wherryoar_write(state, number, value)
}

// Feeds one sample. Refuses with 6, 4 (a level above 3).
#[unsafe(no_mangle)]
pub extern "C" fn wherryoar_sample(state: &mut [u8], level: u32) -> Answer
    ensures { outcome result state.new ≡ door_sample state.old level }
{
    door::wherryoar_sample(state, level)
}

// Calls the handler over a window of the caller's buffer. Refuses with 6, 5.
#[unsafe(no_mangle)]
pub extern "C" fn wherryoar_call(state: &mut [u8], buffer: &mut [u8], start: u64, n: u64) -> Answer
    ensures { lent (outcome result state.new) buffer.new ≡ door_call state.old buffer.old start n }
{
    door::wherryoar_call(state, buffer, start, n)
}

// Runs a trace over a window of the caller's buffer. Refuses with 6, 5, 4 (an item above 4).
#[unsafe(no_mangle)]
pub extern "C" fn wherryoar_run(
    state: &mut [u8],
    buffer: &mut [u8],
    start: u64,
    n: u64,
    items: &[u8],
) -> Answer
    ensures { lent (outcome result state.new) buffer.new ≡ door_run state.old buffer.old start n items.now }
{
    door::wherryoar_run(state, buffer, start, n, items)
}

// Draws the lanes of a wire record. Refuses with 6, 5, 4 (a level above 3 among the items that would be taken).
#[unsafe(no_mangle)]
pub extern "C" fn wherryoar_draw(
    state: &mut [u8],
    buffer: &mut [u8],
    start: u64,
    n: u64,
    levels: &[u8],
    lanes: &mut [u64],
) -> Taken
    ensures { drawn result state.new buffer.new lanes.new ≡ door_draw state.old buffer.old start n levels.now lanes.old }
{
    door::wherryoar_draw(state, buffer, start, n, levels, lanes)
}

// Looks at a state and changes nothing. Refuses with 6.
#[unsafe(no_mangle)]
pub extern "C" fn wherryoar_look(state: &[u8]) -> View
    ensures { result ≡ door_look state.now }
{
    door::wherryoar_look(state)
}

// Says which address a first byte hits by this state's registers: 0 none, 1 own, 2 general call. Refuses with 6.
#[unsafe(no_mangle)]
pub extern "C" fn wherryoar_hit(state: &[u8], byte: u8) -> Answer
    ensures { result ≡ door_hit state.now byte }
{
    door::wherryoar_hit(state, byte)
}

// Finds the message that an item of a wire record lies in. Refuses with 4 (a level above 3), 7 (no such item).
#[unsafe(no_mangle)]
pub extern "C" fn wherryoar_find(levels: &[u8], item: u64) -> Part
    ensures { result ≡ door_find levels.now item }
{
    door::wherryoar_find(levels, item)
}
