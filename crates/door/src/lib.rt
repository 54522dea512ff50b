// The door: every function that C calls, by the exports of door_c. A state is 48 lent bytes, an answer is numbers. Refusals are
// looked at in the paper's order, and a refused call changes no byte.
#![tactic(auto)]

ghost use Rattle.std.specs.Prelude.{◌≡◌};
ghost use Rattle.settling.specs.Outcome.{outcome, lent};
ghost use Rattle.firmware_calls.specs.Calls.{door_setup, door_call, door_run};
ghost use Rattle.module_calls.specs.Calls.{door_read, door_write, door_sample, door_look, door_hit};
ghost use Rattle.door.specs.Door.{part_answer, door_find, taken_of, drawn, door_draw};

use found::Found;
use settling::Answer;
use view::View;

// A part of the caller's record; beside refusal 4 the first bad item. Refused, the part is empty and at 0.
// Stays: the C interface.
#[repr(C)]
#[derive(Clone, Copy)]
pub struct Part {
    pub refusal: u32,
    pub item: u64,
    pub start: u64,
    pub length: u64,
}

impl From<Found> for Part {
    ghost from_gives = { λ found part. part ≡ part_answer found };

    fn from(found: Found) -> Part {
        Part {
            refusal: u32::from(found::refusal_number(found)),
            item: found::bad_item(found),
            start: found::start_of(found),
            length: found::length_of(found),
        }
    }
}

// How far a drawing went: so many items taken, so many words written. Refused, none; beside refusal 4 the first bad item.
// Stays: the C interface.
#[repr(C)]
#[derive(Clone, Copy)]
pub struct Taken {
    pub refusal: u32,
    pub item: u64,
    pub samples: u64,
    pub items: u64,
}

// Makes a state and writes its image. Refuses with 6 (not 48 bytes), 5 (n outside 1 to 256).
pub fn wherryoar_setup(state: &mut [u8], add: u8, n: u64) -> Answer
    ensures { outcome result state.new ≡ door_setup state.old add n }
{
    firmware_calls::set_up(state, add, n)
}

// Reads a register. Refuses with 6, 1.
pub fn wherryoar_read(state: &mut [u8], number: u32) -> Answer
    ensures { outcome result state.new ≡ door_read state.old number }
{
    module_calls::read(state, number)
}

// Writes a register. Refuses with 6, 1, 2, 3, 8, 9.
pub fn wherryoar_write(state: &mut [u8], number: u32, value: u8) -> Answer
    ensures { outcome result state.new ≡ door_write state.old number value }
{
    module_calls::write(state, number, value)
}

// Feeds one sample. Refuses with 6, 4 (a level above 3).
pub fn wherryoar_sample(state: &mut [u8], level: u32) -> Answer
    ensures { outcome result state.new ≡ door_sample state.old level }
{
    module_calls::sample(state, level)
}

// Calls the handler over a window of the caller's buffer. Refuses with 6, 5.
pub fn wherryoar_call(state: &mut [u8], buffer: &mut [u8], start: u64, n: u64) -> Answer
    ensures { lent (outcome result state.new) buffer.new ≡ door_call state.old buffer.old start n }
{
    firmware_calls::call(state, buffer, start, n)
}

// Runs a trace over a window of the caller's buffer. Refuses with 6, 5, 4 (an item above 4).
pub fn wherryoar_run(
    state: &mut [u8],
    buffer: &mut [u8],
    start: u64,
    n: u64,
    items: &[u8],
) -> Answer
    ensures { lent (outcome result state.new) buffer.new ≡ door_run state.old buffer.old start n items.now }
{
    firmware_calls::run(state, buffer, start, n, items)
}

// Refused, nothing was taken.
fn how_far(answer: Answer, count: usize) -> Taken
    ensures { result ≡ taken_of answer count }
{
    let n = if answer.refusal == 0 { count as u64 } else { 0 };
    Taken {
        refusal: answer.refusal,
        item: answer.item,
        samples: n,
        items: n,
    }
}

// Draws the lanes of a wire record. Refuses with 6, 5, 4 (a level above 3 among the items that would be taken).
pub fn wherryoar_draw(
    state: &mut [u8],
    buffer: &mut [u8],
    start: u64,
    n: u64,
    levels: &[u8],
    lanes: &mut [u64],
) -> Taken
    ensures { drawn result state.new buffer.new lanes.new ≡ door_draw state.old buffer.old start n levels.now lanes.old }
{
    let room = lanes.len();
    let answer = firmware_calls::draw(state, buffer, start, n, levels, lanes);
    how_far(answer, lanes::shorter(levels.len(), room))
}

// Looks at a state and changes nothing. Refuses with 6.
pub fn wherryoar_look(state: &[u8]) -> View
    ensures { result ≡ door_look state.now }
{
    module_calls::look(state)
}

// Says which address a first byte hits by this state's registers: 0 none, 1 own, 2 general call. Refuses with 6.
pub fn wherryoar_hit(state: &[u8], byte: u8) -> Answer
    ensures { result ≡ door_hit state.now byte }
{
    module_calls::hit(state, byte)
}

// Finds the message that an item of a wire record lies in. Refuses with 4 (a level above 3), 7 (no such item).
pub fn wherryoar_find(levels: &[u8], item: u64) -> Part
    ensures { result ≡ door_find levels.now item }
{
    finder::span(levels, item).into()
}
