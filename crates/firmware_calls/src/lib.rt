//! The handler's own calls on the bytes of a state: set-up, a handler call, a run, a drawing. Refusals are looked at in the paper's order,
//! and a refused call changes no byte.
#![tactic(auto)]

ghost use Rattle.std.specs.Prelude.{◌≡◌};
ghost use Rattle.refusals.specs.Numbers.{answered, verdict_in, item_in, told_verdict, told_item};
ghost use Rattle.settling.specs.Outcome.{outcome, lent};
ghost use Rattle.firmware_calls.specs.Calls.{door_setup, door_call, door_run, drawn_lent, door_lanes};

use firmware::State;
use image::IMAGE_LENGTH;
use refusals::{Refusal, Refused};
use settling::Answer;

/// Makes a state and writes its image.
pub fn set_up(state: &mut [u8], add: u8, n: u64) -> Answer
    ensures { outcome result state.new ≡ door_setup state.old add n }
{
    let other_length = state.len() != IMAGE_LENGTH;
    if other_length {
        return Answer::from(Refusal::NoState);
    }
    match State::set_up(add, n) {
        Ok(made) => settling::settle(state, Ok(0), &image::encode(made)),
        Err(why) => Answer::from(why),
    }
}

// A call without a value answers 0; beside its refusal no item stands.
fn without_item(called: Result<(), Refusal>) -> Result<u8, Refused>
    ensures verdict { told_verdict result ≡ answered called }
    ensures item { told_item result ≡ 0 }
{
    called?;
    Ok(0)
}

// Work without a value answers 0.
fn without_value(work: Result<(), Refused>) -> Result<u8, Refused>
    ensures verdict { told_verdict result ≡ verdict_in work }
    ensures item { told_item result ≡ item_in work }
{
    work?;
    Ok(0)
}

/// Calls the handler over a window of the caller's buffer.
pub fn call(state: &mut [u8], buffer: &mut [u8], start: u64, n: u64) -> Answer
    ensures { lent (outcome result state.new) buffer.new ≡ door_call state.old buffer.old start n }
{
    match image::decode(state) {
        None => Answer::from(Refusal::NoState),
        Some(mut next) => {
            let called = without_item(next.call(buffer, start, n));
            settling::settle(state, called, &image::encode(next))
        }
    }
}

/// Runs a trace over a window of the caller's buffer.
pub fn run(state: &mut [u8], buffer: &mut [u8], start: u64, n: u64, items: &[u8]) -> Answer
    ensures { lent (outcome result state.new) buffer.new ≡ door_run state.old buffer.old start n items.now }
{
    match image::decode(state) {
        None => Answer::from(Refusal::NoState),
        Some(mut next) => {
            let ran = trace::run_in(&mut next, buffer, start, n, items);
            settling::settle(state, without_value(ran), &image::encode(next))
        }
    }
}

/// Draws the lanes of a wire record over a window of the caller's buffer.
pub fn draw(
    state: &mut [u8],
    buffer: &mut [u8],
    start: u64,
    n: u64,
    items: &[u8],
    lanes: &mut [u64],
) -> Answer
    ensures { drawn_lent (lent (outcome result state.new) buffer.new) lanes.new ≡ door_lanes state.old buffer.old start n items.now lanes.old }
{
    match image::decode(state) {
        None => Answer::from(Refusal::NoState),
        Some(mut next) => {
            let drawn = lanes::draw_in(&mut next, buffer, start, n, items, lanes);
            settling::settle(state, without_value(drawn), &image::encode(next))
        }
    }
}
