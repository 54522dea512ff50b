//! One item, one step: what a sample, a handler call, a read and a write do to module, handler and window, and what they answer.
#![tactic(auto)]

ghost use Rattle.std.specs.Prelude.{◌≡◌};
ghost use Rattle.steps.specs.Step.{stepped, step_of};

use firmware::State;
use refusals::Refusal;
use wire::Level;

/// What may happen next.
#[derive(Clone, Copy)]
pub enum Item {
    /// what everybody else drives, SCL and SDA
    // Stays: what may not change: the theorems say `Sample scl sda`.
    Sample(bool, bool),
    /// a handler call
    Call,
    /// register number
    Read(u32),
    /// register number, value
    Write(u32, u8),
    /// a number that stands for no item
    // Stays: what may not change: agreement's shown_items and trace's item_if have this case (docs/DECISIONS.md, "One item").
    NotAnItem,
}

/// One item on a state and its window; 0 where it answers no value. What is refused changes nothing.
pub fn step(state: &mut State, window: &mut [u8], item: Item) -> Result<u8, Refusal>
    ensures { stepped result state.new window.new ≡ step_of state.old window.old item }
{
    match item {
        Item::Sample(scl, sda) => sampling::sample(&mut state.mssp, Level { scl, sda }),
        Item::Call => state.handle(window),
        Item::Read(number) => return registers::read(&mut state.mssp, number),
        Item::Write(number, value) => writes::write(&mut state.mssp, number, value)?,
        Item::NotAnItem => return Err(Refusal::NoItem),
    }
    Ok(0)
}
