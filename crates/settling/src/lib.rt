//! What every call on a state's bytes comes to, whatever kind of state they are an image of: an answer, and the next state's
//! image written where the call is done.
#![tactic(auto)]

ghost use Rattle.std.specs.Prelude.{◌≡◌};
ghost use Rattle.refusals.specs.Numbers.{told_verdict, told_item};
ghost use Rattle.settling.specs.Outcome.{outcome, done as doneWith, refused, refused_as, image_over, settled};

use refusals::{Refusal, Refused};

/// The refusal's number, 0 for none; the byte that a read gives, else 0; beside refusal 4 of a run the first bad item, else 0.
// Stays: the C interface.
#[repr(C)]
#[derive(Clone, Copy, Debug, Default, PartialEq, Eq)]
pub struct Answer {
    pub refusal: u32,
    pub value: u32,
    pub item: u64,
}

impl From<Refused> for Answer {
    ghost from_gives = { λ refused answer. answer ≡ refused_as refused };

    fn from(refused: Refused) -> Self {
        Answer {
            refusal: u32::from(refused.why.number()),
            value: 0,
            item: refused.item,
        }
    }
}

impl From<Refusal> for Answer {
    ghost from_gives = { λ why answer. answer ≡ refused why 0 };

    fn from(why: Refusal) -> Self {
        Answer::from(Refused::from(why))
    }
}

impl Answer {
    pub fn done(value: u8) -> Self
        ensures { result ≡ doneWith value }
    {
        Answer {
            value: u32::from(value),
            ..Answer::default()
        }
    }
}

// An image goes over bytes of its own length only.
fn lay_over(state: &mut [u8], image: &[u8])
    ensures { state.new ≡ image_over image.now state.old }
{
    if state.len() == image.len() {
        state.copy_from_slice(image);
    }
}

/// Done: the next state's image is written over the state's bytes. Refused: nothing is.
pub fn settle(state: &mut [u8], work: Result<u8, Refused>, image: &[u8]) -> Answer
    ensures { outcome result state.new ≡ settled (told_verdict work) (told_item work) (image_over image.now state.old) state.old }
{
    match work {
        Ok(value) => {
            lay_over(state, image);
            Answer::done(value)
        }
        Err(refused) => Answer::from(refused),
    }
}
