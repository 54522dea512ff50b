//! What a search for a message answers, and the numbers that stand for it at the door.
#![tactic(auto)]

ghost use Rattle.std.specs.Prelude.{◌≡◌};
ghost use Rattle.found.specs.Numbers.{refusal_of, bad_item_of, start_of, length_of};

use refusals::Refused;

/// A part of a record: its first item's number, and how many items it has.
#[derive(Clone, Copy, Default)]
pub struct Part {
    pub start: usize,
    pub length: usize,
}

/// The answer: a part, or why there is none.
pub type Found = Result<Part, Refused>;

/// The refusal's number, 0 where there is none.
pub fn refusal_number(found: Found) -> u8
    ensures { result ≡ refusal_of found }
{
    found.err().map_or(0, |refused| refused.why.number())
}

/// The item's number beside a refusal, else 0.
pub fn bad_item(found: Found) -> u64
    ensures { result ≡ bad_item_of found }
{
    found.err().map_or(0, |refused| refused.item)
}

/// Where the part starts, 0 after a refusal.
pub fn start_of(found: Found) -> u64
    ensures { result ≡ start_of found }
{
    found.map_or(0, |part| part.start as u64)
}

/// How many items the part has, 0 after a refusal.
pub fn length_of(found: Found) -> u64
    ensures { result ≡ length_of found }
{
    found.map_or(0, |part| part.length as u64)
}
