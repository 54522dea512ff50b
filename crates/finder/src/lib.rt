//! The finder: the message under the cursor, as a part of the caller's own wire record.
#![tactic(auto)]

ghost use Rattle.std.specs.Prelude.{◌≡◌, ◌+◌, ◌<◌, ◌≤◌, Ok, IfOk, length};
ghost use Rattle.finder.specs.Messages.{lies_by, end_at};
ghost use Rattle.finder.specs.Carried.{unread, read_on, carried_before};
ghost use Rattle.finder.specs.Find.{message_part, span_of, part_of, part_place};

use found::{Found, Part};
use refusals::{Refusal, Refused};
use wire::{Edge, Level, Line};

/// What is carried on from an item: the line, the edge that the item made, and the Start of the message that it lies in, if any.
#[derive(Clone, Copy)]
pub struct Carried {
    pub line: Line,
    pub edge: Edge,
    pub lies: Option<usize>,
}

// Where an item lies, by whether it is a Start, whether the item before is a Stop, and where that one lies.
fn lies_by(started: bool, stopped: bool, before: Option<usize>, item: usize) -> Option<usize>
    ensures { result ≡ lies_by started stopped before item }
{
    if started {
        return Some(item);
    }
    if stopped { None } else { before }
}

impl Carried {
    // Before the first item.
    fn unread() -> Carried
        ensures { result ≡ unread }
    {
        Carried {
            line: Line::unseen(),
            edge: Edge::Still,
            lies: None,
        }
    }

    // One item more.
    fn read_on(self, item: usize, level: u8) -> Carried
        ensures { result ≡ read_on self item level }
    {
        let mut line = self.line;
        let edge = line.read(Level::from(level));
        let lies = lies_by(edge.is_start(), self.edge.is_stop(), self.lies, item);
        Carried { line, edge, lies }
    }
}

// The first items of the record, count of them.
#[tactic(auto, using(crate::proofs::Laws::carried_first, crate::proofs::Laws::carried_went))]
fn read_to(levels: &[u8], count: usize) -> Carried
    requires { count ≤ length levels.now }
    ensures { result ≡ carried_before levels.now count }
{
    let mut carried = Carried::unread();
    for item in 0..count {
        carried = carried.read_on(item, levels[item]);
    }
    carried
}

// The end of the message that the item lies in, from what is carried on from that item.
#[tactic(auto, using(crate::proofs::Laws::carried_went, crate::proofs::Laws::end_test, crate::proofs::Laws::end_none, crate::proofs::Laws::end_here, crate::proofs::Laws::end_more))]
fn end_after(levels: &[u8], first: Carried, item: usize) -> usize
    requires { (item < length levels.now) × (first ≡ carried_before levels.now (item + 1)) }
    ensures { result ≡ end_at levels.now item }
{
    let mut carried = first;
    for end in item + 1..levels.len() {
        let next = carried.read_on(end, levels[end]);
        if carried.edge.is_stop() | next.edge.is_start() {
            return end;
        }
        carried = next;
    }
    levels.len()
}

// The part of the message that an item of the record lies in; in no message, an empty part at the item.
#[tactic(auto, using(crate::proofs::Laws::part_outside, crate::proofs::Laws::part_inside, crate::proofs::Laws::part_order, crate::proofs::Laws::part_ends))]
fn message_part(levels: &[u8], item: usize) -> Part
    requires { item < length levels.now }
    ensures answer { Ok result ≡ message_part levels.now item }
    ensures within { result.start + result.length ≤ length levels.now }
{
    let carried = read_to(levels, item + 1);
    let Some(start) = carried.lies else {
        return Part {
            start: item,
            length: 0,
        };
    };
    let end = end_after(levels, carried, item);
    Part {
        start,
        length: end - start,
    }
}

/// Start and length of the message that an item lies in, any number taken.
#[tactic(auto, unfolding(crate::specs::Find::span_of))]
pub fn span(levels: &[u8], item: u64) -> Found
    ensures answer { result ≡ span_of levels.now item }
    ensures within { IfOk result (λ part. part.start + part.length ≤ length levels.now) }
{
    let at = item as usize;
    let bad = items::first_above(levels, 3);
    if bad < levels.len() {
        return Err(Refused {
            why: Refusal::NoItem,
            item: bad as u64,
        });
    }
    if levels.len() <= at {
        return Err(Refusal::PastRecord.into());
    }
    Ok(message_part(levels, at))
}

/// The message that an item lies in, as a part of the record itself; refused, the empty part at 0.
pub fn find(levels: &[u8], item: u64) -> &[u8]
    ensures result_value { result.now ≡ part_of levels.now (span_of levels.now item) }
    ensures ref_ptr_value { result.ref_ptr ≡ part_place levels.entry.ref_ptr (span_of levels.now item) }
{
    let part = span(levels, item).unwrap_or_default();
    let end = part.start + part.length;
    &levels[part.start..end]
}
