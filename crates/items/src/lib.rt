//! The first item of a kind in a trace or a record: the first out of range, and the first that differs. Eight are looked at
//! at a time, so that a processor may take them together.
#![tactic(auto)]

ghost use Rattle.std.specs.Prelude.{ℕ, Bool, ◌+◌, ◌≤◌, ◌≡◌, eqb, leb, length, drop};
ghost use Rattle.items.specs.First.{leading, first_above, sames, eight_of, Reached};

/// A test of one item.
trait Test: Copy {
    ghost passes: { Self → ℕ → Bool };

    fn passes(self, item: u8) -> bool
        ensures { result ≡ passes self item };
}

/// The item is not above a bound.
#[derive(Clone, Copy)]
struct AtMost(u8);

impl Test for AtMost {
    ghost passes = { λ test item. leb item test.0 };

    #[inline]
    fn passes(self, item: u8) -> bool {
        item <= self.0
    }
}

/// The item is a given one.
#[derive(Clone, Copy)]
struct Equals(u8);

impl Test for Equals {
    ghost passes = { λ test item. eqb item test.0 };

    #[inline]
    fn passes(self, item: u8) -> bool {
        item == self.0
    }
}

// Whether eight items from a place on all pass, with no branch between them.
#[inline]
fn eight<T: Test>(items: &[u8], i: usize, test: T) -> bool
    requires { i + 8 ≤ length items.now }
    ensures { result ≡ eight_of (T.passes test) items.now i }
{
    test.passes(items[i])
        & test.passes(items[i + 1])
        & test.passes(items[i + 2])
        & test.passes(items[i + 3])
        & test.passes(items[i + 4])
        & test.passes(items[i + 5])
        & test.passes(items[i + 6])
        & test.passes(items[i + 7])
}

// Past eights that all pass: no further than the first item that does not.
#[inline]
#[tactic(auto, using(crate::specs::Laws::reach_eight))]
fn past<T: Test>(items: &[u8], from: usize, test: T) -> usize
    requires { from ≤ length items.now }
    ensures { Reached (T.passes test) items.now from result }
{
    let mut at = from;
    // Stays: a loop that steps by 8. Item by item, as `position` goes, is a branch for each item: too slow for the runs' bars.
    while items.len() - at >= 8 {
        if !eight(items, at, test) {
            return at;
        }
        at += 8;
    }
    at
}

// The number of the first item from a place on that does not pass; the length where all do.
#[inline]
#[tactic(auto, using(crate::specs::Laws::reach_on, crate::specs::Laws::reach_here, crate::specs::Laws::reach_end))]
fn first_failing<T: Test>(items: &[u8], from: usize, test: T) -> usize
    requires { from ≤ length items.now }
    ensures { result ≡ from + leading (T.passes test) (drop from items.now) }
{
    for at in past(items, from, test)..items.len() {
        if !test.passes(items[at]) {
            return at;
        }
    }
    items.len()
}

/// The number of the first byte above `most`; the length where there is none.
pub fn first_above(items: &[u8], most: u8) -> usize
    ensures { result ≡ first_above most items.now }
{
    first_failing(items, 0, AtMost(most))
}

/// The number of the first byte from a place on that differs from an item; the length where there is none. From a place past
/// the end it is that place.
#[tactic(auto, using(crate::specs::Laws::leading_here, crate::specs::Laws::leading_end))]
pub fn first_other(items: &[u8], from: usize, item: u8) -> usize
    ensures { result ≡ from + sames item (drop from items.now) }
{
    match items.get(from) {
        Some(&first) if first == item => first_failing(items, from, Equals(item)),
        _ => from,
    }
}
