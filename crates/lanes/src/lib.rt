//! The lanes of a wire record: a word for each item, in their order. A stretch of samples that move nothing but bits and wire is
//! painted; every other item is drawn by itself.
#![tactic(auto)]

ghost use Rattle.std.specs.Prelude.{◌+◌, ◌≤◌, ◌≡◌, length};
ghost use Rattle.refusals.specs.Numbers.{verdict_in, item_in};
ghost use Rattle.firmware.specs.Handler.{served};
ghost use Rattle.firmware.specs.Window.{window_outcome};
ghost use Rattle.words.specs.Words.{most_standing};
ghost use Rattle.lanes.specs.Paint.{brush_in, brush_on, ink_of, painted, same_until};
ghost use Rattle.lanes.specs.Lanes.{free_of, free_stretch, laned, laned_of, shorter_of, drawing, draw_in_of};

use firmware::State;
use mssp::{Module, Phase};
use refusals::Refused;
use stretch::Stretch;
use wire::{Edge, Level};

/// What a stretch is painted with: whether a byte is sent, the byte and its place, whether SDA is pulled, and SCL as it was.
#[derive(Clone, Copy)]
pub struct Brush {
    pub sends: bool,
    pub byte: u8,
    pub place: u8,
    pub pulls: bool,
    pub scl: bool,
}

impl Brush {
    // A place counts only where a byte is sent.
    fn of_phase(phase: Phase, scl: bool) -> Brush
        ensures { result ≡ brush_in phase scl }
    {
        let sends = phase.is_sending();
        let bits = phase.bits_of();
        Brush {
            sends,
            byte: if sends { bits.value } else { 0 },
            place: if sends { bits.count } else { 0 },
            pulls: phase.pulls_sda(),
            scl,
        }
    }

    // After an item: a fall moves a byte that is sent on by a place.
    fn brush_on(self, item: u8) -> Brush
        ensures { result ≡ brush_on self item }
    {
        let scl = Level::from(item).scl;
        let moves = self.sends & self.scl & !scl;
        let place = if moves {
            self.place % 8 + 1
        } else {
            self.place
        };
        Brush {
            place,
            pulls: (moves & wire::is_zero_at(self.byte, place)) | (!moves & self.pulls),
            scl,
            ..self
        }
    }

    // The word of an item in a stretch: SDA as it was pulled before the item on the wire, and as it is pulled after it.
    fn ink(self, next: Brush, standing: u64, item: u8) -> u64
        requires { standing ≤ most_standing }
        ensures { result ≡ ink_of standing self next item }
    {
        let sda = !self.pulls & Level::from(item).sda;
        let seen = words::lines(next.pulls, Level { scl: next.scl, sda });
        let happened = words::events(false, false, Edge::Still, self.pulls & (item == 3));
        words::word(standing, seen, happened)
    }
}

// Where the items go on after one: past those that are the same and leave the same word.
fn same_until(items: &[u8], i: usize, item: u8, again: bool) -> usize
    requires { i + 1 ≤ length items.now }
    ensures { result ≡ same_until items.now i item again }
{
    if again {
        items::first_other(items, i + 1, item)
    } else {
        i + 1
    }
}

// The items of a stretch. The same item again leaves the same word, once SDA is pulled as it was.
#[tactic(auto, using(crate::proofs::Painting::run_painted, crate::proofs::Painting::paint_ends, crate::specs::Writing::writing_begins))]
fn paint(standing: u64, from: Brush, items: &[u8], lanes: &mut [u64])
    requires { (standing ≤ most_standing) × (length items.now ≡ length lanes.old) }
    ensures { lanes.new ≡ painted standing from items.now }
{
    let mut b = from;
    let mut i = 0;
    // Stays: the index goes by a run of the same item at a time, and over items and lanes alike, so no `for` is plainer.
    while i < items.len() {
        let item = items[i];
        let next = b.brush_on(item);
        let word = b.ink(next, standing, item);
        let end = same_until(items, i, item, b.pulls == next.pulls);
        lanes[i..end].fill(word);
        b = next;
        i = end;
    }
}

// How many of the items come before a call of the handler can: in a hold those with SCL low, else all.
#[tactic(auto, using(items::specs::Theorems::first_within))]
fn free(phase: Phase, items: &[u8]) -> usize
    ensures answer { result ≡ free_of phase items.now }
    ensures within { result ≤ length items.now }
{
    if phase.pulls_scl() {
        items::first_above(items, 1)
    } else {
        items.len()
    }
}

// The stretch ahead, up to such a call.
fn ahead(m: Module, items: &[u8]) -> Stretch
    ensures { result ≡ free_stretch m items.now }
{
    let end = free(m.phase, items);
    stretch::ahead(stretch::stand_of(m), &items[..end])
}

// Stays: the C interface lends record and lanes as two slices of one length.
// All the items: a stretch, then the item that a rule or the handler has to see.
#[tactic(auto, using(crate::proofs::Drawing::drawing_begins, crate::proofs::Drawing::stretch_inside, crate::proofs::Drawing::stretch_drawn, crate::proofs::Drawing::stretch_alike, crate::proofs::Drawing::window_stays))]
fn draw(s: &mut State, window: &mut [u8], items: &[u8], lanes: &mut [u64])
    requires { length items.now ≡ length lanes.old }
    ensures { laned (served s.new window.new) lanes.new ≡ laned_of (served s.old window.old) items.now }
{
    let mut stands = words::standing(*s);
    let mut i = 0;
    // Stays: the index goes by a stretch and then by one, and over items and lanes alike, so no `for` is plainer.
    while i < items.len() {
        let passed = ahead(s.mssp, &items[i..]);
        let end = i + passed.length;
        let brush = Brush::of_phase(s.mssp.phase, s.mssp.line.scl_high());
        paint(stands, brush, &items[i..end], &mut lanes[i..end]);
        samples::pass_over(&mut s.mssp, passed);
        i = end;
        if i < items.len() {
            let drawn = words::draw_item(s, window, items[i]);
            stands = drawn.standing;
            lanes[i] = drawn.word;
            i += 1;
        }
    }
}

// Stays: what may not change: it is public, and docs/STATEMENTS.md names it.
/// How many items are taken: as many as the shorter of record and lanes has.
pub fn shorter(items: usize, room: usize) -> usize
    ensures { result ≡ shorter_of items room }
{
    items.min(room)
}

/// The lanes of a record over a window of the caller's buffer. Refuses with 5, 4, and then nothing changes.
pub fn draw_in(
    state: &mut State,
    buffer: &mut [u8],
    start: u64,
    n: u64,
    items: &[u8],
    lanes: &mut [u64],
) -> Result<(), Refused>
    ensures { drawing (window_outcome (verdict_in result) (item_in result) state.new buffer.new) lanes.new ≡ draw_in_of state.old buffer.old start n items.now lanes.old }
{
    let count = shorter(items.len(), lanes.len());
    let taken = &items[..count];
    trace::judge(state, buffer, start, n, taken, 3)?;
    let end = start + n;
    let window = &mut buffer[start as usize..end as usize];
    draw(state, window, taken, &mut lanes[..count]);
    Ok(())
}
