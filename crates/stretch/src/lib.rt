//! A stretch: samples that move nothing but the bits so far and the wire remembered. A run takes them in a small loop and
//! leaves every other sample to the rules.
#![tactic(auto)]

ghost use Rattle.std.specs.Prelude.{◌≡◌, ℕ, Bool, false, [], ◌∷◌, IsTrue};
ghost use Rattle.mssp.specs.Module.{stand_of};
ghost use Rattle.stretch.specs.Seen.{line_of, seen_on, ends, taken_at, place_seen};
ghost use Rattle.stretch.specs.Walk.{Idle, passed, walk_of};
ghost use Rattle.stretch.specs.Stretch.{taking_stops, taking_goes, sending_stops, sending_goes, resting_stops, resting_goes, takes_bits, with_bits, rise_rule, fall_rule, stretch_at, phase_stretch, stand_stretch, seen_in, is_reading, fall_ends, phase_over};

use mssp::{Module, Phase, Stand};
use wire::{Bits, Level, Line};

// Stays: SCL and SDA by name, as the definitions of a stretch have them (seen_on, ends).
/// The wire as it was last seen, and the mark of a Start not yet followed by a low SCL.
#[derive(Clone, Copy)]
pub struct Seen {
    pub scl: bool,
    pub sda: bool,
    pub mark: bool,
}

impl Seen {
    // The wire after a level that is no Start.
    fn on(self, level: Level) -> Seen
        ensures { result ≡ seen_on self level.scl level.sda }
    {
        Seen {
            scl: level.scl,
            sda: level.sda,
            mark: level.scl & self.mark,
        }
    }

    // A level ends a stretch with a Start or a Stop, and with a rise or a fall that the phase has a rule for.
    fn is_ended_by(self, level: Level, rise: bool, fall: bool) -> bool
        ensures { result ≡ ends self level.scl level.sda rise fall }
    {
        match (self.scl, level.scl) {
            (true, true) => !self.mark & (self.sda ^ level.sda),
            (true, false) => fall,
            (false, true) => rise,
            (false, false) => false,
        }
    }

    // A rise takes a bit.
    fn take_at(self, bits: Bits, level: Level) -> Bits
        ensures { result ≡ taken_at bits self level.scl level.sda }
    {
        if !self.scl && level.scl {
            bits.push(level.sda)
        } else {
            bits
        }
    }

    // A fall moves on to the next bit. The last place meets no fall here, so the remainder only keeps the number in range.
    fn place_at(self, place: u8, scl: bool) -> u8
        ensures { result ≡ place_seen place self scl }
    {
        if self.scl && !scl {
            place % 8 + 1
        } else {
            place
        }
    }

    // On over an item in a phase without bits, up to an edge that it has a rule for.
    fn resting(self, rules: Resting, item: u8) -> Option<Seen>
        ensures { result ≡ passed (resting_stops rules.holds rules.pulls rules.rise rules.fall) (resting_goes rules.holds rules.pulls) self item }
    {
        let level = Level::from(item).on_wire(rules.holds, rules.pulls);
        if item > 3 || self.is_ended_by(level, rules.rise, rules.fall) {
            return None;
        }
        Some(self.on(level))
    }
}

/// Along a stretch of an address or of data: the bits so far.
#[derive(Clone, Copy)]
pub struct Taken {
    pub bits: Bits,
    pub wire: Seen,
}

impl Taken {
    // On over an item of an address or of data, up to the fall that ends a byte.
    fn taking(self, item: u8) -> Option<Taken>
        ensures { result ≡ passed taking_stops taking_goes self item }
    {
        let level = Level::from(item);
        if item > 3 || self.wire.is_ended_by(level, false, self.bits.is_whole()) {
            return None;
        }
        Some(Taken {
            bits: self.wire.take_at(self.bits, level),
            wire: self.wire.on(level),
        })
    }
}

/// Along a stretch of a byte that is sent: the byte and its place.
#[derive(Clone, Copy)]
pub struct Sent {
    pub byte: u8,
    pub place: u8,
    pub wire: Seen,
}

impl Sent {
    // On over an item of a byte that is sent, up to the fall that ends it.
    fn sending(self, item: u8) -> Option<Sent>
        ensures { result ≡ passed sending_stops sending_goes self item }
    {
        let level = Level::from(item).on_wire(false, wire::is_zero_at(self.byte, self.place));
        if item > 3 || self.wire.is_ended_by(level, false, self.place >= 7) {
            return None;
        }
        Some(Sent {
            byte: self.byte,
            place: self.wire.place_at(self.place, level.scl),
            wire: self.wire.on(level),
        })
    }
}

/// Where a walk along the items ends, and over how many it goes.
#[derive(Clone, Copy)]
pub struct Walked<P> {
    pub end: P,
    pub length: usize,
}

/// Where a stretch leaves the module, and of how many items it is.
#[derive(Clone, Copy)]
pub struct Stretch {
    pub phase: Phase,
    pub wire: Seen,
    pub length: usize,
}

// A walk along the items of a trace: what each does to the place where the walk stands.
trait Course: Copy {
    type Place: Copy;

    ghost stops: { Self → Self.Place → ℕ → Bool };

    ghost goes: { Self → Self.Place → ℕ → Self.Place };

    // The place behind an item, unless it ends the walk.
    fn over(self, place: Self::Place, item: u8) -> Option<Self::Place>
        ensures { result ≡ passed (stops self) (goes self) place item };

    // Whether the same item again changes nothing more.
    fn settles(self, place: Self::Place, item: u8) -> bool
        ensures { IsTrue result → stops self place item ≡ false → Idle (stops self) (goes self) (goes self place item) item };
}

// An address or data.
#[derive(Clone, Copy)]
struct Taking;

impl Course for Taking {
    type Place = Taken;

    ghost stops = { λ course. taking_stops };

    ghost goes = { λ course. taking_goes };

    fn over(self, place: Taken, item: u8) -> Option<Taken> {
        place.taking(item)
    }

    fn settles(self, _: Taken, _: u8) -> bool {
        true
    }
}

// A byte that is sent.
#[derive(Clone, Copy)]
struct Sending;

impl Course for Sending {
    type Place = Sent;

    ghost stops = { λ course. sending_stops };

    ghost goes = { λ course. sending_goes };

    fn over(self, place: Sent, item: u8) -> Option<Sent> {
        place.sending(item)
    }

    // After a fall SDA may change under the same level.
    fn settles(self, place: Sent, item: u8) -> bool {
        !place.wire.scl || Level::from(item).scl
    }
}

// Any other phase: what it pulls, and whether it has a rule for a rise and for a fall.
#[derive(Clone, Copy)]
struct Resting {
    holds: bool,
    pulls: bool,
    rise: bool,
    fall: bool,
}

impl Course for Resting {
    type Place = Seen;

    ghost stops = { λ course. resting_stops course.holds course.pulls course.rise course.fall };

    ghost goes = { λ course. resting_goes course.holds course.pulls };

    fn over(self, place: Seen, item: u8) -> Option<Seen> {
        place.resting(self, item)
    }

    fn settles(self, _: Seen, _: u8) -> bool {
        true
    }
}

// Along a course up to the item that ends it. Items that change nothing more are passed over together.
fn walk<C: Course>(course: C, from: C::Place, items: &[u8]) -> Walked<C::Place>
    ensures { result ≡ walk_of (C.stops course) (C.goes course) from items.now }
{
    let mut place = from;
    let mut i = 0;
    // Stays: no plainer, since the number of items is the answer, and the theorems of a walk (walk_on, walk_stops) go by it.
    while i < items.len() {
        let item = items[i];
        let Some(next) = course.over(place, item) else {
            break;
        };
        let settles = course.settles(place, item);
        place = next;
        i += 1;
        if settles {
            i = items::first_other(items, i, item);
        }
    }
    Walked {
        end: place,
        length: i,
    }
}

// A rise takes a bit where bits come and the clock is not held.
fn takes_bits(phase: Phase) -> bool
    ensures { result ≡ takes_bits phase }
{
    matches!(
        phase,
        Phase::Address { .. } | Phase::Data { held: false, .. }
    )
}

// The same phase with other bits.
fn with_bits(phase: Phase, bits: Bits) -> Phase
    ensures { result ≡ with_bits phase bits }
{
    match phase {
        Phase::Address { low, .. } => Phase::Address { bits, low },
        Phase::Data { held, .. } => Phase::Data { bits, held },
        _ => phase,
    }
}

// Whether a phase that takes no bits has a rule for a rise. The slot has one only while ACKTIM stands.
fn has_rise(phase: Phase, acktim: bool) -> bool
    ensures { result ≡ rise_rule phase acktim }
{
    match phase {
        Phase::MasterAcknowledge => true,
        Phase::Slot { .. } => acktim,
        _ => false,
    }
}

// Whether it has one for a fall.
fn has_fall(phase: Phase) -> bool
    ensures { result ≡ fall_rule phase }
{
    matches!(phase, Phase::MasterAcknowledge | Phase::Slot { .. }) | phase.has_eight_bits()
}

// A stretch in any phase.
fn in_phase(s: Stand, w: Seen, items: &[u8]) -> Stretch
    ensures { result ≡ phase_stretch s.phase s.acktim w items.now }
{
    let phase = s.phase;
    if takes_bits(phase) {
        let bits = phase.bits_of();
        let Walked { end, length } = walk(Taking, Taken { bits, wire: w }, items);
        return Stretch {
            phase: with_bits(phase, end.bits),
            wire: end.wire,
            length,
        };
    }
    if phase.is_sending() {
        let bits = phase.bits_of();
        let from = Sent {
            byte: bits.value,
            place: bits.count,
            wire: w,
        };
        let Walked { end, length } = walk(Sending, from, items);
        return Stretch {
            phase: Phase::Sending {
                byte: bits.value,
                place: end.place,
            },
            wire: end.wire,
            length,
        };
    }
    let resting = Resting {
        holds: phase.pulls_scl(),
        pulls: phase.pulls_sda(),
        rise: has_rise(phase, s.acktim),
        fall: has_fall(phase),
    };
    let Walked { end, length } = walk(resting, w, items);
    Stretch {
        phase,
        wire: end,
        length,
    }
}

/// A wire that was seen, as a line.
pub fn line_of(w: Seen) -> Line
    ensures { result ≡ line_of w }
{
    Line {
        remembered: Some(Level {
            scl: w.scl,
            sda: w.sda,
        }),
        mark: w.mark,
    }
}

// The wire as a line has it. Before any level was seen nothing looks at it.
fn seen_in(line: Line) -> Seen
    ensures { result ≡ seen_in line.remembered line.mark }
{
    match line.remembered {
        None => Seen {
            scl: false,
            sda: false,
            mark: line.mark,
        },
        Some(level) => Seen {
            scl: level.scl,
            sda: level.sda,
            mark: line.mark,
        },
    }
}

// An enabled module that has seen a level reads the next one.
fn is_reading(s: Stand) -> bool
    ensures { result ≡ is_reading s.enabled s.line.remembered }
{
    s.enabled && s.line.remembered.is_some()
}

/// What a stretch sees of a module.
pub fn stand_of(m: Module) -> Stand
    ensures { result ≡ stand_of m }
{
    Stand {
        phase: m.phase,
        line: m.line,
        enabled: m.config.sspen,
        acktim: m.live.acktim,
    }
}

// A stretch of no items.
fn none(phase: Phase, wire: Seen) -> Stretch
    ensures { result ≡ stretch_at phase wire 0 }
{
    Stretch {
        phase,
        wire,
        length: 0,
    }
}

/// The stretch ahead. Disabled, or before any level was seen, there is none.
pub fn ahead(s: Stand, items: &[u8]) -> Stretch
    ensures { result ≡ stand_stretch s items.now }
{
    if is_reading(s) {
        in_phase(s, seen_in(s.line), items)
    } else {
        none(s.phase, seen_in(s.line))
    }
}

// Whether a fall ends a stretch: in a byte that is sent the last one.
fn falls_out(phase: Phase) -> bool
    ensures { result ≡ fall_ends phase }
{
    if phase.is_sending() {
        phase.bits_of().count >= 7
    } else {
        has_fall(phase)
    }
}

// Where a level that ends no stretch leaves the phase.
fn phase_over(phase: Phase, w: Seen, level: Level) -> Phase
    ensures { result ≡ phase_over phase w level.scl level.sda }
{
    let bits = phase.bits_of();
    if takes_bits(phase) {
        with_bits(phase, w.take_at(bits, level))
    } else if phase.is_sending() {
        Phase::Sending {
            byte: bits.value,
            place: w.place_at(bits.count, level.scl),
        }
    } else {
        phase
    }
}

// A stretch of at most one item, in any phase.
fn over_one(s: Stand, w: Seen, item: u8) -> Stretch
    ensures { result ≡ phase_stretch s.phase s.acktim w (item ∷ []) }
{
    let phase = s.phase;
    let level = Level::from(item).on_wire(phase.pulls_scl(), phase.pulls_sda());
    let rise = has_rise(phase, s.acktim);
    let fall = falls_out(phase);
    if (item > 3) | w.is_ended_by(level, rise, fall) {
        return none(phase, w);
    }
    Stretch {
        phase: phase_over(phase, w, level),
        wire: w.on(level),
        length: 1,
    }
}

// Stays: a single level goes no loop: the second way of a sample (docs/DECISIONS.md, "Three ways of a sample").
/// The stretch of a single level: it has one item, or none where a rule has to see the level.
pub fn over(s: Stand, level: u8) -> Stretch
    ensures { result ≡ stand_stretch s (level ∷ []) }
{
    if is_reading(s) {
        over_one(s, seen_in(s.line), level)
    } else {
        none(s.phase, seen_in(s.line))
    }
}
