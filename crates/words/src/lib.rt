// A word of a drawing: what is seen after an item of a wire record, in 64 bits. An item is drawn: where the module holds the
// clock and the record shows SCL high the handler is called, then the item is a sample, then its word is made.
#![tactic(auto)]

ghost use Rattle.std.specs.Prelude.{◌≤◌, ◌≡◌};
ghost use Rattle.firmware.specs.Handler.{served};
ghost use Rattle.words.specs.Words.{is_called, storing, met_if, edge_at, in_conflict, most_standing, standing_by, standing_of, lines_by, lines_of, events_of, word_by, drawn, drawn_item};

use firmware::State;
use mssp::{Module, Phase};
use wire::{Edge, Level};

// After an item: the state, the part of its word that stands while nothing but bits and wire move, and the whole word.
#[derive(Clone, Copy)]
pub struct Drawn {
    pub standing: u64,
    pub word: u64,
}

// The handler is called before an item where the module holds the clock and the record shows SCL high.
fn is_called(phase: Phase, item: u8) -> bool
    ensures { result ≡ is_called phase item }
{
    phase.pulls_scl() & Level::from(item).scl
}

// Whether a call stores a byte: it takes a data byte that is no pointer.
fn is_storing(s: State) -> bool
    ensures { result ≡ storing s }
{
    let l = s.mssp.live;
    l.sspif & !l.ckp & !l.rw & l.da & !s.handler.due
}

// What the item meets: the state after the handler's call, where there is one.
fn meet(called: bool, s: &mut State, window: &mut [u8])
    ensures { served s.new window.new ≡ met_if called (served s.old window.old) }
{
    if called {
        s.handle(window);
    }
}

// The edge that the module reads in an item; disabled it reads none.
fn edge_at(m: Module, item: u8) -> Edge
    ensures { result ≡ edge_at m item }
{
    let level = Level::from(item).on_wire(m.phase.pulls_scl(), m.phase.pulls_sda());
    if m.config.sspen {
        m.line.edge_of(level)
    } else {
        Edge::Still
    }
}

// The record shows both lines high while the module pulls SDA.
fn is_in_conflict(phase: Phase, item: u8) -> bool
    ensures { result ≡ in_conflict phase item }
{
    phase.pulls_sda() & (item == 3)
}

// Stays: what may not change: docs/STATEMENTS.md names `standing` and `word`, whose bound a type would take from callers.
// The parts of a word that stand while nothing but bits and wire move, each in its place.
fn stand(held: u8, number: u8, stat: u8, flags: u8, pointer: u16, buf: u8) -> u64
    ensures { (result ≡ standing_by held number stat flags pointer buf) × (result ≤ most_standing) }
{
    u64::from(held) * 8
        + u64::from(number) * 16
        + u64::from(stat) * 256
        + u64::from(flags) * 65536
        + u64::from(pointer) * 4294967296
        + u64::from(buf) * 281474976710656
}

// What of a state's word stands so: the held clock, the phase's number, registers and pointer.
pub fn standing(s: State) -> u64
    ensures { (result ≡ standing_of s) × (result ≤ most_standing) }
{
    let Module {
        config,
        live,
        phase,
        ..
    } = s.mssp;
    let held = u8::from(phase.pulls_scl());
    let number = phase.phase_number();
    let stat = register_bytes::stat(config, live, phase.is_held_for_add());
    let flags = register_bytes::pack(
        false,
        false,
        live.acktim,
        live.ackstat,
        config.wcol,
        live.sspov,
        live.ckp,
        live.sspif,
    );
    stand(held, number, stat, flags, s.handler.pointer, live.buf)
}

// The wire, SCL and SDA, and whether SDA is pulled.
pub fn lines(pulled: bool, level: Level) -> u8
    ensures { result ≡ lines_by pulled level.scl level.sda }
{
    register_bytes::pack(
        false, false, false, false, false, pulled, level.scl, level.sda,
    )
}

fn lines_of(m: Module) -> u8
    ensures { result ≡ lines_of m }
{
    let pulled = m.phase.pulls_sda();
    match m.line.remembered {
        None => lines(pulled, Level::from(0)),
        Some(level) => lines(pulled, level),
    }
}

// What happened at an item, from bit 22 on.
pub fn events(called: bool, stored: bool, edge: Edge, conflict: bool) -> u8
    ensures { result ≡ events_of called stored edge conflict }
{
    let start = edge.is_start();
    let stop = edge.is_stop();
    register_bytes::pack(false, false, false, conflict, stop, start, stored, called)
}

// The three parts of a word together.
pub fn word(stands: u64, lines: u8, events: u8) -> u64
    requires { stands ≤ most_standing }
    ensures { result ≡ word_by stands lines events }
{
    stands + u64::from(lines) + u64::from(events) * 4194304
}

// One item of a record.
pub fn draw_item(s: &mut State, window: &mut [u8], item: u8) -> Drawn
    ensures { (drawn (served s.new window.new) result.standing result.word ≡ drawn_item (served s.old window.old) item) × (result.standing ≤ most_standing) }
{
    let called = is_called(s.mssp.phase, item);
    let stored = called & is_storing(*s);
    meet(called, s, window);
    let before = s.mssp.phase;
    let edge = edge_at(s.mssp, item);
    let happened = events(called, stored, edge, is_in_conflict(before, item));
    sampling::sample(&mut s.mssp, Level::from(item));
    let seen = lines_of(s.mssp);
    let stands = standing(*s);
    Drawn {
        standing: stands,
        word: word(stands, seen, happened),
    }
}
