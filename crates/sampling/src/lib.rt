//! From levels to bytes: one function for each rule of the bus, and the sample that runs them.
#![tactic(auto)]

ghost use Rattle.std.specs.Prelude.{◌≡◌, true, false};
ghost use Rattle.wire.specs.Byte.{none};
ghost use Rattle.mssp.specs.declared.Phase.TheVariants.{Quiet, Address};
ghost use Rattle.mssp.specs.Module.{is_ten_bit};
ghost use Rattle.mssp.specs.Phases.{is_sending};
ghost use Rattle.sampling.specs.Rules.{◌at◌, moved_to, started, stopped, intake, address_if, high_if, first_if, low_if, address_byte, address_fall, data_byte, data_fall, followed, awaits_add, pull_ended, fail_ended, slot_ended, bit_sent, answered, fallen, data_risen, risen, edge_step, seen, sampled};
ghost use Rattle.sampling.specs.Still.{is_still};

use mssp::{Module, Next, Phase, SlotCase, Which};
use wire::{Bits, Edge, Level};

// Stays: the rules are functions, not methods, since an impl of mssp's Module is refused in another crate.

// Start. SSPIF as SCIE or the mode asks; a byte that was being sent is dropped.
fn start(m: &mut Module)
    ensures { m.new ≡ moved_to m.old (started m.old.config m.old.live (is_sending m.old.phase) at Address none false) }
{
    m.live.s = true;
    m.live.p = false;
    m.live.da = false;
    m.live.rw = false;
    m.live.acktim = false;
    m.live.bf &= !m.phase.is_sending();
    m.live.sspif |= m.config.scie | m.config.interrupts();
    m.phase = Phase::Address {
        bits: Bits::no_bits(),
        low: false,
    };
}

// Stop. SSPIF as PCIE or the mode asks; a byte that was being sent is dropped, and the full match ends.
fn stop(m: &mut Module)
    ensures { m.new ≡ moved_to m.old (stopped m.old.config m.old.live (is_sending m.old.phase) at Quiet) }
{
    m.live.s = false;
    m.live.p = true;
    m.live.rw = false;
    m.live.acktim = false;
    m.live.full = false;
    m.live.bf &= !m.phase.is_sending();
    m.live.sspif |= m.config.pcie | m.config.interrupts();
    m.phase = Phase::Quiet;
}

// Intake of a byte, held before its acknowledge or not. Which byte it is, is handed on.
fn take_in(m: &mut Module, byte: u8, hold: bool, which: Which)
    ensures { m.new ≡ moved_to m.old (intake m.old.config m.old.live byte hold which) }
{
    let refused = m.live.bf | m.live.sspov;
    if !m.live.bf {
        m.live.buf = byte;
    }
    m.live.bf = true;
    m.live.sspov = refused;
    m.live.acktim |= m.config.ahen | m.config.dhen;
    m.live.sspif |= hold;
    m.live.ckp &= !hold;
    m.phase = if hold {
        Phase::HeldBefore { refused, which }
    } else {
        Phase::Slot {
            case: SlotCase::slot_after(refused, false),
            which,
        }
    };
}

// A whole seven-bit address, by whether it hits.
fn seven_bits(m: &mut Module, byte: u8, hits: bool)
    ensures { m.new ≡ moved_to m.old (address_if hits m.old.config m.old.live byte) }
{
    if hits {
        m.live.da = false;
        m.live.rw = wire::bit(byte, 0);
        take_in(m, byte, m.config.ahen, Which::Other);
    } else {
        m.phase = Phase::Quiet;
    }
}

// A high byte that fits: to send, after the full match alone, or to write.
fn high_fits(m: &mut Module, byte: u8, sends: bool)
    ensures { m.new ≡ moved_to m.old (high_if true sends m.old.live.full m.old.config m.old.live byte) }
{
    if sends & !m.live.full {
        m.phase = Phase::Quiet;
        return;
    }
    m.live.da = false;
    m.live.rw = sends;
    if sends {
        take_in(m, byte, m.config.ahen, Which::HighToSend);
    } else {
        m.live.full = false;
        take_in(m, byte, m.config.ahen, Which::High);
    }
}

// A whole high byte, by whether it fits.
fn high_byte(m: &mut Module, byte: u8, hits: bool)
    ensures { m.new ≡ moved_to m.old (first_if true hits m.old.config m.old.live byte) }
{
    if hits {
        high_fits(m, byte, wire::bit(byte, 0));
    } else {
        m.live.full = false;
        m.phase = Phase::Quiet;
    }
}

// A whole first byte, by whether it hits.
fn first_byte(m: &mut Module, byte: u8, hits: bool)
    ensures { m.new ≡ moved_to m.old (first_if (is_ten_bit m.old.config) hits m.old.config m.old.live byte) }
{
    if m.config.has_ten_bits() {
        high_byte(m, byte, hits);
    } else {
        seven_bits(m, byte, hits);
    }
}

// A whole low byte, by whether it is ADD.
fn low_byte(m: &mut Module, byte: u8, fits: bool)
    ensures { m.new ≡ moved_to m.old (low_if fits m.old.config m.old.live byte) }
{
    if fits {
        m.live.da = false;
        take_in(m, byte, m.config.ahen, Which::Low);
    } else {
        m.phase = Phase::Slot {
            case: SlotCase::Declines,
            which: Which::Low,
        };
    }
}

// A whole address at its eighth fall.
fn address_byte(m: &mut Module, byte: u8, low: bool)
    ensures { m.new ≡ moved_to m.old (address_byte low m.old.config m.old.live byte) }
{
    if low {
        low_byte(m, byte, byte == m.config.add);
    } else {
        let hit = address::compare(m.config, byte);
        first_byte(m, byte, hit.is_taken());
    }
}

// A whole data byte at its eighth fall.
fn data_byte(m: &mut Module, byte: u8)
    ensures { m.new ≡ moved_to m.old (data_byte m.old.config m.old.live byte) }
{
    m.live.da = true;
    take_in(m, byte, m.config.dhen, Which::Other);
}

// A fall in an address: the eighth ends it, any other ends no byte.
fn address_fall(m: &mut Module, bits: Bits, low: bool)
    ensures { m.new ≡ moved_to m.old (address_fall m.old.config m.old.live bits low) }
{
    if bits.is_whole() {
        address_byte(m, bits.value, low);
    } else {
        m.phase = Phase::Address { bits, low };
    }
}

// A fall in data, likewise.
fn data_fall(m: &mut Module, bits: Bits, held: bool)
    ensures { m.new ≡ moved_to m.old (data_fall m.old.config m.old.live bits held) }
{
    if bits.is_whole() {
        data_byte(m, bits.value);
    } else {
        m.phase = Phase::Data { bits, held };
    }
}

// What follows a byte that was acknowledged: held for sending, or data.
fn follow(m: &mut Module, sends: bool)
    ensures { m.new ≡ moved_to m.old (followed sends m.old.config m.old.live) }
{
    m.live.sspif = true;
    m.live.ckp &= !(sends | m.config.sen);
    m.phase = if sends {
        Phase::HeldForSending
    } else {
        Phase::Data {
            bits: Bits::no_bits(),
            held: m.config.sen,
        }
    };
}

// The hold for ADD begins, with SSPIF.
fn await_add(m: &mut Module, next: Next)
    ensures { m.new ≡ moved_to m.old (awaits_add m.old.live next) }
{
    m.live.sspif = true;
    m.phase = Phase::HeldForAdd(next);
}

// The ninth fall of a slot that pulled, by the byte it belongs to.
fn pull_fall(m: &mut Module, which: Which)
    ensures { m.new ≡ moved_to m.old (pull_ended m.old.config m.old.live which) }
{
    match which {
        Which::Other => follow(m, !m.live.da & m.live.rw),
        Which::High => await_add(m, Next::NextLow),
        Which::Low => {
            m.live.full = true;
            await_add(m, Next::NextData);
        }
        Which::HighToSend => follow(m, true),
    }
}

// The ninth fall of one that did not. A byte that was refused interrupts, one that ACKDT declined does not, a low byte always.
fn fail_fall(m: &mut Module, refused: bool, which: Which)
    ensures { m.new ≡ moved_to m.old (fail_ended refused m.old.live which) }
{
    m.live.sspif |= refused;
    m.phase = Phase::Quiet;
    match which {
        Which::Low => await_add(m, Next::NextQuiet),
        Which::HighToSend => m.live.full = false,
        _ => {}
    }
}

// The ninth fall ends the acknowledge slot.
fn slot_fall(m: &mut Module, slot: SlotCase, which: Which)
    ensures { m.new ≡ moved_to m.old (slot_ended m.old.config m.old.live slot which) }
{
    match slot {
        SlotCase::Pulls => pull_fall(m, which),
        SlotCase::Refuses => fail_fall(m, true, which),
        SlotCase::Declines => fail_fall(m, false, which),
    }
}

// A fall in sending: the next bit, or after the eighth the master's acknowledge.
fn sending_fall(m: &mut Module, byte: u8, place: u8)
    ensures { m.new ≡ moved_to m.old (bit_sent m.old.live byte place) }
{
    if place < 7 {
        m.phase = Phase::Sending {
            byte,
            place: place + 1,
        };
    } else {
        m.live.bf = false;
        m.live.da = true;
        m.phase = Phase::MasterAcknowledge;
    }
}

// The fall after the master's acknowledge: on with the next byte, or done.
fn answer_fall(m: &mut Module)
    ensures { m.new ≡ moved_to m.old (answered m.old.live) }
{
    m.live.sspif = true;
    m.live.rw &= !m.live.ackstat;
    m.live.ckp &= m.live.ackstat;
    m.phase = if m.live.ackstat {
        Phase::Quiet
    } else {
        Phase::HeldForSending
    };
}

// A fall. In a hold, and in a quiet module, it moves nothing.
fn on_fall(m: &mut Module)
    ensures { m.new ≡ moved_to m.old (fallen m.old.config m.old.live m.old.phase) }
{
    match m.phase {
        Phase::Address { bits, low } => address_fall(m, bits, low),
        Phase::Data { bits, held } => data_fall(m, bits, held),
        Phase::Slot { case: slot, which } => slot_fall(m, slot, which),
        Phase::Sending { byte, place } => sending_fall(m, byte, place),
        Phase::MasterAcknowledge => answer_fall(m),
        _ => {}
    }
}

// A rise in data takes a bit, unless the clock is held.
fn data_rise(bits: Bits, held: bool, sda: bool) -> Phase
    ensures { result ≡ data_risen bits held sda }
{
    if held {
        Phase::Data { bits, held: true }
    } else {
        Phase::Data {
            bits: bits.push(sda),
            held: false,
        }
    }
}

// A rise: a bit of an address or of data, the end of ACKTIM in the slot, the master's acknowledge.
fn on_rise(m: &mut Module, sda: bool)
    ensures { m.new ≡ moved_to m.old (risen m.old.live m.old.phase sda) }
{
    match m.phase {
        Phase::Address { bits, low } => m.phase = Phase::Address {
            bits: bits.push(sda),
            low,
        },
        Phase::Data { bits, held } => m.phase = data_rise(bits, held, sda),
        Phase::Slot { .. } => m.live.acktim = false,
        Phase::MasterAcknowledge => m.live.ackstat = sda,
        _ => {}
    }
}

// What an edge does to the module.
fn on_edge(m: &mut Module, edge: Edge)
    ensures { m.new ≡ moved_to m.old (edge_step m.old.config m.old.live m.old.phase edge) }
{
    match edge {
        Edge::Still => {}
        Edge::Start => start(m),
        Edge::Stop => stop(m),
        Edge::Rise(sda) => on_rise(m, sda),
        Edge::Fall => on_fall(m),
    }
}

// The module sees a wire level. Disabled, it only remembers it.
fn see(m: &mut Module, level: Level)
    ensures { m.new ≡ seen m.old level.scl level.sda }
{
    if m.config.sspen {
        let edge = m.line.read(level);
        on_edge(m, edge);
    } else {
        m.line = m.line.line_after(Edge::Still, level);
    }
}

/// One sample, what everybody else drives: a line is low where the sample is low or the module pulls.
pub fn sample(m: &mut Module, level: Level)
    ensures { m.new ≡ sampled m.old level.scl level.sda }
{
    let seen = level.on_wire(m.phase.pulls_scl(), m.phase.pulls_sda());
    see(m, seen);
}

/// The short way: on the wire, with what the phase pulls, the level is what SCL and SDA were.
pub fn is_still(phase: Phase, before: Level, level: u8) -> bool
    ensures { result ≡ is_still phase before.scl before.sda level }
{
    let driven = Level::from(level);
    driven.on_wire(phase.pulls_scl(), phase.pulls_sda()) == before
}
