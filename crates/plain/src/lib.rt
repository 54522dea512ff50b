//! The plain device, a memory with a pointer, fed with what the plain reader of the wire hears.
#![tactic(auto)]

ghost use Rattle.std.specs.Prelude.{◌≡◌, false};
ghost use Rattle.wire.specs.Byte.{bit};
ghost use Rattle.memory.specs.Memory.{put};
ghost use Rattle.plain.specs.Device.{own, plain_of, first_byte, later_byte, hears, device_memory, device_is, left_device, left_of, laying_out, place_of, owes_bit, owes_later, owes};

use reader::{Heard, Place};
use wire::Bits;

/// What the device is in the middle of: nothing; a write, its pointer due or not; a read, with the byte laid out.
#[derive(Clone, Copy, Debug, PartialEq, Eq)]
pub enum Turn {
    Off,
    Writing(bool),
    Reading(u8),
}

/// The memory's length and pointer, and the turn. The memory's bytes are lent.
#[derive(Clone, Copy, Debug, PartialEq, Eq)]
pub struct Device {
    pub n: u16,
    pub pointer: u16,
    pub turn: Turn,
}

// Bits 7 to 1 of the byte equal ADD's.
fn is_own(add: u8, byte: u8) -> bool
    ensures { result ≡ own add byte }
{
    wire::fits(byte, add, 255)
}

// The place of the laid-out bit that is on the wire.
fn bit_place(scl: bool, bits: Bits) -> u8
    ensures { result ≡ place_of scl bits }
{
    if scl {
        bits.count.saturating_sub(1)
    } else {
        bits.count
    }
}

impl Device {
    // The byte at the pointer is laid out, the pointer goes one on.
    fn lay_out(&mut self, memory: &[u8])
        ensures { self.new ≡ laying_out self.old memory.now }
    {
        self.turn = Turn::Reading(memory::peek(memory, self.pointer));
        self.pointer = memory::pointer_on(self.n, self.pointer);
    }

    // The first byte after a Start.
    fn hear_first(&mut self, add: u8, byte: u8, memory: &[u8])
        ensures { left_device self.new memory.now
            ≡ left_of self.old.n (first_byte self.old.n (own add byte) (bit 0 byte) (device_memory self.old memory.now)) }
    {
        if !is_own(add, byte) {
            self.turn = Turn::Off;
        } else if byte % 2 == 1 {
            self.lay_out(memory);
        } else {
            self.turn = Turn::Writing(true);
        }
    }

    // Stays: beside the handler's own, since the two devices that are compared share their memory's words alone.
    // A byte of a write turn: the pointer where one is due, else stored.
    fn take_byte(&mut self, due: bool, byte: u8, memory: &mut [u8])
        ensures { left_device self.new memory.new
            ≡ left_of self.old.n (plain_of (put self.old.n due byte (device_memory self.old memory.old)) (Turn.Writing false)) }
    {
        if due {
            self.pointer = memory::aim(self.n, byte);
        } else {
            memory::store(memory, self.pointer, byte);
            self.pointer = memory::pointer_on(self.n, self.pointer);
        }
        self.turn = Turn::Writing(false);
    }

    // A later byte, with the level of its ninth clock: the master's 1 ends a read turn.
    fn hear_later(&mut self, byte: u8, level: bool, memory: &mut [u8])
        ensures { left_device self.new memory.new
            ≡ left_of self.old.n (later_byte self.old.n byte self.old.turn level (device_memory self.old memory.old)) }
    {
        match self.turn {
            Turn::Off => {}
            Turn::Writing(due) => self.take_byte(due, byte, memory),
            Turn::Reading(_) if level => self.turn = Turn::Off,
            Turn::Reading(_) => self.lay_out(memory),
        }
    }

    /// What the device does with what it hears.
    pub fn hear(&mut self, add: u8, heard: Heard, memory: &mut [u8])
        ensures { left_device self.new memory.new
            ≡ left_of self.old.n (hears self.old.n add heard (device_is self.old memory.old)) }
    {
        match heard {
            Heard::Silence => {}
            Heard::Started | Heard::Stopped => self.turn = Turn::Off,
            Heard::Byte(true, byte, _) => self.hear_first(add, byte, memory),
            Heard::Byte(false, byte, level) => self.hear_later(byte, level, memory),
        }
    }
}

impl Turn {
    // The 0 bits of a laid-out byte are owed once the hold has ended.
    fn owes_bit(self, held: bool, scl: bool, bits: Bits) -> bool
        ensures { result ≡ owes_bit held scl bits self }
    {
        match self {
            Turn::Reading(out) => !held & wire::is_zero_at(out, bit_place(scl, bits)),
            _ => false,
        }
    }

    // The ninth slot of a later byte is owed in a write turn.
    fn owes_later(self) -> bool
        ensures { result ≡ owes_later self }
    {
        matches!(self, Turn::Writing(_))
    }

    /// Whether the device owes a low SDA.
    pub fn owes_low(self, add: u8, held: bool, scl: bool, place: Place) -> bool
        ensures { result ≡ owes add held scl place self }
    {
        match place {
            Place::Within(false, bits) => self.owes_bit(held, scl, bits),
            Place::Ending(true, byte, _) => is_own(add, byte),
            Place::Ending(false, _, _) => self.owes_later(),
            _ => false,
        }
    }
}
