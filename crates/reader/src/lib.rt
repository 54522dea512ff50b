//! The plain reader, which sees the wire and nothing else.
#![tactic(auto)]

ghost use Rattle.std.specs.Prelude.{◌≡◌};
ghost use Rattle.reader.specs.Reader.{fall_place, rise_place, place_after, fall_heard, heard_at, reader_after, heard_of};

use wire::{Bits, Edge, Level, Line};

/// Where the reader is: outside every message; in the bits of a byte, the first after the Start or a later one; in its ninth
/// clock, with the byte, and the clock's level once its rise has come.
#[derive(Clone, Copy)]
pub enum Place {
    Idle,
    Within(bool, Bits),
    Ending(bool, u8, Option<bool>),
}

/// What the reader tells of an edge. A byte, the first or a later one, comes at its ninth fall, with the ninth level.
#[derive(Clone, Copy, Debug, PartialEq, Eq)]
pub enum Heard {
    Silence,
    Started,
    Stopped,
    Byte(bool, u8, bool),
}

/// The wire as the reader remembers it, and where it is in a message.
#[derive(Clone, Copy)]
pub struct Reader {
    pub line: Line,
    pub place: Place,
}

impl Place {
    // The eighth fall leads to the ninth clock, the ninth to the next byte; a fall before its rise ends nothing.
    fn fall_place(self) -> Self
        ensures { result ≡ fall_place self }
    {
        match self {
            Place::Within(first, bits) if bits.is_whole() => Place::Ending(first, bits.value, None),
            Place::Ending(_, _, Some(_)) => Place::Within(false, Bits::no_bits()),
            _ => self,
        }
    }

    // A rise brings a bit, or the level of the ninth clock.
    fn rise_place(self, sda: bool) -> Self
        ensures { result ≡ rise_place self sda }
    {
        match self {
            Place::Idle => self,
            Place::Within(first, bits) => Place::Within(first, bits.push(sda)),
            Place::Ending(first, byte, _) => Place::Ending(first, byte, Some(sda)),
        }
    }

    fn place_after(self, edge: Edge) -> Self
        ensures { result ≡ place_after self edge }
    {
        match edge {
            Edge::Still => self,
            Edge::Start => Place::Within(true, Bits::no_bits()),
            Edge::Stop => Place::Idle,
            Edge::Rise(sda) => self.rise_place(sda),
            Edge::Fall => self.fall_place(),
        }
    }

    // A byte is heard at its ninth fall.
    fn fall_heard(self) -> Heard
        ensures { result ≡ fall_heard self }
    {
        match self {
            Place::Ending(first, byte, Some(level)) => Heard::Byte(first, byte, level),
            _ => Heard::Silence,
        }
    }

    /// What is heard at an edge.
    pub fn heard_at(self, edge: Edge) -> Heard
        ensures { result ≡ heard_at self edge }
    {
        match edge {
            Edge::Start => Heard::Started,
            Edge::Stop => Heard::Stopped,
            Edge::Fall => self.fall_heard(),
            _ => Heard::Silence,
        }
    }
}

impl Reader {
    /// Reads one wire level more, and tells what is heard of it.
    pub fn read_on(&mut self, level: Level) -> Heard
        ensures heard { result ≡ heard_of self.old level.scl level.sda }
        ensures reader { self.new ≡ reader_after self.old level.scl level.sda }
    {
        let edge = self.line.read(level);
        let heard = self.place.heard_at(edge);
        self.place = self.place.place_after(edge);
        heard
    }
}
