//! The wire: levels, what is remembered of them, which edge a new level makes, and the bits of a byte so far.
#![tactic(auto)]

pub mod mask;

ghost use Rattle.std.specs.Prelude.{◌≡◌, ◌<◌};
ghost use Rattle.wire.specs.Wire.{wire, level_of, on_wire, condition, edge_of, line_after, line_next, unseen, is_start, is_stop, scl_high};
ghost use Rattle.wire.specs.Byte.{none, pushed, whole, zero_at, bit};

pub use mask::fits;

/// What SCL and SDA are: high is true.
#[derive(Clone, Copy, Debug, PartialEq, Eq)]
pub struct Level {
    pub scl: bool,
    pub sda: bool,
}

/// A level as a number is 2 * SCL + SDA.
impl From<u8> for Level {
    ghost from_gives = { λ code level. level ≡ level_of code };

    fn from(code: u8) -> Self {
        Level {
            scl: bit(code, 1),
            sda: bit(code, 0),
        }
    }
}

impl Level {
    /// The wire: a line is low where the level is low or it is pulled.
    pub fn on_wire(self, scl_pulled: bool, sda_pulled: bool) -> Self
        ensures { result ≡ wire (on_wire scl_pulled self.scl) (on_wire sda_pulled self.sda) }
    {
        Level {
            scl: !scl_pulled & self.scl,
            sda: !sda_pulled & self.sda,
        }
    }
}

/// What a new level is to whoever remembers the one before. A rise carries the new SDA.
#[derive(Clone, Copy, Debug, PartialEq, Eq)]
pub enum Edge {
    Still,
    Start,
    Stop,
    Rise(bool),
    Fall,
}

impl Edge {
    pub fn is_start(self) -> bool
        ensures { result ≡ is_start self }
    {
        matches!(self, Edge::Start)
    }

    pub fn is_stop(self) -> bool
        ensures { result ≡ is_stop self }
    {
        matches!(self, Edge::Stop)
    }
}

/// The wire as the last level left it, and the mark of a Start not yet followed by a low SCL.
#[derive(Clone, Copy, Debug, Default, PartialEq, Eq)]
pub struct Line {
    pub remembered: Option<Level>,
    pub mark: bool,
}

// SCL stays high: SDA before and after.
fn sda_edge(mark: bool, before: bool, after: bool) -> Edge
    ensures { result ≡ condition mark before after }
{
    match (before, after) {
        (true, false) if !mark => Edge::Start,
        (false, true) if !mark => Edge::Stop,
        _ => Edge::Still,
    }
}

impl Line {
    // Stays: what may not change: `unseen` is public and a word of specs/.
    /// Before the first level.
    pub fn unseen() -> Self
        ensures { result ≡ unseen }
    {
        Line::default()
    }

    /// The edge that a new level makes.
    pub fn edge_of(self, level: Level) -> Edge
        ensures { result ≡ edge_of self level.scl level.sda }
    {
        let Some(before) = self.remembered else {
            return Edge::Still;
        };
        match (before.scl, level.scl) {
            (true, true) => sda_edge(self.mark, before.sda, level.sda),
            (true, false) => Edge::Fall,
            (false, true) => Edge::Rise(level.sda),
            (false, false) => Edge::Still,
        }
    }

    /// The line after a level that made the edge.
    pub fn line_after(self, edge: Edge, level: Level) -> Self
        ensures { result ≡ line_after self.mark edge level.scl level.sda }
    {
        Line {
            remembered: Some(level),
            mark: level.scl & (self.mark | edge.is_start()),
        }
    }

    /// Remembers one level more, and tells the edge that it made.
    pub fn read(&mut self, level: Level) -> Edge
        ensures edge { result ≡ edge_of self.old level.scl level.sda }
        ensures line { self.new ≡ line_next self.old level.scl level.sda }
    {
        let edge = self.edge_of(level);
        *self = self.line_after(edge, level);
        edge
    }

    /// A level is remembered, and SCL was high in it.
    pub fn scl_high(self) -> bool
        ensures { result ≡ scl_high self.remembered }
    {
        matches!(self.remembered, Some(level) if level.scl)
    }
}

/// The bits of a byte so far, most significant first: how many, and as a number.
#[derive(Clone, Copy, Debug, Default, PartialEq, Eq)]
pub struct Bits {
    pub count: u8,
    pub value: u8,
}

impl Bits {
    // Stays: what may not change: it is public, under this contract.
    pub fn no_bits() -> Self
        ensures { result ≡ none }
    {
        Bits::default()
    }

    /// One bit more. A whole byte meets no rise, so the remainders only keep every number in range.
    pub fn push(self, sda: bool) -> Self
        ensures { result ≡ pushed self sda }
    {
        Bits {
            count: self.count % 8 + 1,
            value: self.value % 128 * 2 + u8::from(sda),
        }
    }

    pub fn is_whole(self) -> bool
        ensures { result ≡ whole self }
    {
        self.count == 8
    }
}

/// Bit `place` of a byte, bit 0 the least significant.
#[inline]
pub fn bit(byte: u8, place: u8) -> bool
    requires { place < 8 }
    ensures { result ≡ bit place byte }
{
    (byte >> place) % 2 == 1
}

/// The bit at a place of a byte, counted from the most significant, is 0.
pub fn is_zero_at(byte: u8, place: u8) -> bool
    ensures { result ≡ zero_at byte place }
{
    (byte >> (7 - place % 8)) % 2 == 0
}
