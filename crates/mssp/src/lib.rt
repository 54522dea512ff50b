//! The MSSP: its registers as bits, its phase, and what it pulls.
#![tactic(auto)]

ghost use Rattle.std.specs.Prelude.{◌≡◌};
ghost use Rattle.mssp.specs.Module.{modelled, ten_bits, is_ten_bit, interrupting, fresh, setup};
ghost use Rattle.mssp.specs.Phases.{slot_number, slot_of, slot_after, which_number, which_of, next_number, next_of, kind_of, phase_number, bits_of, phase_mark, phase_which, is_held_for_add, is_sending, has_bits, eight_bits};
ghost use Rattle.mssp.specs.Drivers.{scl_pulled, sda_pulled};

use wire::{Bits, Line};

/// What the registers hold and no edge of the wire changes. SMP, CKE, SDAHT and SBCDE are stored without effect.
#[derive(Clone, Copy, Default)]
pub struct Config {
    pub smp: bool,
    pub cke: bool,
    pub wcol: bool,
    pub sspen: bool,
    pub sspm3: bool,
    pub sspm2: bool,
    pub sspm1: bool,
    pub sspm0: bool,
    pub gcen: bool,
    pub ackdt: bool,
    pub sen: bool,
    pub pcie: bool,
    pub scie: bool,
    pub sdaht: bool,
    pub sbcde: bool,
    pub ahen: bool,
    pub dhen: bool,
    pub add: u8,
    pub msk: u8,
}

/// What edges of the wire change: BUF, the flags, and the full match, which no register shows.
#[derive(Clone, Copy, Default)]
pub struct Live {
    pub s: bool,
    pub p: bool,
    pub da: bool,
    pub rw: bool,
    pub bf: bool,
    pub sspov: bool,
    pub ckp: bool,
    pub ackstat: bool,
    pub acktim: bool,
    pub sspif: bool,
    /// Both bytes of the ten-bit address were acknowledged, so that a Restart can ask to send.
    pub full: bool,
    pub buf: u8,
}

/// What a slot answers to its byte. There is no fourth: a byte that was refused is not acknowledged, whatever ACKDT says.
/// As a number, 0 is none of them.
#[derive(Clone, Copy, Debug, PartialEq, Eq)]
pub enum SlotCase {
    Pulls = 1,
    /// BF or SSPOV stood at the intake.
    Refuses = 2,
    /// ACKDT was 1 at the release from the hold before it; or a low byte that does not match.
    Declines = 3,
}

/// The case with this number.
impl TryFrom<u8> for SlotCase {
    type Error = u8;

    ghost try_from_gives = { λ number outcome. outcome ≡ slot_of number };

    fn try_from(number: u8) -> Result<Self, u8> {
        match number {
            1 => Ok(SlotCase::Pulls),
            2 => Ok(SlotCase::Refuses),
            3 => Ok(SlotCase::Declines),
            _ => Err(number),
        }
    }
}

impl SlotCase {
    /// The slot of a byte that came in: refused or not, declined by ACKDT or not.
    pub fn slot_after(refused: bool, declined: bool) -> Self
        ensures { result ≡ slot_after refused declined }
    {
        if refused {
            SlotCase::Refuses
        } else if declined {
            SlotCase::Declines
        } else {
            SlotCase::Pulls
        }
    }
}

/// Which byte a hold before acknowledge or a slot belongs to. STAT cannot tell.
#[derive(Clone, Copy, Debug, PartialEq, Eq)]
pub enum Which {
    /// A seven-bit address or a data byte.
    Other = 0,
    High = 1,
    Low = 2,
    /// A high byte with R/W 1.
    HighToSend = 3,
}

/// The kind of byte with this number.
impl TryFrom<u8> for Which {
    type Error = u8;

    ghost try_from_gives = { λ number outcome. outcome ≡ which_of number };

    fn try_from(number: u8) -> Result<Self, u8> {
        match number {
            0 => Ok(Which::Other),
            1 => Ok(Which::High),
            2 => Ok(Which::Low),
            3 => Ok(Which::HighToSend),
            _ => Err(number),
        }
    }
}

/// What follows when ADD is written in the hold for it.
#[derive(Clone, Copy, Debug, PartialEq, Eq)]
pub enum Next {
    NextQuiet = 0,
    NextLow = 1,
    NextData = 2,
}

/// What follows by this number.
impl TryFrom<u8> for Next {
    type Error = u8;

    ghost try_from_gives = { λ number outcome. outcome ≡ next_of number };

    fn try_from(number: u8) -> Result<Self, u8> {
        match number {
            0 => Ok(Next::NextQuiet),
            1 => Ok(Next::NextLow),
            2 => Ok(Next::NextData),
            _ => Err(number),
        }
    }
}

/// The phases without their parts, by number.
#[derive(Clone, Copy, Debug, PartialEq, Eq)]
pub enum Kind {
    Quiet = 0,
    Address = 1,
    Data = 2,
    HeldBefore = 3,
    Slot = 4,
    HeldForSending = 5,
    Sending = 6,
    MasterAcknowledge = 7,
    HeldForAdd = 8,
}

/// The kind of phase with this number.
impl TryFrom<u8> for Kind {
    type Error = u8;

    ghost try_from_gives = { λ number outcome. outcome ≡ kind_of number };

    fn try_from(number: u8) -> Result<Self, u8> {
        match number {
            0 => Ok(Kind::Quiet),
            1 => Ok(Kind::Address),
            2 => Ok(Kind::Data),
            3 => Ok(Kind::HeldBefore),
            4 => Ok(Kind::Slot),
            5 => Ok(Kind::HeldForSending),
            6 => Ok(Kind::Sending),
            7 => Ok(Kind::MasterAcknowledge),
            8 => Ok(Kind::HeldForAdd),
            _ => Err(number),
        }
    }
}

/// Where the module stands in a message, with what that place needs.
#[derive(Clone, Copy)]
pub enum Phase {
    Quiet,
    /// The bits so far; of a low byte or of a first one.
    Address { bits: Bits, low: bool },
    /// The bits so far; held or not.
    Data { bits: Bits, held: bool },
    HeldBefore { refused: bool, which: Which },
    Slot { case: SlotCase, which: Which },
    HeldForSending,
    /// The byte; its place, 0 to 7.
    Sending { byte: u8, place: u8 },
    MasterAcknowledge,
    /// Ten bits: until ADD is written.
    HeldForAdd(Next),
}

#[derive(Clone, Copy)]
pub struct Module {
    pub config: Config,
    pub live: Live,
    pub phase: Phase,
    pub line: Line,
}

/// What of a module a level meets first: whether it reads edges, ACKTIM, which a ninth rise ends, and where it stands.
#[derive(Clone, Copy)]
pub struct Stand {
    pub enabled: bool,
    pub acktim: bool,
    pub phase: Phase,
    pub line: Line,
}

/// SSPM is 0110 or 1110, or 0111 or 1111 for ten bits: one of the modes that are modelled.
// Stays: no plainer as a method, since the bits of a byte are asked too, of which no Config is made.
pub fn is_modelled(sspm2: bool, sspm1: bool) -> bool
    ensures { result ≡ modelled sspm2 sspm1 }
{
    sspm1 & sspm2
}

/// SSPM is 0111 or 1111.
// Stays: no plainer as a method alone, for the same reason.
pub fn has_ten_bits(sspm2: bool, sspm1: bool, sspm0: bool) -> bool
    ensures { result ≡ ten_bits sspm2 sspm1 sspm0 }
{
    sspm2 & sspm1 & sspm0
}

impl Config {
    /// The mode has ten-bit addresses.
    pub fn has_ten_bits(self) -> bool
        ensures { result ≡ is_ten_bit self }
    {
        has_ten_bits(self.sspm2, self.sspm1, self.sspm0)
    }

    /// The mode interrupts at Start and Stop.
    pub fn interrupts(self) -> bool
        ensures { result ≡ interrupting self }
    {
        self.sspm3 & is_modelled(self.sspm2, self.sspm1)
    }
}

impl Phase {
    /// The number of a phase. What is asked at every sample goes by a match of its own, which runs faster than by this number.
    pub fn phase_number(self) -> u8
        ensures { result ≡ phase_number self }
    {
        match self {
            Phase::Quiet => Kind::Quiet as u8,
            Phase::Address { .. } => Kind::Address as u8,
            Phase::Data { .. } => Kind::Data as u8,
            Phase::HeldBefore { .. } => Kind::HeldBefore as u8,
            Phase::Slot { .. } => Kind::Slot as u8,
            Phase::HeldForSending => Kind::HeldForSending as u8,
            Phase::Sending { .. } => Kind::Sending as u8,
            Phase::MasterAcknowledge => Kind::MasterAcknowledge as u8,
            Phase::HeldForAdd(_) => Kind::HeldForAdd as u8,
        }
    }

    /// The bits so far; of a byte that is sent its place and the byte.
    pub fn bits_of(self) -> Bits
        ensures { result ≡ bits_of self }
    {
        match self {
            Phase::Address { bits, .. } | Phase::Data { bits, .. } => bits,
            Phase::Sending { byte, place } => Bits {
                count: place,
                value: byte,
            },
            _ => Bits::no_bits(),
        }
    }

    /// Held or refused, as the phase has it, is 1; a slot has the number of its case.
    pub fn phase_mark(self) -> u8
        ensures { result ≡ phase_mark self }
    {
        match self {
            Phase::Data { held, .. } => u8::from(held),
            Phase::HeldBefore { refused, .. } => u8::from(refused),
            Phase::Slot { case, .. } => case as u8,
            _ => 0,
        }
    }

    /// Which byte the phase belongs to; in the hold for ADD, what follows.
    pub fn phase_which(self) -> u8
        ensures { result ≡ phase_which self }
    {
        match self {
            Phase::Address { low, .. } => {
                if low {
                    Which::Low as u8
                } else {
                    Which::Other as u8
                }
            }
            Phase::HeldBefore { which, .. } | Phase::Slot { which, .. } => which as u8,
            Phase::HeldForAdd(next) => next as u8,
            _ => 0,
        }
    }

    /// The clock is held until ADD is written. UA is 1 exactly here.
    pub fn is_held_for_add(self) -> bool
        ensures { result ≡ is_held_for_add self }
    {
        matches!(self, Phase::HeldForAdd(_))
    }

    /// Bits come in an address and in data.
    pub fn has_bits(self) -> bool
        ensures { result ≡ has_bits self }
    {
        matches!(self, Phase::Address { .. } | Phase::Data { .. })
    }

    /// Eight bits have come, and not yet the fall after them.
    pub fn has_eight_bits(self) -> bool
        ensures { result ≡ eight_bits self }
    {
        self.has_bits() & self.bits_of().is_whole()
    }

    /// A byte is sent.
    pub fn is_sending(self) -> bool
        ensures { result ≡ is_sending self }
    {
        matches!(self, Phase::Sending { .. })
    }

    /// The clock is held.
    pub fn pulls_scl(self) -> bool
        ensures { result ≡ scl_pulled self }
    {
        match self {
            Phase::HeldBefore { .. } | Phase::HeldForSending | Phase::HeldForAdd(_) => true,
            Phase::Data { held, .. } => held,
            _ => false,
        }
    }

    /// A 0 bit is sent, or the slot acknowledges.
    pub fn pulls_sda(self) -> bool
        ensures { result ≡ sda_pulled self }
    {
        match self {
            Phase::Slot { case, .. } => matches!(case, SlotCase::Pulls),
            Phase::Sending { byte, place } => wire::is_zero_at(byte, place),
            _ => false,
        }
    }
}

impl Module {
    /// Registers as after a reset, nothing remembered of the wire.
    fn fresh_module() -> Self
        ensures { result ≡ fresh }
    {
        Module {
            config: Config {
                msk: 255,
                ..Config::default()
            },
            live: Live::default(),
            phase: Phase::Quiet,
            line: Line::unseen(),
        }
    }

    /// The handler's set-up of a fresh module: CON1 36, CON2 01, CON3 00, MSK FF.
    pub fn set_up(add: u8) -> Self
        ensures { result ≡ setup add }
    {
        let fresh = Module::fresh_module();
        Module {
            config: Config {
                sspen: true,
                sspm2: true,
                sspm1: true,
                sen: true,
                add,
                ..fresh.config
            },
            live: Live {
                ckp: true,
                ..fresh.live
            },
            ..fresh
        }
    }
}
