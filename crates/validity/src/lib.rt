//! Which modules there are, clause by clause.
#![tactic(auto)]

ghost use Rattle.std.specs.Prelude.{◌≡◌};
ghost use Rattle.mssp.specs.Phases.{is_quiet, of_ten_bits};
ghost use Rattle.mssp.specs.Valid.{bits_fit, parts_fit, address_begins, valid_by};

use mssp::{Phase, Which};
use wire::{Bits, Line};

// Stays: functions on bits and phases, no methods. Both types are of other crates, and an `impl` for them is refused here.

// At most eight bits, and a number that they can make.
fn bits_fit(bits: Bits) -> bool
    ensures { result ≡ bits_fit bits }
{
    bits.count <= 8 && u16::from(bits.value) < 1u16 << bits.count
}

// Of a byte that is sent a place of 0 to 7; else bits that fit, and none while the clock is held.
fn parts_fit(phase: Phase) -> bool
    ensures { result ≡ parts_fit phase }
{
    let bits = phase.bits_of();
    if phase.is_sending() {
        bits.count < 8
    } else {
        (!phase.pulls_scl() | (bits.count == 0)) & bits_fit(bits)
    }
}

fn is_quiet(phase: Phase) -> bool
    ensures { result ≡ is_quiet phase }
{
    matches!(phase, Phase::Quiet)
}

// An address of which no bit has come.
fn address_begins(phase: Phase) -> bool
    ensures { result ≡ address_begins phase }
{
    matches!(phase, Phase::Address { .. }) & (phase.bits_of().count == 0)
}

// The hold for ADD, and a phase of a high or a low byte.
fn is_of_ten_bits(phase: Phase) -> bool
    ensures { result ≡ of_ten_bits phase }
{
    phase.is_held_for_add() | (phase.phase_which() != Which::Other as u8)
}

/// What the clauses look at, so that no module is built for them: flags, what SSPM chooses, and where the module stands.
#[derive(Clone, Copy)]
pub struct Outline {
    pub s: bool,
    pub p: bool,
    pub sspen: bool,
    /// One of the modes that are modelled.
    pub modelled: bool,
    /// A mode with ten-bit addresses.
    pub ten: bool,
    pub msk: u8,
    pub ckp: bool,
    /// Both bytes of the ten-bit address were acknowledged.
    pub full: bool,
    pub phase: Phase,
    pub line: Line,
}

impl Outline {
    /// All clauses, in the order of the definition.
    pub fn is_valid(self) -> bool
        ensures { result ≡ valid_by self.s self.p self.sspen self.modelled self.ten self.msk self.ckp self.full self.phase self.line }
    {
        let mark = self.line.mark;
        let high = self.line.scl_high();
        let begins = address_begins(self.phase);
        let eight = self.phase.has_eight_bits();
        let held = self.phase.pulls_scl();
        let for_add = self.phase.is_held_for_add();
        parts_fit(self.phase)
            & !(self.s & self.p)
            & (!self.sspen | (self.modelled & (!self.ten | (self.msk == 255))))
            & (self.sspen | (is_quiet(self.phase) & !mark))
            & (!mark | (self.s & high & begins))
            & (!eight | high)
            & !(held & !for_add & self.ckp)
            & ((self.sspen & self.ten) | !(self.full | is_of_ten_bits(self.phase)))
    }
}
