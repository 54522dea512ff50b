// Where a module stands, as seven bytes: the phase with its parts, the line, and which byte it is about; and the way back.
#![tactic(auto)]

ghost use Rattle.std.specs.Prelude.{◌≡◌};
ghost use Rattle.phase_image.specs.PhasePart.{slot_from, which_from, next_from, phase_from, wire_byte, wire_from, line_from, stand_part, is_stand};

use mssp::{Kind, Next, Phase, SlotCase, Which};
use wire::{Bits, Level, Line};

// Stays: three of one line, each named by a wrong program (must-fail/not_told_apart, parts_swapped).
// The case of a slot that has the number. A number that no case has gives one with another, so that its image is refused.
fn slot_from(number: u8) -> SlotCase
    ensures { result ≡ slot_from number }
{
    SlotCase::try_from(number).unwrap_or(SlotCase::Declines)
}

// Which byte has the number, likewise.
fn which_from(number: u8) -> Which
    ensures { result ≡ which_from number }
{
    Which::try_from(number).unwrap_or(Which::Other)
}

// What follows, likewise.
fn next_from(number: u8) -> Next
    ensures { result ≡ next_from number }
{
    Next::try_from(number).unwrap_or(Next::NextQuiet)
}

// The phase that has the number and these parts.
pub fn phase_from(number: u8, count: u8, byte: u8, mark: u8, which: u8) -> Phase
    ensures { result ≡ phase_from number count byte mark which }
{
    let bits = Bits { count, value: byte };
    match Kind::try_from(number) {
        Ok(Kind::Quiet) | Err(_) => Phase::Quiet,
        Ok(Kind::Address) => Phase::Address {
            bits,
            low: which == Which::Low as u8,
        },
        Ok(Kind::Data) => Phase::Data {
            bits,
            held: mark == 1,
        },
        Ok(Kind::HeldBefore) => Phase::HeldBefore {
            refused: mark == 1,
            which: which_from(which),
        },
        Ok(Kind::Slot) => Phase::Slot {
            case: slot_from(mark),
            which: which_from(which),
        },
        Ok(Kind::HeldForSending) => Phase::HeldForSending,
        Ok(Kind::Sending) => Phase::Sending { byte, place: count },
        Ok(Kind::MasterAcknowledge) => Phase::MasterAcknowledge,
        Ok(Kind::HeldForAdd) => Phase::HeldForAdd(next_from(which)),
    }
}

// Stays: the C interface: 255 is the byte of the image and of the view for no level (docs/LAYOUT.md).
// The remembered wire: 2 * SCL + SDA, or 255.
pub fn wire_byte(remembered: Option<Level>) -> u8
    ensures { result ≡ wire_byte remembered }
{
    match remembered {
        None => 255,
        Some(level) => u8::from(level.scl) * 2 + u8::from(level.sda),
    }
}

fn wire_from(byte: u8) -> Option<Level>
    ensures { result ≡ wire_from byte }
{
    if byte == 255 {
        None
    } else {
        Some(Level::from(byte))
    }
}

pub fn line_from(wire: u8, mark: u8) -> Line
    ensures { result ≡ line_from wire mark }
{
    Line {
        remembered: wire_from(wire),
        mark: mark == 1,
    }
}

pub fn stand_part(phase: Phase, line: Line) -> [u8; 7]
    ensures { result ≡ stand_part phase line }
{
    let bits = phase.bits_of();
    [
        phase.phase_number(),
        bits.count,
        bits.value,
        phase.phase_mark(),
        wire_byte(line.remembered),
        u8::from(line.mark),
        phase.phase_which(),
    ]
}

// Whether seven bytes are just the part of the phase and the line that they name.
pub fn is_stand(number: u8, count: u8, byte: u8, mark: u8, wire: u8, marked: u8, which: u8) -> bool
    ensures { result ≡ is_stand number count byte mark wire marked which }
{
    let phase = phase_from(number, count, byte, mark, which);
    let bits = phase.bits_of();
    let line = line_from(wire, marked);
    (phase.phase_number() == number)
        & (bits.count == count)
        & (bits.value == byte)
        & (phase.phase_mark() == mark)
        & (wire_byte(line.remembered) == wire)
        & (u8::from(line.mark) == marked)
        & (phase.phase_which() == which)
}
