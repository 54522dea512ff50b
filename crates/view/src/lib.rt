//! What the scope draws of a state: numbers only, laid out for C.
#![tactic(auto)]

ghost use Rattle.std.specs.Prelude.{◌≡◌};
ghost use Rattle.mssp.specs.Phases.{is_refused};
ghost use Rattle.view.specs.View.{view_of, no_view};

use firmware::State;
use mssp::{Phase, SlotCase};
use register_bytes::RegisterBytes;

/// What the scope draws of a state. Refused, all other fields are 0.
// Stays: the C interface.
#[repr(C)]
#[derive(Clone, Copy, Default)]
pub struct View {
    pub refusal: u32,
    /// the eight registers, read without effect
    pub buf: u8,
    pub stat: u8,
    pub con1: u8,
    pub con2: u8,
    pub con3: u8,
    pub add: u8,
    pub msk: u8,
    pub flag: u8,
    /// 1: the module pulls the line low
    pub scl_pulled: u8,
    pub sda_pulled: u8,
    /// 0 to 8
    pub phase: u8,
    /// address, data: how many bits so far; sending: the place; else 0
    pub bits: u8,
    /// address, data: those bits as a number; sending: the byte; else 0
    pub byte: u8,
    /// 1: held before acknowledge or in the slot, and refused
    pub refused: u8,
    /// 0 to 3; 255: none remembered
    pub wire: u8,
    pub mark: u8,
    pub due: u8,
    pub n: u16,
    pub pointer: u16,
    /// address, held before acknowledge, slot: which byte; else 0
    pub which: u8,
    /// held for ADD: what follows; else 0
    pub next: u8,
    pub full: u8,
}

// A hold before acknowledge or a slot whose byte was refused.
// Stays: no method of a phase. The type is of another crate, and an `impl` for it is refused here.
fn is_refused(phase: Phase) -> bool
    ensures { result ≡ is_refused phase }
{
    matches!(
        phase,
        Phase::HeldBefore { refused: true, .. }
            | Phase::Slot {
                case: SlotCase::Refuses,
                ..
            }
    )
}

/// A look at a state. The registers are read without effect.
impl From<State> for View {
    ghost from_gives = { λ state view. view ≡ view_of state };

    fn from(state: State) -> Self {
        let State { mssp: m, handler } = state;
        let bits = m.phase.bits_of();
        let held = m.phase.is_held_for_add();
        let read = RegisterBytes::of(m.config, m.live, held);
        let which = m.phase.phase_which();
        View {
            refusal: 0,
            buf: m.live.buf,
            stat: read.stat,
            con1: read.con1,
            con2: read.con2,
            con3: read.con3,
            add: m.config.add,
            msk: m.config.msk,
            flag: u8::from(m.live.sspif),
            scl_pulled: u8::from(m.phase.pulls_scl()),
            sda_pulled: u8::from(m.phase.pulls_sda()),
            phase: m.phase.phase_number(),
            bits: bits.count,
            byte: bits.value,
            refused: u8::from(is_refused(m.phase)),
            wire: phase_image::wire_byte(m.line.remembered),
            mark: u8::from(m.line.mark),
            due: u8::from(handler.due),
            n: handler.n,
            pointer: handler.pointer,
            which: if held { 0 } else { which },
            next: if held { which } else { 0 },
            full: u8::from(m.live.full),
        }
    }
}

impl View {
    /// Of bytes that are no state's image.
    pub fn no_view() -> Self
        ensures { result ≡ no_view }
    {
        View {
            refusal: 6,
            ..View::default()
        }
    }
}
