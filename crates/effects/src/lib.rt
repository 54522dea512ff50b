//! What reading BUF, writing BUF, setting CKP, writing ADD and disabling do to the module.
#![tactic(auto)]

ghost use Rattle.std.specs.Prelude.{◌≡◌};
ghost use Rattle.effects.specs.Effects.{emptied, loaded, released, released_phase, next_phase, updated_phase, updated, disabled};

use mssp::{Module, Next, Phase, SlotCase};
use wire::Bits;

/// BUF is read.
pub fn empty(m: &mut Module)
    ensures { m.new ≡ emptied m.old }
{
    m.live.bf = false;
}

/// BUF is written: taken while the clock is held for sending, else WCOL.
pub fn load(m: &mut Module, byte: u8)
    ensures { m.new ≡ loaded byte m.old }
{
    if matches!(m.phase, Phase::HeldForSending) {
        m.live.bf = true;
        m.live.buf = byte;
    } else {
        m.config.wcol = true;
    }
}

// Where a phase goes when CKP is set.
fn release_phase(phase: Phase, ackdt: bool, buf: u8) -> Phase
    ensures { result ≡ released_phase ackdt buf phase }
{
    match phase {
        Phase::Data { bits, .. } => Phase::Data { bits, held: false },
        Phase::HeldBefore { refused, which } => Phase::Slot {
            case: SlotCase::slot_after(refused, ackdt),
            which,
        },
        Phase::HeldForSending => Phase::Sending {
            byte: buf,
            place: 0,
        },
        _ => phase,
    }
}

/// CKP is set: a hold ends, but not the one for ADD.
pub fn release(m: &mut Module)
    ensures { m.new ≡ released m.old }
{
    m.phase = release_phase(m.phase, m.config.ackdt, m.live.buf);
    m.live.ckp = true;
}

// What was to follow the hold for ADD.
fn next_phase(next: Next) -> Phase
    ensures { result ≡ next_phase next }
{
    match next {
        Next::NextQuiet => Phase::Quiet,
        Next::NextLow => Phase::Address {
            bits: Bits::no_bits(),
            low: true,
        },
        Next::NextData => Phase::Data {
            bits: Bits::no_bits(),
            held: false,
        },
    }
}

// Where a phase goes when ADD is written.
fn update_phase(phase: Phase) -> Phase
    ensures { result ≡ updated_phase phase }
{
    match phase {
        Phase::HeldForAdd(next) => next_phase(next),
        _ => phase,
    }
}

/// ADD is written: the hold for it ends.
pub fn update(m: &mut Module, add: u8)
    ensures { m.new ≡ updated add m.old }
{
    m.phase = update_phase(m.phase);
    m.config.add = add;
}

/// SSPEN goes from 1 to 0.
pub fn disable(m: &mut Module)
    ensures { m.new ≡ disabled m.old }
{
    let live = &mut m.live;
    live.s = false;
    live.p = false;
    live.da = false;
    live.rw = false;
    live.bf = false;
    live.acktim = false;
    live.full = false;
    m.phase = Phase::Quiet;
    m.line.mark = false;
}
