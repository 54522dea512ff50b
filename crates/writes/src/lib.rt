//! What a write to a register takes, what it does beside that, and which writes are refused.
#![tactic(auto)]

ghost use Rattle.std.specs.Prelude.{◌≡◌};
ghost use Rattle.refusals.specs.Numbers.{answered};
ghost use Rattle.registers.specs.declared.Register.TheVariants.{Con1, Msk};
ghost use Rattle.registers.specs.Values.{access_of};
ghost use Rattle.writes.specs.Writes.{stat_written, con1_stored, con1_written, con2_written, con3_written, flag_written, mode_change, masked, verdict_of, written, write_of};

use mssp::{Config, Module};
use refusals::Refusal;
use registers::Register;

// STAT takes SMP and CKE alone.
fn write_stat(c: &mut Config, v: u8)
    ensures { c.new ≡ stat_written v c.old }
{
    c.smp = wire::bit(v, 7);
    c.cke = wire::bit(v, 6);
}

// CON2: ACKSTAT ignores writes.
fn write_con2(c: &mut Config, v: u8)
    ensures { c.new ≡ con2_written v c.old }
{
    c.gcen = wire::bit(v, 7);
    c.ackdt = wire::bit(v, 5);
    c.sen = wire::bit(v, 0);
}

// CON3: ACKTIM ignores writes.
fn write_con3(c: &mut Config, v: u8)
    ensures { c.new ≡ con3_written v c.old }
{
    c.pcie = wire::bit(v, 6);
    c.scie = wire::bit(v, 5);
    c.sdaht = wire::bit(v, 3);
    c.sbcde = wire::bit(v, 2);
    c.ahen = wire::bit(v, 1);
    c.dhen = wire::bit(v, 0);
}

// CON1's bits alone: WCOL and SSPOV are only cleared.
fn store_con1(m: &mut Module, v: u8)
    ensures { m.new ≡ con1_stored v m.old }
{
    m.config.wcol &= wire::bit(v, 7);
    m.config.sspen = wire::bit(v, 5);
    m.config.sspm3 = wire::bit(v, 3);
    m.config.sspm2 = wire::bit(v, 2);
    m.config.sspm1 = wire::bit(v, 1);
    m.config.sspm0 = wire::bit(v, 0);
    m.live.sspov &= wire::bit(v, 6);
    m.live.ckp = wire::bit(v, 4);
}

// CON1: its bits, then what SSPEN from 1 to 0, or else CKP 1, does.
fn write_con1(m: &mut Module, v: u8)
    ensures { m.new ≡ con1_written v m.old }
{
    let off = m.config.sspen & !wire::bit(v, 5);
    store_con1(m, v);
    if off {
        effects::disable(m);
    } else if wire::bit(v, 4) {
        effects::release(m);
    }
}

// The flag register: SSPIF is only cleared.
fn write_flag(m: &mut Module, v: u8)
    ensures { m.new ≡ flag_written v m.old }
{
    m.live.sspif &= wire::bit(v, 0);
}

// SSPEN stays 1, and SSPM does not stay the mode that stands.
fn is_mode_change(on: bool, mode: u8, v: u8) -> bool
    ensures { result ≡ mode_change on mode v }
{
    on & wire::bit(v, 5) & (v % 16 != mode)
}

// A ten-bit mode would run with a MSK other than FF.
fn is_masked(on: bool, ten: bool, msk: u8) -> bool
    ensures { result ≡ masked on ten msk }
{
    on & ten & (msk != 255)
}

// A write to CON1: a mode that is not modelled is looked at before a change of mode, and that before a mask under ten bits.
fn judge_con1(m: &Module, v: u8) -> Result<(), Refusal>
    ensures { answered result ≡ verdict_of Con1 v m.now }
{
    let modelled = mssp::is_modelled(wire::bit(v, 2), wire::bit(v, 1));
    let no_mode = wire::bit(v, 5) & !modelled;
    if no_mode {
        return Err(Refusal::NoMode);
    }
    let changes = is_mode_change(m.config.sspen, register_bytes::sspm(m.config), v);
    if changes {
        return Err(Refusal::ModeChange);
    }
    let ten = mssp::has_ten_bits(wire::bit(v, 2), wire::bit(v, 1), wire::bit(v, 0));
    if is_masked(wire::bit(v, 5), ten, m.config.msk) {
        return Err(Refusal::MaskedTenBits);
    }
    Ok(())
}

// A write to MSK, which has to stay FF while a ten-bit mode runs.
fn judge_msk(m: &Module, v: u8) -> Result<(), Refusal>
    ensures { answered result ≡ verdict_of Msk v m.now }
{
    let ten = m.config.has_ten_bits();
    if is_masked(m.config.sspen, ten, v) {
        return Err(Refusal::MaskedTenBits);
    }
    Ok(())
}

// Whether a write to a module is refused, and why: the first cause that holds.
fn judge(m: &Module, register: Register, v: u8) -> Result<(), Refusal>
    ensures { answered result ≡ verdict_of register v m.now }
{
    match register {
        Register::Con1 => judge_con1(m, v),
        Register::Con2 if v / 2 % 16 != 0 => Err(Refusal::ReservedBit),
        Register::Con3 if wire::bit(v, 4) => Err(Refusal::ReservedBit),
        Register::Msk => judge_msk(m, v),
        _ => Ok(()),
    }
}

// The effect of a write that is not refused.
fn take(m: &mut Module, register: Register, v: u8)
    ensures { m.new ≡ written register v m.old }
{
    match register {
        Register::Buf => effects::load(m, v),
        Register::Stat => write_stat(&mut m.config, v),
        Register::Con1 => write_con1(m, v),
        Register::Con2 => write_con2(&mut m.config, v),
        Register::Con3 => write_con3(&mut m.config, v),
        Register::Add => effects::update(m, v),
        Register::Msk => m.config.msk = v,
        Register::Flag => write_flag(m, v),
    }
}

/// Writes a register. Refuses with 1, 2, 3, 8, 9, and then nothing changes.
pub fn write(m: &mut Module, number: u32, v: u8) -> Result<(), Refusal>
    ensures { access_of (answered result) m.new ≡ write_of m.old number v }
{
    let register = Register::try_from(number)?;
    judge(m, register, v)?;
    take(m, register, v);
    Ok(())
}
