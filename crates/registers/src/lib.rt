//! The eight registers by number: what a read gives and changes, and when it is refused.
#![tactic(auto)]

ghost use Rattle.std.specs.Prelude.{◌≡◌};
ghost use Rattle.registers.specs.Values.{register_of, value_of, access_of, read_of};

use mssp::Module;
use refusals::Refusal;

/// The registers in the order of their numbers.
#[derive(Clone, Copy, Debug, PartialEq, Eq)]
pub enum Register {
    Buf,
    Stat,
    Con1,
    Con2,
    Con3,
    Add,
    Msk,
    Flag,
}

/// Numbers 0 to 7; no other number is a register's.
impl TryFrom<u32> for Register {
    type Error = Refusal;

    ghost try_from_gives = { λ number register. register ≡ register_of number };

    fn try_from(number: u32) -> Result<Self, Refusal> {
        match number {
            0 => Ok(Register::Buf),
            1 => Ok(Register::Stat),
            2 => Ok(Register::Con1),
            3 => Ok(Register::Con2),
            4 => Ok(Register::Con3),
            5 => Ok(Register::Add),
            6 => Ok(Register::Msk),
            7 => Ok(Register::Flag),
            _ => Err(Refusal::NoRegister),
        }
    }
}

// What a register holds.
fn value(m: &Module, register: Register) -> u8
    ensures { result ≡ value_of m.now register }
{
    match register {
        Register::Buf => m.live.buf,
        Register::Stat => { register_bytes::stat(m.config, m.live, m.phase.is_held_for_add()) }
        Register::Con1 => register_bytes::con1(m.config, m.live),
        Register::Con2 => register_bytes::con2(m.config, m.live),
        Register::Con3 => register_bytes::con3(m.config, m.live),
        Register::Add => m.config.add,
        Register::Msk => m.config.msk,
        Register::Flag => u8::from(m.live.sspif),
    }
}

/// Reads a register; a read of BUF clears BF. Refuses with 1, and then nothing changes.
pub fn read(m: &mut Module, number: u32) -> Result<u8, Refusal>
    ensures { access_of result m.new ≡ read_of m.old number }
{
    let register = Register::try_from(number)?;
    let held = value(m, register);
    if register == Register::Buf {
        effects::empty(m);
    }
    Ok(held)
}
