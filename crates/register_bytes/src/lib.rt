//! STAT, CON1, CON2 and CON3 as they read: which bit stands where.
#![tactic(auto)]

ghost use Rattle.std.specs.Prelude.{◌≡◌, [], ◌∷◌};
ghost use Rattle.wire.specs.Byte.{bit};
ghost use Rattle.register_bytes.specs.Bytes.{byte_of, bytes_of, stat_of, con1_of, sspm_of, con2_bits, con2_of, con3_bits, con3_of, stat_held, con1_held, con2_held, con3_held, are_held};

use mssp::{Config, Live};

/// The four registers that are made of bits, as bytes.
#[derive(Clone, Copy)]
pub struct RegisterBytes {
    pub stat: u8,
    pub con1: u8,
    pub con2: u8,
    pub con3: u8,
}

/// Eight bits as a byte, bit 7 first.
pub fn pack(b7: bool, b6: bool, b5: bool, b4: bool, b3: bool, b2: bool, b1: bool, b0: bool) -> u8
    ensures { result ≡ byte_of b7 b6 b5 b4 b3 b2 b1 b0 }
{
    u8::from(b7) * 128
        + u8::from(b6) * 64
        + u8::from(b5) * 32
        + u8::from(b4) * 16
        + u8::from(b3) * 8
        + u8::from(b2) * 4
        + u8::from(b1) * 2
        + u8::from(b0)
}

// Stays: the makers of single bytes are functions, not methods, since an impl of mssp's Config is refused in another crate.
/// STAT as it reads. UA is the phase's to say.
pub fn stat(c: Config, l: Live, ua: bool) -> u8
    ensures { result ≡ stat_of c l ua }
{
    pack(c.smp, c.cke, l.da, l.p, l.s, l.rw, ua, l.bf)
}

/// CON1 as it reads.
pub fn con1(c: Config, l: Live) -> u8
    ensures { result ≡ con1_of c l }
{
    pack(
        c.wcol, l.sspov, c.sspen, l.ckp, c.sspm3, c.sspm2, c.sspm1, c.sspm0,
    )
}

/// SSPM by itself, as a number.
pub fn sspm(c: Config) -> u8
    ensures { result ≡ sspm_of c }
{
    pack(
        false, false, false, false, c.sspm3, c.sspm2, c.sspm1, c.sspm0,
    )
}

// The four bits of the master are always 0.
// Stays: a maker of its own, so that which bits are always 0 is said once, for what CON2 reads as and for what it holds.
fn con2_bits(gcen: bool, ackstat: bool, ackdt: bool, sen: bool) -> u8
    ensures { result ≡ con2_bits gcen ackstat ackdt sen }
{
    pack(gcen, ackstat, ackdt, false, false, false, false, sen)
}

/// CON2 as it reads.
pub fn con2(c: Config, l: Live) -> u8
    ensures { result ≡ con2_of c l }
{
    con2_bits(c.gcen, l.ackstat, c.ackdt, c.sen)
}

// BOEN is always 0.
// Stays: a maker of its own, for the same reason.
fn con3_bits(
    acktim: bool,
    pcie: bool,
    scie: bool,
    sdaht: bool,
    sbcde: bool,
    ahen: bool,
    dhen: bool,
) -> u8
    ensures { result ≡ con3_bits acktim pcie scie sdaht sbcde ahen dhen }
{
    pack(acktim, pcie, scie, false, sdaht, sbcde, ahen, dhen)
}

/// CON3 as it reads.
pub fn con3(c: Config, l: Live) -> u8
    ensures { result ≡ con3_of c l }
{
    con3_bits(l.acktim, c.pcie, c.scie, c.sdaht, c.sbcde, c.ahen, c.dhen)
}

// The bits of a byte, bit 7 first.
fn unpack(v: u8) -> [bool; 8]
    ensures { result ≡ bit 7 v ∷ bit 6 v ∷ bit 5 v ∷ bit 4 v ∷ bit 3 v ∷ bit 2 v ∷ bit 1 v ∷ bit 0 v ∷ [] }
{
    [
        wire::bit(v, 7),
        wire::bit(v, 6),
        wire::bit(v, 5),
        wire::bit(v, 4),
        wire::bit(v, 3),
        wire::bit(v, 2),
        wire::bit(v, 1),
        wire::bit(v, 0),
    ]
}

// Stays: one for each register: which bits it keeps is all they say, and that differs.
// What of a byte STAT holds: not UA.
fn stat_held(v: u8) -> u8
    ensures { result ≡ stat_held v }
{
    let [smp, cke, da, p, s, rw, _, bf] = unpack(v);
    pack(smp, cke, da, p, s, rw, false, bf)
}

// CON1 holds all of it.
fn con1_held(v: u8) -> u8
    ensures { result ≡ con1_held v }
{
    let [wcol, sspov, sspen, ckp, sspm3, sspm2, sspm1, sspm0] = unpack(v);
    pack(wcol, sspov, sspen, ckp, sspm3, sspm2, sspm1, sspm0)
}

// What of it CON2 holds.
fn con2_held(v: u8) -> u8
    ensures { result ≡ con2_held v }
{
    let [gcen, ackstat, ackdt, _, _, _, _, sen] = unpack(v);
    con2_bits(gcen, ackstat, ackdt, sen)
}

// What of it CON3 holds.
fn con3_held(v: u8) -> u8
    ensures { result ≡ con3_held v }
{
    let [acktim, pcie, scie, _, sdaht, sbcde, ahen, dhen] = unpack(v);
    con3_bits(acktim, pcie, scie, sdaht, sbcde, ahen, dhen)
}

impl RegisterBytes {
    /// The four as they read. UA is the phase's to say.
    pub fn of(c: Config, l: Live, ua: bool) -> RegisterBytes
        ensures { result ≡ bytes_of c l ua }
    {
        RegisterBytes {
            stat: stat(c, l, ua),
            con1: con1(c, l),
            con2: con2(c, l),
            con3: con3(c, l),
        }
    }

    /// Whether the registers can hold these bytes: no bit is 1 that they do not have.
    pub fn are_held(self) -> bool
        ensures { result ≡ are_held self.stat self.con1 self.con2 self.con3 }
    {
        (stat_held(self.stat) == self.stat)
            & (con1_held(self.con1) == self.con1)
            & (con2_held(self.con2) == self.con2)
            & (con3_held(self.con3) == self.con3)
    }
}
