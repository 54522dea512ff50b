//! The address comparison: which address a first byte hits, by a module's registers.
#![tactic(auto)]

ghost use Rattle.std.specs.Prelude.{◌≡◌};
ghost use Rattle.address.specs.Comparison.{hit_number, hit_of, is_taken};

use mssp::Config;

/// What the comparison says of a byte.
#[derive(Clone, Copy, Debug, PartialEq, Eq)]
pub enum Hit {
    None = 0,
    Own = 1,
    GeneralCall = 2,
}

impl Hit {
    /// The number of an answer.
    pub fn number(self) -> u8
        ensures { result ≡ hit_number self }
    {
        self as u8
    }

    /// An own address and the general call are taken alike.
    pub fn is_taken(self) -> bool
        ensures { result ≡ is_taken self }
    {
        self != Hit::None
    }
}

/// Own where the byte fits ADD under MSK, 00 too; else 00 is the general call where GCEN allows it. In ten bits neither MSK nor
/// GCEN is asked.
pub fn compare(c: Config, byte: u8) -> Hit
    ensures { result ≡ hit_of c byte }
{
    let ten = c.has_ten_bits();
    let msk = if ten { 255 } else { c.msk };
    if wire::fits(byte, c.add, msk) {
        Hit::Own
    } else if !ten & c.gcen & (byte == 0) {
        Hit::GeneralCall
    } else {
        Hit::None
    }
}
