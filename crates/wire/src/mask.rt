//! A byte compared with another one under a mask.

ghost use Rattle.std.specs.Prelude.{◌≡◌};
ghost use Rattle.wire.specs.Mask.{fits};

/// Whether bits 7 to 1 of a byte are ADD's wherever the mask has a 1. Bit 0, which is R/W in an address, is not compared.
#[tactic(auto, using(crate::proofs::AsWord::by_word))]
pub fn fits(byte: u8, add: u8, msk: u8) -> bool
    ensures { result ≡ fits byte add msk }
{
    (byte ^ add) & msk & 0xFE == 0
}
