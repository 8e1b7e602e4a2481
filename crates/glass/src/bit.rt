// The bits of a byte.
ghost use Rattle.std.specs.Prelude.{◌≡◌, cond, ◌^◌, ◌<◌};
ghost use Rattle.glass.specs.Bit.{bit_of};

// What bit b adds to its byte: nothing where it is not on.
pub(crate) fn weight(on: bool, b: usize) -> u8
    requires { b < 8 }
    ensures { result ≡ cond on (2 ^ b) 0 }
{
    if on { 1 << b } else { 0 }
}

// Bit b of a byte, which has none from 8 on.
#[tactic(auto, using(crate::proofs::Bits::no_bit), unfolding(crate::specs::Bit::bit_of))]
pub fn bit_of(byte: u8, b: usize) -> bool
    ensures { result ≡ bit_of byte b }
{
    if 7 < b {
        return false;
    }
    (byte >> b) % 2 == 1
}
