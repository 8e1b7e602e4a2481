// V0, as an exact fraction: over 15 for the KS0713, over 27 for the KS0717.
ghost use Rattle.std.specs.Prelude.{◌≡◌};
ghost use Rattle.glass.specs.Voltage.{ratios, ratios0717, v0_of, v0_of0717, IsV0};
ghost use Rattle.glass.specs.Supply.{small0713, small0717, supplied0713, supplied0717};

use paper::refusal::Refusal;
use paper::sheet::{Chip, Ks0713, Ks0717};

// Each table is constant and has eight ratios: document 01 names that form.

// 1 + Rb/Ra in hundredths by resistor, from 002.
const RATIOS: [u32; 8] = [190, 219, 255, 302, 361, 435, 529, 648];

// 1 + Rb/Ra in tenths by resistor, from 001.
const RATIOS_KS0717: [u32; 8] = [30, 35, 40, 45, 50, 54, 59, 64];

// So many millivolts; it is not reduced.
#[derive(Clone, Copy, Debug, PartialEq, Eq)]
pub struct Fraction {
    pub numerator: u32,
    pub denominator: u32,
}

// What V0 hangs on, by the data sheet of each chip: it is ratio * (BASE + contrast) * FACTOR / DENOMINATOR millivolts.
pub trait Supply: Chip {
    ghost use Rattle.std.specs.Prelude.{ℕ, List, ◌≡◌};
    ghost use Rattle.glass.specs.Supply.{Small, v0_by};
    ghost use Rattle.glass.specs.declared.voltage.Fraction.{Fraction};

    ghost BASE: { ℕ };

    const BASE: u32;

    ghost FACTOR: { ℕ };

    const FACTOR: u32;

    ghost DENOMINATOR: { ℕ };

    const DENOMINATOR: u32;

    ghost table: { List ℕ };

    // V0 by resistor and contrast.
    ghost v0: { ℕ → ℕ → Fraction };

    // The ratio of each resistor.
    fn table() -> &'static [u32; 8]
        ensures { result.now ≡ table };

    // What each chip must prove: no numerator has more than 32 bits, and V0 is that fraction.
    ghost small: { Small table BASE FACTOR };

    ghost supplied: { (resistor contrast : ℕ) → v0 resistor contrast ≡ v0_by table BASE FACTOR DENOMINATOR resistor contrast };
}

// V0 is ratio * (237 + contrast) / 15.
impl Supply for Ks0713 {
    ghost BASE = { 237 };

    const BASE: u32 = 237;

    ghost FACTOR = { 1 };

    const FACTOR: u32 = 1;

    ghost DENOMINATOR = { 15 };

    const DENOMINATOR: u32 = 15;

    ghost table = { ratios };

    ghost v0 = { v0_of };

    ghost small = { small0713 };

    ghost supplied = { supplied0713 };

    fn table() -> &'static [u32; 8] {
        &RATIOS
    }
}

// V0 is ratio * (99 + contrast) * 35 / 27.
impl Supply for Ks0717 {
    ghost BASE = { 99 };

    const BASE: u32 = 99;

    ghost FACTOR = { 35 };

    const FACTOR: u32 = 35;

    ghost DENOMINATOR = { 27 };

    const DENOMINATOR: u32 = 27;

    ghost table = { ratios0717 };

    ghost v0 = { v0_of0717 };

    ghost small = { small0717 };

    ghost supplied = { supplied0717 };

    fn table() -> &'static [u32; 8] {
        &RATIOS_KS0717
    }
}

// V0 of a chip. Refuses a resistor or contrast outside its range with 2.
#[tactic(auto, using(crate::proofs::Ratios::inside, crate::proofs::Ratios::fits))]
pub fn v0<C: Supply>(resistor: u8, contrast: u8) -> Result<Fraction, Refusal>
    ensures { IsV0 C.v0 resistor contrast result }
{
    if (7 < resistor) | (63 < contrast) {
        return Err(Refusal::OutOfRange);
    }
    let ratio = C::table()[resistor as usize];
    Ok(Fraction {
        numerator: ratio * (C::BASE + contrast as u32) * C::FACTOR,
        denominator: C::DENOMINATOR,
    })
}
