// The instructions, one for each row of document 01's table and one for each second byte, and which second byte is awaited.
ghost use Rattle.std.specs.Prelude.{◌≡◌};
ghost use Rattle.instructions.specs.Numbers.{awaited_byte, IsAwaited};

use paper::refusal::Refusal;

// Which second byte the chip awaits: none, one of the old command set's, or one of the new one's (`added.rt`).
#[derive(Clone, Copy, Debug, PartialEq, Eq)]
pub enum Awaited {
    Nothing,
    Contrast,
    Indicator,
    Com0,
    Duty,
    Inversion,
}

impl From<Awaited> for u8 {
    ghost from_gives = { λ a n. n ≡ awaited_byte a };

    fn from(awaited: Awaited) -> u8 {
        match awaited {
            Awaited::Nothing => 0,
            Awaited::Contrast => 1,
            Awaited::Indicator => 2,
            Awaited::Com0 => 3,
            Awaited::Duty => 4,
            Awaited::Inversion => 5,
        }
    }
}

// A number above 5 is refused with 2.
impl TryFrom<u8> for Awaited {
    type Error = Refusal;

    ghost try_from_gives = { IsAwaited };

    fn try_from(number: u8) -> Result<Self, Refusal> {
        match number {
            0 => Ok(Awaited::Nothing),
            1 => Ok(Awaited::Contrast),
            2 => Ok(Awaited::Indicator),
            3 => Ok(Awaited::Com0),
            4 => Ok(Awaited::Duty),
            5 => Ok(Awaited::Inversion),
            _ => Err(Refusal::OutOfRange),
        }
    }
}

#[derive(Clone, Copy, Debug, PartialEq, Eq)]
pub enum Instruction {
    // 00-0F, 10-1F: low and high four bits of column.
    ColumnLow(u8),
    ColumnHigh(u8),
    // 20-27, 28-2F.
    Resistor(u8),
    Power(u8),
    // 40-7F.
    StartLine(u8),
    // 81: the next instruction byte is contrast, and that byte.
    ContrastNext,
    ContrastValue(u8),
    // A0-A1, A2-A3, A4-A5, A6-A7.
    Adc(bool),
    Bias(bool),
    Entire(bool),
    Reverse(bool),
    // AC.
    IndicatorOff,
    // AD: indicator on, the next instruction byte is its value, and that byte.
    IndicatorOn,
    IndicatorValue(u8),
    // AE-AF.
    Display(bool),
    // B0-BF.
    Page(u8),
    // C0-CF.
    Shl(bool),
    // E0, EE.
    ModifyReadOn,
    ModifyReadOff,
    // E2.
    Reset,
    // E3.
    Nop,
}
