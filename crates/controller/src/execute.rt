// What an instruction does to the registers.
ghost use Rattle.std.specs.Prelude.{◌≡◌};
ghost use Rattle.controller.specs.Execute.{saved, restored, reset, low_set, high_set, executed, ends_reading};

use instructions::instruction::{Awaited, Instruction};
use paper::sheet::Sheet;
use registers::start::started;
use registers::{Column, ModifyRead, Registers};

// These are no methods: the registers are another crate's.

// E0: the column is saved, unless one is.
fn save(registers: Registers) -> Registers
    ensures { result ≡ saved registers registers.modify_read }
{
    match registers.modify_read {
        ModifyRead::Off => registers.with_modify_read(ModifyRead::On(registers.column)),
        ModifyRead::On(_) => registers,
    }
}

// EE: the saved column comes back, where there is one.
fn restore(registers: Registers) -> Registers
    ensures { result ≡ restored registers registers.modify_read }
{
    match registers.modify_read {
        ModifyRead::Off => registers,
        ModifyRead::On(column) => {
            registers
                .with_column(column)
                .with_modify_read(ModifyRead::Off)
        }
    }
}

// E2: start line, column, page and SHL to 0, the saved column forgotten, the indicator off and its value 0, resistor and contrast to
// their start values, nothing else.
fn reset(chip: Sheet, registers: Registers) -> Registers
    ensures { result ≡ reset chip registers }
{
    let first = started(chip, 0, false);
    Registers {
        start_line: 0,
        column: Column(0),
        page: 0,
        shl: false,
        modify_read: ModifyRead::Off,
        indicator: false,
        indicator_value: 0,
        resistor: first.resistor,
        contrast: first.contrast,
        ..registers
    }
}

// The low and the high four bits of the column, the other four as they stand.
fn column_low(registers: Registers, low: u8) -> Registers
    ensures { result ≡ low_set registers low }
{
    registers.with_column(Column(registers.column.0 / 16 * 16 + low % 16))
}

fn column_high(registers: Registers, high: u8) -> Registers
    ensures { result ≡ high_set registers high }
{
    registers.with_column(Column(high % 16 * 16 + registers.column.0 % 16))
}

pub(crate) fn execute(chip: Sheet, registers: Registers, instruction: Instruction) -> Registers
    ensures { result ≡ executed chip registers instruction }
{
    match instruction {
        Instruction::ColumnLow(v) => column_low(registers, v),
        Instruction::ColumnHigh(v) => column_high(registers, v),
        Instruction::Resistor(v) => registers.with_resistor(v),
        Instruction::Power(v) => registers.with_power(v),
        Instruction::StartLine(v) => registers.with_start_line(v),
        Instruction::ContrastNext => registers.with_awaited(Awaited::Contrast),
        Instruction::ContrastValue(v) => {
            registers.with_contrast(v).with_awaited(Awaited::Nothing)
        }
        Instruction::Adc(f) => registers.with_adc(f),
        Instruction::Bias(f) => registers.with_bias(f),
        Instruction::Entire(f) => registers.with_entire(f),
        Instruction::Reverse(f) => registers.with_reverse(f),
        Instruction::IndicatorOff => registers.with_indicator(false),
        Instruction::IndicatorOn => {
            registers
                .with_indicator(true)
                .with_awaited(Awaited::Indicator)
        }
        Instruction::IndicatorValue(v) => {
            registers
                .with_indicator_value(v)
                .with_awaited(Awaited::Nothing)
        }
        Instruction::Display(f) => registers.with_on(f),
        Instruction::Page(v) => registers.with_page(v),
        Instruction::Shl(f) => registers.with_shl(f),
        Instruction::ModifyReadOn => save(registers),
        Instruction::ModifyReadOff => restore(registers),
        Instruction::Reset => reset(chip, registers),
        Instruction::Nop => registers,
    }
}

// Whether a data read after the instruction is stale: a page or column instruction, E0, EE or E2.
pub(crate) fn ends_reading(instruction: Instruction) -> bool
    ensures { result ≡ ends_reading instruction }
{
    match instruction {
        Instruction::ColumnLow(_)
        | Instruction::ColumnHigh(_)
        | Instruction::Page(_)
        | Instruction::ModifyReadOn
        | Instruction::ModifyReadOff
        | Instruction::Reset => true,
        _ => false,
    }
}
