// The state: the registers in 32 bytes, each at its offset, the spare ones 0.
ghost use Rattle.std.specs.Prelude.{◌≡◌};
ghost use Rattle.state.specs.Packed.{flag_byte, modify_byte, saved_byte, modify_of, awaited_of, set_of, beside_of, packed, unpacked};

use instructions::added::CommandSet;
use instructions::instruction::Awaited;
use registers::{Beside, Column, ModifyRead, Registers};

// The state of a chip as C holds it: a register at each offset, spare bytes 0.
pub type State = [u8; 32];

const PAGE: usize = 0;

const COLUMN: usize = 1;

const START_LINE: usize = 2;

const CONTRAST: usize = 3;

const RESISTOR: usize = 4;

const POWER: usize = 5;

pub(crate) const BIAS: usize = 6;

pub(crate) const ADC: usize = 7;

pub(crate) const SHL: usize = 8;

pub(crate) const REVERSE: usize = 9;

pub(crate) const ENTIRE: usize = 10;

pub(crate) const ON: usize = 11;

pub(crate) const INDICATOR: usize = 12;

const INDICATOR_VALUE: usize = 13;

const HOLDER: usize = 14;

pub(crate) const PIN_LOW: usize = 15;

pub(crate) const MODIFY_READ: usize = 16;

pub(crate) const SAVED_COLUMN: usize = 17;

pub(crate) const AWAITED: usize = 18;

pub(crate) const FRESH: usize = 19;

pub(crate) const SET: usize = 20;

const COM0: usize = 21;

const DUTY: usize = 22;

const INVERSION: usize = 23;

// A register of 0 or 1 as a byte, by the definition's name.
pub fn flag_byte(on: bool) -> u8
    ensures { result ≡ flag_byte on }
{
    u8::from(on)
}

// Whether modify-read is on, as a byte. No `From`: two bytes stand for the one value.
fn modify_byte(mode: ModifyRead) -> u8
    ensures { result ≡ modify_byte mode }
{
    match mode {
        ModifyRead::Off => 0,
        ModifyRead::On(_) => 1,
    }
}

// The saved column, 0 while modify-read is off.
fn saved_byte(mode: ModifyRead) -> u8
    ensures { result ≡ saved_byte mode }
{
    match mode {
        ModifyRead::Off => 0,
        ModifyRead::On(c) => c.0,
    }
}

// Modify-read from its byte and the saved column.
fn modify_of(byte: u8, saved: u8) -> ModifyRead
    ensures { result ≡ modify_of byte saved }
{
    if byte == 1 {
        return ModifyRead::On(Column(saved));
    }
    ModifyRead::Off
}

// What is awaited, from its byte: nothing where it is none of the six.
pub fn awaited_of(byte: u8) -> Awaited
    ensures { result ≡ awaited_of byte }
{
    Awaited::try_from(byte).unwrap_or(Awaited::Nothing)
}

// The command set, from its byte: the old one where it is neither.
pub fn set_of(byte: u8) -> CommandSet
    ensures { result ≡ set_of byte }
{
    CommandSet::try_from(byte).unwrap_or(CommandSet::Old)
}

// The bytes that stand for the registers. No `From`: the bytes are an array, as C has them, and the registers are another crate's.
pub fn pack(registers: Registers) -> State
    ensures { result ≡ packed registers }
{
    let mode = registers.modify_read;
    let beside = registers.beside;
    let mut bytes = [0u8; 32];
    bytes[PAGE] = registers.page;
    bytes[COLUMN] = registers.column.0;
    bytes[START_LINE] = registers.start_line;
    bytes[CONTRAST] = registers.contrast;
    bytes[RESISTOR] = registers.resistor;
    bytes[POWER] = registers.power;
    bytes[BIAS] = flag_byte(registers.bias);
    bytes[ADC] = flag_byte(registers.adc);
    bytes[SHL] = flag_byte(registers.shl);
    bytes[REVERSE] = flag_byte(registers.reverse);
    bytes[ENTIRE] = flag_byte(registers.entire);
    bytes[ON] = flag_byte(registers.on);
    bytes[INDICATOR] = flag_byte(registers.indicator);
    bytes[INDICATOR_VALUE] = registers.indicator_value;
    bytes[HOLDER] = registers.holder;
    bytes[PIN_LOW] = flag_byte(registers.pin_low);
    bytes[MODIFY_READ] = modify_byte(mode);
    bytes[SAVED_COLUMN] = saved_byte(mode);
    bytes[AWAITED] = u8::from(registers.awaited);
    bytes[FRESH] = flag_byte(registers.fresh);
    bytes[SET] = u8::from(beside.set);
    bytes[COM0] = beside.com0;
    bytes[DUTY] = beside.duty;
    bytes[INVERSION] = beside.inversion;
    bytes
}

// What stands beside the registers of the sheet.
fn beside_of(state: &State) -> Beside
    ensures { result ≡ beside_of state.now }
{
    Beside {
        set: set_of(state[SET]),
        com0: state[COM0],
        duty: state[DUTY],
        inversion: state[INVERSION],
    }
}

// The registers that the bytes stand for.
pub fn unpack(state: &State) -> Registers
    ensures { result ≡ unpacked state.now }
{
    let mode = modify_of(state[MODIFY_READ], state[SAVED_COLUMN]);
    let awaited = awaited_of(state[AWAITED]);
    let beside = beside_of(state);
    Registers {
        page: state[PAGE],
        column: Column(state[COLUMN]),
        start_line: state[START_LINE],
        contrast: state[CONTRAST],
        resistor: state[RESISTOR],
        power: state[POWER],
        bias: state[BIAS] == 1,
        adc: state[ADC] == 1,
        shl: state[SHL] == 1,
        reverse: state[REVERSE] == 1,
        entire: state[ENTIRE] == 1,
        on: state[ON] == 1,
        indicator: state[INDICATOR] == 1,
        indicator_value: state[INDICATOR_VALUE],
        holder: state[HOLDER],
        pin_low: state[PIN_LOW] == 1,
        modify_read: mode,
        awaited,
        fresh: state[FRESH] == 1,
        beside,
    }
}
