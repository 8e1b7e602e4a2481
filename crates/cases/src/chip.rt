// The controller: each instruction; page 9, status, the reset pin, what makes no cycle, and E2 once more. A line for each case:
// its cycles with what they answer, then every register.
use crate::buffers::zeros;
use crate::print::{byte, flag, line, pair, refused, told, word};
use controller::cycle::{Answer, cycle};
use controller::turn::registers_after;
use instructions::added::CommandSet;
use instructions::instruction::Awaited;
use paper::refusal::Refusal;
use paper::sheet::{Chip, Ks0713};
use registers::start::power_up;
use registers::{Beside, Column, ModifyRead, Registers};

fn saved(rt: &impl Print, mode: ModifyRead) {
    match mode {
        ModifyRead::Off => word(rt, b" -"),
        ModifyRead::On(column) => byte(rt, column.0),
    }
}

fn awaited_word(rt: &impl Print, awaited: Awaited) {
    match awaited {
        Awaited::Nothing => word(rt, b" nothing"),
        Awaited::Contrast => word(rt, b" contrast"),
        Awaited::Indicator => word(rt, b" indicator"),
        Awaited::Com0 => word(rt, b" com0"),
        Awaited::Duty => word(rt, b" duty"),
        Awaited::Inversion => word(rt, b" inversion"),
    }
}

fn set_word(rt: &impl Print, set: CommandSet) {
    match set {
        CommandSet::Old => word(rt, b" old"),
        CommandSet::New => word(rt, b" new"),
    }
}

// The command set, initial COM0, duty and inversion.
fn show_beside(rt: &impl Print, beside: Beside) {
    let set = beside.set;
    set_word(rt, set);
    byte(rt, beside.com0);
    byte(rt, beside.duty);
    byte(rt, beside.inversion);
}

// Page, column, start line, contrast, resistor, power, bias, ADC, SHL, reverse, entire, on, indicator, its value, holder, pin
// low, saved column, awaited, whether a data read would be fresh, and what stands beside them.
pub(crate) fn show(rt: &impl Print, registers: Registers) {
    let mode = registers.modify_read;
    let awaited = registers.awaited;
    let beside = registers.beside;
    byte(rt, registers.page);
    byte(rt, registers.column.0);
    byte(rt, registers.start_line);
    byte(rt, registers.contrast);
    byte(rt, registers.resistor);
    byte(rt, registers.power);
    show_flags(rt, registers);
    byte(rt, registers.indicator_value);
    byte(rt, registers.holder);
    flag(rt, registers.pin_low);
    saved(rt, mode);
    awaited_word(rt, awaited);
    flag(rt, registers.fresh);
    show_beside(rt, beside);
    line(rt);
}

fn show_flags(rt: &impl Print, registers: Registers) {
    flag(rt, registers.bias);
    flag(rt, registers.adc);
    flag(rt, registers.shl);
    flag(rt, registers.reverse);
    flag(rt, registers.entire);
    flag(rt, registers.on);
    flag(rt, registers.indicator);
}

fn status(rt: &impl Print, byte: u8) {
    told(rt, b" status", byte);
}

fn read(rt: &impl Print, byte: u8, fresh: bool) {
    told(rt, b" read", byte);
    if fresh {
        word(rt, b" f");
    } else {
        word(rt, b" s");
    }
}

// A read prints its byte, a data read whether it is fresh, a refusal its number.
fn tell(rt: &impl Print, answer: Result<Answer, Refusal>) {
    match answer {
        Ok(Answer::Done(_)) => (),
        Ok(Answer::Status(byte)) => status(rt, byte),
        Ok(Answer::Read(_, byte, fresh)) => read(rt, byte, fresh),
        Err(refusal) => refused(rt, refusal),
    }
}

// One cycle: its kind and value as in a job file, and what it answers.
fn play<C: Chip>(
    rt: &impl Print,
    registers: Registers,
    memory: &mut [u8],
    kind: u8,
    value: u8,
) -> Registers {
    pair(rt, kind, value);
    let answer = cycle::<C>(registers, memory, kind, value);
    tell(rt, answer);
    word(rt, b",");
    registers_after(registers, answer)
}

// Plays cases, each from the same registers: their cycles as in a job file, kind and value.
pub(crate) fn run_on<C: Chip>(
    rt: &impl Print,
    start: Registers,
    memory: &mut [u8],
    cases: &[&[u8]],
) {
    for case in cases {
        let mut registers = start;
        for cycle in case.chunks_exact(2) {
            registers = play::<C>(rt, registers, memory, cycle[0], cycle[1]);
        }
        show(rt, registers);
    }
}

// On the KS0713, with a memory of zeros.
pub(crate) fn run(rt: &impl Print, start: Registers, cases: &[&[u8]]) {
    let mut memory = zeros::<1188>();
    run_on::<Ks0713>(rt, start, &mut memory, cases);
}

// Page 3, column 87, start line 10, SHL 1, resistor 5, contrast 42, the indicator on with value 1.
fn prepared() -> Registers {
    Registers {
        page: 3,
        column: Column(87),
        start_line: 10,
        contrast: 42,
        resistor: 5,
        shl: true,
        indicator: true,
        indicator_value: 1,
        ..power_up::<Ks0713>()
    }
}

// Every register away from its start value, in the old command set, with 88 saved and contrast awaited.
pub(crate) fn altered() -> Registers {
    Registers {
        page: 3,
        column: Column(89),
        start_line: 10,
        contrast: 42,
        resistor: 5,
        power: 5,
        bias: true,
        adc: true,
        shl: true,
        reverse: true,
        entire: true,
        on: true,
        indicator: true,
        indicator_value: 1,
        holder: 91,
        pin_low: true,
        modify_read: ModifyRead::On(Column(88)),
        awaited: Awaited::Contrast,
        fresh: true,
        beside: Beside {
            set: CommandSet::Old,
            com0: 79,
            duty: 17,
            inversion: 33,
        },
    }
}

// The instructions 00 to A7.
fn to_reverse(rt: &impl Print) {
    // 00 to 7F: low and high bits of column, resistor, power, start line.
    run(
        rt,
        prepared(),
        &[
            b"\x00\x0c",
            b"\x00\x1a",
            b"\x00\x26",
            b"\x00\x2d",
            b"\x00\x7f",
        ],
    );
    // 81 to A7: contrast next and its value, ADC, bias, entire, reverse.
    run(
        rt,
        prepared(),
        &[
            b"\x00\x81",
            b"\x00\x81\x00\xff",
            b"\x00\xa1",
            b"\x00\xa3",
            b"\x00\xa5",
            b"\x00\xa7",
        ],
    );
}

// The instructions AC to E3.
fn to_nothing(rt: &impl Print) {
    // AC to CF: indicator off, on and its value, display, page, SHL.
    run(
        rt,
        prepared(),
        &[
            b"\x00\xac",
            b"\x00\xad",
            b"\x00\xad\x00\xfe",
            b"\x00\xaf",
            b"\x00\xb9",
            b"\x00\xc0",
        ],
    );
    // E0 to E3: modify-read on, and off again; reset; reset with 87 saved, and EE after it; nothing.
    run(
        rt,
        prepared(),
        &[
            b"\x00\xe0",
            b"\x00\xe0\x00\xee",
            b"\x00\xe2",
            b"\x00\xe0\x00\xe2",
            b"\x00\xe0\x00\xe2\x00\xee",
            b"\x00\xe3",
        ],
    );
}

// Each instruction, in the order of document 01's table.
pub(crate) fn instructions(rt: &impl Print) {
    to_reverse(rt);
    to_nothing(rt);
}

// And the rest of the bus.
pub(crate) fn cycles(rt: &impl Print) {
    // AD from indicator off, and its value.
    run(
        rt,
        power_up::<Ks0713>(),
        &[b"\x00\xad", b"\x00\xad\x00\x02"],
    );
    // Page 9: a write stores nothing and the column advances; what is then read back is the holder, then 0.
    run(
        rt,
        power_up::<Ks0713>(),
        &[b"\x00\xb9\x01\x5a\x03\x00\x03\x00"],
    );
    // Status at power-up, with ADC 1, with display on, with the pin low.
    run(
        rt,
        power_up::<Ks0713>(),
        &[
            b"\x02\x00",
            b"\x00\xa1\x02\x00",
            b"\x00\xaf\x02\x00",
            b"\x04\x00\x02\x00",
        ],
    );
    // Pin low, and then high; pin high alone, and then a data read, which tells the mark that it was handed.
    run(
        rt,
        altered(),
        &[
            b"\x04\x00",
            b"\x04\x00\x05\x00",
            b"\x05\x00",
            b"\x05\x00\x03\x00",
        ],
    );
    // A status read and a pin cycle with a value, and a kind above 5: no cycles.
    run(rt, altered(), &[b"\x02\x01", b"\x05\x01", b"\x06\x00"]);
}

// E2 where every register is away from its start value: with the pin low; with contrast awaited, and once more with nothing awaited.
// And as the indicator's byte.
pub(crate) fn resets(rt: &impl Print) {
    run(
        rt,
        altered(),
        &[
            b"\x00\xe2",
            b"\x05\x00\x00\xe2",
            b"\x05\x00\x00\xe2\x00\xe2",
        ],
    );
    run(rt, power_up::<Ks0713>(), &[b"\x00\xad\x00\xe2"]);
}
