// The KS0717: its cycles, its high column bytes, the rows that are dark, the power state, V0, and the sizes of its pictures and
// streams.
use crate::buffers::{ones, zeros};
use crate::chip::run_on;
use crate::glass_cases::{power, summary};
use crate::print::{byte, line, refused, told, word};
use crate::stream_cases::{every_cell, found, redraws_into};
use glass::frame::frame;
use instructions::instruction::{Awaited, Instruction};
use instructions::read::read_instruction;
use instructions::write::write_instruction;
use paper::sheet::Ks0717;
use planner::first::first_difference;
use registers::start::power_up;
use registers::{Column, ModifyRead, Registers};

// A column of 128, and one of 128 that is saved: the counter has seven bits.
pub(crate) fn far() -> Registers {
    Registers {
        column: Column(128),
        ..power_up::<Ks0717>()
    }
}

fn far_saved() -> Registers {
    Registers {
        modify_read: ModifyRead::On(Column(128)),
        ..power_up::<Ks0717>()
    }
}

fn run(rt: &impl Print, start: Registers, cases: &[&[u8]]) {
    let mut memory = zeros::<900>();
    run_on::<Ks0717>(rt, start, &mut memory, cases);
}

// What stands above this line in the output is the KS0713's.
pub(crate) fn heading(rt: &impl Print) {
    word(rt, b"the KS0717:");
    line(rt);
}

pub(crate) fn cycles(rt: &impl Print) {
    // At power-up the resistor is 4, and at pin low and at E2 it is again.
    run(
        rt,
        power_up::<Ks0717>(),
        &[b"", b"\x00\x27", b"\x00\x27\x04\x00", b"\x00\x27\x00\xe2"],
    );
    // Column 99, two writes: the first is stored, the second not; column 100. Both read back.
    run(
        rt,
        power_up::<Ks0717>(),
        &[
            b"\x00\x16\x00\x03\x01\x05\x01\x07",
            b"\x00\x16\x00\x03\x03\x00\x03\x00\x03\x00",
        ],
    );
    // 1F then 0F: column 127, where a write stores nothing and the column stays; 18: high part 0.
    run(
        rt,
        power_up::<Ks0717>(),
        &[
            b"\x00\x1f\x00\x0f",
            b"\x00\x1f\x00\x0f\x01\x05",
            b"\x00\x1f\x00\x18",
        ],
    );
    // A column of 128, saved or not: 2.
    run(rt, far(), &[b"\x02\x00"]);
    run(rt, far_saved(), &[b"\x02\x00"]);
    // A memory of 1,188 bytes: 1.
    let mut memory = zeros::<1188>();
    run_on::<Ks0717>(rt, power_up::<Ks0717>(), &mut memory, &[b"\x02\x00"]);
}

fn high_of(rt: &impl Print, instruction: Instruction) {
    match instruction {
        Instruction::ColumnHigh(high) => told(rt, b" high", high),
        _ => word(rt, b" another"),
    }
}

fn read_high(rt: &impl Print, at: u8) {
    told(rt, b"read", at);
    match read_instruction::<Ks0717>(Awaited::Nothing, at) {
        Ok(instruction) => high_of(rt, instruction),
        Err(refusal) => refused(rt, refusal),
    }
    line(rt);
}

fn write_high(rt: &impl Print, high: u8) {
    told(rt, b"write high", high);
    match write_instruction::<Ks0717>(Instruction::ColumnHigh(high)) {
        Ok(written) => byte(rt, written),
        Err(refusal) => refused(rt, refusal),
    }
    line(rt);
}

// Bit 3 of a high column byte is free: 1F is 7, which is written 17, and 8 is refused.
pub(crate) fn instructions(rt: &impl Print) {
    read_high(rt, 0x17);
    read_high(rt, 0x1f);
    write_high(rt, 7);
    write_high(rt, 8);
}

// The whole frame, then what stands first in strips 6, 7 and 8.
fn shown(rt: &impl Print, frame: &[u8; 900]) {
    summary(rt, frame);
    word(rt, b", strips 6 to 8:");
    byte(rt, frame[600]);
    byte(rt, frame[700]);
    byte(rt, frame[800]);
}

fn drawn(rt: &impl Print, name: &[u8], registers: Registers, memory: &[u8]) {
    let mut out = zeros::<900>();
    word(rt, name);
    match frame::<Ks0717>(registers, memory, &mut out) {
        Ok(()) => shown(rt, &out),
        Err(refusal) => refused(rt, refusal),
    }
    line(rt);
}

// Line 0 in column 0 at start line 60: row 4; with SHL row 49; with ADC under segment 99. Rows 54 to 63 stay dark in reverse and with
// entire display.
fn spotted(rt: &impl Print, memory: &[u8]) {
    let mut registers = power_up::<Ks0717>();
    registers.on = true;
    registers.start_line = 60;
    drawn(rt, b"start line 60:", registers, memory);
    registers.shl = true;
    drawn(rt, b"SHL:", registers, memory);
    registers.adc = true;
    drawn(rt, b"ADC:", registers, memory);
    registers.reverse = true;
    drawn(rt, b"reverse:", registers, memory);
    registers.entire = true;
    drawn(rt, b"entire:", registers, memory);
    drawn(rt, b"column 128:", far(), memory);
}

pub(crate) fn frames(rt: &impl Print) {
    let mut memory = zeros::<900>();
    memory[0] = 1;
    spotted(rt, &memory);
    let long = zeros::<1188>();
    drawn(rt, b"a memory of 1,188 bytes:", power_up::<Ks0717>(), &long);
}

pub(crate) fn powers(rt: &impl Print) {
    let mut registers = power_up::<Ks0717>();
    registers.entire = true;
    power::<Ks0717>(rt, b"off and entire:", registers);
    power::<Ks0717>(rt, b"column 128:", far());
}

// 927 bytes.
pub(crate) fn lengths(rt: &impl Print) {
    let recorded = zeros::<900>();
    let wanted = ones::<900>();
    let mut out = zeros::<927>();
    let mut kinds = zeros::<927>();
    every_cell::<Ks0717>(rt, &recorded, &wanted, &mut out, &mut kinds);
    word(rt, b"first difference:");
    found(rt, first_difference::<Ks0717>(&recorded, &wanted));
    let long = zeros::<1188>();
    word(rt, b"a picture of 1,188 bytes:");
    found(rt, first_difference::<Ks0717>(&recorded, &long));
}

// 931 bytes.
pub(crate) fn redraws(rt: &impl Print) {
    let wanted = ones::<900>();
    let mut out = zeros::<931>();
    let mut kinds = zeros::<931>();
    redraws_into::<Ks0717>(rt, &wanted, &mut out, &mut kinds);
}
