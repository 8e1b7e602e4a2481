// The glass: frames of one lit bit, of icons, reversed, entire and off; power states; V0.
use crate::buffers::zeros;
use crate::print::{byte, line, number, refused, word};
use glass::frame::frame;
use glass::power::{PowerState, power_state};
use glass::voltage::{Supply, v0};
use paper::sheet::{Chip, Ks0713};
use registers::Registers;
use registers::start::power_up;

// Zeros but for line 0, column 0, and page 8's byte at column 0, of which only bit 0 is shown.
fn spotted() -> [u8; 1188] {
    let mut memory = zeros::<1188>();
    memory[0] = 1;
    memory[1056] = 0xff;
    memory
}

// How many bytes of a frame are not 0, and the first of them with its place.
pub(crate) fn summary(rt: &impl Print, frame: &[u8]) {
    let first = frame.iter().position(|lamp| *lamp != 0).unwrap_or(0);
    number(rt, frame.iter().filter(|lamp| **lamp != 0).count());
    number(rt, first);
    byte(rt, frame.get(first).copied().unwrap_or(0));
}

pub(crate) fn drawn(rt: &impl Print, name: &[u8], registers: Registers, memory: &[u8]) {
    let mut out = zeros::<1188>();
    word(rt, name);
    match frame::<Ks0713>(registers, memory, &mut out) {
        Ok(()) => summary(rt, &out),
        Err(refusal) => refused(rt, refusal),
    }
    line(rt);
}

pub(crate) fn frames(rt: &impl Print) {
    let memory = spotted();
    shown(rt, &memory);
}

// On, at start line 60: line 0 is row 4, and the icon row does not move.
fn shown(rt: &impl Print, memory: &[u8]) {
    let mut registers = power_up::<Ks0713>();
    drawn(rt, b"off:", registers, memory);
    registers.on = true;
    registers.start_line = 60;
    drawn(rt, b"start line 60:", registers, memory);
    registers.shl = true;
    drawn(rt, b"SHL:", registers, memory);
    registers.adc = true;
    drawn(rt, b"ADC:", registers, memory);
    registers.reverse = true;
    drawn(rt, b"reverse:", registers, memory);
    registers.entire = true;
    drawn(rt, b"entire:", registers, memory);
    registers.contrast = 64;
    drawn(rt, b"contrast 64:", registers, memory);
}

fn named(rt: &impl Print, state: PowerState) {
    match state {
        PowerState::Normal => word(rt, b" normal"),
        PowerState::Sleep => word(rt, b" sleep"),
        PowerState::Standby => word(rt, b" standby"),
    }
}

pub(crate) fn power<C: Chip>(rt: &impl Print, name: &[u8], registers: Registers) {
    word(rt, name);
    match power_state::<C>(registers) {
        Ok(state) => named(rt, state),
        Err(refusal) => refused(rt, refusal),
    }
    line(rt);
}

fn volts<C: Supply>(rt: &impl Print, resistor: u8, contrast: u8) {
    word(rt, b"V0 at");
    byte(rt, resistor);
    byte(rt, contrast);
    match v0::<C>(resistor, contrast) {
        Ok(fraction) => number(rt, fraction.numerator as usize),
        Err(refusal) => refused(rt, refusal),
    }
    line(rt);
}

pub(crate) fn powers(rt: &impl Print) {
    let mut registers = power_up::<Ks0713>();
    power::<Ks0713>(rt, b"off:", registers);
    registers.entire = true;
    power::<Ks0713>(rt, b"off and entire:", registers);
    registers.indicator = true;
    power::<Ks0713>(rt, b"with the indicator:", registers);
    registers.on = true;
    power::<Ks0713>(rt, b"on:", registers);
}

// Every ratio at contrast 0, the highest V0, and both ways out of range.
pub(crate) fn voltages<C: Supply>(rt: &impl Print) {
    for resistor in 0..8 {
        volts::<C>(rt, resistor, 0);
    }
    volts::<C>(rt, 7, 63);
    volts::<C>(rt, 8, 63);
    volts::<C>(rt, 7, 64);
}
