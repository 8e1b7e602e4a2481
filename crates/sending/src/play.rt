// A stream played on the chip, two memories compared, and where the chip stands.
use crate::say::{say, say_refused, words};
use bus::run::run;
use paper::sheet::Ks0713;
use registers::Registers;

// One cycle. Where it is refused its number is printed, which no group should come to.
fn turn(
    rt: &impl Print,
    registers: Registers,
    memory: &mut [u8],
    kind: u8,
    value: u8,
) -> Registers {
    let cycle = [kind, value];
    let mut numbers = [0; 1];
    let mut reads = [0; 1];
    let mut bytes = [0; 1];
    let mut fresh = [0; 1];
    match run::<Ks0713>(
        registers,
        memory,
        &cycle,
        &mut numbers,
        &mut reads,
        &mut bytes,
        &mut fresh,
    ) {
        Ok(after) => {
            if numbers[0] != 0 {
                say_refused(rt, numbers[0]);
            }
            after
        }
        Err(refusal) => {
            say_refused(rt, refusal.into());
            registers
        }
    }
}

// The cycles of a stream: their bytes and their kinds.
pub(crate) fn play(
    rt: &impl Print,
    start: Registers,
    memory: &mut [u8],
    bytes: &[u8],
    kinds: &[u8],
) -> Registers {
    let mut registers = start;
    for (kind, byte) in kinds.iter().zip(bytes) {
        registers = turn(rt, registers, memory, *kind, *byte);
    }
    registers
}

// Whether two memories are the same byte for byte.
pub(crate) fn same(rt: &impl Print, one: &[u8], other: &[u8]) {
    if one == other {
        words(rt, b", the update's memory");
    } else {
        words(rt, b", another memory");
    }
}

pub(crate) fn stands(rt: &impl Print, registers: Registers) {
    say(rt, b", page ", registers.page as usize);
    say(rt, b" column ", registers.column.0 as usize);
}
