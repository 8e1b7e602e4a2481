// The new command set: its bytes, what they leave and what is refused; the switch; frame and power state in either set.
use crate::buffers::zeros;
use crate::chip::{altered, run, show};
use crate::glass_cases;
use crate::ks0717::far;
use crate::print::{byte, line, refused, word};
use glass::power::power_state;
use instructions::added::{Added, CommandSet, write_added};
use instructions::instruction::Awaited;
use paper::refusal::Refusal;
use paper::sheet::{Chip, Ks0713, Ks0717};
use registers::start::{power_up, power_up_in};
use registers::switch::switch_set;
use registers::{Beside, Registers};

// What stands above this line in the output is the old set's.
pub(crate) fn heading(rt: &impl Print) {
    word(rt, b"the new command set:");
    line(rt);
}

// The new set, with all three away from their start values.
fn away() -> Registers {
    Registers {
        beside: Beside {
            set: CommandSet::New,
            com0: 5,
            duty: 17,
            inversion: 3,
        },
        ..power_up::<Ks0713>()
    }
}

// One line, which no byte can set.
fn one_line() -> Registers {
    Registers {
        beside: Beside {
            set: CommandSet::Old,
            com0: 0,
            duty: 81,
            inversion: 1,
        },
        ..power_up::<Ks0713>()
    }
}

pub(crate) fn bytes(rt: &impl Print) {
    let new = power_up_in::<Ks0713>(CommandSet::New);
    // Initial COM0: its byte awaited; 79; D0, which is 80, does nothing; 47 is 44, whose two low bits are free.
    run(
        rt,
        new,
        &[
            b"\x00\x44",
            b"\x00\x44\x00\x4f",
            b"\x00\x44\x00\xd0",
            b"\x00\x47\x00\x05",
        ],
    );
    // The duty: its byte awaited; 17; 16 and 82 do nothing.
    run(
        rt,
        new,
        &[
            b"\x00\x48",
            b"\x00\x48\x00\x11",
            b"\x00\x48\x00\x10",
            b"\x00\x48\x00\x52",
        ],
    );
    // Inversion: its byte awaited; 33 lines; E4 as its byte is 6 lines, and another E4 is back to frame inversion.
    run(
        rt,
        new,
        &[
            b"\x00\x4c",
            b"\x00\x4c\x00\x1f",
            b"\x00\x4c\x00\xe4",
            b"\x00\x4c\x00\xe4\x00\xe4",
        ],
    );
}

pub(crate) fn cycles(rt: &impl Print) {
    // What else the old set assigns is refused with 4: a page, a column, 81, E0, E2, E3, 43.
    run(
        rt,
        power_up_in::<Ks0713>(CommandSet::New),
        &[b"\x00\xb0\x00\x05\x00\x81\x00\xe0\x00\xe2\x00\xe3\x00\x43"],
    );
    // Data and status as in the old set, with a byte awaited, which stays.
    run(
        rt,
        power_up_in::<Ks0713>(CommandSet::New),
        &[b"\x00\x44\x01\x5a\x03\x00\x02\x00"],
    );
    // Pin low, and then high: the three at their start values, and still the new set.
    run(rt, away(), &[b"\x04\x00", b"\x04\x00\x05\x00"]);
    // The old set: 44 is a start line, and E4 is refused with 4.
    run(rt, power_up::<Ks0713>(), &[b"\x00\x44", b"\x00\xe4"]);
    // A byte of the other set awaited: 2.
    run(
        rt,
        Registers {
            awaited: Awaited::Contrast,
            ..away()
        },
        &[b"\x02\x00"],
    );
    run(
        rt,
        Registers {
            awaited: Awaited::Duty,
            ..power_up::<Ks0713>()
        },
        &[b"\x02\x00"],
    );
}

fn tell(rt: &impl Print, answer: Result<Registers, Refusal>) {
    match answer {
        Ok(registers) => show(rt, registers),
        Err(refusal) => {
            refused(rt, refusal);
            line(rt);
        }
    }
}

// A switch, and another one to the old set where there was none refused.
fn there_and_back(rt: &impl Print, registers: Registers) {
    word(rt, b"there and back");
    match switch_set::<Ks0713>(registers, CommandSet::New) {
        Ok(there) => tell(rt, switch_set::<Ks0713>(there, CommandSet::Old)),
        Err(refusal) => refused(rt, refusal),
    }
}

fn switched<C: Chip>(rt: &impl Print, name: &[u8], registers: Registers, set: CommandSet) {
    word(rt, name);
    tell(rt, switch_set::<C>(registers, set));
}

pub(crate) fn switches(rt: &impl Print) {
    switched::<Ks0713>(rt, b"to the new set", power_up::<Ks0713>(), CommandSet::New);
    // With the pin low, the mark fresh and every register away from its start value.
    there_and_back(
        rt,
        Registers {
            awaited: Awaited::Nothing,
            ..altered()
        },
    );
    switched::<Ks0713>(rt, b"after 81", altered(), CommandSet::New);
    switched::<Ks0713>(
        rt,
        b"after 44, to the set in force",
        Registers {
            awaited: Awaited::Com0,
            ..away()
        },
        CommandSet::New,
    );
    // 2 comes before 13.
    switched::<Ks0713>(
        rt,
        b"COM0 awaited in the old set",
        Registers {
            awaited: Awaited::Com0,
            ..power_up::<Ks0713>()
        },
        CommandSet::New,
    );
    switched::<Ks0713>(rt, b"one line", one_line(), CommandSet::New);
    // A column that the KS0717 has not: 2.
    switched::<Ks0717>(rt, b"the KS0717, column 128", far(), CommandSet::New);
}

// The frame of a memory of which byte 0 is 1, in the new set; and refused.
fn drawn(rt: &impl Print, name: &[u8], registers: Registers) {
    let mut memory = zeros::<1188>();
    memory[0] = 1;
    glass_cases::drawn(rt, name, registers, &memory);
}

pub(crate) fn glass(rt: &impl Print) {
    drawn(
        rt,
        b"frame in the new set:",
        Registers { on: true, ..away() },
    );
    drawn(rt, b"frame, one line:", one_line());
    word(rt, b"power state, one line:");
    match power_state::<Ks0713>(one_line()) {
        Ok(_) => word(rt, b" given"),
        Err(refusal) => refused(rt, refusal),
    }
    line(rt);
}

fn written(rt: &impl Print, name: &[u8], added: Added) {
    word(rt, name);
    match write_added(added) {
        Ok(at) => byte(rt, at),
        Err(refusal) => refused(rt, refusal),
    }
    line(rt);
}

pub(crate) fn writings(rt: &impl Print) {
    written(rt, b"write duty next", Added::DutyNext);
    written(rt, b"write COM0 127", Added::Com0Value(127));
    written(rt, b"write COM0 128", Added::Com0Value(128));
    written(rt, b"write inversion 31", Added::InversionValue(31));
    written(rt, b"write inversion 32", Added::InversionValue(32));
    written(rt, b"write frame inversion", Added::FrameInversion);
}
