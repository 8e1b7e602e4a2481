// What an instruction of the new command set does to the registers.
ghost use Rattle.std.specs.Prelude.{◌≡◌};
ghost use Rattle.controller.specs.Added.{com0_set, duty_set, lines_of, executed_added};

use instructions::added::Added;
use instructions::instruction::Awaited;
use registers::Registers;

// Initial COM0 after a second byte: 0 to 79 set it.
fn com0_set(now: u8, value: u8) -> u8
    ensures { result ≡ com0_set now value }
{
    if value <= 79 { value } else { now }
}

// The duty after a second byte: 17 to 81 set it.
fn duty_set(now: u8, value: u8) -> u8
    ensures { result ≡ duty_set now value }
{
    if (17 <= value) & (value <= 81) {
        value
    } else {
        now
    }
}

// The lines of an inversion byte, 0 for frame inversion.
fn lines_of(value: u8) -> u8
    ensures { result ≡ lines_of value }
{
    if value % 32 == 0 { 0 } else { value % 32 + 2 }
}

pub(crate) fn execute_added(registers: Registers, added: Added) -> Registers
    ensures { result ≡ executed_added registers added }
{
    match added {
        Added::Com0Next => registers.with_awaited(Awaited::Com0),
        Added::Com0Value(v) => {
            let com0 = com0_set(registers.beside.com0, v);
            registers.with_com0(com0).with_awaited(Awaited::Nothing)
        }
        Added::DutyNext => registers.with_awaited(Awaited::Duty),
        Added::DutyValue(v) => {
            let duty = duty_set(registers.beside.duty, v);
            registers.with_duty(duty).with_awaited(Awaited::Nothing)
        }
        Added::InversionNext => registers.with_awaited(Awaited::Inversion),
        Added::InversionValue(v) => {
            registers
                .with_inversion(lines_of(v))
                .with_awaited(Awaited::Nothing)
        }
        Added::FrameInversion => registers.with_inversion(0),
    }
}
