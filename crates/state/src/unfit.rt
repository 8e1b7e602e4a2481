// Which bytes stand for no registers, and the number that they are refused with.
ghost use Rattle.std.specs.Prelude.{◌≡◌};
ghost use Rattle.state.specs.Unfit.{odd_flag, spare_used, unfit, AreIn};

use crate::packed::{
    ADC, AWAITED, BIAS, ENTIRE, FRESH, INDICATOR, MODIFY_READ, ON, PIN_LOW, REVERSE, SAVED_COLUMN,
    SET, SHL, State, unpack,
};
use paper::refusal::Refusal;
use registers::Registers;

// Whether a byte that is to be 0 or 1 is neither: each by its register's name, which a search among offsets would hide.
fn odd_flag(state: &State) -> bool
    ensures { result ≡ odd_flag state.now }
{
    (1 < state[BIAS])
        | (1 < state[ADC])
        | (1 < state[SHL])
        | (1 < state[REVERSE])
        | (1 < state[ENTIRE])
        | (1 < state[ON])
        | (1 < state[INDICATOR])
        | (1 < state[PIN_LOW])
        | (1 < state[MODIFY_READ])
        | (1 < state[FRESH])
        | (1 < state[SET])
}

// Whether a spare byte is not 0. A fold, since `any` leaves at the first: with no branch the eight bytes are loaded and tested together.
fn spare_used(state: &State) -> bool
    ensures { result ≡ spare_used state.now }
{
    (24..32).fold(false, |used, i| used | (0 < state[i]))
}

// Whether the bytes stand for no registers. What is left to test then are the ranges of the registers, which the crates below do.
pub fn is_unfit(state: &State) -> bool
    ensures { result ≡ unfit state.now }
{
    odd_flag(state)
        | ((state[MODIFY_READ] == 0) & (0 < state[SAVED_COLUMN]))
        | (5 < state[AWAITED])
        | spare_used(state)
}

// The registers that the bytes stand for. Refuses bytes that stand for none with 2, but with 1 where a buffer's size is wrong. Inlined, so
// that a call unpacks no more of them than it asks for.
#[inline(always)]
pub fn registers_in(state: &State, wrong: bool) -> Result<Registers, Refusal>
    ensures { AreIn state.now wrong result }
{
    if !is_unfit(state) {
        return Ok(unpack(state));
    }
    Err(if wrong {
        Refusal::WrongSize
    } else {
        Refusal::OutOfRange
    })
}
