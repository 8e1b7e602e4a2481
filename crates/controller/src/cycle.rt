// One cycle on the bus.
ghost use Rattle.std.specs.Prelude.{◌≡◌, cond, ◌+◌, ◌*◌, ◌≤◌, ◌||◌, ltb, eqb, length, MatchResult};
ghost use Rattle.paper.specs.Refusal.{number_of};
ghost use Rattle.paper.specs.Kind.{kind_number};
ghost use Rattle.instructions.specs.Read.{read_of};
ghost use Rattle.instructions.specs.Added.{read_added};
ghost use Rattle.controller.specs.Cycle.{status, malformed, refusal, written, after_read, after_low, instructed, instructed_added, instructed_in, carried, kept, outcome, Cycled};

use crate::added::execute_added;
use crate::execute::{ends_reading, execute};
use crate::memory::{advance, load, store};
use instructions::added::{CommandSet, read_added};
use instructions::read::read_for;
use paper::kind::Kind;
use paper::refusal::Refusal;
use paper::sheet::{Chip, Sheet};
use registers::start::started;
use registers::{ModifyRead, Registers, outside_range};

// What a cycle answers: the registers after it; the status byte; or the registers after it, the byte read and whether it is fresh.
#[derive(Clone, Copy, Debug, PartialEq, Eq)]
pub enum Answer {
    Done(Registers),
    Status(u8),
    Read(Registers, u8, bool),
}

// The one where a test holds, else the other; so never more than both.
fn choose(test: bool, yes: u8, no: u8) -> u8
    ensures { (result ≡ cond test yes no) × (result ≤ yes + no) }
{
    if test { yes } else { no }
}

fn status_of(registers: Registers) -> u8
    ensures { result ≡ status registers }
{
    choose(registers.adc, 0, 64) + choose(registers.on, 0, 32) + choose(registers.pin_low, 16, 0)
}

// After a data write: the byte is in the holder, and the column has advanced.
#[tactic(auto, unfolding(crate::specs::Cycle::written))]
fn after_write<C: Chip>(registers: Registers, byte: u8) -> Registers
    ensures { result ≡ written C.sheet.width registers byte }
{
    let column = advance::<C>(registers.column);
    registers.with_column(column).with_holder(byte)
}

// After a data read that loaded the byte: the column has advanced unless modify-read is on.
fn after_read<C: Chip>(registers: Registers, byte: u8) -> Registers
    ensures { result ≡ after_read C.sheet.width registers registers.modify_read byte }
{
    match registers.modify_read {
        ModifyRead::Off => after_write::<C>(registers, byte),
        ModifyRead::On(_) => registers.with_holder(byte),
    }
}

// After pin low: every register at its start value, the holder and the command set as they were.
fn after_low(chip: Sheet, registers: Registers) -> Registers
    ensures { result ≡ after_low chip registers }
{
    started(chip, registers.holder, true).with_set(registers.beside.set)
}

// An instruction byte of the old command set.
fn instruct(chip: Sheet, registers: Registers, byte: u8) -> Result<Answer, Refusal>
    ensures { outcome result ≡ instructed chip registers (read_of chip registers.awaited byte) }
{
    let instruction = read_for(chip, registers.awaited, byte)?;
    let fresh = !ends_reading(instruction) & registers.fresh;
    Ok(Answer::Done(execute(chip, registers, instruction).with_fresh(fresh)))
}

// An instruction byte of the new one.
fn instruct_added(registers: Registers, byte: u8) -> Result<Answer, Refusal>
    ensures { outcome result ≡ instructed_added registers (read_added registers.awaited byte) }
{
    let added = read_added(registers.awaited, byte)?;
    Ok(Answer::Done(execute_added(registers, added)))
}

// An instruction byte, of the set that is in force.
fn instruct_in(chip: Sheet, registers: Registers, byte: u8) -> Result<Answer, Refusal>
    ensures { outcome result ≡ instructed_in chip registers byte registers.beside.set }
{
    match registers.beside.set {
        CommandSet::Old => instruct(chip, registers, byte),
        CommandSet::New => instruct_added(registers, byte),
    }
}

// Whether a kind and a value make no cycle. Both are any numbers here, since a job's bytes and C's may be no kind.
pub fn not_a_cycle(kind: u8, value: u8) -> bool
    ensures { result ≡ malformed kind value }
{
    (5 < kind) | ((1 < kind) & (0 < value))
}

// Whether a cycle of a kind is refused while the pin is low.
fn needs_pin_high(kind: Kind) -> bool
    ensures { result ≡ (ltb (kind_number kind) 2 || eqb (kind_number kind) 3) }
{
    match kind {
        Kind::Instruction | Kind::DataWrite | Kind::DataRead => true,
        Kind::StatusRead | Kind::PinLow | Kind::PinHigh => false,
    }
}

// The kind of a cycle that is not refused before its instruction is looked at.
#[tactic(auto, using(paper::proofs::Tests::tests), unfolding(crate::specs::Cycle::refusal))]
fn check<C: Chip>(len: usize, registers: Registers, kind: u8, value: u8) -> Result<Kind, Refusal>
    ensures { MatchResult result (λ k. (refusal C.sheet len registers kind value ≡ 0) × (kind_number k ≡ kind))
        (λ e. refusal C.sheet len registers kind value ≡ number_of e) }
{
    if len != 9 * C::sheet().width {
        return Err(Refusal::WrongSize);
    }
    if outside_range(C::sheet(), registers) {
        return Err(Refusal::OutOfRange);
    }
    if not_a_cycle(kind, value) {
        return Err(Refusal::WrongCycle);
    }
    let known = Kind::try_from(kind)?;
    if registers.pin_low & needs_pin_high(known) {
        return Err(Refusal::PinLow);
    }
    Ok(known)
}

// A cycle that is not refused so.
#[tactic(auto, unfolding(crate::specs::Cycle::carried, crate::specs::Cycle::kept))]
fn carry_out<C: Chip>(
    registers: Registers,
    memory: &mut [u8],
    kind: Kind,
    value: u8,
) -> Result<Answer, Refusal>
    requires { length memory.old ≡ 9 * C.sheet.width }
    ensures { (outcome result ≡ carried C.sheet registers memory.old (kind_number kind) value) × (memory.new ≡ kept C.sheet.width registers memory.old (kind_number kind) value) }
{
    let chip = C::sheet();
    match kind {
        Kind::Instruction => instruct_in(chip, registers, value),
        Kind::DataWrite => {
            store::<C>(memory, registers.page, registers.column, value);
            Ok(Answer::Done(after_write::<C>(registers, value).with_fresh(false)))
        }
        Kind::StatusRead => Ok(Answer::Status(status_of(registers))),
        Kind::DataRead => {
            let byte = load::<C>(memory, registers.page, registers.column);
            let next = after_read::<C>(registers, byte).with_fresh(true);
            Ok(Answer::Read(next, registers.holder, registers.fresh))
        }
        Kind::PinLow => Ok(Answer::Done(after_low(chip, registers))),
        Kind::PinHigh => Ok(Answer::Done(registers.with_pin_low(false))),
    }
}

// Plays one bus cycle on a chip. Answers the registers after it, and for a read the byte; for a data read also whether it is
// fresh, which the dummy after an address set is not. Refuses with 1, 2, 9, 3 or 4, tested in this order. A refusal leaves the memory
// as it was.
#[tactic(auto, using(crate::proofs::Ranges::long), unfolding(crate::specs::Cycle::answer, crate::specs::Cycle::memory_after))]
pub fn cycle<C: Chip>(
    registers: Registers,
    memory: &mut [u8],
    kind: u8,
    value: u8,
) -> Result<Answer, Refusal>
    ensures { Cycled C.sheet registers memory.old kind value result memory.new }
{
    let known = check::<C>(memory.len(), registers, kind, value)?;
    carry_out::<C>(registers, memory, known, value)
}
