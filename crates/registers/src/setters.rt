// The registers with one of them set anew, a function for each.
ghost use Rattle.std.specs.Prelude.{◌≡◌};
ghost use Rattle.registers.specs.Registers.{with_page, with_column, with_start_line, with_contrast, with_resistor, with_power, with_bias, with_adc, with_shl, with_reverse, with_entire, with_on, with_indicator, with_indicator_value, with_holder, with_pin_low, with_modify_read, with_awaited, with_fresh, with_beside, with_set, with_com0, with_duty, with_inversion};

use crate::{Beside, Column, ModifyRead, Registers};
use instructions::added::CommandSet;
use instructions::instruction::Awaited;

impl Registers {
    pub fn with_page(self, page: u8) -> Registers
        ensures { result ≡ with_page self page }
    {
        Registers { page, ..self }
    }

    pub fn with_column(self, column: Column) -> Registers
        ensures { result ≡ with_column self column }
    {
        Registers { column, ..self }
    }

    pub fn with_start_line(self, start_line: u8) -> Registers
        ensures { result ≡ with_start_line self start_line }
    {
        Registers { start_line, ..self }
    }

    pub fn with_contrast(self, contrast: u8) -> Registers
        ensures { result ≡ with_contrast self contrast }
    {
        Registers { contrast, ..self }
    }

    pub fn with_resistor(self, resistor: u8) -> Registers
        ensures { result ≡ with_resistor self resistor }
    {
        Registers { resistor, ..self }
    }

    pub fn with_power(self, power: u8) -> Registers
        ensures { result ≡ with_power self power }
    {
        Registers { power, ..self }
    }

    pub fn with_bias(self, bias: bool) -> Registers
        ensures { result ≡ with_bias self bias }
    {
        Registers { bias, ..self }
    }

    pub fn with_adc(self, adc: bool) -> Registers
        ensures { result ≡ with_adc self adc }
    {
        Registers { adc, ..self }
    }

    pub fn with_shl(self, shl: bool) -> Registers
        ensures { result ≡ with_shl self shl }
    {
        Registers { shl, ..self }
    }

    pub fn with_reverse(self, reverse: bool) -> Registers
        ensures { result ≡ with_reverse self reverse }
    {
        Registers { reverse, ..self }
    }

    pub fn with_entire(self, entire: bool) -> Registers
        ensures { result ≡ with_entire self entire }
    {
        Registers { entire, ..self }
    }

    pub fn with_on(self, on: bool) -> Registers
        ensures { result ≡ with_on self on }
    {
        Registers { on, ..self }
    }

    pub fn with_indicator(self, indicator: bool) -> Registers
        ensures { result ≡ with_indicator self indicator }
    {
        Registers { indicator, ..self }
    }

    pub fn with_indicator_value(self, indicator_value: u8) -> Registers
        ensures { result ≡ with_indicator_value self indicator_value }
    {
        Registers {
            indicator_value,
            ..self
        }
    }

    pub fn with_holder(self, holder: u8) -> Registers
        ensures { result ≡ with_holder self holder }
    {
        Registers { holder, ..self }
    }

    pub fn with_pin_low(self, pin_low: bool) -> Registers
        ensures { result ≡ with_pin_low self pin_low }
    {
        Registers { pin_low, ..self }
    }

    pub fn with_awaited(self, awaited: Awaited) -> Registers
        ensures { result ≡ with_awaited self awaited }
    {
        Registers { awaited, ..self }
    }

    pub fn with_modify_read(self, modify_read: ModifyRead) -> Registers
        ensures { result ≡ with_modify_read self modify_read }
    {
        Registers {
            modify_read,
            ..self
        }
    }

    pub fn with_fresh(self, fresh: bool) -> Registers
        ensures { result ≡ with_fresh self fresh }
    {
        Registers { fresh, ..self }
    }

    pub fn with_beside(self, beside: Beside) -> Registers
        ensures { result ≡ with_beside self beside }
    {
        Registers { beside, ..self }
    }

    pub fn with_set(self, set: CommandSet) -> Registers
        ensures { result ≡ with_set self set }
    {
        let now = self.beside;
        self.with_beside(Beside { set, ..now })
    }

    pub fn with_com0(self, com0: u8) -> Registers
        ensures { result ≡ with_com0 self com0 }
    {
        let now = self.beside;
        self.with_beside(Beside { com0, ..now })
    }

    pub fn with_duty(self, duty: u8) -> Registers
        ensures { result ≡ with_duty self duty }
    {
        let now = self.beside;
        self.with_beside(Beside { duty, ..now })
    }

    pub fn with_inversion(self, inversion: u8) -> Registers
        ensures { result ≡ with_inversion self inversion }
    {
        let now = self.beside;
        self.with_beside(Beside { inversion, ..now })
    }
}
