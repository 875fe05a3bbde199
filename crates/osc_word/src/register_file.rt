//! The integer registers of a hart.

ghost use Rattle.std.specs.Prelude.{◌≡◌, ◌<◌, replicate};
ghost use Rattle.osc_word.specs.Registers.{register, with_register};

use std::marker::Model;

/// The registers x0 to x31. x0 is always 0.
#[derive(Clone, Copy, Debug, PartialEq, Eq)]
pub struct Regs {
    values: [u64; 32],
}

impl Model for Regs {
    ghost use Rattle.std.specs.Prelude.{ℕ, List, ◌≡◌, slice_index};

    ghost Value = { List ℕ };

    ghost view = { λ regs. regs.values };

    ghost invariant = { λ regs. slice_index regs.values 0 ≡ 0 };

    ghost inverse = { λ values. record { values = values } };
}

impl Regs {
    /// All registers are 0.
    pub fn new() -> Regs
        ensures { result ≡ replicate 32 0 }
    {
        Regs { values: [0; 32] }
    }

    /// What register `r` holds.
    pub fn get(&self, r: u8) -> u64
        requires { r < 32 }
        ensures { result ≡ register self.now r }
    {
        self.values[r as usize]
    }

    /// Register `r` holds the value from now on, unless it is x0, which stays 0.
    pub fn set(&mut self, r: u8, value: u64)
        requires { r < 32 }
        ensures { self.new ≡ with_register self.old r value }
    {
        if r != 0 {
            self.values[r as usize] = value;
        }
    }
}
