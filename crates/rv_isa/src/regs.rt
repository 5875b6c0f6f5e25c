ghost use Rattle.std.specs.Prelude.{◌≡◌, ◌<◌, replicate};
ghost use Rattle.rv_isa.specs.Registers.{register, with_register};

use std::marker::Model;

/// The 32 registers, x0 to x31. Contracts see the list of their words.
#[derive(Clone, Copy, Debug)]
pub struct Regs {
    x: [u32; 32],
}

impl Model for Regs {
    ghost use Rattle.std.specs.Prelude.{ℕ, List};

    ghost Value = { List ℕ };

    ghost view = { λ r. r.x };

    ghost inverse = { λ x. record { x = x } };
}

impl Regs {
    /// Registers that are all zero.
    pub fn new() -> Regs
        ensures { result ≡ replicate 32 0 }
    {
        Regs { x: [0; 32] }
    }

    /// The word in a register, whose number is below 32.
    pub fn get(&self, n: u8) -> u32
        requires { n < 32 }
        ensures { result ≡ register self.now n }
    {
        self.x[n as usize]
    }

    /// Puts a word into a register, whose number is below 32. What is written to x0 is lost.
    pub fn set(&mut self, n: u8, value: u32)
        requires { n < 32 }
        ensures { self.new ≡ with_register self.old n value }
    {
        if n != 0 {
            self.x[n as usize] = value;
        }
    }
}
