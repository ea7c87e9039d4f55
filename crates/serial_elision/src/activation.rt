//! Functions that have begun.

ghost use Rattle.std.specs.Prelude.{◌≡◌, ◌+◌, ◌^◌, ◌<◌};
ghost use Rattle.model_programs.specs.Values.{with_ok};
ghost use Rattle.model_programs.specs.Evaluation.{with_register};
ghost use Rattle.serial_elision.specs.States.{begun, counted, moved, turning};

use model_bodies::{REGISTERS, Register};

/// The turns of a `pfor` that are left.
#[derive(Clone, Copy)]
pub struct Turns {
    /// Its line.
    pub line: u32,
    /// The register that takes each number.
    pub register: Register,
    /// The function that is spawned with each number.
    pub function: u32,
    /// The next number.
    pub number: u64,
    /// How many numbers are left.
    pub left: u64,
}

/// A function that has begun, and how far it has come.
#[derive(Clone, Copy)]
pub struct ElidedCall {
    /// Its number.
    pub function: u32,
    /// The place in its body at which it goes on, behind the turns.
    pub place: u32,
    /// What its registers hold.
    pub registers: [u64; REGISTERS],
    /// The turns that come first.
    pub turns: Option<Turns>,
}

impl ElidedCall {
    /// A function at its first statement.
    pub fn begin(function: u32, argument: u64) -> ElidedCall
        ensures { result ≡ begun function argument }
    {
        let mut registers = [0; REGISTERS];
        registers[0] = 1;
        registers[1] = argument;
        ElidedCall {
            function,
            place: 0,
            registers,
            turns: None,
        }
    }
    /// Goes on at another place.
    pub fn go(&mut self, place: u32)
        ensures { self.new ≡ moved self.old place self.old.registers }
    {
        self.place = place;
    }

    /// Goes on with the next statement.
    pub fn skip(&mut self)
        requires { self.old.place + 1 < 2 ^ 32 }
        ensures { self.new ≡ moved self.old (self.old.place + 1) self.old.registers }
    {
        self.place += 1;
    }

    /// Goes on behind a statement that was granted.
    pub fn pass(&mut self)
        requires { self.old.place + 1 < 2 ^ 32 }
        ensures { self.new ≡ moved self.old (self.old.place + 1) (with_ok 1 self.old.registers) }
    {
        self.registers[0] = 1;
        self.place += 1;
    }

    /// Takes a value into a register, and goes on.
    pub fn assign(&mut self, register: Register, value: u64)
        requires { self.old.place + 1 < 2 ^ 32 }
        ensures { self.new ≡ moved self.old (self.old.place + 1) (with_register self.old.registers register value) }
    {
        self.registers[usize::from(register.index)] = value;
        self.place += 1;
    }

    /// Takes a value that was granted into a register, and goes on.
    pub fn receive(&mut self, register: Register, value: u64)
        requires { self.old.place + 1 < 2 ^ 32 }
        ensures { self.new ≡ moved self.old (self.old.place + 1) (with_register (with_ok 1 self.old.registers) register value) }
    {
        self.registers[0] = 1;
        self.registers[usize::from(register.index)] = value;
        self.place += 1;
    }

    /// Has these turns come first.
    pub fn turn(&mut self, turns: Option<Turns>)
        ensures { self.new ≡ turning self.old turns }
    {
        self.turns = turns;
    }
    /// Takes a turn's number into its register, and has the next turn come first.
    pub fn count(&mut self, turns: Turns)
        requires some { 0 < turns.left }
        requires fits { turns.number + 1 < 2 ^ 64 }
        ensures { self.new ≡ counted turns self.old }
    {
        self.registers[usize::from(turns.register.index)] = turns.number;
        self.turns = Some(Turns {
            number: turns.number + 1,
            left: turns.left - 1,
            ..turns
        });
    }
}
