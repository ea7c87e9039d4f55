//! Statements of functions, one on each line of a body.

ghost use Rattle.std.specs.Prelude.{◌<◌};

/// How many registers a function has at most, `ok` among them.
pub const REGISTERS: usize = 17;

/// A register of a function by its number: 0 is `ok`, 1 the parameter, and then in the order in which the text first names them.
#[derive(Clone, Copy, Debug)]
pub struct Register {
    /// Its number.
    pub index: u8,
    ghost in_range: { index < 17 },
}

/// A number, or what a register holds.
#[derive(Clone, Copy, Debug)]
pub enum Operand {
    /// This number.
    Number(u64),
    /// What the register holds.
    Held(Register),
}

/// What is assigned to a register. Sums, differences and products are modulo 2^64; `Less` is 1 or 0.
#[derive(Clone, Copy, Debug)]
pub enum Expression {
    /// An operand alone.
    Plain(Operand),
    /// `o + o`.
    Sum(Operand, Operand),
    /// `o - o`.
    Difference(Operand, Operand),
    /// `o * o`.
    Product(Operand, Operand),
    /// `o < o`.
    Less(Operand, Operand),
}

/// Which cell an access means.
#[derive(Clone, Copy, Debug)]
pub enum Location {
    /// The cell with this number, of a memory of one cell.
    Cell(u32),
    /// A cell of the array whose cells are numbered from `first` on. The index is taken modulo the length.
    Element {
        /// The number of the array's first cell.
        first: u32,
        /// How many cells the array has.
        length: u32,
        /// The index.
        index: Operand,
    },
}

/// A line of a body. The places in `If` and `Else` are numbers of lines with words in the body, from 0 on: the place that is gone on at
/// where the part behind them is left out.
#[derive(Clone, Copy, Debug)]
pub enum Statement {
    /// The register takes the value of the expression.
    Let {
        /// The line in the text.
        line: u32,
        /// The register.
        register: Register,
        /// What it takes.
        value: Expression,
    },
    /// `read r L`.
    Read {
        /// The line in the text.
        line: u32,
        /// The register that takes the value.
        register: Register,
        /// What is read.
        location: Location,
    },
    /// `write L o`.
    Write {
        /// The line in the text.
        line: u32,
        /// What is written.
        location: Location,
        /// The value.
        value: Operand,
    },
    /// `bump L o`. Version 2 alone has it.
    Bump {
        /// The line in the text.
        line: u32,
        /// What is added to.
        location: Location,
        /// The value.
        value: Operand,
    },
    /// `update h o`.
    Update {
        /// The line in the text.
        line: u32,
        /// The reducer's number.
        reducer: u32,
        /// The value.
        value: Operand,
    },
    /// `put h o`.
    Put {
        /// The line in the text.
        line: u32,
        /// The reducer's number.
        reducer: u32,
        /// The value.
        value: Operand,
    },
    /// `get r h`.
    Get {
        /// The line in the text.
        line: u32,
        /// The register that takes the value.
        register: Register,
        /// The reducer's number.
        reducer: u32,
    },
    /// `spawn f o`.
    Spawn {
        /// The line in the text.
        line: u32,
        /// The function's number.
        function: u32,
        /// What its parameter takes.
        argument: Operand,
    },
    /// `call f o`.
    Call {
        /// The line in the text.
        line: u32,
        /// The function's number.
        function: u32,
        /// What its parameter takes.
        argument: Operand,
    },
    /// `sync`.
    Sync {
        /// The line in the text.
        line: u32,
    },
    /// `pfor r o f`: a spawn of the function with each number below the operand, and then a sync. Version 2 alone has it.
    ParallelFor {
        /// The line in the text.
        line: u32,
        /// The register that takes each number.
        register: Register,
        /// How many.
        count: Operand,
        /// The function's number.
        function: u32,
    },
    /// The begin of a part that is left out where the register is 0.
    If {
        /// The line in the text.
        line: u32,
        /// The register that decides.
        register: Register,
        /// Where the second part begins, or what follows where there is none.
        otherwise: u32,
    },
    /// `else`.
    Else {
        /// The line in the text.
        line: u32,
        /// Where what follows the second part begins.
        after: u32,
    },
    /// The `end` of such a part.
    End {
        /// The line in the text.
        line: u32,
    },
}
