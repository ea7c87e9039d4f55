//! What is wrong with a line, as closely as it is known. The type of each mistake tells its cause.

ghost use Rattle.std.specs.Prelude.{◌≡◌};
ghost use Rattle.source_quotes.specs.Mistakes.{byte_title, header_title, limit_title, nesting_title, number_title, unknown_title, word_title, title};

/// A byte that no line may hold.
#[derive(Clone, Copy)]
pub enum ByteMistake {
    /// Another byte outside of ASCII.
    Other,
    /// A byte-order mark.
    OrderMark,
    /// A text in UTF-16.
    Wide,
    /// A control character other than a tab.
    Control,
    /// A carriage return that ends no line.
    Return,
}

/// A first line that is no header.
#[derive(Clone, Copy)]
pub enum HeaderMistake {
    /// Another line stands first.
    Other,
    /// There is no line.
    Empty,
    /// A comment stands first.
    Comment,
    /// A blank line stands first.
    Blank,
    /// No version, or another one than 1 and 2.
    Version,
    /// More words than two.
    Long,
    /// The text is a source of C or C++.
    Source,
}

/// A word of another shape than its place wants, or a wrong number of words.
#[derive(Clone, Copy)]
pub enum WordMistake {
    /// Another shape.
    Other,
    /// A first word that no line of a program has.
    Statement,
    /// A first word that no line of a trace has.
    Request,
    /// A request in a program.
    OfTrace,
    /// A statement in a trace.
    OfProgram,
    /// A word of version 2 in version 1.
    Later,
    /// A comment as C has it.
    Slashes,
    /// A line that ends as in C.
    Semicolon,
    /// Parentheses as in C.
    Parentheses,
    /// Too few words.
    Missing,
    /// Too many words.
    Extra,
    /// Too many arguments, or parameters.
    Argument,
    /// Several operators.
    Chain,
    /// A name with upper-case letters.
    UpperCase,
    /// Another word that is no name.
    Name,
    /// A name that is too long.
    LongName,
    /// `ok` where a register is assigned.
    Ok,
    /// A number with a sign.
    Negative,
    /// A word that is no operand.
    Operand,
    /// A cell as an operand.
    Element,
    /// A number in place of a register.
    NoRegister,
    /// A number in place of a name.
    NoName,
    /// Another word in place of a number.
    NoNumber,
    /// A word that is no monoid.
    NoMonoid,
    /// A word that is no operator.
    Operator,
    /// A `let` without its `=`.
    Equals,
    /// Words without spaces between them.
    Spaces,
    /// A word that is no cell.
    Cell,
    /// An array that is declared as in C.
    Array,
}

/// A number that is none, or is out of range.
#[derive(Clone, Copy)]
pub enum NumberMistake {
    /// Another place.
    Other,
    /// Other characters behind a digit.
    Digits,
    /// A number out of its range.
    Range,
    /// An index that is not below the length of its array.
    Index,
    /// A mark without such a number.
    Mark,
}

/// A name that is not declared as what its place wants.
#[derive(Clone, Copy)]
pub enum UnknownMistake {
    /// A name of another kind.
    Other,
    /// No register.
    Register,
    /// No cell.
    Cell,
    /// No reducer.
    Reducer,
    /// No function.
    Function,
    /// A cell as an operand.
    CellRead,
    /// A reducer as an operand.
    ReducerRead,
    /// An array without an index.
    NoIndex,
    /// A single cell with an index.
    NoArray,
    /// A reducer in place of a cell.
    ReducerForCell,
    /// A cell in place of a reducer.
    CellForReducer,
    /// A register in place of a cell.
    RegisterForCell,
}

/// A line where none of its kind may stand.
#[derive(Clone, Copy)]
pub enum NestingMistake {
    /// Another line.
    Other,
    /// A declaration behind a function.
    Declaration,
    /// A declaration behind a request.
    TraceDeclaration,
    /// A function in a function.
    Function,
    /// A statement outside of the functions.
    Statement,
    /// An `else` without an `if`.
    Else,
    /// An `if` with two `else`.
    SecondElse,
    /// An `end` of nothing.
    End,
    /// A function without its end.
    OpenFunction,
    /// An `if` without its end.
    OpenIf,
}

/// A limit that is passed.
#[derive(Clone, Copy)]
pub enum LimitMistake {
    /// Another limit.
    Other,
    /// Lines.
    Lines,
    /// Requests.
    Requests,
    /// Cells.
    Cells,
    /// Reducers.
    Reducers,
    /// Functions.
    Functions,
    /// Statements.
    Statements,
    /// Registers.
    Registers,
    /// Nested `if`.
    Depth,
}

/// What is wrong with a line.
#[derive(Clone, Copy)]
pub enum Mistake {
    /// A byte that no line may hold.
    Byte(ByteMistake),
    /// A first line that is no header.
    Header(HeaderMistake),
    /// A word of another shape than its place wants, or a wrong number of words.
    Word(WordMistake),
    /// A number that is none, or is out of range.
    Number(NumberMistake),
    /// A name that is not declared as what its place wants.
    Unknown(UnknownMistake),
    /// A line where none of its kind may stand.
    Nesting(NestingMistake),
    /// A limit that is passed.
    Limit(LimitMistake),
    /// A name that is declared already.
    Twice,
    /// No function with which a program begins.
    NoMain,
}

impl ByteMistake {
    /// What is wrong.
    fn title(self) -> &'static str
        ensures { result.now ≡ byte_title self }
    {
        match self {
            ByteMistake::Other =>
                "a line has printable ASCII characters and tabs alone, in comments too",
            ByteMistake::OrderMark => "a byte-order mark stands before the header",
            ByteMistake::Wide => "the text is encoded as UTF-16",
            ByteMistake::Control => "a control character stands on this line",
            ByteMistake::Return => "a carriage return stands within this line",
        }
    }

    /// What to do about it: nothing where the title says so.
    fn help(self) -> &'static str {
        match self {
            ByteMistake::Other => "write it in ASCII, or leave it out",
            ByteMistake::OrderMark => "save the file without a byte-order mark",
            ByteMistake::Wide => "save the file as ASCII",
            ByteMistake::Control => "remove it, or put a space in its place",
            ByteMistake::Return =>
                "end each line with a line feed, or with a carriage return and a line feed",
        }
    }
}

impl HeaderMistake {
    /// What is wrong.
    fn title(self) -> &'static str
        ensures { result.now ≡ header_title self }
    {
        match self {
            HeaderMistake::Other =>
                "the first line has to be `cilk 1`, or `cilk 2` for `bump`, `pfor` and `digits`",
            HeaderMistake::Empty => "the text is empty",
            HeaderMistake::Comment => "a comment stands before the header",
            HeaderMistake::Blank => "a blank line stands before the header",
            HeaderMistake::Version => "the version of a text is 1 or 2",
            HeaderMistake::Long => "the header has two words alone",
            HeaderMistake::Source =>
                "this text is C or C++, and no program or trace of `cilkcheck`",
        }
    }

    /// What to do about it: nothing where the title says so.
    fn help(self) -> &'static str {
        match self {
            HeaderMistake::Empty => "begin with the line `cilk 1`",
            HeaderMistake::Comment => "put the comment below the line `cilk 1`",
            HeaderMistake::Blank => "begin with the line `cilk 1`, and leave out the blank one",
            HeaderMistake::Version => "write `cilk 1`, or `cilk 2` for `bump`, `pfor` and `digits`",
            HeaderMistake::Long => "put what follows on the next line",
            HeaderMistake::Source =>
                "compile it with `cilkcheck-cc` or `cilkcheck-c++`, run that program, and explain the trace that it writes",
            _ => "",
        }
    }
}

impl WordMistake {
    /// What is wrong.
    fn title(self) -> &'static str
        ensures { result.now ≡ word_title self }
    {
        match self {
            WordMistake::Other =>
                "a word is missing, is too much, or is none that may stand in its place",
            WordMistake::Statement => "no line of a program begins with this word",
            WordMistake::Request => "no line of a trace begins with this word",
            WordMistake::OfTrace => "a request of a trace stands in a program",
            WordMistake::OfProgram => "a statement of a program stands in a trace",
            WordMistake::Later => "this word belongs to version 2",
            WordMistake::Slashes => "a comment begins with `#`",
            WordMistake::Semicolon => "a line ends without a `;`",
            WordMistake::Parentheses => "a line has no parentheses",
            WordMistake::Missing => "a word is missing",
            WordMistake::Extra => "a word is too much",
            WordMistake::Argument => "a function has one parameter",
            WordMistake::Chain => "a `let` has one operator at most",
            WordMistake::UpperCase => "a name has lower-case letters, digits and `_` alone",
            WordMistake::Name => "this is no name",
            WordMistake::LongName => "a name has at most 32 bytes",
            WordMistake::Ok => "`ok` cannot be assigned",
            WordMistake::Negative => "there are no negative numbers",
            WordMistake::Operand => "an operand is a number or a register",
            WordMistake::Element => "a cell cannot be an operand",
            WordMistake::NoRegister => "a number stands where a register is wanted",
            WordMistake::NoName => "a number stands where a name is wanted",
            WordMistake::NoNumber => "a number is wanted here",
            WordMistake::NoMonoid => "this is no monoid",
            WordMistake::Operator => "this is no operator",
            WordMistake::Equals => "an `=` is wanted here",
            WordMistake::Spaces => "words are separated by spaces",
            WordMistake::Cell => "this is no cell",
            WordMistake::Array => "an array is declared by its name and its length",
        }
    }

    /// What to do about it: nothing where the title says so.
    fn help(self) -> &'static str {
        match self {
            WordMistake::Later => "write `cilk 2` as the first line",
            WordMistake::Slashes => "write `#` before a comment",
            WordMistake::Semicolon => "leave out the `;`",
            WordMistake::Argument => "hand on other values in cells, which the function reads",
            WordMistake::Name =>
                "begin with a lower-case letter, and go on with such letters, digits and `_`",
            WordMistake::Ok => "name another register",
            WordMistake::Spaces => "put a space on each side of `=` and of each operator",
            WordMistake::Cell => "name a cell as `NAME`, or as `NAME[INDEX]` without spaces",
            _ => "",
        }
    }
}

impl NumberMistake {
    /// What is wrong.
    fn title(self) -> &'static str
        ensures { result.now ≡ number_title self }
    {
        match self {
            NumberMistake::Other => "a number is out of the range of its place, or is none",
            NumberMistake::Digits => "a number has decimal digits alone",
            NumberMistake::Range => "a number is out of its range",
            NumberMistake::Index => "an index is past the end of its array",
            NumberMistake::Mark => "a mark is `@` and the number of a line",
        }
    }

    /// What to do about it: nothing where the title says so.
    fn help(self) -> &'static str {
        match self {
            NumberMistake::Digits => "write decimal digits alone, and spaces around each sign",
            _ => "",
        }
    }
}

impl UnknownMistake {
    /// What is wrong.
    fn title(self) -> &'static str
        ensures { result.now ≡ unknown_title self }
    {
        match self {
            UnknownMistake::Other => "a name is not declared as what its place wants",
            UnknownMistake::Register => "no line above assigns this register",
            UnknownMistake::Cell => "no cell has this name",
            UnknownMistake::Reducer => "no reducer has this name",
            UnknownMistake::Function => "no function has this name",
            UnknownMistake::CellRead => "a cell cannot be an operand",
            UnknownMistake::ReducerRead => "a reducer cannot be an operand",
            UnknownMistake::NoIndex => "an array needs an index",
            UnknownMistake::NoArray => "a single cell has no index",
            UnknownMistake::ReducerForCell => "a reducer stands where a cell is wanted",
            UnknownMistake::CellForReducer => "a cell stands where a reducer is wanted",
            UnknownMistake::RegisterForCell => "a register stands where a cell is wanted",
        }
    }

    /// What to do about it: nothing where the title says so.
    fn help(self) -> &'static str {
        match self {
            UnknownMistake::Other => "declare it, or name another one",
            UnknownMistake::ReducerForCell => "a reducer is used by `update`, `put` and `get`",
            UnknownMistake::CellForReducer => "a cell is used by `read`, `write` and `bump`",
            _ => "",
        }
    }
}

impl NestingMistake {
    /// What is wrong.
    fn title(self) -> &'static str
        ensures { result.now ≡ nesting_title self }
    {
        match self {
            NestingMistake::Other =>
                "this may not stand here, or a function or an `if` above has no `end`",
            NestingMistake::Declaration => "declarations stand before the first function",
            NestingMistake::TraceDeclaration => "declarations stand before the first request",
            NestingMistake::Function => "a function begins within another one",
            NestingMistake::Statement => "a statement stands outside of every function",
            NestingMistake::Else => "an `else` stands without its `if`",
            NestingMistake::SecondElse => "an `if` has one `else` at most",
            NestingMistake::End => "this `end` ends nothing",
            NestingMistake::OpenFunction => "a function has no `end`",
            NestingMistake::OpenIf => "an `if` has no `end`",
        }
    }

    /// What to do about it: nothing where the title says so.
    fn help(self) -> &'static str {
        match self {
            NestingMistake::Other => "end each function and each `if` by an `end` of its own",
            NestingMistake::Declaration => "move this line above that one",
            NestingMistake::TraceDeclaration => "move this line above that one",
            NestingMistake::Function => "put an `end` before this line, one for each open `if` too",
            NestingMistake::Statement => "put it between a `func` and its `end`",
            NestingMistake::Else => "put it between an `if` and its `end`",
            NestingMistake::SecondElse => "put an `end` before it, or leave it out",
            NestingMistake::End => "leave it out, or look for an `end` too many above",
            NestingMistake::OpenFunction => "add a line `end`",
            NestingMistake::OpenIf => "add a line `end`",
        }
    }
}

impl LimitMistake {
    /// What is wrong.
    fn title(self) -> &'static str
        ensures { result.now ≡ limit_title self }
    {
        match self {
            LimitMistake::Other => "a limit is passed here",
            LimitMistake::Lines => "a text has at most 4000000 lines",
            LimitMistake::Requests => "a trace has at most 2000000 requests",
            LimitMistake::Cells => "all memories have at most 1000000 cells together",
            LimitMistake::Reducers => "there are at most 256 reducers",
            LimitMistake::Functions => "a program has at most 1000 functions",
            LimitMistake::Statements => "a program has at most 100000 statements",
            LimitMistake::Registers => "a function has at most 16 registers",
            LimitMistake::Depth => "at most 64 `if` stand within one another",
        }
    }

    /// What to do about it: nothing where the title says so.
    fn help(self) -> &'static str {
        match self {
            LimitMistake::Other => "make the text smaller",
            LimitMistake::Lines => "leave out comments and blank lines, or split the text",
            LimitMistake::Requests =>
                "record fewer accesses, or judge the parts of the trace one by one",
            LimitMistake::Cells => "declare smaller arrays, or fewer",
            LimitMistake::Reducers => "let several values share a reducer",
            LimitMistake::Functions => "join functions, with an `if` on their parameter",
            LimitMistake::Statements => "put what is repeated into a function of its own",
            LimitMistake::Registers =>
                "assign again a register whose value is not used below, or put a part into a function of its own",
            LimitMistake::Depth => "put the inner part into a function of its own",
        }
    }
}

impl Mistake {
    /// What a message about the mistake begins with.
    pub(crate) fn title(self) -> &'static str
        ensures { result.now ≡ title self }
    {
        match self {
            Mistake::Byte(mistake) => mistake.title(),
            Mistake::Header(mistake) => mistake.title(),
            Mistake::Word(mistake) => mistake.title(),
            Mistake::Number(mistake) => mistake.title(),
            Mistake::Unknown(mistake) => mistake.title(),
            Mistake::Nesting(mistake) => mistake.title(),
            Mistake::Limit(mistake) => mistake.title(),
            Mistake::Twice => {
                "a name is declared already; memories, reducers and functions share one space of names"
            }
            Mistake::NoMain => "there is no function `main`",
        }
    }

    /// What to do about it: nothing where the title says so, or where that takes words of the text.
    pub(crate) fn help(self) -> &'static str {
        match self {
            Mistake::Byte(mistake) => mistake.help(),
            Mistake::Header(mistake) => mistake.help(),
            Mistake::Word(mistake) => mistake.help(),
            Mistake::Number(mistake) => mistake.help(),
            Mistake::Unknown(mistake) => mistake.help(),
            Mistake::Nesting(mistake) => mistake.help(),
            Mistake::Limit(mistake) => mistake.help(),
            Mistake::Twice => "take another name for one of them",
            Mistake::NoMain => "",
        }
    }
}
