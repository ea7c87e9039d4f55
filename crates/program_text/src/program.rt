//! A program.

ghost use Rattle.std.specs.Prelude.{◌≡◌, ◌<◌, ◌≤◌, ℕ, List, length, IfOk, IsTrue, MatchResult, map};
ghost use Rattle.trace_text.specs.Shapes.{is_numbered};
ghost use Rattle.model_accesses.specs.Limits.{most_cells};
ghost use Rattle.model_reducers.specs.Limits.{most_reducers};
ghost use Rattle.text_words.specs.Declarations.{cells_of};
ghost use Rattle.program_text.specs.Grammar.{TextMeans};
ghost use Rattle.program_text.specs.Faults.{IsTextFault};
ghost use Rattle.model_bodies.specs.Sound.{IsSound, IsMain, max_functions};

use crate::function::Functions;
use crate::text::whole;
use std::alloc::{AllocError, Allocator};
use text_words::{Mems, Reducers, Shape, TextFault, Version};
use trace_text::shape_of;

/// The meaning of a text, made by [`Program::parse`] alone. Some text means it, its cells are numbered without a gap, and it is sound: its
/// statements name cells, reducers and functions that there are, their numbers are of 64 bits, each `if` has its `end` and one `else` at
/// most, and each `if` and `else` knows where its part ends.
pub struct Program<A: Allocator> {
    /// The version that the first line names.
    pub version: Version,
    /// The declared memories.
    pub mems: Mems<A>,
    /// The declared reducers.
    pub reducers: Reducers<A>,
    /// The functions.
    pub functions: Functions<A>,
    /// The number of the function `main`.
    main: u32,
    ghost meant: { ∥ ((text : List ℕ)
        × TextMeans text (record { known = record { version = version; mems = mems; reducers = reducers }; functions = functions })) ∥₁ },
    ghost numbered: { IsTrue (is_numbered 0 mems) },
    ghost few_cells: { cells_of mems ≤ most_cells },
    ghost few_reducers: { length reducers ≤ most_reducers },
    ghost few_functions: { length functions ≤ max_functions },
    ghost sound: { IsSound (cells_of mems) (length reducers) functions },
    ghost main_is: { IsMain functions main },
}

/// Written out, so that what lets a program go calls one function.
impl<A: Allocator> Drop for Program<A> {
    fn drop(self) {
        let Program {
            version: _,
            mems: _,
            reducers: _,
            functions: _,
            main: _,
        } = self;
    }
}

impl<A: Allocator + Copy> Program<A> {
    ghost use Rattle.program_text.specs.Programs.{contents};

    /// The program that the bytes mean. Otherwise it answers the first faulty line with the lowest cause in it, or
    /// [`TextFault::Memory`] where a growth was refused.
    pub fn parse(alloc: A, bytes: &[u8]) -> Result<Program<A>, TextFault>
        ensures { MatchResult result (λ program. TextMeans bytes.now (contents program)) (IsTextFault bytes.now) }
    {
        match whole(alloc, bytes) {
            Ok((draft, main)) => {
                let (version, mems, reducers, functions) = draft.into_parts();
                Ok(Program {
                    version,
                    mems: Mems::new(mems),
                    reducers: Reducers::new(reducers),
                    functions: Functions::new(functions),
                    main,
                })
            }
            Err(fault) => Err(fault),
        }
    }
}

impl<A: Allocator> Program<A> {
    #[tactic(auto, using(crate::proofs::Taken::main_below))]
    /// The number of the function `main`.
    pub fn main(&self) -> u32
        ensures value { result ≡ self.now.main }
        ensures named { IsMain self.now.functions result }
        ensures there { result < length self.now.functions }
    {
        self.main
    }

    /// How many cells the program declares, and the monoids of its reducers.
    pub fn shape<B: Allocator>(&self, alloc: B) -> Result<Shape<B>, AllocError>
        ensures cells { IfOk result (λ shape. shape.cells ≡ cells_of self.now.mems) }
        ensures monoids { IfOk result (λ shape. shape.monoids ≡ map (λ reducer. reducer.monoid) self.now.reducers) }
    {
        shape_of(alloc, self.mems.as_slice(), self.reducers.as_slice())
    }
}
