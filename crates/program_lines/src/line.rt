//! One line of a program.

ghost use Rattle.std.specs.Prelude.{◌≡◌, ℕ, ◌∷◌, [], List, None, MatchOption, MatchResult, cond};
ghost use Rattle.model_accesses.specs.declared.kind.Kind.TheVariants as kind;
ghost use Rattle.text_words.specs.declared.fault.Cause.TheVariants.{BadWord};
ghost use Rattle.text_words.specs.Causes.{IsLowest};
ghost use Rattle.program_lines.specs.declared.keyword.Keyword.TheVariants.{Access, Call, Func, If, Let, Mem, ParallelFor};
ghost use Rattle.program_lines.specs.declared.keyword.Keyword.TheVariants.{Reducer, Spawn};
ghost use Rattle.program_lines.specs.Places.{OperandWord, OfOperand, OfSign, Sign};
ghost use Rattle.program_lines.specs.Table.{HasKeyword};
ghost use Rattle.program_lines.specs.Grammar.{Does, ItemMeans, expression_values};
ghost use Rattle.program_lines.specs.Faults.{WordsFault};
ghost use Rattle.program_lines.specs.Outcome.{Fits};
ghost use Rattle.program_lines.specs.Items.{item_of, IsRead, TakesTwo};

use crate::item::Item;
use crate::keyword::{Keyword, keyword_of};
use crate::operator::{Operator, operator_of};
use crate::place::{
    Assigned, assignee, fresh_name, function, location, monoid, operand, parameter, reducer,
    register,
};
use crate::scope::NameScope;
use access_table::Kind;
use model_bodies::{Expression, Operand, Statement};
use std::alloc::Allocator;
use text_words::{Cause, Words, both};
use trace_text::length;

/// The word that is left, where it is one.
fn one<'a>(words: &mut Words<'a>) -> Option<&'a str>
    ensures { MatchOption result ((word : List ℕ) → words.old ≡ word ∷ [] → ⊥) (λ word. words.old ≡ word.now ∷ []) }
{
    let Some(word) = words.take() else {
        return None;
    };
    match words.take() {
        Some(_) => None,
        None => Some(word),
    }
}

/// The words that are left, where they are two.
fn two<'a>(words: &mut Words<'a>) -> Option<(&'a str, &'a str)>
    ensures { MatchOption result
        ((first : List ℕ) (second : List ℕ) → words.old ≡ first ∷ second ∷ [] → ⊥)
        (λ pair. words.old ≡ pair.0.now ∷ pair.1.now ∷ []) }
{
    let Some(first) = words.take() else {
        return None;
    };
    match one(words) {
        Some(second) => Some((first, second)),
        None => None,
    }
}

/// The item, where no word is left.
fn end_item<'a>(words: &mut Words<'_>, item: Item<'a>) -> Result<Item<'a>, Cause>
    ensures { MatchResult result
        (λ said. (said ≡ item.entry) × (words.old ≡ []))
        (λ cause. (cause ≡ BadWord) × (words.old ≡ [] → ⊥)) }
{
    match words.take() {
        Some(_) => Err(Cause::BadWord),
        None => Ok(item),
    }
}

/// What the words behind `mem` say.
fn memory<'a, A: Allocator + Copy>(
    scope: &NameScope<'_, '_, A>,
    words: &mut Words<'a>,
) -> Result<Item<'a>, Cause>
    ensures { (at : ℕ) → IsRead at scope.now Mem words.old result }
{
    let Some(name) = words.take() else {
        return Err(Cause::BadWord);
    };
    match both(fresh_name(scope, name), length(words)) {
        Ok((name, length)) => Ok(Item::Declared { name, length }),
        Err(why) => Err(why),
    }
}

/// What the words behind `reducer` say.
fn reduction<'a, A: Allocator + Copy>(
    scope: &NameScope<'_, '_, A>,
    name: &'a str,
    word: &str,
) -> Result<Item<'a>, Cause>
    ensures { (at : ℕ) → IsRead at scope.now Reducer (name.now ∷ word.now ∷ []) result }
{
    match both(fresh_name(scope, name), monoid(scope, word)) {
        Ok((name, monoid)) => Ok(Item::Reduces { name, monoid }),
        Err(why) => Err(why),
    }
}

/// What the words behind `func` say.
fn head<'a, A: Allocator + Copy>(
    scope: &NameScope<'_, '_, A>,
    name: &'a str,
    word: &'a str,
) -> Result<Item<'a>, Cause>
    ensures { (at : ℕ) → IsRead at scope.now Func (name.now ∷ word.now ∷ []) result }
{
    match both(fresh_name(scope, name), parameter(word)) {
        Ok((name, parameter)) => Ok(Item::Begins { name, parameter }),
        Err(why) => Err(why),
    }
}

/// The expression of two operands and the sign between them.
fn expression_of(left: Operand, operator: Operator, right: Operand) -> Expression
    ensures { expression_values result ≡ OfOperand left ∷ OfSign operator ∷ OfOperand right ∷ [] }
{
    match operator {
        Operator::Plus => Expression::Sum(left, right),
        Operator::Minus => Expression::Difference(left, right),
        Operator::Times => Expression::Product(left, right),
        Operator::Below => Expression::Less(left, right),
    }
}

/// An operand, a sign, and another operand, which is left.
fn computation<A: Allocator + Copy>(
    scope: &NameScope<'_, '_, A>,
    left: &str,
    sign: &str,
    words: &mut Words<'_>,
) -> Result<Expression, Cause>
    ensures { Fits scope.now (OperandWord ∷ []) (Sign ∷ OperandWord ∷ []) (left.now ∷ sign.now ∷ words.old) result expression_values }
{
    let Some(operator) = operator_of(sign) else {
        return Err(Cause::BadWord);
    };
    let Some(right) = one(words) else {
        return Err(Cause::BadWord);
    };
    match both(operand(scope, left), operand(scope, right)) {
        Ok((left, right)) => Ok(expression_of(left, operator, right)),
        Err(why) => Err(why),
    }
}

/// What is left behind `=`: an operand, or two with a sign between them.
fn expression<A: Allocator + Copy>(
    scope: &NameScope<'_, '_, A>,
    words: &mut Words<'_>,
) -> Result<Expression, Cause>
    ensures { Fits scope.now (OperandWord ∷ []) (Sign ∷ OperandWord ∷ []) words.old result expression_values }
{
    let Some(left) = words.take() else {
        return Err(Cause::BadWord);
    };
    match words.take() {
        Some(sign) => computation(scope, left, sign, words),
        None => match operand(scope, left) {
            Ok(operand) => Ok(Expression::Plain(operand)),
            Err(why) => Err(why),
        },
    }
}

/// What the words behind `let` say.
fn assignment<'a, A: Allocator + Copy>(
    at: u32,
    scope: &NameScope<'_, '_, A>,
    words: &mut Words<'a>,
) -> Result<Item<'a>, Cause>
    ensures { IsRead at scope.now Let words.old result }
{
    let Some(target) = words.take() else {
        return Err(Cause::BadWord);
    };
    let Some("=") = words.take() else {
        return Err(Cause::BadWord);
    };
    match both(assignee(scope, target), expression(scope, words)) {
        Ok((Assigned { register, named }, value)) => Ok(Item::Does {
            statement: Statement::Let {
                line: at,
                register,
                value,
            },
            named,
        }),
        Err(why) => Err(why),
    }
}

/// A statement that names no new register.
fn statement_item(statement: Statement) -> Item<'static>
    ensures { item_of result ≡ Does statement None }
{
    Item::Does {
        statement,
        named: None,
    }
}

/// What the words behind `read` say.
fn read<'a, A: Allocator + Copy>(
    at: u32,
    scope: &NameScope<'_, '_, A>,
    target: &'a str,
    place: &str,
) -> Result<Item<'a>, Cause>
    ensures { IsRead at scope.now (Access kind.Read) (target.now ∷ place.now ∷ []) result }
{
    match both(assignee(scope, target), location(scope, place)) {
        Ok((Assigned { register, named }, location)) => Ok(Item::Does {
            statement: Statement::Read {
                line: at,
                register,
                location,
            },
            named,
        }),
        Err(why) => Err(why),
    }
}

/// What the words behind `get` say.
fn get<'a, A: Allocator + Copy>(
    at: u32,
    scope: &NameScope<'_, '_, A>,
    target: &'a str,
    name: &str,
) -> Result<Item<'a>, Cause>
    ensures { IsRead at scope.now (Access kind.Get) (target.now ∷ name.now ∷ []) result }
{
    match both(assignee(scope, target), reducer(scope, name)) {
        Ok((Assigned { register, named }, reducer)) => Ok(Item::Does {
            statement: Statement::Get {
                line: at,
                register,
                reducer,
            },
            named,
        }),
        Err(why) => Err(why),
    }
}

/// What the words behind `write` or `bump` say.
fn write<A: Allocator + Copy>(
    line: u32,
    scope: &NameScope<'_, '_, A>,
    bumps: bool,
    place: &str,
    value: &str,
) -> Result<Item<'static>, Cause>
    requires { HasKeyword scope.now.known.version (Access (cond bumps kind.Bump kind.Write)) }
    ensures { IsRead line scope.now (Access (cond bumps kind.Bump kind.Write)) (place.now ∷ value.now ∷ []) result }
{
    match both(location(scope, place), operand(scope, value)) {
        Ok((location, value)) => {
            if bumps {
                Ok(statement_item(Statement::Bump {
                    line,
                    location,
                    value,
                }))
            } else {
                Ok(statement_item(Statement::Write {
                    line,
                    location,
                    value,
                }))
            }
        }
        Err(why) => Err(why),
    }
}

/// What the words behind `update` or `put` say.
fn update<A: Allocator + Copy>(
    line: u32,
    scope: &NameScope<'_, '_, A>,
    puts: bool,
    name: &str,
    value: &str,
) -> Result<Item<'static>, Cause>
    ensures { IsRead line scope.now (Access (cond puts kind.Put kind.Update)) (name.now ∷ value.now ∷ []) result }
{
    match both(reducer(scope, name), operand(scope, value)) {
        Ok((reducer, value)) => {
            if puts {
                Ok(statement_item(Statement::Put {
                    line,
                    reducer,
                    value,
                }))
            } else {
                Ok(statement_item(Statement::Update {
                    line,
                    reducer,
                    value,
                }))
            }
        }
        Err(why) => Err(why),
    }
}

/// What the words behind `spawn` or `call` say.
fn call<A: Allocator + Copy>(
    line: u32,
    scope: &NameScope<'_, '_, A>,
    spawns: bool,
    name: &str,
    value: &str,
) -> Result<Item<'static>, Cause>
    ensures { IsRead line scope.now (cond spawns Spawn Call) (name.now ∷ value.now ∷ []) result }
{
    match both(function(scope, name), operand(scope, value)) {
        Ok((function, argument)) => {
            if spawns {
                Ok(statement_item(Statement::Spawn {
                    line,
                    function,
                    argument,
                }))
            } else {
                Ok(statement_item(Statement::Call {
                    line,
                    function,
                    argument,
                }))
            }
        }
        Err(why) => Err(why),
    }
}

/// What the words behind `pfor` say.
fn parallel_for<'a, A: Allocator + Copy>(
    at: u32,
    scope: &NameScope<'_, '_, A>,
    words: &mut Words<'a>,
) -> Result<Item<'a>, Cause>
    requires { HasKeyword scope.now.known.version ParallelFor }
    ensures { IsRead at scope.now ParallelFor words.old result }
{
    let Some(target) = words.take() else {
        return Err(Cause::BadWord);
    };
    let Some((count, name)) = two(words) else {
        return Err(Cause::BadWord);
    };
    match both(
        assignee(scope, target),
        both(operand(scope, count), function(scope, name)),
    ) {
        Ok((Assigned { register, named }, (count, function))) => Ok(Item::Does {
            statement: Statement::ParallelFor {
                line: at,
                register,
                count,
                function,
            },
            named,
        }),
        Err(why) => Err(why),
    }
}

/// What the words behind `if` say.
fn decision<'a, A: Allocator + Copy>(
    scope: &NameScope<'_, '_, A>,
    words: &mut Words<'a>,
) -> Result<Item<'a>, Cause>
    ensures { (at : ℕ) → IsRead at scope.now If words.old result }
{
    let Some(word) = one(words) else {
        return Err(Cause::BadWord);
    };
    match register(scope, word) {
        Ok(register) => Ok(Item::Decides { register }),
        Err(why) => Err(why),
    }
}

/// What the two words behind the keyword of an access say.
fn access<'a, A: Allocator + Copy>(
    at: u32,
    scope: &NameScope<'_, '_, A>,
    kind: Kind,
    first: &'a str,
    second: &str,
) -> Result<Item<'a>, Cause>
    requires { HasKeyword scope.now.known.version (Access kind) }
    ensures { IsRead at scope.now (Access kind) (first.now ∷ second.now ∷ []) result }
{
    match kind {
        Kind::Read => read(at, scope, first, second),
        Kind::Write => write(at, scope, false, first, second),
        Kind::Bump => write(at, scope, true, first, second),
        Kind::Update => update(at, scope, false, first, second),
        Kind::Put => update(at, scope, true, first, second),
        Kind::Get => get(at, scope, first, second),
    }
}

/// What the two words behind a keyword say that takes so many.
fn behind_two<'a, A: Allocator + Copy>(
    at: u32,
    scope: &NameScope<'_, '_, A>,
    keyword: Keyword,
    first: &'a str,
    second: &'a str,
) -> Result<Item<'a>, Cause>
    requires known { HasKeyword scope.now.known.version keyword }
    requires two { TakesTwo keyword }
    ensures { IsRead at scope.now keyword (first.now ∷ second.now ∷ []) result }
{
    match keyword {
        Keyword::Reducer => reduction(scope, first, second),
        Keyword::Func => head(scope, first, second),
        Keyword::Access(kind) => access(at, scope, kind, first, second),
        Keyword::Spawn => call(at, scope, true, first, second),
        Keyword::Call => call(at, scope, false, first, second),
        _ => unreachable!(),
    }
}

/// What the words behind a keyword say.
fn behind_keyword<'a, A: Allocator + Copy>(
    at: u32,
    scope: &NameScope<'_, '_, A>,
    keyword: Keyword,
    words: &mut Words<'a>,
) -> Result<Item<'a>, Cause>
    requires { HasKeyword scope.now.known.version keyword }
    ensures { IsRead at scope.now keyword words.old result }
{
    match keyword {
        Keyword::Mem => memory(scope, words),
        Keyword::Let => assignment(at, scope, words),
        Keyword::ParallelFor => parallel_for(at, scope, words),
        Keyword::If => decision(scope, words),
        Keyword::Sync => end_item(words, statement_item(Statement::Sync { line: at })),
        Keyword::Else => end_item(words, Item::Otherwise),
        Keyword::End => end_item(words, Item::Ends),
        _ => match two(words) {
            Some((first, second)) => behind_two(at, scope, keyword, first, second),
            None => Err(Cause::BadWord),
        },
    }
}

/// What the words of the line with the number `at` say in their scope, or the lowest cause why they say nothing. Limits are none of its
/// causes but one: a new register for which there is no room is `TooMany`.
pub fn read_line<'a, A: Allocator + Copy>(
    at: u32,
    scope: &NameScope<'_, '_, A>,
    words: &mut Words<'a>,
) -> Result<Item<'a>, Cause>
    ensures { MatchResult result
        (λ item. ItemMeans at scope.now words.old (item_of item))
        (λ cause. IsLowest (WordsFault scope.now words.old) cause) }
{
    match words.take() {
        None => Ok(Item::Blank),
        Some(first) => match keyword_of(scope.names().version(), first) {
            Some(keyword) => behind_keyword(at, scope, keyword, words),
            None => Err(Cause::BadWord),
        },
    }
}
