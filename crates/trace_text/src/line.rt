//! One line of a trace.

ghost use Rattle.std.specs.Prelude.{◌≡◌, ℕ, MatchResult};
ghost use Rattle.trace_text.specs.declared.keyword.Keyword.TheVariants.{Mem, Reducer, Access};
ghost use Rattle.text_words.specs.Values.{Known};
ghost use Rattle.trace_text.specs.Lines.{OfNumber, asks, IsControl, HasKeyword};
ghost use Rattle.trace_text.specs.Grammar.{Asked as AskedLine, ItemMeans};
ghost use Rattle.text_words.specs.Causes.{IsLowest};
ghost use Rattle.trace_text.specs.Faults.{WordsFault};
ghost use Rattle.trace_text.specs.Outcome.{TakesWord, TakesValue};
ghost use Rattle.trace_text.specs.Items.{item_of, line_asked, place_of, access_of, IsRead};

use crate::keyword::{Keyword, keyword_of};
use crate::place::{cell, end, fresh_name, length, mark, monoid, reducer, strand, value};
use access_table::{Kind, is_memory};
use std::alloc::Allocator;
use text_words::{Act, Cause, Monoid, Names, Request, TraceLine, Words, both};

/// What a line says.
#[derive(Clone, Copy)]
pub enum Item<'a> {
    /// Nothing.
    Blank,
    /// It declares a memory of one cell, or an array of so many.
    Declared { name: &'a str, length: Option<u32> },
    /// It declares a reducer.
    Reduces { name: &'a str, monoid: Monoid },
    /// It asks for something.
    Asked(TraceLine),
}

/// A request on the line with the number `at`.
#[inline(always)]
pub fn request_on(at: u32, strand: u32, act: Act, mark: Option<u32>) -> TraceLine
    ensures { AskedLine result ≡ line_asked at strand act mark }
{
    TraceLine {
        at,
        request: Request {
            strand,
            act,
            line: mark.unwrap_or(at),
        },
        marked: mark.is_some(),
    }
}

fn request_item(at: u32, strand: u32, act: Act, mark: Option<u32>) -> Item<'static>
    ensures { item_of result ≡ line_asked at strand act mark }
{
    Item::Asked(request_on(at, strand, act, mark))
}

/// What the words behind the keyword of a memory say.
fn memory<'a, A: Allocator + Copy>(
    names: &Names<'_, A>,
    words: &mut Words<'a>,
) -> Result<Item<'a>, Cause>
    ensures { (at : ℕ) → IsRead at names.now Mem words.old result }
{
    let name = fresh_name(names, words);
    let cells = length(words);
    match both(name, cells) {
        Ok((name, length)) => Ok(Item::Declared { name, length }),
        Err(why) => Err(why),
    }
}

/// What the words behind the keyword of a reducer say.
fn reduction<'a, A: Allocator + Copy>(
    names: &Names<'_, A>,
    words: &mut Words<'a>,
) -> Result<Item<'a>, Cause>
    ensures { (at : ℕ) → IsRead at names.now Reducer words.old result }
{
    let name = fresh_name(names, words);
    let monoid = monoid(names, words);
    let end = end(words);
    match both(name, both(monoid, end)) {
        Ok((name, (monoid, ()))) => Ok(Item::Reduces { name, monoid }),
        Err(why) => Err(why),
    }
}

/// What the words behind the keyword of a request without operands say.
fn control(at: u32, act: Act, words: &mut Words<'_>) -> Result<Item<'static>, Cause>
    requires { IsControl act }
    ensures { (known : Known) → IsRead at known (asks act) words.old result }
{
    let by = strand(words);
    let mark = mark(words);
    match both(by, mark) {
        Ok((by, mark)) => Ok(request_item(at, by, act, mark)),
        Err(why) => Err(why),
    }
}

/// Takes the name of what an access of this kind is of: a cell or a reducer.
fn place<A: Allocator + Copy>(
    names: &Names<'_, A>,
    kind: Kind,
    words: &mut Words<'_>,
) -> Result<u32, Cause>
    ensures { TakesWord names.now (place_of kind) words.old words.new result OfNumber }
{
    if is_memory(kind) {
        cell(names, words)
    } else {
        reducer(names, words)
    }
}

/// Takes the value of an access of this kind. Where the kind has none it takes nothing, and gives 0.
fn value_for(kind: Kind, words: &mut Words<'_>) -> Result<u64, Cause>
    ensures { (known : Known) → TakesValue known kind words.old words.new result }
{
    match kind {
        Kind::Read | Kind::Get => Ok(0),
        Kind::Write | Kind::Bump | Kind::Update | Kind::Put => value(words),
    }
}

/// The access of this kind, to which the value belongs where the kind has one.
#[inline(always)]
pub fn act_of(kind: Kind, place: u32, value: u64) -> Act
    ensures { result ≡ access_of kind place value }
{
    match kind {
        Kind::Write => Act::Write(place, value),
        Kind::Bump => Act::Bump(place, value),
        Kind::Read => Act::Read(place),
        Kind::Update => Act::Update(place, value),
        Kind::Put => Act::Put(place, value),
        Kind::Get => Act::Get(place),
    }
}

/// What the words behind the keyword of an access say.
fn access<A: Allocator + Copy>(
    at: u32,
    names: &Names<'_, A>,
    kind: Kind,
    words: &mut Words<'_>,
) -> Result<Item<'static>, Cause>
    requires { HasKeyword names.now.version (Access kind) }
    ensures { IsRead at names.now (Access kind) words.old result }
{
    let by = strand(words);
    let place = place(names, kind, words);
    let value = value_for(kind, words);
    let mark = mark(words);
    match both(by, both(place, both(value, mark))) {
        Ok((by, (place, (value, mark)))) => Ok(request_item(
            at,
            by,
            act_of(kind, place, value),
            mark,
        )),
        Err(why) => Err(why),
    }
}

/// What the words behind a keyword say.
fn behind_keyword<'a, A: Allocator + Copy>(
    at: u32,
    names: &Names<'_, A>,
    keyword: Keyword,
    words: &mut Words<'a>,
) -> Result<Item<'a>, Cause>
    requires { HasKeyword names.now.version keyword }
    ensures { IsRead at names.now keyword words.old result }
{
    match keyword {
        Keyword::Mem => memory(names, words),
        Keyword::Reducer => reduction(names, words),
        Keyword::Spawn => control(at, Act::Spawn, words),
        Keyword::Call => control(at, Act::Call, words),
        Keyword::Sync => control(at, Act::Sync, words),
        Keyword::Return => control(at, Act::Return, words),
        Keyword::Access(kind) => access(at, names, kind, words),
    }
}

/// What the words of a line say, behind these declarations, or the lowest cause why they say nothing.
pub fn read_line<'a, A: Allocator + Copy>(
    at: u32,
    names: &Names<'_, A>,
    words: &mut Words<'a>,
) -> Result<Item<'a>, Cause>
    ensures { MatchResult result
        (λ item. ItemMeans at names.now words.old (item_of item))
        (λ cause. IsLowest (WordsFault names.now words.old) cause) }
{
    match words.take() {
        None => Ok(Item::Blank),
        Some(first) => match keyword_of(names.version(), first) {
            Some(keyword) => behind_keyword(at, names, keyword, words),
            None => Err(Cause::BadWord),
        },
    }
}
