//! A reader of patterns, token by token. It keeps what is open on a stack of its own.
ghost use Rattle.std.specs.Prelude.{◌≡◌, IfOk};
ghost use Rattle.mt_pattern.specs.Parser.{start, tight, loose, opens, opened, tested, partial_step, group, joined, step_of, finish_of};

use crate::build::{both, either, negation, pattern_of};
use crate::keyword::Keyword;
use crate::pattern::Pattern;
use crate::stack::{Open, Stack};
use crate::test::{More, Next, Stage, further_word, next_word};
use std::alloc::{AllocError, Global};

/// What stands behind everything that is open.
#[derive(Drop)]
pub(crate) enum Reading {
    /// A test is being read, or nothing.
    Partial(Stage),
    /// A pattern is whole, up to what it may go on with.
    Whole(Pattern, More),
}

/// A text that is read so far.
#[derive(Drop)]
pub(crate) struct Parser {
    stack: Stack,
    reading: Reading,
}

/// A pattern that is whole, behind what is still open.
#[derive(Drop)]
struct Closed {
    stack: Stack,
    pattern: Pattern,
}

/// Joins a pattern to the negations and the `and` before it.
#[tactic(auto, unfolding(crate::specs::Parser::tight))]
fn tight(alloc: Global, stack: Stack, pattern: Pattern) -> Result<Closed, AllocError>
    ensures { IfOk result (λ c. c ≡ tight stack pattern) }
{
    let mut stack = stack;
    let mut pattern = pattern;
    loop {
        match stack.pop() {
            None => return Ok(Closed { stack, pattern }),
            Some(Open::Negation) => pattern = negation(alloc, pattern)?,
            Some(Open::Both(left)) => pattern = both(alloc, left, pattern)?,
            Some(other) => {
                stack.push(other)?;
                return Ok(Closed { stack, pattern });
            }
        }
    }
}

/// Joins a pattern to all before it, up to the last group that is open.
#[tactic(auto, unfolding(crate::specs::Parser::loose, crate::specs::Parser::to_either))]
fn loose(alloc: Global, stack: Stack, pattern: Pattern) -> Result<Closed, AllocError>
    ensures { IfOk result (λ c. c ≡ loose stack pattern) }
{
    let Closed { mut stack, pattern } = tight(alloc, stack, pattern)?;
    match stack.pop() {
        None => Ok(Closed { stack, pattern }),
        Some(Open::Either(left)) => {
            let pattern = either(alloc, left, pattern)?;
            Ok(Closed { stack, pattern })
        }
        Some(other) => {
            stack.push(other)?;
            Ok(Closed { stack, pattern })
        }
    }
}

/// What opens where nothing of a test is read.
#[tactic(auto, unfolding(crate::specs::Parser::opens))]
fn opens(stage: Stage, keyword: Keyword) -> Option<Open>
    ensures { result ≡ opens stage keyword }
{
    match (stage, keyword) {
        (Stage::Start, Keyword::Open) => Some(Open::Group),
        (Stage::Start, Keyword::Not) => Some(Open::Negation),
        _ => None,
    }
}

/// What a test is, behind what is open.
fn tested(alloc: Global, stack: Stack, next: Next) -> Result<Option<Parser>, AllocError>
    ensures { IfOk result (λ r. r ≡ tested stack next) }
{
    match next {
        Next::Wrong => Ok(None),
        Next::On(stage) => Ok(Some(Parser {
            stack,
            reading: Reading::Partial(stage),
        })),
        Next::Whole(test, more) => {
            let pattern = pattern_of(alloc, test)?;
            Ok(Some(Parser {
                stack,
                reading: Reading::Whole(pattern, more),
            }))
        }
    }
}

/// The next token where a test is being read.
#[tactic(auto, unfolding(crate::specs::Parser::partial_step))]
fn partial_step(
    alloc: Global,
    stack: Stack,
    stage: Stage,
    keyword: Keyword,
    word: &[u8],
) -> Result<Option<Parser>, AllocError>
    ensures { IfOk result (λ r. r ≡ partial_step stack stage keyword word.now) }
{
    match opens(stage, keyword) {
        Some(last) => opened(stack, last),
        None => tested(alloc, stack, next_word(stage, keyword, word)),
    }
}

/// What is open, and one more behind which a pattern begins.
fn opened(stack: Stack, last: Open) -> Result<Option<Parser>, AllocError>
    ensures { IfOk result (λ r. r ≡ opened stack last) }
{
    let mut stack = stack;
    stack.push(last)?;
    Ok(Some(Parser {
        stack,
        reading: Reading::Partial(Stage::Start),
    }))
}

/// Ends the last group.
#[tactic(auto, unfolding(crate::specs::Parser::group))]
fn group(stack: Stack, pattern: Pattern) -> Option<Parser>
    ensures { result ≡ group stack pattern }
{
    let mut stack = stack;
    match stack.pop() {
        Some(Open::Group) => Some(Parser {
            stack,
            reading: Reading::Whole(pattern, More::Nothing),
        }),
        _ => None,
    }
}

/// The next token behind a pattern that is whole and goes on no further.
#[tactic(auto, unfolding(crate::specs::Parser::joined))]
fn joined(
    alloc: Global,
    stack: Stack,
    pattern: Pattern,
    keyword: Keyword,
) -> Result<Option<Parser>, AllocError>
    ensures { IfOk result (λ r. r ≡ joined stack pattern keyword) }
{
    match keyword {
        Keyword::And => {
            let Closed { stack, pattern } = tight(alloc, stack, pattern)?;
            opened(stack, Open::Both(pattern))
        }
        Keyword::Or => {
            let Closed { stack, pattern } = loose(alloc, stack, pattern)?;
            opened(stack, Open::Either(pattern))
        }
        Keyword::Close => {
            let Closed { stack, pattern } = loose(alloc, stack, pattern)?;
            Ok(group(stack, pattern))
        }
        _ => Ok(None),
    }
}

impl Parser {
    /// Nothing is read.
    pub(crate) fn new(alloc: Global) -> Parser
        ensures { result ≡ start }
    {
        Parser {
            stack: Stack::new(alloc),
            reading: Reading::Partial(Stage::Start),
        }
    }

    /// The text with one more token, None where no pattern begins so.
    #[tactic(auto, unfolding(crate::specs::Parser::step_of))]
    pub(crate) fn step(
        self,
        alloc: Global,
        keyword: Keyword,
        word: &[u8],
    ) -> Result<Option<Parser>, AllocError>
        ensures { IfOk result (λ r. r ≡ step_of self keyword word.now) }
    {
        let Parser { stack, reading } = self;
        match reading {
            Reading::Partial(stage) => partial_step(alloc, stack, stage, keyword, word),
            Reading::Whole(pattern, more) => match further_word(more, keyword) {
                Some(stage) => Ok(Some(Parser {
                    stack,
                    reading: Reading::Partial(stage),
                })),
                None => joined(alloc, stack, pattern, keyword),
            },
        }
    }

    /// The pattern that the text is, None where it ends too early.
    #[tactic(auto, unfolding(crate::specs::Parser::finish_of))]
    pub(crate) fn finish(self, alloc: Global) -> Result<Option<Pattern>, AllocError>
        ensures { IfOk result (λ r. r ≡ finish_of self) }
    {
        let Parser { stack, reading } = self;
        let Reading::Whole(pattern, _) = reading else {
            return Ok(None);
        };
        let Closed { mut stack, pattern } = loose(alloc, stack, pattern)?;
        match stack.pop() {
            None => Ok(Some(pattern)),
            Some(_) => Ok(None),
        }
    }
}
