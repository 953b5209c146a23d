//! The text of what came of a range: a line for each row of numbers of which the same came.

ghost use Rattle.std.specs.Prelude.{◌≡◌, ◌≤◌, ◌<◌, ◌+◌, ◌++◌, None, IfOk, IfSome, OnOk, string_bytes};
ghost use Rattle.protocol.specs.Limits.{last_number};
ghost use Rattle.by_hand.specs.Hands.{answer_of};
ghost use Rattle.by_hand.specs.Texts.{line_text, IsLineFrom, IsNextWith, IsTextOf};

use crate::answer::SearchEnd;
use crate::hand::Hand;
use ballots::Number;
use std::alloc::{AllocError, Global};

/// Numbers that follow one another, from the first to the last, and what came of each.
#[derive(Clone, Copy)]
pub(crate) struct HandLine {
    first: Number,
    last: Number,
    answer: SearchEnd,
}

/// The number behind one, if there is one.
fn behind(number: Number) -> Option<Number>
    ensures some { IfSome result (λ n. n ≡ number + 1) }
    ensures none { result ≡ None → number ≡ last_number }
{
    Number::new(number.get() + 1)
}

/// The number behind one that has this answer too, if it is one of the range.
fn next_with(hand: &Hand, number: Number, answer: SearchEnd) -> Option<Number>
    ensures some { IfSome result (IsNextWith hand.now number answer) }
    ensures none { result ≡ None → number < hand.now.last → ¬ (answer_of hand.now (number + 1) ≡ answer) }
{
    let end = hand.last().get();
    let next = behind(number)?;
    if next.get() <= end && hand.answer(next) == answer {
        Some(next)
    } else {
        None
    }
}

/// The longest line from a number on.
fn line_from(hand: &Hand, first: Number) -> HandLine
    requires { first ≤ hand.now.last }
    ensures { IsLineFrom hand.now first result }
{
    let answer = hand.answer(first);
    let mut last = first;
    while let Some(next) = next_with(hand, last, answer) {
        last = next;
    }
    HandLine {
        first,
        last,
        answer,
    }
}

/// Puts a line behind a text.
fn push_line(text: &mut String, line: &HandLine) -> Result<(), AllocError>
    ensures { OnOk result (string_bytes text.new ≡ string_bytes text.old ++ line_text line.now) }
{
    let first = line.first.get();
    let last = line.last.get();
    let word = line.answer.word();
    if first == last {
        write!(text, "{first} {word}\n")
    } else {
        write!(text, "{first}-{last} {word}\n")
    }
}

/// The text of what came of a range.
pub(crate) fn text_of(alloc: Global, hand: &Hand) -> Result<String, AllocError>
    ensures { IfOk result (λ t. IsTextOf hand.now (string_bytes t)) }
{
    let mut text = String::new(alloc);
    let end = hand.last().get();
    let mut start = hand.first().get();
    while let Some(first) = Number::new(start)
        && start <= end
    {
        let line = line_from(hand, first);
        push_line(&mut text, &line)?;
        start = line.last.get() + 1;
    }
    Ok(text)
}
