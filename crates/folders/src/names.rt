//! What the names of the files among the offers ask for.

ghost use Rattle.std.specs.Prelude.{◌≡◌, ◌≤◌, ◌++◌, ◌↔◌, ℕ, IfOk, IfSome, IfNone, MatchOption, IsTrue, Some, decimal, string_bytes};
ghost use Rattle.protocol.specs.Limits.{last_number};
ghost use Rattle.folders.specs.Offers.{kind_word, IsNameOf, NamesNoneOf, NamesNone, IsStop, BeginsWithDot, EndsWithPart, IsLeft};
ghost use Rattle.folders.specs.Spans.{IsSpan, IsSpanName, NamesNoSpan, end_text, span_name};
ghost use Rattle.folders.specs.declared.names.Span.{Span as SpanValue};

use ballots::Number;
use std::alloc::{AllocError, Global};

/// The name of the file among the offers that ends a run.
pub const STOP: &str = "stop";

/// The name of a number's file of a kind, which begins with a dot; where there is no memory for it, `AllocError`.
pub fn file_name(alloc: Global, number: u32, kind: &str) -> Result<String, AllocError>
    ensures { IfOk result (λ t. string_bytes t ≡ decimal number ++ kind.now) }
{
    format!(in alloc; "{number}{kind}")
}

/// What a file asks for, by the end of its name.
#[derive(Clone, Copy, PartialEq, Eq)]
pub enum OfferKind {
    /// Its frames are offered.
    Tape,
    /// The tape that its text is punched as is offered.
    Text,
    /// The number's withdrawal is offered.
    Withdraw,
    /// The number's entry is sought.
    Seek,
}

/// A number and what is asked for it.
#[derive(Clone, Copy)]
pub struct FileRequest {
    /// The number that the name begins with.
    pub number: Number,
    /// What the end of the name asks for it.
    pub kind: OfferKind,
}

/// The end of the names of this kind.
fn kind_word(kind: OfferKind) -> &'static str
    ensures { result.now ≡ kind_word kind }
{
    match kind {
        OfferKind::Tape => ".tape",
        OfferKind::Text => ".text",
        OfferKind::Withdraw => ".withdraw",
        OfferKind::Seek => ".seek",
    }
}

/// The name of the file that asks for this; where there is no memory for it, `AllocError`.
pub fn name_of(alloc: Global, request: FileRequest) -> Result<String, AllocError>
    ensures { IfOk result (λ t. IsNameOf (string_bytes t) request.number request.kind) }
{
    file_name(alloc, request.number.get(), kind_word(request.kind))
}

/// Whether this is the file that ends a run.
fn is_stop(name: &str) -> bool
    ensures { IsTrue result ↔ IsStop name.now }
{
    name == STOP
}

/// Whether it begins with a dot.
fn begins_with_dot(name: &str) -> bool
    ensures { IsTrue result ↔ BeginsWithDot name.now }
{
    name.starts_with('.')
}

/// Whether it ends with `.part`.
fn ends_with_part(name: &str) -> bool
    ensures { IsTrue result ↔ EndsWithPart name.now }
{
    name.ends_with(".part")
}

/// Whether a file of this name is left alone: one that is being handed over, whose name begins with a dot or ends with `.part`, or
/// the one that ends a run.
pub fn is_left(name: &str) -> bool
    ensures { IsTrue result ↔ IsLeft name.now }
{
    begins_with_dot(name) || ends_with_part(name) || is_stop(name)
}

/// The number that a name begins with, where the rest is the end of this kind.
fn number_before(name: &str, kind: OfferKind) -> Option<Number>
    ensures { (n : ℕ) → 1 ≤ n → n ≤ last_number → IsNameOf name.now n kind → result ≡ Some n }
{
    let digits = name.strip_suffix(kind_word(kind))?;
    Number::new(digits.parse::<u32>().ok()?)
}

/// What a name asks for, if it ends as one of this kind: it has to be the very name of the number's file.
fn named_as(alloc: Global, name: &str, kind: OfferKind) -> Result<Option<FileRequest>, AllocError>
    ensures { IfOk result (λ named. MatchOption named (NamesNoneOf kind name.now) (λ r. IsNameOf name.now r.number r.kind)) }
{
    let Some(number) = number_before(name, kind) else {
        return Ok(None);
    };
    let own = file_name(alloc, number.get(), kind_word(kind))?;
    if own.as_str() == name {
        Ok(Some(FileRequest { number, kind }))
    } else {
        Ok(None)
    }
}

/// What the name of a file among the offers asks for; `None` where it asks for nothing that there is. It has to be the very name of the
/// number's file, `12.tape` and not `012.tape`; where there is no memory to make that one, `AllocError`.
pub fn named(alloc: Global, name: &str) -> Result<Option<FileRequest>, AllocError>
    ensures sound { IfOk result (λ named. IfSome named (λ r. IsNameOf name.now r.number r.kind)) }
    ensures else_none { IfOk result (λ named. IfNone named (NamesNone name.now)) }
{
    for kind in [
        OfferKind::Tape,
        OfferKind::Text,
        OfferKind::Withdraw,
        OfferKind::Seek,
    ] {
        let found = named_as(alloc, name, kind)?;
        if found.is_some() {
            return Ok(found);
        }
    }
    Ok(None)
}

/// A range of numbers that a search is asked for.
#[derive(Clone, Copy)]
pub struct Span {
    /// Its first number.
    pub first: Number,
    /// Its last number; `None` where it goes to the last that the circuit has.
    pub last: Option<Number>,
}

/// The name of the file that asks for a range, as `41-80.seek`, or with no last number `41-.seek`; where there is no memory for it,
/// `AllocError`.
pub fn span_name(alloc: Global, span: &Span) -> Result<String, AllocError>
    ensures { IfOk result (λ t. string_bytes t ≡ span_name span.now) }
{
    let first = span.first.get();
    match span.last {
        Some(last) => format!(in alloc; "{first}-{}.seek", last.get()),
        None => format!(in alloc; "{first}-.seek"),
    }
}

/// The number that these digits are.
fn number_of(digits: &str) -> Option<Number>
    ensures { (n : ℕ) → 1 ≤ n → n ≤ last_number → digits.now ≡ decimal n → result ≡ Some n }
{
    Number::new(digits.parse::<u32>().ok()?)
}

/// The range between its ends, where it is one.
fn span_between(front: &str, back: &str) -> Option<Span>
    ensures is_span { IfSome result IsSpan }
    ensures all { (s : SpanValue) → IsSpan s → front.now ≡ decimal s.first → back.now ≡ end_text s.last → result ≡ Some s }
{
    let first = number_of(front)?;
    if back.is_empty() {
        return Some(Span { first, last: None });
    }
    let last = number_of(back)?;
    if first.get() <= last.get() {
        Some(Span {
            first,
            last: Some(last),
        })
    } else {
        None
    }
}

/// The range that a name begins with, where the rest is `.seek`.
fn span_before(name: &str) -> Option<Span>
    ensures is_span { IfSome result IsSpan }
    ensures all { (s : SpanValue) → IsSpanName name.now s → result ≡ Some s }
{
    let ends = name.strip_suffix(".seek")?;
    let (front, back) = ends.split_once('-')?;
    span_between(front, back)
}

/// The range that the name of a file among the offers asks for; `None` where it asks for none. It has to be the very name of the range's
/// file, `41-80.seek` and not `041-80.seek` or `80-41.seek`; where there is no memory to make that one, `AllocError`.
pub fn spanned(alloc: Global, name: &str) -> Result<Option<Span>, AllocError>
    ensures sound { IfOk result (λ spanned. IfSome spanned (IsSpanName name.now)) }
    ensures else_none { IfOk result (λ spanned. IfNone spanned (NamesNoSpan name.now)) }
    // What asks for a range is no request for one number.
    ensures no_request { IfOk result (λ spanned. IfSome spanned (λ _. NamesNone name.now)) }
{
    let Some(span) = span_before(name) else {
        return Ok(None);
    };
    let own = span_name(alloc, &span)?;
    if name == own.as_str() {
        Ok(Some(span))
    } else {
        Ok(None)
    }
}
