//! Whom to ask for what.

ghost use Rattle.std.specs.Prelude.{◌≡◌, ◌<◌, length, IfSome};
ghost use Rattle.roll_call.specs.Asks.{behind, counts_due_at, is_other, page_due_at, turn_after, is_lower, IsChoice, IsFirstDue, IsLowestDue};

use crate::look::RollLook;
use crate::teller::Teller;
use ballots::Member;
use gone_out::Origin;
use rolls::Page;

/// The place of a member, and the page that it is to be asked for.
type Lowest = Option<(usize, Page)>;

/// The member behind one, except the station itself.
fn behind(own: &Origin, member: u8) -> u8
    requires { member < 16 }
    ensures { result ≡ behind own.now member }
{
    if member + 1 == own.member.get() {
        member + 2
    } else {
        member + 1
    }
}

/// Whose turn it is after that of a member: the other one behind it, or else the first.
pub(crate) fn turn_after(own: &Origin, member: Member) -> Member
    ensures { result ≡ turn_after own.now member }
{
    let following = behind(own, member.get());
    let next = if following <= own.count && following <= Member::LAST {
        following
    } else {
        behind(own, 0)
    };
    let Some(next) = Member::new(next) else {
        unreachable!();
    };
    next
}

/// Whether the member at a place is another one of the circuit.
fn is_other(own: &Origin, place: usize) -> bool
    ensures { result ≡ is_other own.now place }
{
    place < usize::from(own.count) && place + 1 != usize::from(own.member.get())
}

/// Whether the member at a place is asked for its counts now.
fn is_counts_due(own: &Origin, look: &RollLook, tellers: &[Teller], place: usize) -> bool
    requires { place < length tellers.now }
    ensures { result ≡ counts_due_at own.now look.now tellers.now place }
{
    is_other(own, place) && tellers[place].is_counts_due(look)
}

/// The first member that is asked for its counts now.
fn first_due(own: &Origin, look: &RollLook, tellers: &[Teller]) -> Option<usize>
    ensures { IsFirstDue own.now look.now tellers.now result }
{
    for place in 0..tellers.len() {
        if is_counts_due(own, look, tellers, place) {
            return Some(place);
        }
    }
    None
}

/// The page that the member at a place is asked for now.
fn page_due(own: &Origin, now: u64, tellers: &[Teller], place: usize) -> Option<Page>
    requires { place < length tellers.now }
    ensures { result ≡ page_due_at own.now now tellers.now place }
{
    if is_other(own, place) {
        tellers[place].page_due(now)
    } else {
        None
    }
}

/// Whether a page is below the lowest so far.
fn is_lower(page: Page, lowest: &Lowest) -> bool
    ensures { result ≡ is_lower page lowest.now }
{
    match lowest {
        Some((_, low)) => page.get() < low.get(),
        None => true,
    }
}

/// The lowest page that a member is asked for now, and the member's place.
fn lowest_due(own: &Origin, now: u64, tellers: &[Teller]) -> Lowest
    ensures { IsLowestDue own.now now tellers.now (length tellers.now) result }
{
    let mut lowest = None;
    for place in 0..tellers.len() {
        let Some(page) = page_due(own, now, tellers, place) else {
            continue;
        };
        if is_lower(page, &lowest) {
            lowest = Some((place, page));
        }
    }
    lowest
}

/// Who is asked for what now: the place of the member. Pages only where they may be asked for.
pub(crate) fn choice(
    own: &Origin,
    look: &RollLook,
    tellers: &[Teller],
    may_ask_pages: bool,
) -> Option<(usize, Option<Page>)>
    ensures choice { IsChoice own.now look.now may_ask_pages tellers.now result }
    ensures within { IfSome result (λ c. c.0 < length tellers.now) }
{
    if let Some(place) = first_due(own, look, tellers) {
        return Some((place, None));
    }
    if !may_ask_pages {
        return None;
    }
    let (place, page) = lowest_due(own, look.moment, tellers)?;
    Some((place, Some(page)))
}
