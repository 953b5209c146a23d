//! Pages of circuit numbers.

ghost use Rattle.std.specs.Prelude.{◌≡◌, ◌<◌, ◌↔◌, IsSome, IfSome};
ghost use Rattle.rolls.specs.Pages.{pages, page_of, numbers_on};

use ballots::Number;
use std::marker::Model;

/// How many pages there are: together they have each number from 1 to 999,999.
pub const PAGES: usize = 123;

/// How many numbers a page has room for.
pub const PAGE_NUMBERS: u32 = 8192;

/// The bytes that have a bit for each number of a page.
pub const PAGE_BYTES: usize = 1024;

/// A page of numbers, 0 to 122: number n lies on page n / 8,192. Clauses see it as its number.
#[derive(Clone, Copy, PartialEq, Eq)]
pub struct Page {
    value: u8,
}

impl Model for Page {
    ghost use Rattle.std.specs.Prelude.{ℕ, ◌<◌};
    ghost use Rattle.rolls.specs.Pages.{pages};

    ghost Value = { ℕ };

    ghost view = { λ p. p.value };

    ghost invariant = { λ p. p.value < pages };

    ghost inverse = { λ n. record { value = n } };
}

impl Page {
    /// The page of this number; `None` above 122.
    pub fn new(value: u8) -> Option<Page>
        ensures some { IsSome result ↔ (value < pages) }
        ensures value { IfSome result (λ p. p ≡ value) }
    {
        if usize::from(value) < PAGES {
            Some(Page { value })
        } else {
            None
        }
    }

    /// The page that a number lies on.
    pub fn of(number: Number) -> Page
        ensures { result ≡ page_of number }
    {
        Page {
            value: (number.get() / PAGE_NUMBERS) as u8,
        }
    }

    /// Its number.
    pub fn get(self) -> u8
        ensures value { result ≡ self }
        ensures below { result < pages }
    {
        self.value
    }

    /// How many numbers lie on it: 8,191 on the first page, 576 on the last, 8,192 on each other.
    pub fn numbers(self) -> u16
        ensures { result ≡ numbers_on self }
    {
        numbers_on(usize::from(self.value))
    }
}

/// How many numbers lie on a page.
pub(crate) fn numbers_on(page: usize) -> u16
    ensures { result ≡ numbers_on page }
{
    if page == 0 {
        8191
    } else if page == 122 {
        576
    } else {
        8192
    }
}
