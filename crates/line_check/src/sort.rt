//! What stands in a slug.

ghost use Rattle.std.specs.Prelude.{◌≡◌};

use code_table::Name;
use slug_reader::Rail;
use std::marker::Model;

/// One thing in a slug. Widths are in units.
#[derive(Drop)]
pub enum Sort {
    /// A matrix.
    Matrix { name: Name, rail: Rail, width: u16 },
    /// A spaceband, with the width that it took.
    Band { width: u16 },
    /// A thin, en or em space.
    Space { width: u16 },
}

/// The sorts of a slug, in their order. Clauses see their list.
#[derive(Drop)]
pub struct Sorts {
    list: Vec<Sort>,
}

impl Model for Sorts {
    ghost use Rattle.std.specs.Prelude.{List};
    ghost use Rattle.line_check.specs.declared.sort.Sort.{Sort};

    ghost Value = { List Sort };

    ghost view = { λ a. a.list.items };
}

impl Sorts {
    /// These sorts.
    pub fn new(list: Vec<Sort>) -> Sorts
        ensures { result ≡ list.items }
    {
        Sorts { list }
    }

    /// The sorts, in order.
    pub fn as_slice(&self) -> &[Sort]
        ensures { result.now ≡ self.now }
    {
        self.list.as_slice()
    }
}
