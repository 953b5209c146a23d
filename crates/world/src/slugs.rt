//! What a tape that sets gives.

ghost use Rattle.std.specs.Prelude.{◌≡◌};

use line_check::Slug;
use std::marker::Model;

/// The slugs of a tape, in order. Clauses see their list.
#[derive(Drop)]
pub struct Slugs {
    slugs: Vec<Slug>,
}

impl Model for Slugs {
    ghost use Rattle.std.specs.Prelude.{List};
    ghost use Rattle.line_check.specs.declared.slug.Slug.{Slug as SlugValue};

    ghost Value = { List SlugValue };

    ghost view = { λ s. s.slugs.items };
}

impl Slugs {
    /// These slugs, in a list of just their length: a world keeps them to its end.
    pub fn new(mut slugs: Vec<Slug>) -> Slugs
        ensures { result ≡ slugs.items }
    {
        slugs.shrink_to_fit();
        Slugs { slugs }
    }

    /// The slugs, in order.
    pub fn as_slice(&self) -> &[Slug]
        ensures { result.now ≡ self.now }
    {
        self.slugs.as_slice()
    }
}
