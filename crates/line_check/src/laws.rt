//! Laws over the definitions. The functions do nothing: their contracts are the laws.

ghost use Rattle.line_check.specs.Laws.{OneSlug, AddsUp, HasNoSlug, HasSlug, OneSetting, HasSetting};

/// A line has at most one slug.
pub fn one_slug()
    ensures { OneSlug }
{}

/// The left, the items and the right of a slug add up to the measure.
pub fn adds_up()
    ensures { AddsUp }
{}

/// A line that is overset or loose has no slug.
pub fn no_slug()
    ensures { HasNoSlug }
{}

/// A line that is neither overset nor loose has a slug.
pub fn has_slug()
    ensures { HasSlug }
{}

/// A tape gives one list of slugs, or one fault.
pub fn one_setting()
    ensures { OneSetting }
{}

/// Each tape gives a list of slugs or a fault.
pub fn has_setting()
    ensures { HasSetting }
{}
