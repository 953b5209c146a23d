//! Laws over the definition. The functions do nothing: their contracts are the laws.

ghost use Rattle.hmac.specs.Laws.{TagsHaveTheirLength};

/// A tag has 32 bytes.
pub fn lengths()
    ensures { TagsHaveTheirLength }
{}
