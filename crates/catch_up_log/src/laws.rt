//! Laws over the definitions. The functions do nothing: their contracts are the laws.

ghost use Rattle.catch_up_log.specs.Ranges.{OneText};
ghost use Rattle.catch_up_log.specs.Once.{OnceASecond, OnceEach};

/// Of a set one text of ranges is told: no two texts name its ranges.
pub fn one_text()
    ensures { OneText }
{}

/// A number that is missed is told once, unless it is added again; and none is told within a second of others.
pub fn told_once()
    ensures each { OnceEach }
    ensures second { OnceASecond }
{}
