//! Laws over the file. The functions do nothing: their contracts are the laws.

ghost use Rattle.gone_out.specs.Laws.{OneHead, OneRecord, ReadsItAgain, AddsOne};

/// No bytes have the heads of two stations, and no record is that of two numbers or of two stations.
pub fn one_reading()
    ensures head { OneHead }
    ensures record { OneRecord }
{}

/// What is written of numbers is read again, whatever stands behind it of a record that was cut short.
pub fn reads_again()
    ensures { ReadsItAgain }
{}

/// A record that is added behind the whole records is read, and so are they.
pub fn adds_one()
    ensures { AddsOne }
{}
