//! A law over the definitions. The function does nothing: its contract is the law.

ghost use Rattle.widths.specs.Laws.{StandsInOrder, KeepsMembers};

/// The members of a table in byte order of their names are those of the table, and the names ascend.
pub fn in_name_order()
    ensures order { StandsInOrder }
    ensures members { KeepsMembers }
{}
