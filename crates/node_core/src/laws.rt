//! What is so of each core. The functions do nothing: their contracts are the laws.

ghost use Rattle.std.specs.Prelude.{◌≤◌};

use crate::node::NodeCore;

/// The member of a core is one of its circuit.
pub fn member_of_core(core: &NodeCore)
    ensures { (1 ≤ core.now.me) × (core.now.me ≤ core.now.members) }
{
    // It is known once the member is read.
    let _me = core.me();
}
