//! What is in hand, by number, and the numbers that were released.

ghost use Rattle.std.specs.Prelude.{◌≡◌, ℕ, Some, None, true, OnOk, OnErr};
ghost use Rattle.std.specs.Ordering.{nat_cmp};
ghost use Rattle.std.specs.BTreeMap.{get, Updates};
ghost use Rattle.std.specs.BTreeSet as sorted;
ghost use Rattle.node_core.specs.Handling.{TellsLeastDue};

use crate::instance::Instance;
use ballots::Number;
use std::alloc::{AllocError, Global};
use std::collections::{BTreeMap, BTreeSet};
use std::marker::Model;

/// An instance in a box of its own, so that the nodes of the map are small. Clauses see the instance.
#[derive(Drop)]
pub(crate) struct InstanceBox {
    pub instance: Box<Instance>,
}

impl Model for InstanceBox {
    ghost use Rattle.node_core.specs.declared.instance.Instance.{Instance as InstanceValue};

    ghost Value = { InstanceValue };

    ghost view = { λ b. b.instance.value };
}

/// Puts the instance in under its number.
pub(crate) fn put(
    alloc: Global,
    instances: &mut BTreeMap<u32, InstanceBox>,
    instance: Instance,
) -> Result<(), AllocError>
    ensures put { OnOk result (Updates nat_cmp instances.old instances.new instance.number (Some instance)) }
    ensures err { OnErr result ((k : ℕ) → get nat_cmp instances.new k ≡ get nat_cmp instances.old k) }
{
    let number = instance.number;
    let Ok(instance) = Box::new(alloc, instance) else {
        return Err(AllocError);
    };
    match instances.insert(number.get(), InstanceBox { instance }) {
        Ok(_) => Ok(()),
        Err(_) => Err(AllocError),
    }
}

/// Removes what is in hand of the number, if anything is.
pub(crate) fn remove(instances: &mut BTreeMap<u32, InstanceBox>, number: Number)
    ensures { Updates nat_cmp instances.old instances.new number None }
{
    instances.remove(&number.get());
}

/// Notes the number as released.
pub(crate) fn note(released: &mut BTreeSet<u32>, number: Number) -> Result<(), AllocError>
    ensures { OnOk result (sorted.Updates nat_cmp released.old released.new number true) }
{
    match released.insert(number.get()) {
        Ok(_) => Ok(()),
        Err(_) => Err(AllocError),
    }
}

/// The least number of an instance whose proposal is due at this moment.
pub(crate) fn least_due(instances: &BTreeMap<u32, InstanceBox>, now: u64) -> Option<Number>
    ensures { TellsLeastDue instances.now.entries now result }
{
    for (_, boxed) in instances {
        let instance = boxed.instance.as_ref();
        if instance.is_due(now) {
            return Some(instance.number);
        }
    }
    None
}
