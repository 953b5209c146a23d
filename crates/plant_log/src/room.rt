//! What is kept for each of many keys, as far as there is room for it.

ghost use Rattle.std.specs.Prelude.{◌≡◌, true, false, None, Some};
ghost use Rattle.std.specs.Ordering.{nat_cmp};
ghost use Rattle.std.specs.BTreeMap.{get, Updates};
ghost use Rattle.plant_log.specs.Keeping.{HasRoom};

use std::collections::BTreeMap;

/// For how many keys something is kept, at most.
pub const MOST_KEPT: usize = 65_536;

/// Keeps a value for a key, where there is room for it, and memory. Whether it is kept.
pub(crate) fn keep<V: Drop>(map: &mut BTreeMap<u32, V>, key: u32, value: V) -> bool
    ensures kept { result ≡ true → Updates nat_cmp map.old map.new key (Some value) }
    ensures off { result ≡ false → get nat_cmp map.old key ≡ None }
    ensures same { result ≡ false → map.new.entries ≡ map.old.entries }
    ensures bound { HasRoom map.old map.new }
{
    if map.len() >= MOST_KEPT && !map.contains_key(&key) {
        return false;
    }
    match map.insert(key, value) {
        Ok(_) => true,
        Err(_) => false,
    }
}
