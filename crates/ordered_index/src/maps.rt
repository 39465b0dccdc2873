//! Steps over one ordered map or two.
ghost use Rattle.std.specs.Prelude.{◌≡◌, OnOk, OnErr, IsSome};
ghost use Rattle.std.specs.BTreeMap.{IsOrdered, get};
ghost use Rattle.ordered_index.specs.MapSteps.{HasEntry, Enters, Inserts, Overwrites, Removes, restored, without_other};

use std::alloc::AllocError;
use std::collections::BTreeMap;

/// Puts back what a key had before a value was inserted there.
fn restore<K: Ord + Copy, V: Copy>(map: &mut BTreeMap<K, V>, key: K, old: Option<V>)
    requires { IsSome (get K.cmp map.old key) }
    ensures { map.new.entries ≡ restored K.cmp key old map.old.entries }
{
    match old {
        Some(value) => overwrite(map, key, value),
        None => {
            map.remove(&key);
        }
    }
}

/// Inserts a value under a key.
pub(crate) fn insert_into<K: Ord + Copy, V: Copy>(
    map: &mut BTreeMap<K, V>,
    key: K,
    value: V,
) -> Result<(), AllocError>
    ensures ok { OnOk result (Inserts K.cmp map.old map.new key value) }
    ensures err { OnErr result (map.new.entries ≡ map.old.entries) }
{
    map.insert(key, value)?;
    Ok(())
}

/// Inserts into both maps, or into neither.
pub(crate) fn insert_both<A: Ord + Copy, X: Copy, B: Ord + Copy, Y: Copy>(
    first: &mut BTreeMap<A, X>,
    second: &mut BTreeMap<B, Y>,
    first_entry: (A, X),
    second_entry: (B, Y),
) -> Result<(), AllocError>
    ensures first { OnOk result (Inserts A.cmp first.old first.new first_entry.0 first_entry.1) }
    ensures second { OnOk result
        (Inserts B.cmp second.old second.new second_entry.0 second_entry.1) }
    ensures first_stays { OnErr result (first.new.entries ≡ first.old.entries) }
    ensures second_stays { OnErr result (second.new.entries ≡ second.old.entries) }
{
    let (first_key, first_value) = first_entry;
    let (second_key, second_value) = second_entry;
    let old = first.insert(first_key, first_value)?;
    if let Err(error) = second.insert(second_key, second_value) {
        restore(first, first_key, old);
        return Err(error.into());
    }
    Ok(())
}

/// Inserts a value that stands under one key under another, if that is another.
pub(crate) fn insert_other<K: Ord + Copy, V: Copy>(
    map: &mut BTreeMap<K, V>,
    from: K,
    to: K,
    value: V,
) -> Result<(), AllocError>
    requires { HasEntry K.cmp map.old from value }
    ensures enters { OnOk result (Enters K.cmp map.old map.new to value) }
    ensures err { OnErr result (map.new.entries ≡ map.old.entries) }
{
    if from.cmp(&to).is_eq() {
        return Ok(());
    }
    map.insert(to, value)?;
    Ok(())
}

/// Writes another value under a key that has one.
fn overwrite<K: Ord + Copy, V: Copy>(map: &mut BTreeMap<K, V>, key: K, value: V)
    requires { IsSome (get K.cmp map.old key) }
    ensures { Overwrites K.cmp map.old map.new key value }
{
    if let Some(place) = map.get_mut(&key) {
        *place = value;
    }
}

/// Takes out the entry of a key.
pub(crate) fn remove_from<K: Ord + Copy, V: Copy>(map: &mut BTreeMap<K, V>, key: K) -> Option<V>
    ensures value { result ≡ get K.cmp map.old key }
    ensures removed { Removes K.cmp map.old map.new key }
{
    map.remove(&key)
}

/// Takes out the entry of a key where it isn't the other one.
pub(crate) fn remove_other<K: Ord + Copy, V: Copy>(map: &mut BTreeMap<K, V>, from: K, to: K)
    ensures entries { map.new.entries ≡ without_other K.cmp from to map.old.entries }
    ensures ordered { IsOrdered K.cmp map.old → IsOrdered K.cmp map.new }
{
    if from.cmp(&to).is_ne() {
        map.remove(&from);
    }
}
