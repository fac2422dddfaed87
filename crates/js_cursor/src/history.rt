//! Values by place, with the changes that made them, so that the last changes can be taken back.

ghost use Rattle.std.specs.Prelude.{◌≡◌, ◌≤◌, ◌<◌, ◌-◌, ℕ, List, [], ◌∷◌, ◌++◌, length, take, Option, None, Some, OnOk, OnErr, IsSome, MatchOption};
ghost use Rattle.std.specs.Ordering.{nat_cmp};
ghost use Rattle.std.specs.BTreeMap.{get};
ghost use Rattle.std.specs.Vec.{vec_len, vec_capacity};
ghost use Rattle.js_cursor.specs.Histories.{standing, without, IsLeast, Pops};
ghost use Rattle.js_cursor.specs.Recorded.{NextFrom, FirstFrom, IsNarrow, found, IsReplaced};

use js_base::NoMemory;
use std::alloc::Global;
use std::collections::BTreeMap;
use std::marker::Model;

/// A change: from it on this value stands at the place, or none; and what stood there before.
#[derive(Clone, Copy)]
pub(crate) struct Change<V> {
    place: u32,
    value: Option<V>,
    before: Option<V>,
}

/// Values by place, and the changes that made them, in order. Contracts see it as the list of the changes.
#[derive(Drop)]
pub(crate) struct History<V> {
    /// What stands at each place that was ever changed.
    values: BTreeMap<u32, Option<V>>,
    /// The changes, with room for one more for each value that stands somewhere.
    changes: Vec<Change<V>>,
    /// No value stands below this place.
    floor: u32,
}

impl<V> Model for History<V> {
    ghost use Rattle.std.specs.Prelude.{ℕ, List, Option};
    ghost use Rattle.std.specs.Vec.{vec_capacity};
    ghost use Rattle.js_cursor.specs.Recorded.{steps, IsRecorded};

    ghost Value = { List (ℕ × Option V) };

    ghost view = { λ h. steps h.changes.items };

    ghost invariant = { λ h. IsRecorded h.values h.changes.items (vec_capacity h.changes) h.floor };
}

/// One more entry in a list that has room for it.
fn put<T: Drop>(list: &mut Vec<T>, entry: T)
    requires { vec_len list.old < vec_capacity list.old }
    ensures items { list.new.items ≡ list.old.items ++ entry ∷ [] }
    ensures capacity { vec_capacity list.old ≤ vec_capacity list.new }
{
    match list.push(entry) {
        Ok(()) => (),
        Err(_) => unreachable!(),
    }
}

/// The first place from this one on that was ever changed, and what stands there.
fn next_from<V: Copy>(values: &BTreeMap<u32, Option<V>>, from: u32) -> Option<(u32, Option<V>)>
    ensures { NextFrom values.now from result }
{
    match values.range(from..).next() {
        Some((place, value)) => Some((*place, *value)),
        None => None,
    }
}

/// The first place from this one on at which something stands.
fn first_from<V: Copy>(values: &BTreeMap<u32, Option<V>>, floor: u32) -> Option<u32>
    requires { IsNarrow values.now }
    ensures { FirstFrom values.now floor result }
{
    let mut from = floor;
    while let Some((place, value)) = next_from(values, from) {
        if value.is_some() {
            return Some(place);
        }
        from = place.checked_add(1)?;
    }
    None
}

/// What stands at a place.
fn found<V: Copy>(values: &BTreeMap<u32, Option<V>>, place: u32) -> Option<V>
    ensures { result ≡ found values.now place }
{
    match values.get(&place) {
        Some(value) => *value,
        None => None,
    }
}

/// Something else stands at a place that is known.
fn replace<V: Copy + Drop>(values: &mut BTreeMap<u32, Option<V>>, place: u32, value: Option<V>)
    requires { IsSome (get nat_cmp values.old place) }
    ensures { IsReplaced values.old values.new place value }
{
    match values.insert(place, value) {
        Ok(_) => (),
        Err(_) => unreachable!(),
    }
}

impl<V: Copy + Drop> History<V> {
    /// No change; it takes no memory.
    pub(crate) fn new(alloc: Global) -> Self
        ensures { result ≡ [] }
    {
        History {
            values: BTreeMap::new(alloc),
            changes: Vec::new(alloc),
            floor: 0,
        }
    }

    /// How many changes there were.
    pub(crate) fn len(&self) -> usize
        ensures { result ≡ length self.now }
    {
        self.changes.len()
    }

    /// What stands at a place.
    pub(crate) fn get(&self, place: u32) -> Option<V>
        ensures { result ≡ standing self.now place }
    {
        found(&self.values, place)
    }

    /// From now on this value stands at the place. The only error is want of memory, and then all stays.
    pub(crate) fn set(&mut self, place: u32, value: V) -> Result<(), NoMemory>
        ensures ok { OnOk result (self.new ≡ self.old ++ (place, Some value) ∷ []) }
        ensures err { OnErr result (self.new ≡ self.old) }
    {
        self.changes.reserve(self.values.len() + 2)?;
        let before = found(&self.values, place);
        self.values.insert(place, Some(value))?;
        put(
            &mut self.changes,
            Change {
                place,
                value: Some(value),
                before,
            },
        );
        self.floor = self.floor.min(place);
        Ok(())
    }

    /// Takes out what stands at a place.
    pub(crate) fn take(&mut self, place: u32) -> Option<V>
        ensures value { result ≡ standing self.old place }
        ensures changes { self.new ≡ without self.old place }
    {
        let Some(value) = found(&self.values, place) else {
            return None;
        };
        replace(&mut self.values, place, None);
        put(
            &mut self.changes,
            Change {
                place,
                value: None,
                before: Some(value),
            },
        );
        Some(value)
    }

    /// Takes back the last change, where there is one.
    fn undo(&mut self)
        ensures { self.new ≡ take (length self.old - 1) self.old }
    {
        if let Some(change) = self.changes.pop() {
            replace(&mut self.values, change.place, change.before);
            self.floor = self.floor.min(change.place);
        }
    }

    /// Takes back all changes but the first `len`.
    pub(crate) fn truncate(&mut self, len: usize)
        ensures { self.new ≡ take len self.old }
    {
        while self.len() > len {
            self.undo();
        }
    }

    /// The least place at which something stands. No search from here on begins below it.
    fn least(&mut self) -> Option<u32>
        ensures same { self.new ≡ self.old }
        ensures least { MatchOption result ((q : ℕ) → standing self.old q ≡ None) (IsLeast self.old) }
    {
        let place = first_from(&self.values, self.floor)?;
        self.floor = place;
        Some(place)
    }

    /// Takes out what stands at the least place at which something does.
    pub(crate) fn pop(&mut self) -> Option<V>
        ensures { Pops self.old self.new result }
    {
        let place = self.least()?;
        self.take(place)
    }
}
