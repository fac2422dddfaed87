//! An index of a record, by which what a name leads to is found without a search.

ghost use Rattle.std.specs.Prelude.{◌≡◌, ◌<◌, ◌+◌, IfOk, OnOk, length, take};
ghost use Rattle.std.specs.Option.{option_copied};
ghost use Rattle.js_graph.specs.Leads.{export_of, is_default_at};
ghost use Rattle.js_graph.specs.Places.{AreDefaults, ArePlaces, IsIndexOf, is_kept};

use indexmap::{IndexMap, IndexSet};
use js_base::{NoMemory, Span};
use js_record::{ExportEntries, ImportEntries, ImportImportName, ModuleRecord};
use std::alloc::Global;

/// Where the exports of a record and its default imports stand.
#[derive(Drop)]
pub(crate) struct Index {
    /// Of each name, the place of the first local export entry that exports it.
    pub(crate) local: IndexMap<String, usize>,
    /// Of each name, the place of the first indirect export entry that exports it.
    pub(crate) indirect: IndexMap<String, usize>,
    /// The starts and ends of the local names of the default imports.
    pub(crate) defaults: IndexSet<(u32, u32)>,
}

/// Adds the name of the entry at a place of the list, if no entry before exports it.
fn add_place(
    alloc: Global,
    places: &mut IndexMap<String, usize>,
    entries: &ExportEntries,
    i: usize,
) -> Result<(), NoMemory>
    requires in_list { i < length entries.now }
    requires so_far { ArePlaces places.old.entries (take i entries.now) }
    ensures { OnOk result (ArePlaces places.new.entries (take (i + 1) entries.now)) }
{
    if let Some(name) = entries[i].asked_name() {
        if !places.contains_key(name) {
            places.insert(String::from_str(alloc, name)?, i)?;
        }
    }
    Ok(())
}

/// Of each name, the place of the first of the entries that exports it.
fn export_places(
    alloc: Global,
    entries: &ExportEntries,
) -> Result<IndexMap<String, usize>, NoMemory>
    ensures { IfOk result (λ m. ArePlaces m.entries entries.now) }
{
    let mut places = IndexMap::new(alloc);
    for i in 0..entries.len() {
        add_place(alloc, &mut places, entries, i)?;
    }
    Ok(places)
}

/// Adds the place of the local name of the import entry at a place of the list, if it is a default import.
fn add_default(
    defaults: &mut IndexSet<(u32, u32)>,
    imports: &ImportEntries,
    i: usize,
) -> Result<(), NoMemory>
    requires in_list { i < length imports.now }
    requires so_far { AreDefaults defaults.old.keys (take i imports.now) }
    ensures { OnOk result (AreDefaults defaults.new.keys (take (i + 1) imports.now)) }
{
    let entry = &imports[i];
    if let ImportImportName::Default(_) = &entry.import_name {
        let place = entry.local_name.span;
        defaults.insert((place.start, place.end))?;
    }
    Ok(())
}

/// Where the local names of the default imports stand.
fn default_places(alloc: Global, imports: &ImportEntries) -> Result<IndexSet<(u32, u32)>, NoMemory>
    ensures { IfOk result (λ s. AreDefaults s.keys imports.now) }
{
    let mut defaults = IndexSet::new(alloc);
    for i in 0..imports.len() {
        add_default(&mut defaults, imports, i)?;
    }
    Ok(defaults)
}

impl Index {
    /// The index of a record.
    pub(crate) fn of(alloc: Global, module_record: &ModuleRecord) -> Result<Index, NoMemory>
        ensures { IfOk result (λ index. IsIndexOf index module_record.now) }
    {
        let local = export_places(alloc, &module_record.local_export_entries)?;
        let indirect = export_places(alloc, &module_record.indirect_export_entries)?;
        let defaults = default_places(alloc, &module_record.import_entries)?;
        Ok(Index {
            local,
            indirect,
            defaults,
        })
    }

    /// Whether the local name of a default import stands at this place.
    pub(crate) fn is_default(&self, place: Span) -> bool
        ensures { result ≡ is_kept self.now.defaults.keys place }
    {
        self.defaults.contains(&(place.start, place.end))
    }
}
