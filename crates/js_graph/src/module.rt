//! A module of a graph.

ghost use Rattle.std.specs.Prelude.{◌≡◌, IfOk, OnOk, OnErr, bytes_eq};
ghost use Rattle.std.specs.List.{list_all, list_any};
ghost use Rattle.js_grammar.specs.ModuleRecords.{own_export_names};
ghost use Rattle.js_graph.specs.Names.{is_taken};
ghost use Rattle.std.specs.Option.{option_copied};
ghost use Rattle.js_graph.specs.Modules.{are_linked, is_aimed, is_linked, linked, target_by, unlinked};
ghost use Rattle.js_graph.specs.Leads.{export_of, import_of};
ghost use Rattle.js_graph.specs.Places.{ArePlaces};

use crate::places::Index;
use indexmap::IndexMap;
use js_base::{NoMemory, Text};
use js_record::{ExportEntries, ExportEntry, ModuleRecord, NameSpan};
use std::alloc::Global;
use std::marker::Model;

/// A module: its record, and the module that each specifier means.
#[derive(Drop)]
pub(crate) struct Module {
    pub(crate) module_record: ModuleRecord,
    targets: IndexMap<Text, usize>,
    index: Index,
}

impl Model for Module {
    ghost use Rattle.js_graph.specs.Modules.{Module as Linked};

    ghost Value = { Linked };

    ghost view = { λ m. record { module_record = m.module_record; targets = m.targets.entries } };

    ghost use Rattle.js_graph.specs.Places.{IsIndexOf};

    ghost invariant = { λ m. IsIndexOf m.index m.module_record };
}

/// The first of the entries that exports this name, by their places.
fn export_at<'e>(
    places: &IndexMap<String, usize>,
    entries: &'e ExportEntries,
    name: &str,
) -> Option<&'e ExportEntry>
    requires { ArePlaces places.now.entries entries.now }
    ensures { option_copied result ≡ export_of name.now entries.now }
{
    match places.get(name) {
        Some(place) => entries.get(*place),
        None => None,
    }
}

impl Module {
    /// The module with this record, in which no specifier means anything yet. The only error is want of memory; the record
    /// is then let go.
    pub(crate) fn new(alloc: Global, module_record: ModuleRecord) -> Result<Module, NoMemory>
        ensures { IfOk result (λ m. m ≡ unlinked module_record) }
    {
        let index = Index::of(alloc, &module_record)?;
        Ok(Module {
            module_record,
            targets: IndexMap::new(alloc),
            index,
        })
    }

    /// The local entry that exports this name.
    pub(crate) fn local_export(&self, name: &str) -> Option<&ExportEntry>
        ensures { option_copied result ≡ export_of name.now self.now.module_record.local_export_entries }
    {
        export_at(
            &self.index.local,
            &self.module_record.local_export_entries,
            name,
        )
    }

    /// The indirect entry that exports this name.
    pub(crate) fn indirect_export(&self, name: &str) -> Option<&ExportEntry>
        ensures { option_copied result ≡ export_of name.now self.now.module_record.indirect_export_entries }
    {
        export_at(
            &self.index.indirect,
            &self.module_record.indirect_export_entries,
            name,
        )
    }

    /// Whether the module itself exports this name.
    fn exports(&self, name: &str) -> bool
        ensures { result ≡ list_any (bytes_eq name.now) (own_export_names self.now.module_record) }
    {
        self.local_export(name).is_some() || self.indirect_export(name).is_some()
    }

    /// Whether star entries bring in this name, where a module that they reach exports it.
    pub(crate) fn takes(&self, name: &str) -> bool
        ensures { result ≡ is_taken self.now name.now }
    {
        name != "default" && !self.exports(name)
    }

    /// The name that an indirect entry with this import name asks of its target.
    pub(crate) fn import_of<'m>(&'m self, name: &'m NameSpan) -> &'m str
        ensures { result.now ≡ import_of self.now.module_record name.now }
    {
        if self.index.is_default(name.span) {
            "default"
        } else {
            name.name.as_str()
        }
    }

    /// The module that an entry with this request asks.
    pub(crate) fn target(&self, request: &Option<NameSpan>) -> Option<usize>
        ensures { result ≡ target_by self.now request.now }
    {
        match request {
            Some(request) => self.targets.get(&request.name).copied(),
            None => None,
        }
    }

    /// Makes a specifier mean a module, in place of what it meant. The only error is want of memory; all then stays as
    /// it was.
    pub(crate) fn link(
        &mut self,
        alloc: Global,
        request: &str,
        target: usize,
    ) -> Result<(), NoMemory>
        ensures ok { OnOk result (self.new ≡ linked self.old request.now target) }
        ensures err { OnErr result (self.new ≡ self.old) }
    {
        let request = Text::from_str(alloc, request)?;
        self.targets.insert(request, target)?;
        Ok(())
    }

    /// Whether the requests of all entries mean modules.
    fn are_aimed(&self, entries: &ExportEntries) -> bool
        ensures { result ≡ list_all (is_aimed self.now) entries.now }
    {
        for i in 0..entries.len() {
            let request = &entries[i].module_request;
            if request.is_some() && self.target(request).is_none() {
                return false;
            }
        }
        true
    }

    /// Whether each request of an indirect or a star entry means a module.
    pub(crate) fn is_linked(&self) -> bool
        ensures { result ≡ is_linked self.now }
    {
        let record = &self.module_record;
        self.are_aimed(&record.indirect_export_entries)
            && self.are_aimed(&record.star_export_entries)
    }
}

/// Whether all modules are linked.
pub(crate) fn are_linked(modules: &Vec<Module>) -> bool
    ensures { result ≡ are_linked modules.now.items }
{
    for module in modules {
        if !module.is_linked() {
            return false;
        }
    }
    true
}
