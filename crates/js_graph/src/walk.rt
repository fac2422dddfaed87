//! The walk over the paths from a name, with a list of what was visited: ResolveExport (ECMA-262, 16.2.1.7.2.2).

ghost use Rattle.std.specs.Prelude.{◌≡◌, ◌<◌, ◌∷◌, [], IfOk, OnOk, fold, slice_get};
ghost use Rattle.std.specs.List.{flat_map};
ghost use Rattle.indexmap.specs.IndexSet.{index_set_len};
ghost use Rattle.js_graph.specs.Following.{entered, noted};
ghost use Rattle.js_graph.specs.Walks.{IsFollowed};
ghost use Rattle.js_graph.specs.Leads.{Pair, binding_name, bindings_of, by_star, lead_in, lead_of, pairs_of, through};
ghost use Rattle.js_graph.specs.Modules.{target_by};
ghost use Rattle.js_graph.specs.Resolving.{Resolves, Bindings};

use crate::module::Module;
use crate::name::Name;
use crate::resolution::{Binding, BindingName, Resolution};
use indexmap::IndexSet;
use js_base::{NoMemory, Text};
use js_record::{ExportEntry, ExportImportName, ExportLocalName};
use std::alloc::Global;
use std::mem;

/// How far the paths from a name have been followed.
#[derive(Drop)]
pub(crate) struct Walk<'a> {
    /// The names that a path has reached, each with the module that is asked for it, and each once.
    reached: IndexSet<(usize, Name<'a>)>,
    /// What the bindings that were found so far give.
    found: Resolution,
}

/// The binding that a local entry of the module of this number exports.
fn local_binding(alloc: Global, number: usize, entry: &ExportEntry) -> Result<Binding, NoMemory>
    ensures { IfOk result (λ b. b ≡ record { «module» = number; name = binding_name entry.now.local_name }) }
{
    let name = match &entry.local_name {
        ExportLocalName::Name(name) => {
            BindingName::Name(Text::from_str(alloc, name.name.as_str())?)
        }
        ExportLocalName::Default(_) | ExportLocalName::Null => BindingName::Default,
    };
    Ok(Binding {
        module: number,
        name,
    })
}

/// What is known when one more binding is found.
fn noted(found: Resolution, binding: Binding) -> Resolution
    ensures { result ≡ noted found binding }
{
    match found {
        Resolution::Null => Resolution::Binding(binding),
        Resolution::Binding(other) => {
            if other.is_same(&binding) {
                Resolution::Binding(other)
            } else {
                Resolution::Ambiguous
            }
        }
        Resolution::Ambiguous => Resolution::Ambiguous,
    }
}

impl<'a> Walk<'a> {
    /// The walk that has reached where it starts, and has followed nothing yet.
    fn new(alloc: Global, number: usize, name: &'a str) -> Result<Walk<'a>, NoMemory>
        ensures reached { IfOk result (λ w. w.reached.keys ≡ (number, name.now) ∷ []) }
        ensures found { IfOk result (λ w. w.found ≡ Resolution.Null) }
    {
        let mut reached = IndexSet::new(alloc);
        reached.insert((number, Name::new(name)))?;
        Ok(Walk {
            reached,
            found: Resolution::Null,
        })
    }

    /// Finds a binding.
    fn find(&mut self, binding: Binding)
        ensures reached { self.new.reached.keys ≡ self.old.reached.keys }
        ensures found { self.new.found ≡ noted self.old.found binding }
    {
        let found = mem::replace(&mut self.found, Resolution::Null);
        self.found = noted(found, binding);
    }

    /// Reaches a name of a module, which it may have reached before.
    fn reach(&mut self, number: usize, name: &'a str) -> Result<(), NoMemory>
        ensures reached { OnOk result (self.new.reached.keys ≡ entered self.old.reached.keys ((number, name.now) ∷ [])) }
        ensures found { OnOk result (self.new.found ≡ self.old.found) }
    {
        self.reached.insert((number, Name::new(name)))?;
        Ok(())
    }

    /// Follows the star entries of a module, which is asked for this name.
    fn follow_stars(&mut self, asked: &'a Module, name: &'a str) -> Result<(), NoMemory>
        ensures reached { OnOk result (self.new.reached.keys ≡ entered self.old.reached.keys (flat_map (by_star asked.now name.now) asked.now.module_record.star_export_entries)) }
        ensures found { OnOk result (self.new.found ≡ self.old.found) }
    {
        let entries = &asked.module_record.star_export_entries;
        for i in 0..entries.len() {
            if let Some(target) = asked.target(&entries[i].module_request) {
                self.reach(target, name)?;
            }
        }
        Ok(())
    }

    /// Follows an indirect entry of a module.
    fn follow_indirect(&mut self, asked: &'a Module, entry: &'a ExportEntry) -> Result<(), NoMemory>
        ensures reached { OnOk result (self.new.reached.keys ≡ entered self.old.reached.keys (pairs_of (through asked.now (target_by asked.now entry.now.module_request) entry.now.import_name))) }
        ensures found { OnOk result (self.new.found ≡ fold noted self.old.found (bindings_of (through asked.now (target_by asked.now entry.now.module_request) entry.now.import_name))) }
    {
        let Some(target) = asked.target(&entry.module_request) else {
            return Ok(());
        };
        match &entry.import_name {
            ExportImportName::Name(name) => { self.reach(target, asked.import_of(name)) }
            ExportImportName::All => {
                self.find(Binding {
                    module: target,
                    name: BindingName::Namespace,
                });
                Ok(())
            }
            ExportImportName::AllButDefault | ExportImportName::Null => Ok(()),
        }
    }

    /// Follows a name of a module of this number.
    fn follow(
        &mut self,
        alloc: Global,
        number: usize,
        asked: &'a Module,
        name: &'a str,
    ) -> Result<(), NoMemory>
        ensures reached { OnOk result (self.new.reached.keys ≡ entered self.old.reached.keys (pairs_of (lead_in number asked.now name.now))) }
        ensures found { OnOk result (self.new.found ≡ fold noted self.old.found (bindings_of (lead_in number asked.now name.now))) }
    {
        if let Some(entry) = asked.local_export(name) {
            self.find(local_binding(alloc, number, entry)?);
            return Ok(());
        }
        if let Some(entry) = asked.indirect_export(name) {
            return self.follow_indirect(asked, entry);
        }
        if name == "default" {
            return Ok(());
        }
        self.follow_stars(asked, name)
    }

    /// Follows the name at this place among those that were reached.
    fn follow_at(
        &mut self,
        alloc: Global,
        modules: &'a Vec<Module>,
        place: usize,
    ) -> Result<(), NoMemory>
        requires { place < index_set_len self.old.reached }
        ensures { OnOk result ((p : Pair) → slice_get self.old.reached.keys place ≡ Some p → IsFollowed self.old self.new (lead_of modules.now.items p)) }
    {
        let asked = &self.reached[place];
        let (number, name) = (asked.0, asked.1.text());
        match modules.get(number) {
            Some(asked) => self.follow(alloc, number, asked, name),
            None => Ok(()),
        }
    }

    /// Follows all that was reached, and what is reached from there, up to a second binding.
    fn follow_all(&mut self, alloc: Global, modules: &'a Vec<Module>) -> Result<(), NoMemory>
        ensures { OnOk result ((start : Pair) → self.old.reached.keys ≡ start ∷ [] → self.old.found ≡ Resolution.Null → Resolves (Bindings modules.now.items start.0 start.1) self.new.found) }
    {
        let mut done = 0;
        while done < self.reached.len() {
            self.follow_at(alloc, modules, done)?;
            if let Resolution::Ambiguous = self.found {
                return Ok(());
            }
            done += 1;
        }
        Ok(())
    }
}

/// What a name of the module of this number stands for.
pub(crate) fn resolve<'a>(
    alloc: Global,
    modules: &'a Vec<Module>,
    number: usize,
    name: &'a str,
) -> Result<Resolution, NoMemory>
    ensures { IfOk result (Resolves (Bindings modules.now.items number name.now)) }
{
    let mut walk = Walk::new(alloc, number, name)?;
    walk.follow_all(alloc, modules)?;
    Ok(walk.found)
}
