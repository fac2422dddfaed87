//! Which list an export entry goes to: ParseModule (ECMA-262, 16.2.1.7.1), step 10.

ghost use Rattle.std.specs.Prelude.{◌≡◌, ◌++◌, IfOk, OnOk, Some, ◌<◌, ◌+◌, length, take};
ghost use Rattle.std.specs.List.{flat_map};
ghost use Rattle.std.specs.Option.{option_copied};
ghost use Rattle.js_grammar.specs.ModuleRecords as def;
ghost use Rattle.js_grammar.specs.ModuleRecords.{imported_local, taken, no_local, to_indirect, place, place_imported, place_requested, if_local, if_indirect, if_star};
ghost use Rattle.js_record.specs.Firsts.{AreFirst};
ghost use Rattle.js_record.specs.Places.{placed_of};

use indexmap::IndexMap;
use js_base::{List, NoMemory, Span, Text};
use part_visits::{
    Copied, ExportEntries, ExportEntry, ExportImportName, ExportLocalName, ImportEntries,
    ImportEntry, ImportImportName, NameSpan,
};
use std::alloc::Global;

/// Adds the import entry at a place of the list, if it is the first one that has its local name.
fn add_first(
    alloc: Global,
    firsts: &mut IndexMap<Text, usize>,
    imports: &ImportEntries,
    i: usize,
) -> Result<(), NoMemory>
    requires in_list { i < length imports.now }
    requires so_far { AreFirst firsts.old.entries imports.now (take i imports.now) }
    ensures { OnOk result (AreFirst firsts.new.entries imports.now (take (i + 1) imports.now)) }
{
    let name = Text::from_str(alloc, imports[i].local_text())?;
    if !firsts.contains_key(&name) {
        firsts.insert(name, i)?;
    }
    Ok(())
}

/// Of each local name of the import entries, the first entry that has it, by its place in the list.
fn first_imports(alloc: Global, imports: &ImportEntries) -> Result<IndexMap<Text, usize>, NoMemory>
    ensures { IfOk result (λ m. AreFirst m.entries imports.now imports.now) }
{
    let mut firsts = IndexMap::new(alloc);
    for i in 0..imports.len() {
        add_first(alloc, &mut firsts, imports, i)?;
    }
    Ok(firsts)
}

/// The first import entry that has the local name of an export entry.
fn import_of<'i>(
    firsts: &IndexMap<Text, usize>,
    imports: &'i ImportEntries,
    entry: &ExportEntry,
) -> Option<&'i ImportEntry>
    requires { AreFirst firsts.now.entries imports.now imports.now }
    ensures { option_copied result ≡ imported_local imports.now entry.now.local_name }
{
    match &entry.local_name {
        ExportLocalName::Name(name) => match firsts.get(&name.name) {
            Some(i) => imports.get(*i),
            None => None,
        },
        ExportLocalName::Default(_) => None,
        ExportLocalName::Null => None,
    }
}

/// Where an export entry is appended.
#[derive(Drop)]
pub(crate) enum Placed {
    Local(ExportEntry),
    Indirect(ExportEntry),
    Star(ExportEntry),
}

/// The same export, of a name that another module has.
fn with_request(
    statement_span: Span,
    module_request: NameSpan,
    name: NameSpan,
    entry: ExportEntry,
) -> ExportEntry
    ensures { result ≡ record { statement_span = statement_span; span = entry.span; module_request = Some module_request; import_name = taken name; export_name = entry.export_name; local_name = no_local } }
{
    ExportEntry {
        statement_span,
        span: entry.span,
        module_request: Some(module_request),
        import_name: ExportImportName::Name(name),
        export_name: entry.export_name,
        local_name: ExportLocalName::Null,
    }
}

/// An export of a name that another module has, by the import of that name.
fn re_export(
    alloc: Global,
    import: &ImportEntry,
    name: NameSpan,
    entry: ExportEntry,
) -> Result<ExportEntry, NoMemory>
    ensures { IfOk result (λ e. e ≡ def.re_export import.now name entry) }
{
    let module_request = import.module_request.copied(alloc)?;
    Ok(with_request(import.statement_span, module_request, name, entry))
}

/// Places an export of a name that another module has, by the import of that name.
fn place_again(
    alloc: Global,
    import: &ImportEntry,
    name: &NameSpan,
    entry: ExportEntry,
) -> Result<Placed, NoMemory>
    ensures { IfOk result (λ p. placed_of p ≡ to_indirect (def.re_export import.now name.now entry)) }
{
    let name = name.copied(alloc)?;
    let entry = re_export(alloc, import, name, entry)?;
    Ok(Placed::Indirect(entry))
}

/// Places an export entry whose local name is that of an import entry. The name of a default import is the local one.
fn place_imported(
    alloc: Global,
    entry: ExportEntry,
    import: &ImportEntry,
) -> Result<Placed, NoMemory>
    ensures { IfOk result (λ p. placed_of p ≡ place_imported entry import.now import.now.import_name) }
{
    match &import.import_name {
        ImportImportName::NamespaceObject => Ok(Placed::Local(entry)),
        ImportImportName::Name(name) => place_again(alloc, import, name, entry),
        ImportImportName::Default(_) => place_again(alloc, import, &import.local_name, entry),
    }
}

/// Places an export entry with a module specifier.
fn place_requested(entry: ExportEntry) -> Placed
    ensures { placed_of result ≡ place_requested entry entry.import_name }
{
    match &entry.import_name {
        ExportImportName::AllButDefault => Placed::Star(entry),
        ExportImportName::All => Placed::Indirect(entry),
        ExportImportName::Name(_) => Placed::Indirect(entry),
        ExportImportName::Null => Placed::Indirect(entry),
    }
}

/// Places an export entry.
fn place(
    alloc: Global,
    firsts: &IndexMap<Text, usize>,
    imports: &ImportEntries,
    entry: ExportEntry,
) -> Result<Placed, NoMemory>
    requires { AreFirst firsts.now.entries imports.now imports.now }
    ensures { IfOk result (λ p. placed_of p ≡ place imports.now entry) }
{
    match &entry.module_request {
        Some(_) => Ok(place_requested(entry)),
        None => match import_of(firsts, imports, &entry) {
            None => Ok(Placed::Local(entry)),
            Some(import) => place_imported(alloc, entry, import),
        },
    }
}

/// The three lists of export entries.
#[derive(Drop)]
pub(crate) struct Places {
    pub local: ExportEntries,
    pub indirect: ExportEntries,
    pub star: ExportEntries,
}

impl Places {
    /// Appends an entry to its list.
    fn append(&mut self, placed: Placed) -> Result<(), NoMemory>
        ensures local { OnOk result (self.new.local ≡ self.old.local ++ if_local (placed_of placed)) }
        ensures indirect { OnOk result (self.new.indirect ≡ self.old.indirect ++ if_indirect (placed_of placed)) }
        ensures star { OnOk result (self.new.star ≡ self.old.star ++ if_star (placed_of placed)) }
    {
        match placed {
            Placed::Local(entry) => self.local.push(entry),
            Placed::Indirect(entry) => self.indirect.push(entry),
            Placed::Star(entry) => self.star.push(entry),
        }
    }
}

/// Places an export entry, and appends it to its list.
fn place_in(
    places: &mut Places,
    alloc: Global,
    firsts: &IndexMap<Text, usize>,
    imports: &ImportEntries,
    entry: ExportEntry,
) -> Result<(), NoMemory>
    requires { AreFirst firsts.now.entries imports.now imports.now }
    ensures local { OnOk result (places.new.local ≡ places.old.local ++ if_local (place imports.now entry)) }
    ensures indirect { OnOk result (places.new.indirect ≡ places.old.indirect ++ if_indirect (place imports.now entry)) }
    ensures star { OnOk result (places.new.star ≡ places.old.star ++ if_star (place imports.now entry)) }
{
    let placed = place(alloc, firsts, imports, entry)?;
    places.append(placed)
}

/// Places export entries, by the first import entry of each local name.
fn place_each(
    alloc: Global,
    firsts: &IndexMap<Text, usize>,
    imports: &ImportEntries,
    entries: Vec<ExportEntry>,
) -> Result<Places, NoMemory>
    requires { AreFirst firsts.now.entries imports.now imports.now }
    ensures local { IfOk result (λ ps. ps.local ≡ flat_map (λ ee. if_local (place imports.now ee)) entries.items) }
    ensures indirect { IfOk result (λ ps. ps.indirect ≡ flat_map (λ ee. if_indirect (place imports.now ee)) entries.items) }
    ensures star { IfOk result (λ ps. ps.star ≡ flat_map (λ ee. if_star (place imports.now ee)) entries.items) }
{
    let mut places = Places {
        local: List::new(alloc),
        indirect: List::new(alloc),
        star: List::new(alloc),
    };
    for entry in entries {
        place_in(&mut places, alloc, firsts, imports, entry)?;
    }
    Ok(places)
}

/// Places export entries, by the import entries of the module.
pub(crate) fn place_all(
    alloc: Global,
    imports: &ImportEntries,
    entries: Vec<ExportEntry>,
) -> Result<Places, NoMemory>
    ensures local { IfOk result (λ ps. ps.local ≡ flat_map (λ ee. if_local (place imports.now ee)) entries.items) }
    ensures indirect { IfOk result (λ ps. ps.indirect ≡ flat_map (λ ee. if_indirect (place imports.now ee)) entries.items) }
    ensures star { IfOk result (λ ps. ps.star ≡ flat_map (λ ee. if_star (place imports.now ee)) entries.items) }
{
    let firsts = first_imports(alloc, imports)?;
    place_each(alloc, &firsts, imports, entries)
}
