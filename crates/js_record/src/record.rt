//! A module record, of all that the declarations of a module add: ParseModule (ECMA-262, 16.2.1.7.1), step 10.

ghost use Rattle.std.specs.Prelude.{◌≡◌, ◌++◌, ◌↔◌, [], IfOk, IsTrue, OnOk, bytes_eq, fold, map};
ghost use Rattle.std.specs.List.{IsDistinct};
ghost use Rattle.js_grammar.specs.ModuleRecords.{own_export_names, with_request, with_binding, replaced_by, replaced, default_places, defaults_among, duplicate_export, duplicate_defaults, record_of_part, errors_of_part};
ghost use Rattle.js_record.specs.Exports.{IsMadeOf, made};

use crate::distinct::are_all_distinct;
use crate::placing::{Places, place_all};
use indexmap::IndexMap;
use js_base::{Diagnostic, DiagnosticKind, Diagnostics, List, NoMemory, Span, Spans, Text};
use part_visits::{
    DynamicImport, DynamicImports, ExportEntries, ExportEntry, ImportEntries, ImportEntry,
    NameSpan, Part, Request, RequestedModules, listed,
};
use std::alloc::Global;
use std::marker::Model;

/// What the import and export declarations of a module tell: a Source Text Module Record (ECMA-262, 16.2.1.7), as far
/// as the text alone tells it. Spans are byte places.
#[derive(Drop)]
pub struct ModuleRecord {
    /// Whether the text has an import or export declaration or `import.meta`, which modules alone have.
    pub has_module_syntax: bool,
    /// The module specifiers, each with its occurrences, in the order in which they first occur.
    pub requested_modules: IndexMap<Text, RequestedModules>,
    /// \[\[ImportEntries\]\].
    pub import_entries: ImportEntries,
    /// \[\[LocalExportEntries\]\].
    pub local_export_entries: ExportEntries,
    /// \[\[IndirectExportEntries\]\].
    pub indirect_export_entries: ExportEntries,
    /// \[\[StarExportEntries\]\].
    pub star_export_entries: ExportEntries,
    /// The names that are exported, each with its last place, in the order in which they first occur. `export default`
    /// has none.
    pub exported_bindings: IndexMap<Text, Span>,
    /// Where each `import.meta` stands.
    pub import_metas: Spans,
    /// Each `import()`, in the order of their ends.
    pub dynamic_imports: DynamicImports,
}

impl Model for ModuleRecord {
    ghost use Rattle.js_grammar.specs.ModuleRecords.{ModuleRecord as Record};

    ghost Value = { Record };

    ghost view = { λ r. record { has_module_syntax = r.has_module_syntax; requested_modules = r.requested_modules.entries; import_entries = r.import_entries; local_export_entries = r.local_export_entries; indirect_export_entries = r.indirect_export_entries; star_export_entries = r.star_export_entries; exported_bindings = r.exported_bindings.entries; import_metas = r.import_metas; dynamic_imports = r.dynamic_imports } };
}

impl ModuleRecord {
    /// Whether no two of the local and indirect export entries are exported by the same name (ECMA-262, 16.2.1.1), where
    /// the name of `export default` is `default`. It takes no memory; each pair of entries is compared, so the time grows
    /// as the square of their number.
    pub fn exports_distinct(&self) -> bool
        ensures { IsTrue result ↔ IsDistinct bytes_eq (own_export_names self.now) }
    {
        are_all_distinct(&self.local_export_entries, &self.indirect_export_entries)
    }
}

/// Counts an occurrence of a module specifier.
fn add_request(
    alloc: Global,
    modules: &mut IndexMap<Text, RequestedModules>,
    request: Request,
) -> Result<(), NoMemory>
    ensures { OnOk result (modules.new.entries ≡ with_request modules.old.entries request) }
{
    let Request { name, occurrence } = request;
    if let Some(occurrences) = modules.get_mut(&name) {
        occurrences.push(occurrence)?;
        return Ok(());
    }
    let mut occurrences = List::new(alloc);
    occurrences.push(occurrence)?;
    modules.insert(name, occurrences)?;
    Ok(())
}

/// The module specifiers, each with its occurrences.
fn requested(
    alloc: Global,
    requests: Vec<Request>,
) -> Result<IndexMap<Text, RequestedModules>, NoMemory>
    ensures { IfOk result (λ m. m.entries ≡ fold with_request [] requests.items) }
{
    let mut modules = IndexMap::new(alloc);
    for request in requests {
        add_request(alloc, &mut modules, request)?;
    }
    Ok(modules)
}

/// The names that are exported, each with its last place, and the bindings that another one replaced.
#[derive(Drop)]
pub(crate) struct Exported {
    pub bindings: IndexMap<Text, Span>,
    pub replaced: Vec<NameSpan>,
}

/// Exports a name. On an error it may be exported or not.
fn bind(alloc: Global, exported: &mut Exported, binding: NameSpan) -> Result<(), NoMemory>
    ensures bindings { OnOk result (exported.new.bindings.entries ≡ with_binding exported.old.bindings.entries binding) }
    ensures replaced { OnOk result (exported.new.replaced.items ≡ exported.old.replaced.items ++ replaced_by exported.old.bindings.entries binding) }
{
    let NameSpan { name, span } = binding;
    if let Some(before) = exported.bindings.get(&name).copied() {
        let name = Text::from_str(alloc, name.as_str())?;
        exported.replaced.push(NameSpan { name, span: before })?;
    }
    exported.bindings.insert(name, span)?;
    Ok(())
}

/// Exports names one after the other.
fn bind_all(alloc: Global, bindings: Vec<NameSpan>) -> Result<Exported, NoMemory>
    ensures bindings { IfOk result (λ e. e.bindings.entries ≡ fold with_binding [] bindings.items) }
    ensures replaced { IfOk result (λ e. e.replaced.items ≡ replaced [] bindings.items) }
{
    let mut exported = Exported {
        bindings: IndexMap::new(alloc),
        replaced: Vec::new(alloc),
    };
    for binding in bindings {
        bind(alloc, &mut exported, binding)?;
    }
    Ok(exported)
}

/// The places of `default` among the names of export entries, behind others.
fn add_defaults(places: &mut Vec<Span>, entries: &ExportEntries) -> Result<(), NoMemory>
    ensures { OnOk result (places.new.items ≡ places.old.items ++ defaults_among entries.now) }
{
    for i in 0..entries.len() {
        if let Some(place) = entries[i].default_place() {
            places.push(place)?;
        }
    }
    Ok(())
}

/// The errors of names that are exported twice: each place that is replaced, with the last one of that name.
fn duplicate_exports(alloc: Global, exported: &Exported) -> Result<Diagnostics, NoMemory>
    ensures { IfOk result (λ ds. ds ≡ map (duplicate_export exported.now.bindings.entries) exported.now.replaced.items) }
{
    let mut errors = List::new(alloc);
    for binding in &exported.replaced {
        errors.push(Diagnostic {
            kind: DiagnosticKind::DuplicateExport,
            span: binding.span,
            first: exported.bindings.get(&binding.name).copied(),
            second: None,
        })?;
    }
    Ok(errors)
}

/// The error of more than one export of `default`: the first, with the second.
fn add_duplicate_default(errors: &mut Diagnostics, places: &[Span]) -> Result<(), NoMemory>
    ensures { OnOk result (errors.new ≡ errors.old ++ duplicate_defaults places.now) }
{
    if let [span, second, ..] = places {
        errors.push(Diagnostic {
            kind: DiagnosticKind::DuplicateDefaultExport,
            span: *span,
            first: Some(*second),
            second: None,
        })?;
    }
    Ok(())
}

/// The places of `default` among the local exports, the indirect ones, and those without an entry.
fn default_places(alloc: Global, places: &Places, skipped: &[Span]) -> Result<Vec<Span>, NoMemory>
    ensures { IfOk result (λ v. v.items ≡ defaults_among places.now.local ++ (defaults_among places.now.indirect ++ skipped.now)) }
{
    let mut defaults = Vec::new(alloc);
    add_defaults(&mut defaults, &places.local)?;
    add_defaults(&mut defaults, &places.indirect)?;
    defaults.extend_from_slice(skipped)?;
    Ok(defaults)
}

/// The early errors of the exports of a module (ECMA-262, 16.2.1.1).
fn find_errors(
    alloc: Global,
    exported: &Exported,
    places: &Places,
    skipped: &[Span],
) -> Result<Diagnostics, NoMemory>
    ensures { IfOk result (λ ds. ds ≡ map (duplicate_export exported.now.bindings.entries) exported.now.replaced.items ++ duplicate_defaults (defaults_among places.now.local ++ (defaults_among places.now.indirect ++ skipped.now))) }
{
    let mut errors = duplicate_exports(alloc, exported)?;
    let defaults = default_places(alloc, places, skipped)?;
    add_duplicate_default(&mut errors, &defaults)?;
    Ok(errors)
}

/// The exports of a module, told apart, and their early errors.
#[derive(Drop)]
struct Exports {
    places: Places,
    bindings: IndexMap<Text, Span>,
    errors: Diagnostics,
}

/// Tells the exports of a module apart, by its import entries.
fn exports_of(
    alloc: Global,
    imports: &ImportEntries,
    exports: Vec<ExportEntry>,
    bindings: Vec<NameSpan>,
    skipped: &[Span],
) -> Result<Exports, NoMemory>
    ensures { IfOk result (λ e. IsMadeOf e imports.now exports.items bindings.items skipped.now) }
{
    let exported = bind_all(alloc, bindings)?;
    let places = place_all(alloc, imports, exports)?;
    let errors = find_errors(alloc, &exported, &places, skipped)?;
    Ok(Exports {
        places,
        bindings: exported.bindings,
        errors,
    })
}

/// The import entries of a module, and its exports, which are told apart by them.
#[derive(Drop)]
struct Entries {
    imports: ImportEntries,
    exports: Exports,
}

/// Lists the import entries of a module, and tells its exports apart by them.
fn entries_of(
    alloc: Global,
    imports: Vec<ImportEntry>,
    exports: Vec<ExportEntry>,
    bindings: Vec<NameSpan>,
    skipped: &[Span],
) -> Result<Entries, NoMemory>
    ensures imports { IfOk result (λ e. e.imports ≡ imports.items) }
    ensures exports { IfOk result (λ e. IsMadeOf e.exports e.imports exports.items bindings.items skipped.now) }
{
    let imports = listed(alloc, imports)?;
    let exports = exports_of(alloc, &imports, exports, bindings, skipped)?;
    Ok(Entries { imports, exports })
}

/// What a record has beside the entries and the names that are exported.
#[derive(Drop)]
struct Uses {
    requested_modules: IndexMap<Text, RequestedModules>,
    import_metas: Spans,
    dynamic_imports: DynamicImports,
}

/// Lists the requests of modules, by their specifiers, each `import.meta` and each `import()`.
fn uses_of(
    alloc: Global,
    requests: Vec<Request>,
    metas: Vec<Span>,
    dynamic: Vec<DynamicImport>,
) -> Result<Uses, NoMemory>
    ensures requested { IfOk result (λ u. u.requested_modules.entries ≡ fold with_request [] requests.items) }
    ensures metas { IfOk result (λ u. u.import_metas ≡ metas.items) }
    ensures dynamic { IfOk result (λ u. u.dynamic_imports ≡ dynamic.items) }
{
    let requested_modules = requested(alloc, requests)?;
    let import_metas = listed(alloc, metas)?;
    let dynamic_imports = listed(alloc, dynamic)?;
    Ok(Uses {
        requested_modules,
        import_metas,
        dynamic_imports,
    })
}

/// The early errors of all that the declarations of a module add.
pub(crate) fn errors_of(alloc: Global, part: Part) -> Result<Diagnostics, NoMemory>
    ensures { IfOk result (λ ds. ds ≡ errors_of_part part) }
{
    let entries = entries_of(
        alloc,
        part.imports,
        part.exports,
        part.bindings,
        &part.skipped_defaults,
    )?;
    let exports = entries.exports;
    Ok(exports.errors)
}

/// The record that has these entries and uses, and its early errors.
fn assembled(has_module_syntax: bool, entries: Entries, uses: Uses) -> (ModuleRecord, Diagnostics)
    ensures { result ≡ made has_module_syntax entries.imports uses.requested_modules.entries uses.import_metas uses.dynamic_imports entries.exports }
{
    let Entries { imports, exports } = entries;
    let Exports {
        places,
        bindings,
        errors,
    } = exports;
    let Places {
        local,
        indirect,
        star,
    } = places;
    let record = ModuleRecord {
        has_module_syntax,
        requested_modules: uses.requested_modules,
        import_entries: imports,
        local_export_entries: local,
        indirect_export_entries: indirect,
        star_export_entries: star,
        exported_bindings: bindings,
        import_metas: uses.import_metas,
        dynamic_imports: uses.dynamic_imports,
    };
    (record, errors)
}

/// The record of all that the declarations of a module add, and its early errors.
pub(crate) fn record_of(alloc: Global, part: Part) -> Result<(ModuleRecord, Diagnostics), NoMemory>
    ensures { IfOk result (λ r. r ≡ (record_of_part part, errors_of_part part)) }
{
    let Part {
        is_module_syntax,
        imports,
        exports,
        requests,
        bindings,
        skipped_defaults,
        metas,
        dynamic,
    } = part;
    let uses = uses_of(alloc, requests, metas, dynamic)?;
    let entries = entries_of(alloc, imports, exports, bindings, &skipped_defaults)?;
    Ok(assembled(is_module_syntax, entries, uses))
}
