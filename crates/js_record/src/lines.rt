//! The lines of a record: one for each member, each ended by LF.

ghost use Rattle.std.specs.Prelude.{◌≡◌, ◌++◌, IfOk, OnOk, codes};
ghost use Rattle.std.specs.List.{flat_map};
ghost use Rattle.js_grammar.specs.Lines.{span_text};
ghost use Rattle.js_grammar.specs.RecordLines.{name_text, default_text, import_name_text, taken_name_text, export_name_text, local_name_text, request_text, syntax_line, request_line, binding_line, import_line, export_names, export_line, dynamic_line, meta_line, record_text};
ghost use Rattle.part_visits.specs.Names.{import_name_of, taken_name_of, export_name_of, local_name_of};

use crate::record::ModuleRecord;
use indexmap::IndexMap;
use js_base::{NoMemory, Span, Spans, Text};
use part_visits::{
    DynamicImport, DynamicImports, ExportEntries, ExportEntry, ExportExportName, ExportImportName,
    ExportLocalName, ImportEntries, ImportEntry, ImportImportName, NameSpan, RequestedModule,
    RequestedModules,
};
use std::alloc::Global;

/// Writes a text.
fn write_text(out: &mut Vec<u8>, text: &str) -> Result<(), NoMemory>
    ensures { OnOk result (out.new.items ≡ out.old.items ++ text.now) }
{
    out.extend_from_slice(text.as_bytes())?;
    Ok(())
}

/// Writes `name` and its place.
fn write_name(out: &mut Vec<u8>, name: &NameSpan) -> Result<(), NoMemory>
    ensures { OnOk result (out.new.items ≡ out.old.items ++ name_text name.now) }
{
    write_text(out, "name ")?;
    name.span.write(out)
}

/// Writes `default` and its place.
fn write_default(out: &mut Vec<u8>, span: Span) -> Result<(), NoMemory>
    ensures { OnOk result (out.new.items ≡ out.old.items ++ default_text span) }
{
    write_text(out, "default ")?;
    span.write(out)
}

/// Writes what an import takes.
fn write_import_name(out: &mut Vec<u8>, name: &ImportImportName) -> Result<(), NoMemory>
    ensures { OnOk result (out.new.items ≡ out.old.items ++ import_name_text (import_name_of name.now)) }
{
    match name {
        ImportImportName::Name(name) => write_name(out, name),
        ImportImportName::NamespaceObject => write_text(out, "namespace"),
        ImportImportName::Default(span) => write_default(out, *span),
    }
}

/// Writes what an export takes from another module.
fn write_taken_name(out: &mut Vec<u8>, name: &ExportImportName) -> Result<(), NoMemory>
    ensures { OnOk result (out.new.items ≡ out.old.items ++ taken_name_text (taken_name_of name.now)) }
{
    match name {
        ExportImportName::Name(name) => write_name(out, name),
        ExportImportName::All => write_text(out, "all"),
        ExportImportName::AllButDefault => write_text(out, "all-but-default"),
        ExportImportName::Null => write_text(out, "null"),
    }
}

/// Writes the name under which something is exported.
fn write_export_name(out: &mut Vec<u8>, name: &ExportExportName) -> Result<(), NoMemory>
    ensures { OnOk result (out.new.items ≡ out.old.items ++ export_name_text (export_name_of name.now)) }
{
    match name {
        ExportExportName::Name(name) => write_name(out, name),
        ExportExportName::Default(span) => write_default(out, *span),
        ExportExportName::Null => write_text(out, "null"),
    }
}

/// Writes the name that an export has in its own module.
fn write_local_name(out: &mut Vec<u8>, name: &ExportLocalName) -> Result<(), NoMemory>
    ensures { OnOk result (out.new.items ≡ out.old.items ++ local_name_text (local_name_of name.now)) }
{
    match name {
        ExportLocalName::Name(name) => write_name(out, name),
        ExportLocalName::Default(name) => write_default(out, name.span),
        ExportLocalName::Null => write_text(out, "null"),
    }
}

/// Writes the place of a module specifier, where there is one.
fn write_specifier(out: &mut Vec<u8>, request: &Option<NameSpan>) -> Result<(), NoMemory>
    ensures { OnOk result (out.new.items ≡ out.old.items ++ request_text request.now) }
{
    match request {
        None => write_text(out, "null"),
        Some(name) => name.span.write(out),
    }
}

/// Writes whether the text has what modules alone have.
fn write_syntax(out: &mut Vec<u8>, has_module_syntax: bool) -> Result<(), NoMemory>
    ensures { OnOk result (out.new.items ≡ out.old.items ++ syntax_line has_module_syntax) }
{
    write_text(out, "syntax ")?;
    write_text(out, if has_module_syntax { "yes" } else { "no" })?;
    write_text(out, "\n")
}

/// Writes an occurrence of a module specifier.
fn write_requested(out: &mut Vec<u8>, requested: RequestedModule) -> Result<(), NoMemory>
    ensures { OnOk result (out.new.items ≡ out.old.items ++ request_line requested) }
{
    write_text(out, "request ")?;
    requested.span.write(out)?;
    write_text(out, " ")?;
    requested.statement_span.write(out)?;
    write_text(out, " ")?;
    write_text(
        out,
        if requested.is_import {
            "import"
        } else {
            "export"
        },
    )?;
    write_text(out, "\n")
}

/// Writes a word and a place.
fn write_labelled(out: &mut Vec<u8>, word: &str, span: Span) -> Result<(), NoMemory>
    ensures { OnOk result (out.new.items ≡ out.old.items ++ (word.now ++ span_text span)) }
{
    write_text(out, word)?;
    span.write(out)
}

/// Writes an import entry.
fn write_import(out: &mut Vec<u8>, entry: &ImportEntry) -> Result<(), NoMemory>
    ensures { OnOk result (out.new.items ≡ out.old.items ++ import_line entry.now) }
{
    write_labelled(out, "import ", entry.statement_span)?;
    write_labelled(out, " request ", entry.module_request.span)?;
    write_text(out, " ")?;
    write_import_name(out, &entry.import_name)?;
    write_labelled(out, " local ", entry.local_name.span)?;
    write_text(out, "\n")
}

/// Writes the names of an export entry, to the end of its line.
fn write_names(out: &mut Vec<u8>, entry: &ExportEntry) -> Result<(), NoMemory>
    ensures { OnOk result (out.new.items ≡ out.old.items ++ export_names entry.now) }
{
    write_text(out, " import ")?;
    write_taken_name(out, &entry.import_name)?;
    write_text(out, " export ")?;
    write_export_name(out, &entry.export_name)?;
    write_text(out, " local ")?;
    write_local_name(out, &entry.local_name)?;
    write_text(out, "\n")
}

/// Writes an export entry behind the word of its list.
fn write_export(out: &mut Vec<u8>, word: &str, entry: &ExportEntry) -> Result<(), NoMemory>
    ensures { OnOk result (out.new.items ≡ out.old.items ++ export_line word.now entry.now) }
{
    write_text(out, word)?;
    write_labelled(out, " ", entry.statement_span)?;
    write_labelled(out, " ", entry.span)?;
    write_text(out, " request ")?;
    write_specifier(out, &entry.module_request)?;
    write_names(out, entry)
}

/// Writes an `import()`.
fn write_dynamic(out: &mut Vec<u8>, import: DynamicImport) -> Result<(), NoMemory>
    ensures { OnOk result (out.new.items ≡ out.old.items ++ dynamic_line import) }
{
    write_text(out, "dynamic ")?;
    import.span.write(out)?;
    write_text(out, " request ")?;
    import.module_request.write(out)?;
    write_text(out, "\n")
}

/// Writes a word and a place as a line.
fn write_place(out: &mut Vec<u8>, word: &str, span: Span) -> Result<(), NoMemory>
    ensures { OnOk result (out.new.items ≡ out.old.items ++ (word.now ++ (span_text span ++ codes "\n"))) }
{
    write_text(out, word)?;
    span.write(out)?;
    write_text(out, "\n")
}

/// Writes the occurrences of one module specifier.
fn write_occurrences(out: &mut Vec<u8>, occurrences: &RequestedModules) -> Result<(), NoMemory>
    ensures { OnOk result (out.new.items ≡ out.old.items ++ flat_map request_line occurrences.now) }
{
    for i in 0..occurrences.len() {
        write_requested(out, occurrences[i])?;
    }
    Ok(())
}

/// Writes the module specifiers.
fn write_modules(
    out: &mut Vec<u8>,
    modules: &IndexMap<Text, RequestedModules>,
) -> Result<(), NoMemory>
    ensures { OnOk result (out.new.items ≡ out.old.items ++ flat_map (λ e. flat_map request_line e.1) modules.now.entries) }
{
    for i in 0..modules.len() {
        if let Some((_, occurrences)) = modules.get_index(i) {
            write_occurrences(out, occurrences)?;
        }
    }
    Ok(())
}

/// Writes the names that are exported.
fn write_bindings(out: &mut Vec<u8>, bindings: &IndexMap<Text, Span>) -> Result<(), NoMemory>
    ensures { OnOk result (out.new.items ≡ out.old.items ++ flat_map binding_line bindings.now.entries) }
{
    for i in 0..bindings.len() {
        if let Some((_, span)) = bindings.get_index(i) {
            write_place(out, "exported ", *span)?;
        }
    }
    Ok(())
}

/// Writes import entries.
fn write_imports(out: &mut Vec<u8>, entries: &ImportEntries) -> Result<(), NoMemory>
    ensures { OnOk result (out.new.items ≡ out.old.items ++ flat_map import_line entries.now) }
{
    for i in 0..entries.len() {
        write_import(out, &entries[i])?;
    }
    Ok(())
}

/// Writes a list of export entries.
fn write_exports(out: &mut Vec<u8>, word: &str, entries: &ExportEntries) -> Result<(), NoMemory>
    ensures { OnOk result (out.new.items ≡ out.old.items ++ flat_map (export_line word.now) entries.now) }
{
    for i in 0..entries.len() {
        write_export(out, word, &entries[i])?;
    }
    Ok(())
}

/// Writes each `import()`.
fn write_dynamics(out: &mut Vec<u8>, imports: &DynamicImports) -> Result<(), NoMemory>
    ensures { OnOk result (out.new.items ≡ out.old.items ++ flat_map dynamic_line imports.now) }
{
    for i in 0..imports.len() {
        write_dynamic(out, imports[i])?;
    }
    Ok(())
}

/// Writes each `import.meta`.
fn write_metas(out: &mut Vec<u8>, metas: &Spans) -> Result<(), NoMemory>
    ensures { OnOk result (out.new.items ≡ out.old.items ++ flat_map meta_line metas.now) }
{
    for i in 0..metas.len() {
        write_place(out, "meta ", metas[i])?;
    }
    Ok(())
}

impl ModuleRecord {
    /// The lines of the record, each ended by LF: whether the text has what modules alone have; the occurrences of each
    /// module specifier; the exported names; the import entries; the local, the indirect and the star export entries;
    /// each `import()`; each `import.meta`. The only error is want of memory.
    pub fn record_lines(&self, alloc: Global) -> Result<Vec<u8>, NoMemory>
        ensures { IfOk result (λ bytes. bytes.items ≡ record_text self.now) }
    {
        let mut out = Vec::new(alloc);
        write_syntax(&mut out, self.has_module_syntax)?;
        write_modules(&mut out, &self.requested_modules)?;
        write_bindings(&mut out, &self.exported_bindings)?;
        write_imports(&mut out, &self.import_entries)?;
        write_exports(&mut out, "local", &self.local_export_entries)?;
        write_exports(&mut out, "indirect", &self.indirect_export_entries)?;
        write_exports(&mut out, "star", &self.star_export_entries)?;
        write_dynamics(&mut out, &self.dynamic_imports)?;
        write_metas(&mut out, &self.import_metas)?;
        Ok(out)
    }
}
