//! What a node adds to a record, by its children (ECMA-262, 16.2.2, 16.2.3).

ghost use Rattle.std.specs.Prelude.{◌≡◌, ◌<◌, ◌∷◌, length, map, IfOk, Some, All};
ghost use Rattle.std.specs.List.{flat_map};
ghost use Rattle.std.specs.Prelude.{[], None};
ghost use Rattle.js_grammar.specs.Modules as def;
ghost use Rattle.js_grammar.specs.NodeNames.{span_of};
ghost use Rattle.js_grammar.specs.Modules.{syntax, defaults_of, declared_entry, named};
ghost use Rattle.js_grammar.specs.BoundNames.{bound_names};
ghost use Rattle.js_tree.specs.Labels.{kind_of};
ghost use Rattle.js_tree.specs.Nodes.{node_at};
ghost use Rattle.part_visits.specs.Names.{local_name_of};
ghost use Rattle.js_record.specs.Shown.{label_at, ids_of, IsNear, IsDeep, first_shown, second_shown, import_shown, name_shown, own_shown, from_shown, import_by, import_part_shown, export_named_shown, export_from_by, export_from_shown, export_all_by, export_all_shown, export_default_by, export_default_shown, import_call_shown, IsBelow, IsGood, IsRead, IsReadWhole, OfTree};

use crate::reading::{first, first_name, name_of, optional_name, rest, second_name, specifier_of};
use js_base::{NoMemory, Span};
use js_tree::{NodeId, NodeKind, ParserAstBuilder};
use part_visits::{
    Copied, DynamicImport, ExportEntry, ExportExportName, ExportImportName, ExportLocalName,
    ImportEntry, ImportImportName, NameSpan, Part, Request, RequestedModule,
};
use std::alloc::Global;

/// The occurrence of a module specifier in a declaration.
fn request(
    alloc: Global,
    statement: Span,
    is_import: bool,
    specifier: &NameSpan,
) -> Result<Request, NoMemory>
    ensures { IfOk result (λ r. r ≡ def.request statement is_import specifier.now) }
{
    let NameSpan { name, span } = specifier.copied(alloc)?;
    let occurrence = RequestedModule {
        statement_span: statement,
        span,
        is_import,
    };
    Ok(Request { name, occurrence })
}

/// The import entry of a specifier of an import declaration.
fn import_entry(
    alloc: Global,
    tree: &ParserAstBuilder,
    source: &str,
    statement: Span,
    request: &NameSpan,
    id: NodeId,
) -> Result<ImportEntry, NoMemory>
    requires { IsDeep tree.now source.now (Some id) }
    ensures { IfOk result (λ e. e ≡ def.import_entry statement request.now (label_at tree.now id) (first_shown tree.now source.now (ids_of tree.now id)) (second_shown tree.now source.now (ids_of tree.now id))) }
{
    let slots = tree.children(id);
    let first = first_name(alloc, tree, source, slots)?;
    let (import_name, local_name) = match tree.kind(id) {
        NodeKind::ImportDefaultSpecifier => (ImportImportName::Default(tree.span(id)), first),
        NodeKind::ImportNamespaceSpecifier => (ImportImportName::NamespaceObject, first),
        _ => {
            let local = second_name(alloc, tree, source, slots)?;
            (ImportImportName::Name(first), local)
        }
    };
    let module_request = request.copied(alloc)?;
    Ok(ImportEntry {
        statement_span: statement,
        module_request,
        import_name,
        local_name,
    })
}

/// The import entries of the specifiers of an import declaration.
fn import_entries(
    alloc: Global,
    tree: &ParserAstBuilder,
    source: &str,
    statement: Span,
    request: &NameSpan,
    slots: &[Option<NodeId>],
) -> Result<Vec<ImportEntry>, NoMemory>
    requires { All (IsDeep tree.now source.now) slots.now }
    ensures { IfOk result (λ es. es.items ≡ flat_map (import_shown tree.now source.now statement request.now) slots.now) }
{
    let mut entries = Vec::new(alloc);
    for slot in slots {
        if let Some(id) = slot {
            entries.push(import_entry(alloc, tree, source, statement, request, *id)?)?;
        }
    }
    Ok(entries)
}

/// The names that the specifiers of an export declaration export.
fn exported_names(
    alloc: Global,
    tree: &ParserAstBuilder,
    source: &str,
    slots: &[Option<NodeId>],
) -> Result<Vec<NameSpan>, NoMemory>
    requires { All (IsDeep tree.now source.now) slots.now }
    ensures { IfOk result (λ names. names.items ≡ flat_map (name_shown tree.now source.now) slots.now) }
{
    let mut names = Vec::new(alloc);
    for slot in slots {
        if let Some(id) = slot {
            names.push(second_name(alloc, tree, source, tree.children(*id))?)?;
        }
    }
    Ok(names)
}

/// The entry of an export of what the module itself has.
fn own_entry(statement: Span, span: Span, name: NameSpan, own: NameSpan) -> ExportEntry
    ensures { result ≡ def.own_entry statement span name own }
{
    ExportEntry {
        statement_span: statement,
        span,
        module_request: None,
        import_name: ExportImportName::Null,
        export_name: ExportExportName::Name(name),
        local_name: ExportLocalName::Name(own),
    }
}

/// The export entries of the specifiers of an export declaration without a module specifier.
fn own_entries(
    alloc: Global,
    tree: &ParserAstBuilder,
    source: &str,
    statement: Span,
    slots: &[Option<NodeId>],
) -> Result<Vec<ExportEntry>, NoMemory>
    requires { All (IsDeep tree.now source.now) slots.now }
    ensures { IfOk result (λ es. es.items ≡ flat_map (own_shown tree.now source.now statement) slots.now) }
{
    let mut entries = Vec::new(alloc);
    for slot in slots {
        if let Some(id) = slot {
            let slots = tree.children(*id);
            let name = second_name(alloc, tree, source, slots)?;
            let own = first_name(alloc, tree, source, slots)?;
            entries.push(own_entry(statement, tree.span(*id), name, own))?;
        }
    }
    Ok(entries)
}

/// The export entry of a specifier of an export declaration with a module specifier.
fn from_entry(
    alloc: Global,
    tree: &ParserAstBuilder,
    source: &str,
    statement: Span,
    request: &NameSpan,
    id: NodeId,
) -> Result<ExportEntry, NoMemory>
    requires { IsDeep tree.now source.now (Some id) }
    ensures { IfOk result (λ e. e ≡ def.from_entry statement (span_of (label_at tree.now id)) request.now (second_shown tree.now source.now (ids_of tree.now id)) (first_shown tree.now source.now (ids_of tree.now id))) }
{
    let slots = tree.children(id);
    let name = second_name(alloc, tree, source, slots)?;
    let own = first_name(alloc, tree, source, slots)?;
    let module_request = request.copied(alloc)?;
    Ok(ExportEntry {
        statement_span: statement,
        span: tree.span(id),
        module_request: Some(module_request),
        import_name: ExportImportName::Name(own),
        export_name: ExportExportName::Name(name),
        local_name: ExportLocalName::Null,
    })
}

/// The export entries of the specifiers of an export declaration with a module specifier.
fn from_entries(
    alloc: Global,
    tree: &ParserAstBuilder,
    source: &str,
    statement: Span,
    request: &NameSpan,
    slots: &[Option<NodeId>],
) -> Result<Vec<ExportEntry>, NoMemory>
    requires { All (IsDeep tree.now source.now) slots.now }
    ensures { IfOk result (λ es. es.items ≡ flat_map (from_shown tree.now source.now statement request.now) slots.now) }
{
    let mut entries = Vec::new(alloc);
    for slot in slots {
        if let Some(id) = slot {
            entries.push(from_entry(alloc, tree, source, statement, request, *id)?)?;
        }
    }
    Ok(entries)
}

/// The places of `default` among names.
fn default_places(alloc: Global, names: &Vec<NameSpan>) -> Result<Vec<Span>, NoMemory>
    ensures { IfOk result (λ places. places.items ≡ defaults_of names.now.items) }
{
    let mut places = Vec::new(alloc);
    for name in names {
        if name.name.as_str() == "default" {
            places.push(name.span)?;
        }
    }
    Ok(places)
}

/// What an import declaration of this module specifier and these specifiers adds.
fn of_import(
    alloc: Global,
    tree: &ParserAstBuilder,
    source: &str,
    statement: Span,
    target: NodeId,
    specifiers: &[Option<NodeId>],
) -> Result<Part, NoMemory>
    requires target { IsNear tree.now source.now (Some target) }
    requires deep { All (IsDeep tree.now source.now) specifiers.now }
    ensures { IfOk result (λ p. p ≡ import_by tree.now source.now statement (Some target) specifiers.now) }
{
    let Some(specifier) = specifier_of(alloc, tree, source, target)? else {
        return Ok(Part::syntax(alloc));
    };
    let imports = import_entries(alloc, tree, source, statement, &specifier, specifiers)?;
    let request = request(alloc, statement, true, &specifier)?;
    let mut part = Part::syntax(alloc);
    part.imports = imports;
    part.requests.push(request)?;
    Ok(part)
}

/// What an import declaration adds.
pub(crate) fn import_part(
    alloc: Global,
    tree: &ParserAstBuilder,
    source: &str,
    id: NodeId,
) -> Result<Part, NoMemory>
    requires contained { id.0 < length tree.now }
    requires deep { All (IsDeep tree.now source.now) (ids_of tree.now id) }
    ensures { IfOk result (λ p. p ≡ import_part_shown tree.now source.now (node_at tree.now id).span (ids_of tree.now id)) }
{
    let slots = tree.children(id);
    let specifiers = rest(rest(slots));
    match first(slots) {
        Some(target) => of_import(alloc, tree, source, tree.span(id), target, specifiers),
        None => Ok(Part::syntax(alloc)),
    }
}

/// What an export declaration of names adds.
pub(crate) fn export_named_part(
    alloc: Global,
    tree: &ParserAstBuilder,
    source: &str,
    id: NodeId,
) -> Result<Part, NoMemory>
    requires contained { id.0 < length tree.now }
    requires deep { All (IsDeep tree.now source.now) (ids_of tree.now id) }
    ensures { IfOk result (λ p. p ≡ export_named_shown tree.now source.now (node_at tree.now id).span (ids_of tree.now id)) }
{
    let slots = tree.children(id);
    let exports = own_entries(alloc, tree, source, tree.span(id), slots)?;
    let bindings = exported_names(alloc, tree, source, slots)?;
    let mut part = Part::syntax(alloc);
    part.exports = exports;
    part.bindings = bindings;
    Ok(part)
}

/// What an export declaration with a module specifier adds, whose names are exported by these entries.
fn of_export_from(
    alloc: Global,
    statement: Span,
    specifier: &NameSpan,
    exports: Vec<ExportEntry>,
    bindings: Vec<NameSpan>,
) -> Result<Part, NoMemory>
    ensures { IfOk result (λ p. p ≡ def.of_export_from statement (Some specifier.now) (λ _. exports.items) bindings.items) }
{
    let request = request(alloc, statement, false, specifier)?;
    let mut part = Part::syntax(alloc);
    part.exports = exports;
    part.requests.push(request)?;
    part.bindings = bindings;
    Ok(part)
}

/// What an export declaration adds whose module specifier has a lone surrogate: the names alone.
fn of_names(alloc: Global, statement: Span, bindings: Vec<NameSpan>) -> Result<Part, NoMemory>
    ensures { IfOk result (λ p. p ≡ def.of_export_from statement None (λ _. []) bindings.items) }
{
    let skipped_defaults = default_places(alloc, &bindings)?;
    let mut part = Part::syntax(alloc);
    part.bindings = bindings;
    part.skipped_defaults = skipped_defaults;
    Ok(part)
}

/// What an export declaration of names of another module adds, with this module specifier and these specifiers.
fn of_export_names(
    alloc: Global,
    tree: &ParserAstBuilder,
    source: &str,
    statement: Span,
    target: NodeId,
    specifiers: &[Option<NodeId>],
) -> Result<Part, NoMemory>
    requires target { IsNear tree.now source.now (Some target) }
    requires deep { All (IsDeep tree.now source.now) specifiers.now }
    ensures { IfOk result (λ p. p ≡ export_from_by tree.now source.now statement (Some target) specifiers.now) }
{
    let bindings = exported_names(alloc, tree, source, specifiers)?;
    let Some(specifier) = specifier_of(alloc, tree, source, target)? else {
        return of_names(alloc, statement, bindings);
    };
    let exports = from_entries(alloc, tree, source, statement, &specifier, specifiers)?;
    of_export_from(alloc, statement, &specifier, exports, bindings)
}

/// What an export declaration of names of another module adds.
pub(crate) fn export_from_part(
    alloc: Global,
    tree: &ParserAstBuilder,
    source: &str,
    id: NodeId,
) -> Result<Part, NoMemory>
    requires contained { id.0 < length tree.now }
    requires deep { All (IsDeep tree.now source.now) (ids_of tree.now id) }
    ensures { IfOk result (λ p. p ≡ export_from_shown tree.now source.now (node_at tree.now id).span (ids_of tree.now id)) }
{
    let slots = tree.children(id);
    let specifiers = rest(rest(slots));
    match first(slots) {
        Some(target) => of_export_names(alloc, tree, source, tree.span(id), target, specifiers),
        None => Ok(Part::syntax(alloc)),
    }
}

/// The entry of `export *`, under a name where there is one.
fn star_entry(
    alloc: Global,
    statement: Span,
    specifier: &NameSpan,
    names: &Vec<NameSpan>,
) -> Result<ExportEntry, NoMemory>
    ensures { IfOk result (λ e. e ≡ def.star_entry statement specifier.now names.now.items) }
{
    let module_request = Some(specifier.copied(alloc)?);
    let (import_name, export_name) = match names.first() {
        Some(name) => (
            ExportImportName::All,
            ExportExportName::Name(name.copied(alloc)?),
        ),
        None => (ExportImportName::AllButDefault, ExportExportName::Null),
    };
    Ok(ExportEntry {
        statement_span: statement,
        span: statement,
        module_request,
        import_name,
        export_name,
        local_name: ExportLocalName::Null,
    })
}

/// The export entry of `export *`, alone in a list.
fn star_entries(
    alloc: Global,
    statement: Span,
    specifier: &NameSpan,
    names: &Vec<NameSpan>,
) -> Result<Vec<ExportEntry>, NoMemory>
    ensures { IfOk result (λ es. es.items ≡ def.star_entry statement specifier.now names.now.items ∷ []) }
{
    let entry = star_entry(alloc, statement, specifier, names)?;
    let mut entries = Vec::new(alloc);
    entries.push(entry)?;
    Ok(entries)
}

/// What `export *` with this module specifier adds, under these names: one or none.
fn of_export_all(
    alloc: Global,
    tree: &ParserAstBuilder,
    source: &str,
    statement: Span,
    target: NodeId,
    names: Vec<NameSpan>,
) -> Result<Part, NoMemory>
    requires target { IsNear tree.now source.now (Some target) }
    ensures { IfOk result (λ p. p ≡ export_all_by tree.now source.now statement names.items (Some target)) }
{
    let Some(specifier) = specifier_of(alloc, tree, source, target)? else {
        return of_names(alloc, statement, names);
    };
    let exports = star_entries(alloc, statement, &specifier, &names)?;
    of_export_from(alloc, statement, &specifier, exports, names)
}

/// What `export *` adds.
pub(crate) fn export_all_part(
    alloc: Global,
    tree: &ParserAstBuilder,
    source: &str,
    id: NodeId,
) -> Result<Part, NoMemory>
    requires contained { id.0 < length tree.now }
    requires near { All (IsNear tree.now source.now) (ids_of tree.now id) }
    ensures { IfOk result (λ p. p ≡ export_all_shown tree.now source.now (node_at tree.now id).span (ids_of tree.now id)) }
{
    let slots = tree.children(id);
    match first(rest(slots)) {
        Some(target) => {
            let names = optional_name(alloc, tree, source, slots)?;
            of_export_all(alloc, tree, source, tree.span(id), target, names)
        }
        None => Ok(Part::syntax(alloc)),
    }
}

/// The name in its own module of what `export default` exports: of a node of this kind, with this name and these names
/// of its own.
fn default_name(kind: NodeKind, itself: NameSpan, names: Vec<NameSpan>) -> ExportLocalName
    ensures { local_name_of result ≡ def.default_name (kind_of kind) itself names.items }
{
    match kind {
        NodeKind::FunctionDeclaration | NodeKind::ClassDeclaration => {
            match names.into_iter().next() {
                Some(name) => ExportLocalName::Name(name),
                None => ExportLocalName::Null,
            }
        }
        NodeKind::IdentifierReference => ExportLocalName::Default(itself),
        _ => ExportLocalName::Null,
    }
}

/// What an export declaration of one entry adds.
fn of_entry(alloc: Global, entry: ExportEntry) -> Result<Part, NoMemory>
    ensures { IfOk result (λ p. p ≡ record syntax { exports = entry ∷ [] }) }
{
    let mut part = Part::syntax(alloc);
    part.exports.push(entry)?;
    Ok(part)
}

/// What `export default` of this declaration or expression adds.
fn of_export_default(
    alloc: Global,
    tree: &ParserAstBuilder,
    source: &str,
    statement: Span,
    word: Span,
    id: NodeId,
) -> Result<Part, NoMemory>
    requires { IsDeep tree.now source.now (Some id) }
    ensures { IfOk result (λ p. p ≡ export_default_by tree.now source.now statement word (Some id)) }
{
    let itself = name_of(alloc, tree, source, id)?;
    let names = optional_name(alloc, tree, source, tree.children(id))?;
    let local_name = default_name(tree.kind(id), itself, names);
    let entry = ExportEntry {
        statement_span: statement,
        span: tree.span(id),
        module_request: None,
        import_name: ExportImportName::Null,
        export_name: ExportExportName::Default(word),
        local_name,
    };
    of_entry(alloc, entry)
}

/// What `export default` adds, with the place of the word `default`.
pub(crate) fn export_default_part(
    alloc: Global,
    tree: &ParserAstBuilder,
    source: &str,
    id: NodeId,
    word: Span,
) -> Result<Part, NoMemory>
    requires contained { id.0 < length tree.now }
    requires deep { All (IsDeep tree.now source.now) (ids_of tree.now id) }
    ensures { IfOk result (λ p. p ≡ export_default_shown tree.now source.now (node_at tree.now id).span word (ids_of tree.now id)) }
{
    match first(tree.children(id)) {
        Some(child) => of_export_default(alloc, tree, source, tree.span(id), word, child),
        None => Ok(Part::syntax(alloc)),
    }
}

/// What an `import()` adds.
pub(crate) fn import_call_part(
    alloc: Global,
    tree: &ParserAstBuilder,
    id: NodeId,
) -> Result<Part, NoMemory>
    requires contained { id.0 < length tree.now }
    requires children { All (IsBelow tree.now) (ids_of tree.now id) }
    ensures { IfOk result (λ p. p ≡ import_call_shown tree.now (node_at tree.now id).span (ids_of tree.now id)) }
{
    let mut part = Part::nothing(alloc);
    if let Some(specifier) = first(tree.children(id)) {
        part.dynamic.push(DynamicImport {
            span: tree.span(id),
            module_request: tree.span(specifier),
        })?;
    }
    Ok(part)
}

/// The names of nodes.
fn names_of(
    alloc: Global,
    tree: &ParserAstBuilder,
    source: &str,
    ids: &Vec<NodeId>,
) -> Result<Vec<NameSpan>, NoMemory>
    requires { All (IsGood tree.now source.now) ids.now.items }
    ensures { IfOk result (λ names. names.items ≡ map (λ id. named source.now (label_at tree.now id)) ids.now.items) }
{
    let mut names = Vec::new(alloc);
    for id in ids {
        names.push(name_of(alloc, tree, source, *id)?)?;
    }
    Ok(names)
}

/// The bound names of a declaration (ECMA-262, 8.2.1).
fn bound_names(
    alloc: Global,
    tree: &ParserAstBuilder,
    source: &str,
    id: NodeId,
) -> Result<Vec<NameSpan>, NoMemory>
    requires { IsReadWhole tree.now source.now id }
    ensures { IfOk result (λ names. OfTree tree.now id (λ l cs. names.items ≡ map (named source.now) (bound_names l cs))) }
{
    let ids = tree.bound_names(alloc, id)?;
    names_of(alloc, tree, source, &ids)
}

/// The export entry of a name that a declaration binds.
fn declared_entry(
    alloc: Global,
    statement: Span,
    declaration: Span,
    name: &NameSpan,
) -> Result<ExportEntry, NoMemory>
    ensures { IfOk result (λ e. e ≡ declared_entry statement declaration name.now) }
{
    let own = name.copied(alloc)?;
    let exported = name.copied(alloc)?;
    Ok(own_entry(statement, declaration, exported, own))
}

/// The export entries of the names that an exported declaration binds.
fn declared_entries(
    alloc: Global,
    statement: Span,
    declaration: Span,
    names: &Vec<NameSpan>,
) -> Result<Vec<ExportEntry>, NoMemory>
    ensures { IfOk result (λ es. es.items ≡ map (declared_entry statement declaration) names.now.items) }
{
    let mut entries = Vec::new(alloc);
    for name in names {
        entries.push(declared_entry(alloc, statement, declaration, name)?)?;
    }
    Ok(entries)
}

/// What an exported declaration adds that binds these names.
fn of_export_declaration(
    alloc: Global,
    statement: Span,
    declaration: Span,
    names: Vec<NameSpan>,
) -> Result<Part, NoMemory>
    ensures { IfOk result (λ p. p ≡ def.of_export_declaration statement declaration names.items) }
{
    let exports = declared_entries(alloc, statement, declaration, &names)?;
    let mut part = Part::syntax(alloc);
    part.exports = exports;
    part.bindings = names;
    Ok(part)
}

/// What an exported declaration adds.
pub(crate) fn export_declaration_part(
    alloc: Global,
    tree: &ParserAstBuilder,
    source: &str,
    id: NodeId,
) -> Result<Part, NoMemory>
    requires contained { id.0 < length tree.now }
    requires read { IsRead tree.now source.now id }
    ensures { IfOk result (λ p. OfTree tree.now id (λ l cs. p ≡ def.export_declaration_part source.now l cs)) }
{
    match first(tree.children(id)) {
        Some(child) => {
            let names = bound_names(alloc, tree, source, child)?;
            of_export_declaration(alloc, tree.span(id), tree.span(child), names)
        }
        None => Ok(Part::syntax(alloc)),
    }
}
