//! Import and export entries, requests of modules, and dynamic imports.

ghost use Rattle.std.specs.Prelude.{◌≡◌, option_map};
ghost use Rattle.js_grammar.specs.ModuleRecords.{default_places, asked_names};
ghost use Rattle.part_visits.specs.Options.{places_of};

use crate::name::{
    ExportExportName, ExportImportName, ExportLocalName, ImportImportName, NameSpan,
};
use js_base::{List, Span};
use std::marker::Model;

/// An import of an import declaration: an ImportEntry Record (ECMA-262, 16.2.1.7).
#[derive(Drop)]
pub struct ImportEntry {
    /// The whole declaration.
    pub statement_span: Span,
    /// The module specifier.
    pub module_request: NameSpan,
    /// What is taken from the module.
    pub import_name: ImportImportName,
    /// The name that it has here.
    pub local_name: NameSpan,
}

impl Model for ImportEntry {
    ghost use Rattle.js_grammar.specs.ModuleRecords.{ImportEntry as Entry};

    ghost Value = { Entry };

    ghost use Rattle.part_visits.specs.Names.{import_name_of};

    ghost view = { λ e. record { statement_span = e.statement_span; module_request = e.module_request; import_name = import_name_of e.import_name; local_name = e.local_name } };
}

impl ImportEntry {
    /// The name that it has in this module.
    pub fn local_text(&self) -> &str
        ensures { result.now ≡ self.now.local_name.name }
    {
        self.local_name.name.as_str()
    }
}

/// An export of an export declaration: an ExportEntry Record (ECMA-262, 16.2.1.7).
#[derive(Drop)]
pub struct ExportEntry {
    /// The whole declaration; where a name is imported and exported again, the import declaration.
    pub statement_span: Span,
    /// The specifier, or the declaration that is exported, or the whole of `export *`.
    pub span: Span,
    /// The module specifier, where there is one.
    pub module_request: Option<NameSpan>,
    /// What is taken from that module.
    pub import_name: ExportImportName,
    /// The name under which it is exported.
    pub export_name: ExportExportName,
    /// The name that it has here.
    pub local_name: ExportLocalName,
}

impl Model for ExportEntry {
    ghost use Rattle.js_grammar.specs.ModuleRecords.{ExportEntry as Entry};

    ghost Value = { Entry };

    ghost use Rattle.part_visits.specs.Names.{taken_name_of, export_name_of, local_name_of};

    ghost view = { λ e. record { statement_span = e.statement_span; span = e.span; module_request = e.module_request; import_name = taken_name_of e.import_name; export_name = export_name_of e.export_name; local_name = local_name_of e.local_name } };
}

impl ExportEntry {
    /// The name by which another module asks for it; none of `export *`.
    pub fn asked_name(&self) -> Option<&str>
        ensures { asked_names self.now.export_name ≡ places_of (option_map (λ s. s.now) result) }
    {
        match &self.export_name {
            ExportExportName::Name(name) => Some(name.name.as_str()),
            ExportExportName::Default(_) => Some("default"),
            ExportExportName::Null => None,
        }
    }

    /// Where `default` stands, if it is exported as that: the word, or a name.
    pub fn default_place(&self) -> Option<Span>
        ensures { default_places self.now.export_name ≡ places_of result }
    {
        match &self.export_name {
            ExportExportName::Default(span) => Some(*span),
            ExportExportName::Name(name) => {
                if name.name.as_str() == "default" {
                    Some(name.span)
                } else {
                    None
                }
            }
            ExportExportName::Null => None,
        }
    }
}

/// An occurrence of a module specifier (ECMA-262, 16.2.1.5).
#[derive(Debug, Clone, Copy, PartialEq, Eq)]
pub struct RequestedModule {
    /// The whole declaration.
    pub statement_span: Span,
    /// The specifier, a string literal.
    pub span: Span,
    /// Whether it is an import declaration.
    pub is_import: bool,
}

impl Model for RequestedModule {
    ghost use Rattle.js_grammar.specs.ModuleRecords.{RequestedModule as Requested};

    ghost Value = { Requested };

    ghost view = { λ r. record { statement_span = r.statement_span; span = r.span; is_import = r.is_import } };

    ghost inverse = { λ r. record { statement_span = r.statement_span; span = r.span; is_import = r.is_import } };
}

/// An `import()` (ECMA-262, 13.3.10).
#[derive(Debug, Clone, Copy, PartialEq, Eq)]
pub struct DynamicImport {
    /// All of it.
    pub span: Span,
    /// The expression that gives the module specifier.
    pub module_request: Span,
}

impl Model for DynamicImport {
    ghost use Rattle.js_grammar.specs.ModuleRecords.{DynamicImport as Dynamic};

    ghost Value = { Dynamic };

    ghost view = { λ d. record { span = d.span; module_request = d.module_request } };

    ghost inverse = { λ d. record { span = d.span; module_request = d.module_request } };
}

/// A list of import entries.
pub type ImportEntries = List<ImportEntry>;

/// A list of export entries.
pub type ExportEntries = List<ExportEntry>;

/// A list of occurrences of one module specifier.
pub type RequestedModules = List<RequestedModule>;

/// A list of dynamic imports.
pub type DynamicImports = List<DynamicImport>;
