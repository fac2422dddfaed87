//! The names of import and export entries.

use js_base::{Span, Text};
use std::marker::Model;

/// A name or a module specifier, decoded, and where it stands.
#[derive(Drop)]
pub struct NameSpan {
    /// Its characters, each escape in it for the character that it names.
    pub name: Text,
    /// The bytes that it covers, the quotes of a string included.
    pub span: Span,
}

impl Model for NameSpan {
    ghost use Rattle.js_grammar.specs.ModuleRecords.{NameSpan as Named};

    ghost Value = { Named };

    ghost view = { λ n. record { name = n.name; span = n.span } };
}

/// What an import takes from its module: \[\[ImportName\]\] of an import entry (ECMA-262, 16.2.1.7).
#[derive(Drop)]
pub enum ImportImportName {
    /// The export of this name.
    Name(NameSpan),
    /// All of it: `* as`.
    NamespaceObject,
    /// Its default export; where the specifier stands.
    Default(Span),
}

/// What an export takes from another module: \[\[ImportName\]\] of an export entry.
#[derive(Drop)]
pub enum ExportImportName {
    /// The export of this name.
    Name(NameSpan),
    /// All of it, under a name: `* as`.
    All,
    /// All exports but the default one: `*`.
    AllButDefault,
    /// Nothing: it exports what the module itself has.
    Null,
}

/// The name under which something is exported: \[\[ExportName\]\] of an export entry.
#[derive(Drop)]
pub enum ExportExportName {
    /// This name.
    Name(NameSpan),
    /// `default`, by `export default`; where the word stands.
    Default(Span),
    /// None: `export *`.
    Null,
}

/// The name that an export has in its own module: \[\[LocalName\]\] of an export entry.
#[derive(Drop)]
pub enum ExportLocalName {
    /// This name.
    Name(NameSpan),
    /// The name that stands behind `export default`, which is an expression.
    Default(NameSpan),
    /// None.
    Null,
}
