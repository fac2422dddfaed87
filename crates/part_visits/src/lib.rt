//! What the import and export declarations of a module add to its record (ECMA-262, 16.2.1.7), kept as long as the module
//! is being read.
#![tactic(auto)]

mod builder;
mod copied;
mod entry;
mod name;
mod part;

pub use builder::ModuleRecordBuilder;
pub use copied::Copied;
pub use entry::{
    DynamicImport, DynamicImports, ExportEntries, ExportEntry, ImportEntries, ImportEntry,
    RequestedModule, RequestedModules,
};
pub use name::{ExportExportName, ExportImportName, ExportLocalName, ImportImportName, NameSpan};
pub use part::{Part, Request, listed};
