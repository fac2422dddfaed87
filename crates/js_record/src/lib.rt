//! Module records (ECMA-262, 16.2.1.7): what the import and export declarations of a module tell.
#![tactic(auto)]

mod builder;
mod default_word;
mod distinct;
mod lines;
mod placing;
mod reading;
mod record;
mod visiting;
mod walking;

pub use builder::ModuleVisits;
pub use part_visits::{
    DynamicImport, DynamicImports, ExportEntries, ExportEntry, ExportExportName, ExportImportName,
    ExportLocalName, ImportEntries, ImportEntry, ImportImportName, ModuleRecordBuilder, NameSpan,
    RequestedModule, RequestedModules,
};
pub use record::ModuleRecord;
pub use walking::record_of_program;
