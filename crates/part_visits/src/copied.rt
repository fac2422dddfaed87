//! Copies in memory of their own.

ghost use Rattle.std.specs.Prelude.{◌≡◌, IfOk};

use crate::entry::{DynamicImport, ExportEntry, ImportEntry};
use crate::name::{
    ExportExportName, ExportImportName, ExportLocalName, ImportImportName, NameSpan,
};
use crate::part::{Part, Request};
use js_base::{NoMemory, Span, Text};
use std::alloc::Global;

/// What can be copied; the only error is want of memory.
pub trait Copied: Drop + Sized {
    /// The same, in memory of its own.
    fn copied(&self, alloc: Global) -> Result<Self, NoMemory>
        ensures { IfOk result (λ copy. copy ≡ self.now) };
}

/// Copies of all items, in their order.
pub fn copies<T: Copied>(alloc: Global, items: &Vec<T>) -> Result<Vec<T>, NoMemory>
    ensures { IfOk result (λ all. all.items ≡ items.now.items) }
{
    let mut all = Vec::new(alloc);
    for item in items {
        all.push(item.copied(alloc)?)?;
    }
    Ok(all)
}

impl Copied for Span {
    fn copied(&self, _alloc: Global) -> Result<Self, NoMemory> {
        Ok(*self)
    }
}

impl Copied for DynamicImport {
    fn copied(&self, _alloc: Global) -> Result<Self, NoMemory> {
        Ok(*self)
    }
}

impl Copied for NameSpan {
    fn copied(&self, alloc: Global) -> Result<Self, NoMemory> {
        let name = Text::from_str(alloc, self.name.as_str())?;
        let span = self.span;
        Ok(NameSpan { name, span })
    }
}

impl Copied for ImportImportName {
    fn copied(&self, alloc: Global) -> Result<Self, NoMemory> {
        match self {
            ImportImportName::Name(name) => Ok(ImportImportName::Name(name.copied(alloc)?)),
            ImportImportName::NamespaceObject => Ok(ImportImportName::NamespaceObject),
            ImportImportName::Default(span) => Ok(ImportImportName::Default(*span)),
        }
    }
}

impl Copied for ExportImportName {
    fn copied(&self, alloc: Global) -> Result<Self, NoMemory> {
        match self {
            ExportImportName::Name(name) => Ok(ExportImportName::Name(name.copied(alloc)?)),
            ExportImportName::All => Ok(ExportImportName::All),
            ExportImportName::AllButDefault => Ok(ExportImportName::AllButDefault),
            ExportImportName::Null => Ok(ExportImportName::Null),
        }
    }
}

impl Copied for ExportExportName {
    fn copied(&self, alloc: Global) -> Result<Self, NoMemory> {
        match self {
            ExportExportName::Name(name) => Ok(ExportExportName::Name(name.copied(alloc)?)),
            ExportExportName::Default(span) => Ok(ExportExportName::Default(*span)),
            ExportExportName::Null => Ok(ExportExportName::Null),
        }
    }
}

impl Copied for ExportLocalName {
    fn copied(&self, alloc: Global) -> Result<Self, NoMemory> {
        match self {
            ExportLocalName::Name(name) => Ok(ExportLocalName::Name(name.copied(alloc)?)),
            ExportLocalName::Default(name) => Ok(ExportLocalName::Default(name.copied(alloc)?)),
            ExportLocalName::Null => Ok(ExportLocalName::Null),
        }
    }
}

impl Copied for ImportEntry {
    fn copied(&self, alloc: Global) -> Result<Self, NoMemory> {
        let module_request = self.module_request.copied(alloc)?;
        let import_name = self.import_name.copied(alloc)?;
        let local_name = self.local_name.copied(alloc)?;
        Ok(ImportEntry {
            statement_span: self.statement_span,
            module_request,
            import_name,
            local_name,
        })
    }
}

/// A copy of a name, where there is one.
fn copied_request(alloc: Global, request: &Option<NameSpan>) -> Result<Option<NameSpan>, NoMemory>
    ensures { IfOk result (λ copy. copy ≡ request.now) }
{
    match request {
        None => Ok(None),
        Some(name) => Ok(Some(name.copied(alloc)?)),
    }
}

impl Copied for ExportEntry {
    fn copied(&self, alloc: Global) -> Result<Self, NoMemory> {
        let module_request = copied_request(alloc, &self.module_request)?;
        let import_name = self.import_name.copied(alloc)?;
        let export_name = self.export_name.copied(alloc)?;
        let local_name = self.local_name.copied(alloc)?;
        Ok(ExportEntry {
            statement_span: self.statement_span,
            span: self.span,
            module_request,
            import_name,
            export_name,
            local_name,
        })
    }
}

impl Copied for Request {
    fn copied(&self, alloc: Global) -> Result<Self, NoMemory> {
        let name = Text::from_str(alloc, self.name.as_str())?;
        let occurrence = self.occurrence;
        Ok(Request { name, occurrence })
    }
}

impl Copied for Part {
    fn copied(&self, alloc: Global) -> Result<Self, NoMemory> {
        let imports = copies(alloc, &self.imports)?;
        let exports = copies(alloc, &self.exports)?;
        let requests = copies(alloc, &self.requests)?;
        let bindings = copies(alloc, &self.bindings)?;
        let skipped_defaults = copies(alloc, &self.skipped_defaults)?;
        let metas = copies(alloc, &self.metas)?;
        let dynamic = copies(alloc, &self.dynamic)?;
        Ok(Part {
            is_module_syntax: self.is_module_syntax,
            imports,
            exports,
            requests,
            bindings,
            skipped_defaults,
            metas,
            dynamic,
        })
    }
}
