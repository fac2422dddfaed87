//! What one declaration, `import()` or `import.meta` adds to a record.

ghost use Rattle.std.specs.Prelude.{◌≡◌, IfOk, OnOk};
ghost use Rattle.js_grammar.specs.ModuleRecords.{nothing, joined, whole};
ghost use Rattle.js_grammar.specs.Modules.{syntax};

use crate::entry::{DynamicImport, ExportEntry, ImportEntry, RequestedModule};
use crate::name::NameSpan;
use js_base::{List, NoMemory, Span, Text};
use std::alloc::Global;
use std::marker::Model;

/// A module specifier, and one occurrence of it.
#[derive(Drop)]
pub struct Request {
    /// The specifier, decoded.
    pub name: Text,
    /// Where it occurs.
    pub occurrence: RequestedModule,
}

impl Model for Request {
    ghost use Rattle.js_grammar.specs.ModuleRecords.{Request as Requested};

    ghost Value = { Requested };

    ghost view = { λ r. record { name = r.name; occurrence = r.occurrence } };
}

/// What one visit adds to a record, or several together.
#[derive(Drop)]
pub struct Part {
    /// Whether it is syntax of modules alone.
    pub is_module_syntax: bool,
    /// ImportEntries (ECMA-262, 16.2.2).
    pub imports: Vec<ImportEntry>,
    /// ExportEntries (16.2.3), not yet told apart.
    pub exports: Vec<ExportEntry>,
    /// ModuleRequests (16.2.1.5).
    pub requests: Vec<Request>,
    /// ExportedNames (16.2.3), `default` by `export default` left out.
    pub bindings: Vec<NameSpan>,
    /// The places of `default` among exported names without an entry.
    pub skipped_defaults: Vec<Span>,
    /// The places of `import.meta`.
    pub metas: Vec<Span>,
    /// The places of `import()`.
    pub dynamic: Vec<DynamicImport>,
}

impl Model for Part {
    ghost use Rattle.js_grammar.specs.ModuleRecords.{Part as Added};

    ghost Value = { Added };

    ghost view = { λ p. record { is_module_syntax = p.is_module_syntax; imports = p.imports.items; exports = p.exports.items; requests = p.requests.items; bindings = p.bindings.items; skipped_defaults = p.skipped_defaults.items; metas = p.metas.items; dynamic = p.dynamic.items } };
}

/// The same items as a list.
pub fn listed<T: Drop>(alloc: Global, items: Vec<T>) -> Result<List<T>, NoMemory>
    ensures { IfOk result (λ l. l ≡ items.items) }
{
    let mut list = List::new(alloc);
    for item in items {
        list.push(item)?;
    }
    Ok(list)
}

impl Part {
    /// What adds nothing.
    pub fn nothing(alloc: Global) -> Part
        ensures { result ≡ nothing }
    {
        Part {
            is_module_syntax: false,
            imports: Vec::new(alloc),
            exports: Vec::new(alloc),
            requests: Vec::new(alloc),
            bindings: Vec::new(alloc),
            skipped_defaults: Vec::new(alloc),
            metas: Vec::new(alloc),
            dynamic: Vec::new(alloc),
        }
    }

    /// What is syntax of modules alone, and adds nothing else.
    pub fn syntax(alloc: Global) -> Part
        ensures { result ≡ syntax }
    {
        let mut part = Part::nothing(alloc);
        part.is_module_syntax = true;
        part
    }

    /// Moves what another part has behind what this one has. On an error it may have some of it.
    fn append(&mut self, other: &mut Part) -> Result<(), NoMemory>
        ensures { OnOk result (self.new ≡ joined self.old other.old) }
    {
        self.is_module_syntax = self.is_module_syntax || other.is_module_syntax;
        self.imports.append(&mut other.imports)?;
        self.exports.append(&mut other.exports)?;
        self.requests.append(&mut other.requests)?;
        self.bindings.append(&mut other.bindings)?;
        self.skipped_defaults.append(&mut other.skipped_defaults)?;
        self.metas.append(&mut other.metas)?;
        self.dynamic.append(&mut other.dynamic)?;
        Ok(())
    }

    /// All parts, in their order, as one.
    pub fn whole(alloc: Global, parts: Vec<Part>) -> Result<Part, NoMemory>
        ensures { IfOk result (λ p. p ≡ whole parts.items) }
    {
        let mut all = Part::nothing(alloc);
        for mut part in parts {
            all.append(&mut part)?;
        }
        Ok(all)
    }
}
