//! A graph of modules.

ghost use Rattle.std.specs.Prelude.{◌≡◌, ◌<◌, ◌↔◌, ◌∷◌, ◌++◌, [], IfOk, OnOk, OnErr, IsTrue, bytes_eq, length};
ghost use Rattle.std.specs.List.{IsDistinct};
ghost use Rattle.js_grammar.specs.ModuleRecords.{own_export_names};
ghost use Rattle.js_graph.specs.Modules.{are_linked, unlinked, with_link};
ghost use Rattle.js_graph.specs.Names.{AreExported};
ghost use Rattle.js_graph.specs.Resolving.{Resolves, Bindings};

use crate::module::{Module, are_linked};
use crate::names::{Texts, exported_names};
use crate::resolution::Resolution;
use crate::walk::resolve;
use js_base::NoMemory;
use js_record::ModuleRecord;
use std::alloc::Global;
use std::marker::Model;

/// Modules, each with a number, counted from 0 in the order in which they were added, and what the specifiers of each
/// mean: the modules that HostLoadImportedModule (ECMA-262, 16.2.1.10) gives for them.
#[derive(Drop)]
pub struct Graph {
    alloc: Global,
    modules: Vec<Module>,
}

impl Model for Graph {
    ghost use Rattle.std.specs.Prelude.{List};
    ghost use Rattle.js_graph.specs.Modules.{Module as Linked};

    ghost Value = { List Linked };

    ghost view = { λ g. g.modules.items };
}

impl Graph {
    /// No module; it takes no memory.
    pub fn new(alloc: Global) -> Self
        ensures { result ≡ [] }
    {
        Graph {
            alloc,
            modules: Vec::new(alloc),
        }
    }

    /// One more module, whose number is the count of those before it, and whose specifiers mean nothing yet. No name may
    /// be exported twice, which is an early error (ECMA-262, 16.2.1.1) and which `exports_distinct` tells. The only error
    /// is want of memory; all then stays as it was, and the record is let go.
    pub fn add_module(&mut self, added: ModuleRecord) -> Result<usize, NoMemory>
        requires { IsDistinct bytes_eq (own_export_names added) }
        ensures number { IfOk result (λ number. number ≡ length self.old) }
        ensures added { OnOk result (self.new ≡ self.old ++ unlinked added ∷ []) }
        ensures err { OnErr result (self.new ≡ self.old) }
    {
        let number = self.modules.len();
        self.modules.push(Module::new(self.alloc, added)?)?;
        Ok(number)
    }

    /// Makes a specifier of a module mean a module, in place of what it meant. The only error is want of memory; all then
    /// stays as it was.
    pub fn link(&mut self, module: usize, request: &str, target: usize) -> Result<(), NoMemory>
        requires module_exists { «module» < length self.old }
        requires target_exists { target < length self.old }
        ensures ok { OnOk result (self.new ≡ with_link self.old «module» request.now target) }
        ensures err { OnErr result (self.new ≡ self.old) }
    {
        let alloc = self.alloc;
        self.modules[module].link(alloc, request, target)
    }

    /// How many modules there are.
    pub fn module_count(&self) -> usize
        ensures { result ≡ length self.now }
    {
        self.modules.len()
    }

    /// Whether each request of an indirect or a star entry of each module means a module.
    pub fn is_linked(&self) -> bool
        ensures { result ≡ are_linked self.now }
    {
        are_linked(&self.modules)
    }

    /// What a name that a module is asked for stands for: ResolveExport (ECMA-262, 16.2.1.7.2.2). It is null exactly where
    /// no path from there reaches a binding, a binding exactly where paths reach it alone, and ambiguous exactly where they
    /// reach two. Each pair of a module and a name on the paths is followed once, with no recursion. The only error is want
    /// of memory.
    pub fn resolve_export(
        &self,
        alloc: Global,
        module: usize,
        name: &str,
    ) -> Result<Resolution, NoMemory>
        requires module_exists { «module» < length self.now }
        requires linked { IsTrue (are_linked self.now) }
        ensures resolved { IfOk result (Resolves (Bindings self.now «module» name.now)) }
    {
        resolve(alloc, &self.modules, module, name)
    }

    /// The names that a module exports: GetExportedNames (ECMA-262, 16.2.1.7.2.1). First stand those that it exports itself,
    /// in the order of its record, the local ones before the indirect ones; then, each once and in the order of their bytes,
    /// those but `default` that modules export which its star entries reach, alone or over star entries of others, and that
    /// it doesn't export itself. The only error is want of memory.
    pub fn exported_names(&self, alloc: Global, module: usize) -> Result<Texts, NoMemory>
        requires module_exists { «module» < length self.now }
        requires linked { IsTrue (are_linked self.now) }
        ensures exported { IfOk result (AreExported self.now «module») }
    {
        exported_names(alloc, &self.modules, module)
    }
}
