//! The record of a module in the making: one visit for each declaration that adds something.

ghost use Rattle.std.specs.Prelude.{◌≡◌, ◌++◌, ◌∷◌, [], List, IfOk, OnOk, OnErr};
ghost use Rattle.js_grammar.specs.ModuleRecords.{Part as Added, record_of_parts, errors_of_parts};
ghost use Rattle.js_grammar.specs.Modules.{of_import_meta, import_part, export_named_part, export_from_part, export_all_part, export_declaration_part, export_default_part, import_call_part};
ghost use Rattle.js_record.specs.Shown.{IsRead, IsTree, OfTree};

use crate::record::{ModuleRecord, errors_of, record_of};
use crate::visiting;
use js_base::{Diagnostics, NoMemory, Span};
use js_tree::{NodeId, ParserAstBuilder};
use part_visits::{ModuleRecordBuilder, Part};

/// The visits by which declarations reach the record of their module, and what is made of them all.
pub trait ModuleVisits: Sized {
    // What each visit so far adds, in the order of the visits.
    ghost visits: { Self → List Added };

    /// An `import.meta` (ECMA-262, 13.3.12) at this span. The only error is want of memory; all then stays as it was.
    fn visit_import_meta(&mut self, span: Span) -> Result<(), NoMemory>
        ensures ok { OnOk result (Self.visits self.new ≡ Self.visits self.old ++ of_import_meta span ∷ []) }
        ensures err { OnErr result (Self.visits self.new ≡ Self.visits self.old) };

    /// An `import()` (ECMA-262, 13.3.10), visited when all of it was read, so that an inner one comes first. The number
    /// has to stand for a tree. The only error is want of memory; all then stays as it was.
    fn visit_import_expression(
        &mut self,
        tree: &ParserAstBuilder,
        id: NodeId,
    ) -> Result<(), NoMemory>
        requires { IsTree tree.now id }
        ensures ok { OnOk result (OfTree tree.now id (λ l cs. Self.visits self.new ≡ Self.visits self.old ++ import_call_part l cs ∷ [])) }
        ensures err { OnErr result (Self.visits self.new ≡ Self.visits self.old) };

    /// An import declaration (ECMA-262, 16.2.2): an import entry for each specifier, and a request of its module. The
    /// number has to stand for a tree, of which every node below the first is read from the source. The only error is
    /// want of memory; all then stays as it was.
    fn visit_import_declaration(
        &mut self,
        tree: &ParserAstBuilder,
        source: &str,
        id: NodeId,
    ) -> Result<(), NoMemory>
        requires { IsRead tree.now source.now id }
        ensures ok { OnOk result (OfTree tree.now id (λ l cs. Self.visits self.new ≡ Self.visits self.old ++ import_part source.now l cs ∷ [])) }
        ensures err { OnErr result (Self.visits self.new ≡ Self.visits self.old) };

    /// `export *` (ECMA-262, 16.2.3), with a name or without: an export entry, and a request of its module. The number
    /// has to stand for a tree, of which every node below the first is read from the source. The only error is want of
    /// memory; all then stays as it was.
    fn visit_export_all_declaration(
        &mut self,
        tree: &ParserAstBuilder,
        source: &str,
        id: NodeId,
    ) -> Result<(), NoMemory>
        requires { IsRead tree.now source.now id }
        ensures ok { OnOk result (OfTree tree.now id (λ l cs. Self.visits self.new ≡ Self.visits self.old ++ export_all_part source.now l cs ∷ [])) }
        ensures err { OnErr result (Self.visits self.new ≡ Self.visits self.old) };

    /// `export` of a declaration (ECMA-262, 16.2.3): an export entry for each name that it binds. The number has to stand
    /// for a tree, of which every node below the first is read from the source. The only error is want of memory; all then
    /// stays as it was.
    fn visit_export_declaration(
        &mut self,
        tree: &ParserAstBuilder,
        source: &str,
        id: NodeId,
    ) -> Result<(), NoMemory>
        requires { IsRead tree.now source.now id }
        ensures ok { OnOk result (OfTree tree.now id (λ l cs. Self.visits self.new ≡ Self.visits self.old ++ export_declaration_part source.now l cs ∷ [])) }
        ensures err { OnErr result (Self.visits self.new ≡ Self.visits self.old) };

    /// `export` of names that the module has (ECMA-262, 16.2.3): an export entry for each specifier. The number has to
    /// stand for a tree, of which every node below the first is read from the source. The only error is want of memory;
    /// all then stays as it was.
    fn visit_export_named_declaration(
        &mut self,
        tree: &ParserAstBuilder,
        source: &str,
        id: NodeId,
    ) -> Result<(), NoMemory>
        requires { IsRead tree.now source.now id }
        ensures ok { OnOk result (OfTree tree.now id (λ l cs. Self.visits self.new ≡ Self.visits self.old ++ export_named_part source.now l cs ∷ [])) }
        ensures err { OnErr result (Self.visits self.new ≡ Self.visits self.old) };

    /// `export` of names of another module (ECMA-262, 16.2.3): an export entry for each specifier, and a request of that
    /// module. The number has to stand for a tree, of which every node below the first is read from the source. The only
    /// error is want of memory; all then stays as it was.
    fn visit_export_from_declaration(
        &mut self,
        tree: &ParserAstBuilder,
        source: &str,
        id: NodeId,
    ) -> Result<(), NoMemory>
        requires { IsRead tree.now source.now id }
        ensures ok { OnOk result (OfTree tree.now id (λ l cs. Self.visits self.new ≡ Self.visits self.old ++ export_from_part source.now l cs ∷ [])) }
        ensures err { OnErr result (Self.visits self.new ≡ Self.visits self.old) };

    /// `export default` (ECMA-262, 16.2.3): an export entry, whose name is `default` at the place that is given. The number
    /// has to stand for a tree, of which every node below the first is read from the source. The only error is want of
    /// memory; all then stays as it was.
    fn visit_export_default_declaration(
        &mut self,
        tree: &ParserAstBuilder,
        source: &str,
        id: NodeId,
        default_keyword_span: Span,
    ) -> Result<(), NoMemory>
        requires { IsRead tree.now source.now id }
        ensures ok { OnOk result (OfTree tree.now id (λ l cs. Self.visits self.new ≡ Self.visits self.old ++ export_default_part source.now default_keyword_span l cs ∷ [])) }
        ensures err { OnErr result (Self.visits self.new ≡ Self.visits self.old) };

    /// The early errors of the imports and exports so far (ECMA-262, 16.2.1.1): the names that are exported twice, in
    /// the order in which they come again, then `default`. The only error is want of memory.
    fn errors(&self) -> Result<Diagnostics, NoMemory>
        ensures { IfOk result (λ ds. ds ≡ errors_of_parts (Self.visits self.now)) };

    /// The record of all visits, with its export entries told apart (ECMA-262, 16.2.1.7.1, step 10), and the early
    /// errors as `errors` tells them. The only error is want of memory.
    fn build(self) -> Result<(ModuleRecord, Diagnostics), NoMemory>
        ensures { IfOk result (λ r. r ≡ (record_of_parts (Self.visits self), errors_of_parts (Self.visits self))) };
}

impl ModuleVisits for ModuleRecordBuilder {
    ghost visits = { λ b. b };

    fn visit_import_meta(&mut self, span: Span) -> Result<(), NoMemory> {
        let mut visit = Part::syntax(self.alloc);
        visit.metas.push(span)?;
        self.keep(visit)
    }

    fn visit_import_expression(
        &mut self,
        tree: &ParserAstBuilder,
        id: NodeId,
    ) -> Result<(), NoMemory> {
        let visit = visiting::import_call_part(self.alloc, tree, id)?;
        self.keep(visit)
    }

    fn visit_import_declaration(
        &mut self,
        tree: &ParserAstBuilder,
        source: &str,
        id: NodeId,
    ) -> Result<(), NoMemory> {
        let visit = visiting::import_part(self.alloc, tree, source, id)?;
        self.keep(visit)
    }

    fn visit_export_all_declaration(
        &mut self,
        tree: &ParserAstBuilder,
        source: &str,
        id: NodeId,
    ) -> Result<(), NoMemory> {
        let visit = visiting::export_all_part(self.alloc, tree, source, id)?;
        self.keep(visit)
    }

    fn visit_export_declaration(
        &mut self,
        tree: &ParserAstBuilder,
        source: &str,
        id: NodeId,
    ) -> Result<(), NoMemory> {
        let visit = visiting::export_declaration_part(self.alloc, tree, source, id)?;
        self.keep(visit)
    }

    fn visit_export_named_declaration(
        &mut self,
        tree: &ParserAstBuilder,
        source: &str,
        id: NodeId,
    ) -> Result<(), NoMemory> {
        let visit = visiting::export_named_part(self.alloc, tree, source, id)?;
        self.keep(visit)
    }

    fn visit_export_from_declaration(
        &mut self,
        tree: &ParserAstBuilder,
        source: &str,
        id: NodeId,
    ) -> Result<(), NoMemory> {
        let visit = visiting::export_from_part(self.alloc, tree, source, id)?;
        self.keep(visit)
    }

    fn visit_export_default_declaration(
        &mut self,
        tree: &ParserAstBuilder,
        source: &str,
        id: NodeId,
        default_keyword_span: Span,
    ) -> Result<(), NoMemory> {
        let visit = visiting::export_default_part(
            self.alloc,
            tree,
            source,
            id,
            default_keyword_span,
        )?;
        self.keep(visit)
    }

    fn errors(&self) -> Result<Diagnostics, NoMemory> {
        errors_of(self.alloc, self.whole()?)
    }

    fn build(self) -> Result<(ModuleRecord, Diagnostics), NoMemory> {
        let alloc = self.alloc;
        record_of(alloc, self.into_whole()?)
    }
}
