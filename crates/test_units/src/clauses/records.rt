//! Calls of `js_record`.

ghost use Rattle.std.specs.Prelude.{◌≡◌, ◌++◌, ◌∷◌, [], length, IfOk, OnOk, OnErr};
ghost use Rattle.js_base.specs.declared.span.Span.{Span as Placed};
ghost use Rattle.js_grammar.specs.ModuleRecords.{record_of_parts, errors_of_parts};
ghost use Rattle.js_grammar.specs.Modules.{export_from_part, record_of, record_errors};
ghost use Rattle.js_grammar.specs.Trees.{Slots};
ghost use Rattle.js_tree.specs.Holding.{HoldsAll, program_tree};
ghost use Rattle.js_record.specs.Checked.{AreHeld};
ghost use Rattle.js_record.specs.Shown.{IsRead, OfTree};

use js_base::{Diagnostics, NoMemory, SourceType};
use js_record::{ModuleRecord, ModuleRecordBuilder, ModuleVisits};
use js_tree::{NodeId, ParserAstBuilder};
use std::alloc::Global;

/// `ModuleVisits::visit_export_from_declaration`.
pub fn visit_export_from_declaration(
    builder: &mut ModuleRecordBuilder,
    tree: &ParserAstBuilder,
    source: &str,
    id: NodeId,
) -> Result<(), NoMemory>
    requires { IsRead tree.now source.now id }
    ensures ok { OnOk result (OfTree tree.now id (λ l cs. builder.new ≡ builder.old ++ export_from_part source.now l cs ∷ [])) }
    ensures err { OnErr result (builder.new ≡ builder.old) }
{
    builder.visit_export_from_declaration(tree, source, id)
}

/// `record_of_program`.
pub fn record_of_program(
    alloc: Global,
    source_type: SourceType,
    tree: &ParserAstBuilder,
    source: &str,
    children: &[Option<NodeId>],
) -> Result<(ModuleRecord, Diagnostics), NoMemory>
    requires { AreHeld tree.now source.now children.now }
    ensures { IfOk result (λ r. (s : Placed) (cs : Slots) → HoldsAll tree.now 1 (length tree.now) children.now cs → r ≡ (record_of source.now (program_tree s cs), record_errors source.now (program_tree s cs))) }
{
    js_record::record_of_program(alloc, source_type, tree, source, children)
}

/// `ModuleVisits::build`.
pub fn build(builder: ModuleRecordBuilder) -> Result<(ModuleRecord, Diagnostics), NoMemory>
    ensures { IfOk result (λ r. r ≡ (record_of_parts builder, errors_of_parts builder)) }
{
    builder.build()
}
