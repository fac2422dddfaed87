//! What a parse answers.

ghost use Rattle.std.specs.Prelude.{ℕ, ◌≡◌, ◌++◌, ◌↔◌, Bool, false, List, [], length, take, IfOk, IsTrue, OnOk};
ghost use Rattle.js_base.specs.declared.diagnostic.Diagnostic.{Diagnostic};
ghost use Rattle.js_base.specs.declared.options.ParseOptions.{ParseOptions};
ghost use Rattle.js_base.specs.declared.source_type.SourceType.{SourceType};
ghost use Rattle.js_base.specs.declared.span.Span.{Span as Placed};
ghost use Rattle.js_cursor.specs.Places.{IsAt};
ghost use Rattle.js_grammar.specs.ModuleRecords.{record_of_parts};
ghost use Rattle.js_grammar.specs.Modules.{record_of};
ghost use Rattle.js_grammar.specs.Trees.{Slots};
ghost use Rattle.js_cursor.specs.js_lex.States.{goal_of};
ghost use Rattle.js_core.specs.laws_shared.States.{NodesLie};
ghost use Rattle.js_parser.specs.FaultsTold.{AreAlike, AreBesideFatal, last_of};
ghost use Rattle.js_core.specs.Kept.{KeepsRight};
ghost use Rattle.js_parser.specs.Leftover.{ToldOf, told_at, with_leftover};
ghost use Rattle.js_parser.specs.Parsed.{options_of, IsAnswer, IsOverlong, output_of};
ghost use Rattle.js_core.specs.Taken.{FoundNothing, ProgramTaken, ProgramRefused};
ghost use Rattle.js_parser.specs.Recorded.{HasRecord};
ghost use Rattle.js_record.specs.Checked.{AreHeld};
ghost use Rattle.js_tree.specs.Holding.{HoldsAll, program_tree};

use crate::early::early_errors;
use js_base::{Diagnostic, DiagnosticKind, Diagnostics, NoMemory, SourceType, Span, Spans, Tokens};
use js_core::{RuntimeParser, parse_program};
use js_cursor::Comments;
use js_record::{ModuleRecord, ModuleRecordBuilder, ModuleVisits, record_of_program};
use js_tree::{NodeId, ParserAstBuilder, Tree};
use std::alloc::Global;

/// A program.
#[derive(Drop)]
pub struct Program {
    /// Its tree; after a fatal diagnostic a node without children.
    pub tree: Tree,
    /// How its text was read: never unambiguous.
    pub source_type: SourceType,
    /// The comments.
    pub comments: Comments,
}

/// What a parse answers.
#[derive(Drop)]
pub struct ParserReturn {
    pub program: Program,
    /// What the import and export declarations tell.
    pub module_record: ModuleRecord,
    /// What was found: faults of lexemes, then what the parser found, a fatal one last.
    pub diagnostics: Diagnostics,
    /// White space and line terminators other than space, tab, CR and LF.
    pub irregular_whitespaces: Spans,
    /// The tokens, where the config asks for them; none after a fatal diagnostic.
    pub tokens: Tokens,
    /// Whether a fatal diagnostic ended the parse.
    pub fatal_error: bool,
    /// Whether the text is one of the language Flow; it isn't looked for yet.
    pub is_flow_language: bool,
}

/// The answer for a text that was taken to its end, or to where no lexeme stands.
pub fn taken(
    source_type: SourceType,
    p: RuntimeParser<'_>,
    items: Vec<Option<NodeId>>,
) -> Result<ParserReturn, NoMemory>
    requires at { IsAt p }
    requires lie { NodesLie p.text p.nodes }
    requires held { FoundNothing p → AreHeld p.nodes p.text items.items }
    ensures answer { IfOk result (λ r. (text : List ℕ) (s : SourceType) (o : ParseOptions) (asks : Bool) → ProgramTaken text s o asks p.entry items.items → IsAnswer text (goal_of s) (options_of o) r.program.tree (output_of r) r.fatal_error) }
    ensures kept { IfOk result (λ r. (text : List ℕ) (s : SourceType) (o : ParseOptions) (asks : Bool) → ProgramTaken text s o asks p.entry items.items → KeepsRight text (goal_of s) (options_of o) asks (output_of r)) }
    ensures recorded { IfOk result (λ r. (text : List ℕ) (s : SourceType) (o : ParseOptions) (asks : Bool) → ProgramTaken text s o asks p.entry items.items → HasRecord text r.program.tree r.diagnostics r.module_record) }
    ensures no_flow { IfOk result (λ r. r.is_flow_language ≡ false) }
    ensures source_type { IfOk result (λ r. r.program.source_type ≡ source_type) }
{
    let alloc = p.alloc;
    let source = p.source_text;
    let span = Span::new(0, p.cur_token().end());
    let parts = p.into_parts();
    let kept = parts.lexer.finish();
    let clean = found_nothing(&kept.errors, &parts.errors);
    let module_record = record_for(
        alloc,
        source_type,
        clean,
        &parts.ast,
        source,
        items.as_slice(),
    )?;
    let tree = parts.ast.finish(span, items)?;
    let diagnostics = told_of(alloc, &tree, source, kept.errors, parts.errors)?;
    Ok(ParserReturn {
        program: Program {
            tree,
            source_type,
            comments: kept.comments,
        },
        module_record,
        diagnostics,
        irregular_whitespaces: kept.irregular_whitespaces,
        tokens: kept.tokens,
        fatal_error: false,
        is_flow_language: false,
    })
}

/// Whether neither the lexer nor the parser found anything.
fn found_nothing(faults: &Diagnostics, found: &Diagnostics) -> bool
    ensures { IsTrue result ↔ ((faults.now ≡ []) × (found.now ≡ [])) }
{
    faults.is_empty() && found.is_empty()
}

/// The record of the module whose Program has these children, where nothing was found; else the record of no declaration.
fn record_for(
    alloc: Global,
    source_type: SourceType,
    clean: bool,
    tree: &ParserAstBuilder,
    source: &str,
    children: &[Option<NodeId>],
) -> Result<ModuleRecord, NoMemory>
    requires { IsTrue clean → AreHeld tree.now source.now children.now }
    ensures { IfOk result (λ r. IsTrue clean → (s : Placed) (cs : Slots) → HoldsAll tree.now 1 (length tree.now) children.now cs → r ≡ record_of source.now (program_tree s cs)) }
{
    if !clean {
        let (record, _) = ModuleRecordBuilder::new(alloc, source_type).build()?;
        return Ok(record);
    }
    let (record, _) = record_of_program(alloc, source_type, tree, source, children)?;
    Ok(record)
}

/// What is told of a tree: faults of lexemes, what the parser found, and what is left to tell.
fn told_of(
    alloc: Global,
    tree: &Tree,
    source: &str,
    faults: Diagnostics,
    found: Diagnostics,
) -> Result<Diagnostics, NoMemory>
    requires { NodesLie source.now tree.now }
    ensures { IfOk result (λ all. ToldOf source.now tree.now (faults ++ found) all) }
{
    let early = early_errors(alloc, tree, source)?;
    let covers = tree.cover_initializers(alloc)?;
    let found = joined(faults, found)?;
    with_leftover(found, early, covers)
}

/// The answer for a text whose parse a fatal diagnostic ended: a program without children.
pub fn refused(source_type: SourceType, p: RuntimeParser<'_>) -> Result<ParserReturn, NoMemory>
    requires { IsAt p }
    ensures answer { IfOk result (λ r. (text : List ℕ) (s : SourceType) (o : ParseOptions) → ProgramRefused text s o p.entry → IsAnswer text (goal_of s) (options_of o) r.program.tree (output_of r) r.fatal_error) }
    ensures kept { IfOk result (λ r. (text : List ℕ) (s : SourceType) (o : ParseOptions) (asks : Bool) → ProgramRefused text s o p.entry → KeepsRight text (goal_of s) (options_of o) asks (output_of r)) }
    ensures told { IfOk result (λ r. (told : List Diagnostic) × AreBesideFatal p.entry.lexer.kept.errors p.entry.errors told × (r.diagnostics ≡ told ++ p.entry.errors)) }
    ensures no_flow { IfOk result (λ r. r.is_flow_language ≡ false) }
    ensures source_type { IfOk result (λ r. r.program.source_type ≡ source_type) }
{
    let alloc = p.alloc;
    let span = Span::new(0, p.source_text.len() as u32);
    let parts = p.into_parts();
    let kept = parts.lexer.finish();
    let tree = parts.ast.finish(span, Vec::new(alloc))?;
    let faults = beside_fatal(kept.errors, &parts.errors);
    let diagnostics = joined(faults, parts.errors)?;
    let (module_record, _) = parts.module_record_builder.build()?;
    Ok(ParserReturn {
        program: Program {
            tree,
            source_type,
            comments: kept.comments,
        },
        module_record,
        diagnostics,
        irregular_whitespaces: kept.irregular_whitespaces,
        tokens: Tokens::new(alloc),
        fatal_error: true,
        is_flow_language: false,
    })
}

/// The answer for a text that is too long.
pub fn overlong(alloc: Global, source_type: SourceType) -> Result<ParserReturn, NoMemory>
    ensures answer { IfOk result (λ r. IsOverlong r.program.tree (output_of r) r.fatal_error) }
    ensures no_record { IfOk result (λ r. r.module_record ≡ record_of_parts []) }
    ensures no_flow { IfOk result (λ r. r.is_flow_language ≡ false) }
    ensures source_type { IfOk result (λ r. r.program.source_type ≡ source_type) }
{
    let mut diagnostics = Diagnostics::new(alloc);
    let span = Span::empty(0);
    diagnostics.push(Diagnostic {
        kind: DiagnosticKind::OverlongSource,
        span,
        first: None,
        second: None,
    })?;
    let ast = ParserAstBuilder::new(alloc)?;
    let tree = ast.finish(span, Vec::new(alloc))?;
    let (module_record, _) = ModuleRecordBuilder::new(alloc, source_type).build()?;
    Ok(ParserReturn {
        program: Program {
            tree,
            source_type,
            comments: Comments::new(alloc),
        },
        module_record,
        diagnostics,
        irregular_whitespaces: Spans::new(alloc),
        tokens: Tokens::new(alloc),
        fatal_error: true,
        is_flow_language: false,
    })
}

/// The faults that are told beside a fatal diagnostic, which was found last: without the one that it is itself.
fn beside_fatal(faults: Diagnostics, found: &Diagnostics) -> Diagnostics
    ensures beside { AreBesideFatal faults found.now result }
    ensures front { (count : ℕ) × (result ≡ take count faults) }
{
    let mut faults = faults;
    if are_alike(last_of(&faults), last_of(found)) {
        faults.truncate(faults.len() - 1);
    }
    faults
}

/// Whether they are one and the same: a kind at a span.
fn are_alike(fault: Option<Diagnostic>, found: Option<Diagnostic>) -> bool
    ensures { IsTrue result ↔ AreAlike fault found }
{
    match (fault, found) {
        (Some(fault), Some(found)) => {
            is_kind(fault.kind, found.kind) && is_span(fault.span, found.span)
        }
        _ => false,
    }
}

/// Whether they are one kind.
fn is_kind(kind: DiagnosticKind, other: DiagnosticKind) -> bool
    ensures { IsTrue result ↔ (kind ≡ other) }
{
    kind == other
}

/// Whether they are one span.
fn is_span(span: Span, other: Span) -> bool
    ensures { IsTrue result ↔ (span ≡ other) }
{
    span == other
}

/// The last diagnostic, if there is one.
fn last_of(list: &Diagnostics) -> Option<Diagnostic>
    ensures { result ≡ last_of list.now }
{
    match list.len() {
        0 => None,
        len => list.get(len - 1).copied(),
    }
}

/// Where nothing was found, what is told of the early rules, and then a diagnostic for each shorthand with an initialiser
/// that no target took (CoverInitializedName, section 13.2.5.1), by its span.
fn with_leftover(
    found: Diagnostics,
    early: Diagnostics,
    covers: Vec<Span>,
) -> Result<Diagnostics, NoMemory>
    ensures { IfOk result (λ all. all ≡ with_leftover found early covers.items) }
{
    if found.len() > 0 {
        return Ok(found);
    }
    let mut all = early;
    tell_each(
        &mut all,
        DiagnosticKind::CoverInitializedName,
        covers.as_slice(),
    )?;
    Ok(all)
}

/// Tells a diagnostic of a kind at each span.
fn tell_each(all: &mut Diagnostics, kind: DiagnosticKind, spans: &[Span]) -> Result<(), NoMemory>
    ensures { OnOk result (all.new ≡ all.old ++ told_at kind spans.now) }
{
    let mut i = 0;
    'spans: while i < spans.len() {
        all.push(Diagnostic {
            kind,
            span: spans[i],
            first: None,
            second: None,
        })?;
        i += 1;
    }
    Ok(())
}

/// One list behind another.
fn joined(first: Diagnostics, second: Diagnostics) -> Result<Diagnostics, NoMemory>
    ensures { IfOk result (λ all. all ≡ first ++ second) }
{
    let mut all = first;
    let mut i = 0;
    'second: while i < second.len() {
        all.push(second[i])?;
        i += 1;
    }
    Ok(all)
}
