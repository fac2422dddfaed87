//! Names of imports and exports (ECMA-262, section 16.2.2).

ghost use Rattle.std.specs.Prelude.{◌≡◌, ◌<◌, IfOk, length};
ghost use Rattle.parse_modules.specs.Prelude.{goal, GivesUp, is_paired, IsString, LiesIn, lone_surrogate, Mark, node_at, Standing, Str, TakesExportName, units_of};

use js_base::{DiagnosticKind, Kind, NoMemory, Span};
use parse_primary::leaf::{parse_name, parse_string};
use parse_shared::diagnostics::diagnostic_at;
use parse_shared::{NodeId, NodeKind, ParserConfig, ParserImpl, Stop};

/// A ModuleExportName (ECMA-262, section 16.2.2): a name or a word, or a string in which no surrogate is alone.
/// Reads: ExportName.
pub fn parse_module_export_name<C: ParserConfig>(p: &mut ParserImpl<'_, C>) -> Result<NodeId, Stop>
    requires { Standing p.old }
    ensures { TakesExportName p.old p.new result }
{
    if p.at(Kind::Str) {
        return parse_module_string(p);
    }
    if !p.cur_kind().is_identifier_name() {
        return Err(p.set_unexpected());
    }
    parse_name(p, NodeKind::IdentifierName)
}

/// The string that stands here, as such a name.
fn parse_module_string<C: ParserConfig>(p: &mut ParserImpl<'_, C>) -> Result<NodeId, Stop>
    requires at { Standing p.old }
    requires string { p.old.token.kind ≡ Str }
    ensures { TakesExportName p.old p.new result }
{
    let span = p.cur_token().span();
    let string = parse_string(p)?;
    if !is_well_formed(p, string)? {
        return Err(refuse_lone_surrogate(p, span));
    }
    Ok(string)
}

/// Whether each surrogate of the string of a node is half of a pair (ECMA-262, section 7.2.9).
fn is_well_formed<C: ParserConfig>(p: &ParserImpl<'_, C>, string: NodeId) -> Result<bool, NoMemory>
    requires contained { string.0 < length p.now.nodes }
    requires lies { LiesIn (node_at p.now.nodes string).span p.now.text }
    requires string { IsString (node_at p.now.nodes string) p.now.text }
    ensures { IfOk result (λ b. b ≡ is_paired (units_of (node_at p.now.nodes string) p.now.text)) }
{
    let units = p.ast.string_value(p.alloc, string, p.source_text)?;
    Ok(units.is_well_formed())
}

/// Gives up at a string in which a surrogate is alone.
#[inline(never)]
fn refuse_lone_surrogate<C: ParserConfig>(p: &mut ParserImpl<'_, C>, span: Span) -> Stop
    requires at { Standing p.old }
    requires mark { Mark (goal p.old) p.old.text (lone_surrogate span) }
    ensures { GivesUp (λ d. d ≡ lone_surrogate span) p.old p.new result }
{
    p.set_fatal_error(diagnostic_at(DiagnosticKind::ExportLoneSurrogate, span))
}
