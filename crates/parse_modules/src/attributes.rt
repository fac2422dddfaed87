//! Attributes of imports and exports (ECMA-262, section 16.2.2).

ghost use Rattle.std.specs.Prelude.{MatchResult};
ghost use Rattle.parse_modules.specs.Prelude.{Attributes, BeginsClause, ClauseOf, EndsParse, FindsClause, GivesUp, key_part, NoClauseOf, ReadsNamed, ReadsWhole, Standing, TakesAttributes};

use crate::name_list::parse_name_list;
use js_base::{DiagnosticKind, Kind};
use laws_modules::forms::NameList;
use parse_primary::leaf::{parse_identifier_name, parse_string};
use parse_shared::diagnostics::diagnostic_at;
use parse_shared::lexemes::{advance, keyword_of};
use parse_shared::nodes::{make_list, make_two};
use parse_shared::{ClauseWord, NodeId, NodeKind, Op, ParserConfig, ParserImpl, Stop};

/// A WithClause (ECMA-262, section 16.2.2), or its older form with `assert` on the line of what stands before; none where neither
/// word stands here.
pub fn parse_attributes<C: ParserConfig>(p: &mut ParserImpl<'_, C>) -> Result<Option<NodeId>, Stop>
    requires { Standing p.old }
    ensures { TakesAttributes p.old p.new result }
{
    let Some(word) = clause_word(p) else {
        return Ok(None);
    };
    let clause = parse_with_clause(p, word)?;
    Ok(Some(clause))
}

/// Which of the two words stands here.
fn clause_word<C: ParserConfig>(p: &ParserImpl<'_, C>) -> Option<ClauseWord>
    ensures { FindsClause p.now result }
{
    let token = p.cur_token();
    match keyword_of(token) {
        Kind::With => Some(ClauseWord::With),
        Kind::Assert => {
            if token.is_on_new_line() {
                return None;
            }
            Some(ClauseWord::Assert)
        }
        _ => None,
    }
}

/// The word and the entries in their braces, at which the node begins.
/// Reads: Attrs.
fn parse_with_clause<C: ParserConfig>(
    p: &mut ParserImpl<'_, C>,
    word: ClauseWord,
) -> Result<NodeId, Stop>
    requires at { Standing p.old }
    requires begins { BeginsClause word p.old }
    ensures { MatchResult result (λ id. ClauseOf p.old p.new id) (λ e. NoClauseOf p.old p.new e) }
{
    advance(p)?;
    let start = p.cur_start();
    let none = Vec::new(p.alloc);
    let entries = parse_name_list(p, NameList::Attributes, none)?;
    let span = p.end_span(start);
    let node = make_list(p, NodeKind::WithClause, Op::Clause(word), span, entries)?;
    Ok(node)
}

/// An entry of a WithClause: a key, a colon and a string (ECMA-262, section 16.2.2).
/// Reads: Attr.
pub(crate) fn parse_attribute<C: ParserConfig>(p: &mut ParserImpl<'_, C>) -> Result<NodeId, Stop>
    requires { Standing p.old }
    ensures { ReadsNamed Attributes p.old p.new result }
{
    let start = p.cur_start();
    let key = parse_key(p)?;
    p.expect(Kind::Colon)?;
    if !p.at(Kind::Str) {
        return Err(refuse_value(p));
    }
    let value = parse_string(p)?;
    let span = p.end_span(start);
    let node = make_two(p, NodeKind::ImportAttribute, Op::None, span, key, value)?;
    Ok(node)
}

/// The key of an entry: a name or a word, or a string.
fn parse_key<C: ParserConfig>(p: &mut ParserImpl<'_, C>) -> Result<NodeId, Stop>
    requires { Standing p.old }
    ensures { ReadsWhole (λ f. key_part f) p.old p.new result }
{
    if p.at(Kind::Str) {
        return parse_string(p);
    }
    parse_identifier_name(p)
}

/// Gives up where the value of an entry is no string.
#[inline(never)]
fn refuse_value<C: ParserConfig>(p: &mut ParserImpl<'_, C>) -> Stop
    requires { Standing p.old }
    ensures { GivesUp EndsParse p.old p.new result }
{
    if p.at(Kind::Undetermined) {
        return p.set_unexpected();
    }
    let span = p.cur_token().span();
    p.set_fatal_error(diagnostic_at(
        DiagnosticKind::ImportAttributeValueMustBeStringLiteral,
        span,
    ))
}
