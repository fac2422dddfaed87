//! What a parse gives: how much it is, and what is kept beside the tree, line by line.

ghost use Rattle.std.specs.Prelude.{IsTrue, ◌<◌, length};
ghost use Rattle.js_base.specs.Spans.{LiesIn};

use crate::answer::Answer;
use js_base::{ParseOptions, SourceType, Span};
use js_lex::RuntimeParserConfig;
use js_parser::{Parser, ParserReturn};
use js_tree::{NodeId, NodeKind, Tree};
use std::alloc::Global;

/// Puts what is asked of a text. The words behind it say how the text is read: as a script, where they name no other goal. The
/// tokens are kept for all but `parse`.
pub(crate) fn put_parsed(alloc: Global, out: &mut Answer, asked: &str, words: &str, text: &str) {
    let config = RuntimeParserConfig::new(asked != "parse");
    let parser = Parser::new(alloc, text, goal_of(words)).with_options(options_of(words));
    match parser.with_config(config).parse() {
        Ok(parsed) => put_part(alloc, out, asked, text, &parsed),
        Err(_) => out.fail(),
    }
}

/// The goal that words name.
fn goal_of(words: &str) -> SourceType {
    match words {
        "module" => SourceType::module(),
        "commonjs" => SourceType::commonjs(),
        _ => SourceType::script(),
    }
}

/// The options that they name: calls of V8's runtime, by the word `v8` behind a goal.
fn options_of(words: &str) -> ParseOptions {
    ParseOptions {
        allow_return_outside_function: false,
        preserve_parens: true,
        allow_v8_intrinsics: words.ends_with(" v8"),
    }
}

/// Puts what is asked of what a parse gave.
fn put_part(alloc: Global, out: &mut Answer, asked: &str, text: &str, parsed: &ParserReturn) {
    match asked {
        "tokens" => put_tokens(out, parsed),
        "trivia" => put_trivia(out, parsed),
        "names" => put_names(out, &mut Vec::new(alloc), &parsed.program.tree, text),
        "record" => put_record(alloc, out, parsed),
        "fatal" => put_ending(out, parsed),
        _ => put_counts(out, parsed),
    }
}

/// Puts whether a fatal diagnostic ended the parse.
fn put_ending(out: &mut Answer, parsed: &ParserReturn) {
    if parsed.fatal_error {
        out.put("fatal\n");
    }
}

/// Puts the lines of the module record.
fn put_record(alloc: Global, out: &mut Answer, parsed: &ParserReturn) {
    let Ok(lines) = parsed.module_record.record_lines(alloc) else {
        return out.fail();
    };
    match str::from_utf8(&lines) {
        Ok(text) => out.put(text),
        Err(_) => out.fail(),
    }
}

/// Puts how many nodes, tokens and diagnostics there are.
fn put_counts(out: &mut Answer, parsed: &ParserReturn) {
    out.put("nodes ");
    out.put_number(parsed.program.tree.node_count());
    out.put(" tokens ");
    out.put_number(parsed.tokens.len());
    out.put(" diagnostics ");
    out.put_number(parsed.diagnostics.len());
    out.put("\n");
}

/// Puts the tokens, each with its span and its kind.
fn put_tokens(out: &mut Answer, parsed: &ParserReturn) {
    for i in 0..parsed.tokens.len() {
        if let Some(token) = parsed.tokens.get(i) {
            out.put_span(token.span());
            out.put(" ");
            out.put(token.kind().name());
            out.put("\n");
        }
    }
}

/// Puts the comments, each with its span and where the token stands that it belongs to; and the irregular white space.
fn put_trivia(out: &mut Answer, parsed: &ParserReturn) {
    for i in 0..parsed.program.comments.len() {
        if let Some(comment) = parsed.program.comments.get(i) {
            out.put_span(comment.span);
            out.put(" comment before ");
            out.put_number(comment.attached_to as usize);
            out.put("\n");
        }
    }
    for i in 0..parsed.irregular_whitespaces.len() {
        if let Some(span) = parsed.irregular_whitespaces.get(i) {
            out.put_span(*span);
            out.put(" blank\n");
        }
    }
}

/// Puts the names in the tree, in its order; the nodes that are left are kept, the next one last.
fn put_names(out: &mut Answer, left: &mut Vec<NodeId>, tree: &Tree, text: &str) {
    put_off(out, left, &[Some(NodeId(0))]);
    for _ in 0..tree.kinds().len() {
        let Some(id) = left.pop() else {
            return;
        };
        if tree.contains(id) {
            put_name(out, tree, id, text);
            put_off(out, left, tree.children(id));
        }
    }
}

/// Puts off the children of a node, the first one last.
fn put_off(out: &mut Answer, left: &mut Vec<NodeId>, children: &[Option<NodeId>]) {
    for child in children.iter().rev() {
        if let Some(child) = child {
            if left.push(*child).is_err() {
                out.fail();
            }
        }
    }
}

/// Puts a node, if it is a name, with its span, what it spells, and whether the tree keeps that.
fn put_name(out: &mut Answer, tree: &Tree, id: NodeId, text: &str)
    requires { id.0 < length tree.now }
{
    let span = tree.span(id);
    if !is_name(tree.kind(id)) || !lies_in(span, text) {
        return;
    }
    out.put_span(span);
    out.put(" ");
    out.put(tree.name(id, text));
    out.put(if tree.owns_name(id) {
        " true\n"
    } else {
        " false\n"
    });
}

/// Whether a node is a name.
fn is_name(kind: NodeKind) -> bool {
    matches!(
        kind,
        NodeKind::IdentifierReference
            | NodeKind::BindingIdentifier
            | NodeKind::LabelIdentifier
            | NodeKind::IdentifierName
            | NodeKind::PrivateIdentifier
    )
}

/// Whether a span lies in a text and splits no character.
fn lies_in(span: Span, text: &str) -> bool
    ensures { IsTrue result → LiesIn span text.now }
{
    span.start <= span.end
        && text.is_char_boundary(span.start as usize)
        && text.is_char_boundary(span.end as usize)
}
