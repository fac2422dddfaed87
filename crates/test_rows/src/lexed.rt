//! What a row asks of a lexer.

ghost use Rattle.std.specs.Prelude.{◌≡◌, ◌≤◌, false, length};
ghost use Rattle.js_base.specs.Kinds.{same_kind};
ghost use Rattle.js_base.specs.declared.kind.Kind.TheVariants as kinds;
ghost use Rattle.js_lex.specs.Reading.{WasGiven};

use crate::answer::{Answer, put_blanks, put_comments, put_faults, put_tokens};
use js_base::{Diagnostic, JsStr, Kind, MAX_LEN, NoMemory, SourceType, Token};
use js_lex::{
    Lexer, LexerConfig, LexerOutput, NoTokensLexerConfig, NoTokensParserConfig, ParserConfig,
    RuntimeLexerConfig, RuntimeParserConfig, TokensLexerConfig, TokensParserConfig,
};
use std::alloc::Global;

/// What is asked of a lexer.
#[derive(Clone, Copy)]
pub struct Asked<'a> {
    /// The goal: `script`, `module`, `commonjs`, `unambiguous` or `default`.
    goal: &'a str,
    /// The words for its calls and for what it keeps.
    words: &'a str,
    /// The text.
    text: &'a str,
}

/// Puts what comes of a text that is read by a goal and with a config, the one that keeps tokens where it has no name.
pub(crate) fn put_lexed(alloc: Global, out: &mut Answer, reader: &str, words: &str, text: &str)
    requires { length text.now ≤ MAX_LEN }
{
    let (goal, config) = match reader.split_once(' ') {
        Some(both) => both,
        None => (reader, ""),
    };
    let asked = Asked { goal, words, text };
    match config {
        "" | "tokens" => read(alloc, out, asked, TokensLexerConfig),
        "no tokens" => read(alloc, out, asked, NoTokensLexerConfig),
        "runtime default" => read(alloc, out, asked, RuntimeLexerConfig::default()),
        "tokens default" => read(alloc, out, asked, TokensLexerConfig::default()),
        "no tokens default" => read(alloc, out, asked, NoTokensLexerConfig::default()),
        _ => put_parsers(alloc, out, asked, config),
    }
}

/// The same for a lexer with a parser's config.
fn put_parsers(alloc: Global, out: &mut Answer, asked: Asked<'_>, config: &str)
    requires { length asked.text.now ≤ MAX_LEN }
{
    match config {
        "parser, tokens" => read_for(alloc, out, asked, TokensParserConfig),
        "parser, no tokens" => read_for(alloc, out, asked, NoTokensParserConfig),
        "parser, runtime on" => read_for(alloc, out, asked, RuntimeParserConfig::new(true)),
        "parser, runtime off" => read_for(alloc, out, asked, RuntimeParserConfig::new(false)),
        "parser, tokens default" => read_for(alloc, out, asked, TokensParserConfig::default()),
        "parser, no tokens default" => read_for(alloc, out, asked, NoTokensParserConfig::default()),
        "parser, runtime default" => read_for(alloc, out, asked, RuntimeParserConfig::default()),
        _ => out.put("no such config"),
    }
}

/// Reads a text with the config that a parser's config gives.
fn read_for<C: ParserConfig>(alloc: Global, out: &mut Answer, asked: Asked<'_>, config: C)
    requires { length asked.text.now ≤ MAX_LEN }
{
    read(alloc, out, asked, config.lexer_config());
}

/// Reads a text with a config, and puts the lists of what was kept.
fn read<C: LexerConfig>(alloc: Global, out: &mut Answer, asked: Asked<'_>, config: C)
    requires { length asked.text.now ≤ MAX_LEN }
{
    let mut lexer = Lexer::new(alloc, asked.text, source_type_of(asked.goal), config);
    ask_all(&mut lexer, out, asked);
    put_kept(alloc, out, &lexer.finish(), asked.words);
}

/// Does what the words ask for, in order.
fn ask_all<C: LexerConfig>(lexer: &mut Lexer<'_, C>, out: &mut Answer, asked: Asked<'_>)
    requires { lexer.old.place ≡ 0 }
{
    if asked.words.starts_with("first") {
        put_given(out, lexer.first_token());
    }
    for word in asked.words.split(' ') {
        ask(lexer, out, word, asked);
    }
}

/// The source type of a name; the default of the crate for any other word.
fn source_type_of(goal: &str) -> SourceType {
    match goal {
        "script" => SourceType::script(),
        "module" => SourceType::module(),
        "commonjs" => SourceType::commonjs(),
        "unambiguous" => SourceType::unambiguous(),
        _ => SourceType::default(),
    }
}

/// Does what a word asks for, if it is a call's.
fn ask<C: LexerConfig>(lexer: &mut Lexer<'_, C>, out: &mut Answer, word: &str, asked: Asked<'_>) {
    match word {
        "all" => read_all(lexer, out, asked),
        "peek" => put_given(out, lexer.peek_token()),
        "back" => next_and_back(lexer, out),
        "fault" => put_fault(out, lexer.last_fault()),
        "next" | "again" | "regex" | "name" | "string" | "begin" | "marks" => {
            ask_next(lexer, out, word);
        }
        _ => {}
    }
}

/// Puts a token that was given.
fn put_given(out: &mut Answer, given: Result<Token, NoMemory>) {
    match given {
        Ok(token) => out.put_token(token),
        Err(_) => out.fail(),
    }
}

/// Reads the next token and goes back.
fn next_and_back<C: LexerConfig>(lexer: &mut Lexer<'_, C>, out: &mut Answer) {
    let here = lexer.checkpoint();
    if lexer.next_token().is_err() {
        out.fail();
    }
    lexer.rewind(here);
}

/// Puts the name of a fault, if there is one.
fn put_fault(out: &mut Answer, fault: Option<Diagnostic>) {
    match fault {
        Some(fault) => out.put_item(fault.kind.name()),
        None => out.put_item("no fault"),
    }
}

/// Reads to the end or to where no lexeme stands; the tokens whose numbers, counted from 0, are among the words are read
/// again.
fn read_all<C: LexerConfig>(lexer: &mut Lexer<'_, C>, out: &mut Answer, asked: Asked<'_>) {
    for number in 0..=asked.text.len() {
        let given = if has_number(asked.words, number) {
            next_again(lexer)
        } else {
            lexer.next_token()
        };
        let Ok(token) = given else {
            return out.fail();
        };
        out.put_token(token);
        if matches!(token.kind(), Kind::Eof | Kind::Undetermined) {
            return;
        }
    }
}

/// Whether a number is among the words.
fn has_number(words: &str, number: usize) -> bool {
    for word in words.split(' ') {
        if word.parse::<usize>() == Ok(number) {
            return true;
        }
    }
    false
}

/// The next token, which is read again by the lexical goal that its kind admits.
fn next_again<C: LexerConfig>(lexer: &mut Lexer<'_, C>) -> Result<Token, NoMemory> {
    match lexer.next_token() {
        Ok(token) => match read_again(lexer, token) {
            Ok((again, _)) => Ok(again),
            Err(error) => Err(error),
        },
        Err(error) => Err(error),
    }
}

/// Passes the next token, and puts what a word asks of it.
fn ask_next<C: LexerConfig>(lexer: &mut Lexer<'_, C>, out: &mut Answer, word: &str) {
    let Ok(token) = lexer.next_token() else {
        return out.fail();
    };
    match word {
        "again" => put_again(out, read_again(lexer, token), false),
        "regex" => put_again(out, read_again(lexer, token), true),
        "name" => {
            if token.kind().is_identifier_name() && !token.escaped() {
                out.put_item(lexer.name(token));
            } else {
                out.put_item("no plain name");
            }
        }
        "string" => match token.kind() {
            Kind::Str => put_units(out, lexer.decode(token)),
            _ => out.put_item("no string"),
        },
        "begin" => put_beginning(out, token, lexer.last_fault()),
        "marks" => {
            let pure = lexer.pure_before(token);
            put_marks(out, token, pure, lexer.no_side_effects_before(token));
        }
        _ => out.put_token(token),
    }
}

/// A token that was given last, read again by the lexical goal that its kind admits; and the place at which its pattern
/// ends, if it is read as a regular expression.
#[inline(never)]
pub(crate) fn read_again<C: LexerConfig>(
    lexer: &mut Lexer<'_, C>,
    token: Token,
) -> Result<(Token, u32), NoMemory>
    requires { same_kind kinds.Undetermined token.kind ≡ false → WasGiven lexer.old token }
{
    let again = match token.kind() {
        Kind::Slash | Kind::SlashEq => return lexer.re_lex_regex(token),
        Kind::RAngle => lexer.re_lex_right_angle(token),
        Kind::RCurly => lexer.re_lex_template_tail(token),
        _ => Ok(token),
    };
    match again {
        Ok(token) => Ok((token, 0)),
        Err(error) => Err(error),
    }
}

/// Puts a token that was read again, and where its pattern ends, if that is told.
fn put_again(out: &mut Answer, again: Result<(Token, u32), NoMemory>, tells_pattern: bool) {
    let Ok((token, pattern_end)) = again else {
        return out.fail();
    };
    out.put_token(token);
    if tells_pattern {
        out.put(" pattern ");
        out.put_number(pattern_end as usize);
    }
}

/// Puts the code units of a string.
fn put_units(out: &mut Answer, decoded: Result<JsStr, NoMemory>) {
    let Ok(units) = decoded else {
        return out.fail();
    };
    out.put_item("units");
    for i in 0..units.len() {
        if let Some(unit) = units.unit(i) {
            if write!(&mut out.text, " {unit:x}").is_err() {
                out.fail();
            }
        }
    }
    if !units.is_well_formed() {
        out.put(" ill-formed");
    }
}

/// Puts a token's fault and where it begins, and the rest where it doesn't end with a token that begins the text.
fn put_beginning(out: &mut Answer, token: Token, fault: Option<Diagnostic>) {
    put_fault(out, fault);
    let Some(fault) = fault else {
        return;
    };
    out.put(" ");
    if token.start() == 0 && fault.span.end == token.end() {
        out.put_number(fault.span.start as usize);
    } else {
        out.put_span(fault.span);
        out.put(" of ");
        out.put_token(token);
    }
}

/// Puts a token, and which sorts of marking comments are attached to it.
fn put_marks(out: &mut Answer, token: Token, pure: bool, no_side_effects: bool) {
    out.put_token(token);
    if pure {
        out.put(" pure");
    }
    if no_side_effects {
        out.put(" no side effects");
    }
}

/// Puts what was kept. Where all tokens were read, those that were kept are told if they aren't those given but for the last.
fn put_kept(alloc: Global, out: &mut Answer, output: &LexerOutput, words: &str) {
    let mut tokens = Answer::new(alloc);
    put_tokens(&mut tokens, &output.tokens);
    let given = match out.text.as_str().rsplit_once(", ") {
        Some((given, _)) => given,
        None => "",
    };
    let differs = words.contains("all") && tokens.text.as_str() != given;
    put_lists(out, output, words, tokens.text.as_str(), differs);
}

/// Puts comments, white space and tokens where they are asked for, tokens too where they differ, and faults unless they
/// aren't to be told. With the word `only` nothing else is told.
fn put_lists(out: &mut Answer, output: &LexerOutput, words: &str, tokens: &str, differs: bool) {
    let only = words.contains("only");
    if only {
        out.text.clear();
    }
    if words.contains("comments") {
        put_comments(out, output);
    }
    if words.contains("blanks") {
        put_blanks(out, output);
    }
    if differs || words.contains("tokens") {
        out.put("; tokens: ");
        out.put(tokens);
    }
    if !only && !words.contains("begin") {
        put_faults(out, output);
    }
}
