//! One pass of the lexer over a text. Slashes and braces are read as regular expressions and template parts where the token
//! before tells so, as a tokenizer without a parser has to.

ghost use Rattle.std.specs.Prelude.{◌≡◌, ◌≤◌, false, length};
ghost use Rattle.js_base.specs.Kinds.{same_kind};
ghost use Rattle.js_base.specs.declared.kind.Kind.TheVariants as kinds;
ghost use Rattle.js_lex.specs.Reading.{WasGiven};

use crate::answer::Answer;
use crate::lexed::read_again;
use js_base::{Kind, MAX_LEN, NoMemory, SourceType, Token};
use js_lex::{Lexer, NoTokensLexerConfig};
use std::alloc::Global;

/// Puts how many lexemes, faults and comments are in a text.
pub(crate) fn put_pass(alloc: Global, out: &mut Answer, text: &str)
    requires { length text.now ≤ MAX_LEN }
{
    let mut lexer = Lexer::new(alloc, text, SourceType::script(), NoTokensLexerConfig);
    put_counts(out, &mut lexer, &mut Vec::new(alloc), text.len());
    let output = lexer.finish();
    out.put_number(output.errors.len());
    out.put(" faults, ");
    out.put_number(output.comments.len());
    out.put(" comments\n");
}

/// Puts how many tokens are in a text of so many bytes, and how many bytes in them.
fn put_counts(
    out: &mut Answer,
    lexer: &mut Lexer<'_, NoTokensLexerConfig>,
    open: &mut Vec<bool>,
    len: usize,
) {
    let mut tokens = 0usize;
    let mut bytes = 0usize;
    let mut before = Kind::Semicolon;
    for _ in 0..len {
        let Ok((kind, size)) = pass_token(lexer, open, before) else {
            return out.fail();
        };
        if kind == Kind::Eof {
            break;
        }
        tokens = tokens.saturating_add(1);
        bytes = bytes.saturating_add(size as usize);
        before = kind;
    }
    out.put_number(len);
    out.put(" bytes, ");
    out.put_number(bytes);
    out.put(" of them in ");
    out.put_number(tokens);
    out.put(" tokens, ");
}

/// Passes a token; the answer is its kind, and how many bytes it has.
#[inline(always)]
fn pass_token(
    lexer: &mut Lexer<'_, NoTokensLexerConfig>,
    open: &mut Vec<bool>,
    before: Kind,
) -> Result<(Kind, u32), NoMemory> {
    let token = lexer.next_token()?;
    match token.kind() {
        Kind::Slash | Kind::SlashEq | Kind::RCurly | Kind::LCurly | Kind::TemplateHead => {
            pass_sign(lexer, open, before, token)
        }
        _ => Ok(tell(&token)),
    }
}

/// The kind of a token, and how many bytes it has.
fn tell(token: &Token) -> (Kind, u32) {
    (token.kind(), token.end().saturating_sub(token.start()))
}

/// What a slash, a brace or a template's beginning is that was given last. Of each brace that is open it is kept whether it
/// is a substitution's, the innermost last.
#[inline(never)]
fn pass_sign(
    lexer: &mut Lexer<'_, NoTokensLexerConfig>,
    open: &mut Vec<bool>,
    before: Kind,
    token: Token,
) -> Result<(Kind, u32), NoMemory>
    requires { same_kind kinds.Undetermined token.kind ≡ false → WasGiven lexer.old token }
{
    let is_other = match token.kind() {
        Kind::LCurly => {
            open.push(false)?;
            false
        }
        Kind::TemplateHead => {
            open.push(true)?;
            false
        }
        Kind::RCurly => open.pop().unwrap_or(false),
        _ => !ends_operand(before),
    };
    if !is_other {
        return Ok(tell(&token));
    }
    let (again, _) = read_again(lexer, token)?;
    if again.kind() == Kind::TemplateMiddle {
        open.push(true)?;
    }
    Ok(tell(&again))
}

/// Whether an operand may end with a token, so that a slash behind it divides.
fn ends_operand(kind: Kind) -> bool {
    kind.is_literal()
        || matches!(
            kind,
            Kind::RParen
                | Kind::RBrack
                | Kind::RCurly
                | Kind::This
                | Kind::Super
                | Kind::PrivateIdentifier
                | Kind::NoSubstitutionTemplate
                | Kind::TemplateTail
                | Kind::Plus2
                | Kind::Minus2
        )
        || (kind.is_identifier_name() && !kind.is_reserved_keyword())
}
