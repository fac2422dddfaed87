//! Calls of `js_lex`.

ghost use Rattle.std.specs.Prelude.{◌≡◌, [], List, IfOk, OnErr};
ghost use Rattle.js_base.specs.declared.kind.Kind.TheVariants.{RCurly};
ghost use Rattle.js_base.specs.declared.diagnostic.Diagnostic.{Diagnostic};
ghost use Rattle.js_base.specs.declared.token.Token.{Token};
ghost use Rattle.js_grammar.specs.Lexemes.{division, template_tail};
ghost use Rattle.js_lex.specs.States.{State};
ghost use Rattle.js_lex.specs.Reading.{GivesNext, GivesAgain, WasGiven};

use js_base::{NoMemory, Token};
use js_lex::{Lexer, LexerConfig};

/// `Lexer::peek_token`.
pub fn peek_token<C: LexerConfig>(lexer: &mut Lexer<'_, C>) -> Result<Token, NoMemory>
    ensures ok { IfOk result (λ t. (after : State) × GivesNext division lexer.old after t) }
    ensures only { IfOk result (λ t. (after : State) (u : Token) → GivesNext division lexer.old after u → u ≡ t) }
    ensures same { lexer.new ≡ lexer.old }
{
    lexer.peek_token()
}

/// `Lexer::re_lex_template_tail`.
pub fn re_lex_template_tail<C: LexerConfig>(
    lexer: &mut Lexer<'_, C>,
    token: Token,
) -> Result<Token, NoMemory>
    requires given { WasGiven lexer.old token }
    requires kind { token.kind ≡ RCurly }
    ensures ok { IfOk result (λ t. (faults : List Diagnostic) × GivesAgain template_tail lexer.old lexer.new token t [] faults) }
    ensures err { OnErr result (lexer.new ≡ lexer.old) }
{
    lexer.re_lex_template_tail(token)
}
