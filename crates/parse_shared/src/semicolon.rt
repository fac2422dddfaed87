//! The semicolon of a statement (ECMA-262, section 12.10).

ghost use Rattle.std.specs.Prelude.{◌≡◌, ◌&&◌, MatchResult};
ghost use Rattle.parse_shared.specs.Prelude.{EndsStatement, link_kinds, NoEnd, one_of_kinds, Standing, Stops};

use js_base::Kind;
use laws_shared::{ParserConfig, ParserImpl, Stop};

/// The semicolon of a statement, or none where the grammar permits that (12.10).
pub fn end_statement<C: ParserConfig>(p: &mut ParserImpl<'_, C>) -> Result<(), Stop>
    requires { Standing p.old }
    ensures { MatchResult result (λ _. EndsStatement p.old p.new) (λ e. Stops p.old p.new e (NoEnd p.old)) }
{
    if has_link_on_new_line(p) {
        return Err(p.set_unexpected());
    }
    p.asi()
}

/// Whether a new line begins with what goes on with a member, an optional chain or parameters: no statement begins so.
fn has_link_on_new_line<C: ParserConfig>(p: &ParserImpl<'_, C>) -> bool
    ensures { result ≡ (p.now.token.is_on_new_line && one_of_kinds link_kinds p.now.token.kind) }
{
    p.cur_token().is_on_new_line() && begins_link(p.cur_kind())
}

/// A dot, the sign of an optional chain, or `=>`.
fn begins_link(kind: Kind) -> bool
    ensures { result ≡ one_of_kinds link_kinds kind }
{
    matches!(kind, Kind::Dot | Kind::QuestionDot | Kind::Arrow)
}
