//! What is called of patterns in place.

ghost use Rattle.std.specs.Prelude.{◌≡◌};
ghost use Rattle.js_base.specs.declared.kind.Kind.TheVariants.{LParen};
ghost use Rattle.js_grammar.specs.Productions.{at, Binding, Params};
ghost use Rattle.laws_shared.specs.Answers.{Answers};
ghost use Rattle.laws_shared.specs.Nesting.{CanNest, room};
ghost use Rattle.laws_shared.specs.States.{Standing};

use laws_shared::nested::Nested;
use laws_shared::{NodeId, ParserConfig, ParserImpl, Stop};

/// What may be read deeper, and patterns and parameters in place: arrow functions and declarations are proved beside
/// patterns, and not over them.
pub trait Patterns<C: ParserConfig>: Nested<C> {
    /// A BindingIdentifier or a BindingPattern (ECMA-262, section 14.3.3), which begins here: no lexeme was passed before it.
    fn binding_pattern(&self, p: &mut ParserImpl<'_, C>) -> Result<NodeId, Stop>
        requires at { Standing p.old }
        requires nests { CanNest (Self.can self.now) (room p.old) }
        ensures { Answers (at Binding) p.old p.new result };

    /// FormalParameters in their parentheses (ECMA-262, section 15.1), which begin here.
    fn formal_parameters(&self, p: &mut ParserImpl<'_, C>) -> Result<NodeId, Stop>
        requires at { Standing p.old }
        requires nests { CanNest (Self.can self.now) (room p.old) }
        requires open { p.old.token.kind ≡ LParen }
        ensures { Answers (at Params) p.old p.new result };
}
