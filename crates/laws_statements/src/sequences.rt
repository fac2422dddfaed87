//! What statements call of expressions and of modules.

ghost use Rattle.std.specs.Prelude.{◌≡◌, ◌+◌, true};
ghost use Rattle.js_base.specs.Contexts.{has_flag, in_flag};
ghost use Rattle.js_grammar.specs.Productions.{at, Expression, Item};
ghost use Rattle.laws_operators.specs.HeadOperands.{TellsOperand};
ghost use Rattle.laws_shared.specs.Answers.{Answers};
ghost use Rattle.laws_shared.specs.Nesting.{CanNest, room};
ghost use Rattle.laws_shared.specs.States.{Standing};
ghost use Rattle.laws_shared.specs.Statements.{TakesStatement};

use laws_operators::patterns::Patterns;
use laws_shared::{NodeId, ParserConfig, ParserImpl, Stop};

/// What may be read deeper, and patterns, an Expression and a ModuleItem in place: statements are proved beside expressions and
/// modules, and not over them.
pub trait Sequences<C: ParserConfig>: Patterns<C> {
    /// An Expression (ECMA-262, section 13.16), which begins here: no lexeme was passed before it.
    fn sequence(&self, p: &mut ParserImpl<'_, C>) -> Result<NodeId, Stop>
        requires at { Standing p.old }
        requires nests { CanNest (Self.can self.now) (room p.old) }
        ensures answers { Answers (at Expression) p.old p.new result }
        ensures operand { TellsOperand p.old p.new result };

    /// An item of a text (ECMA-262, section 16.1); of a module, a ModuleItem (section 16.2).
    fn item(&self, p: &mut ParserImpl<'_, C>) -> Result<NodeId, Stop>
        requires at { Standing p.old }
        requires nests { CanNest (Self.can self.now) (room p.old + 1) }
        requires allows_in { has_flag in_flag p.old.ctx ≡ true }
        ensures { TakesStatement (at Item) p.old p.new result };
}
