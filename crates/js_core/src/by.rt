//! How one function reads whatever nests.

ghost use Rattle.js_core.specs.Prelude.{Reads};

use parse_classes::patterns::Patterns;
use parse_classes::sequences::Sequences;
use parse_modules::module_item::parse_module_item;
use parse_operators::sequence::parse_sequence_expression;
use parse_patterns::binding::parse_binding_pattern;
use parse_patterns::parameters::parse_formal_parameters;
use parse_shared::nested::{MethodForm, Nested, Nonterminal};
use parse_shared::{NodeId, ParserImpl, RuntimeParserConfig, Stop};

/// A function that reads whatever is asked for. It is one over the config that is told when the program runs: a bound on
/// a function over any config can't be stated yet.
#[derive(Clone, Copy)]
pub struct By<F>(pub F);

impl<F: Fn(&mut ParserImpl<'_, RuntimeParserConfig>, Nonterminal) -> Result<NodeId, Stop>> Nested<
    RuntimeParserConfig,
> for By<F> {
    ghost can = { λ s p what. Reads (F.pre s.0) (F.post s.0) p what };

    #[inline(always)]
    fn expression(&self, p: &mut ParserImpl<'_, RuntimeParserConfig>) -> Result<NodeId, Stop> {
        (self.0)(p, Nonterminal::Expression)
    }

    #[inline(always)]
    fn assignment(&self, p: &mut ParserImpl<'_, RuntimeParserConfig>) -> Result<NodeId, Stop> {
        (self.0)(p, Nonterminal::Assignment)
    }

    #[inline(always)]
    fn element(&self, p: &mut ParserImpl<'_, RuntimeParserConfig>) -> Result<NodeId, Stop> {
        (self.0)(p, Nonterminal::Element)
    }

    #[inline(always)]
    fn unary(&self, p: &mut ParserImpl<'_, RuntimeParserConfig>) -> Result<NodeId, Stop> {
        (self.0)(p, Nonterminal::Unary)
    }

    #[inline(always)]
    fn left_hand_side(&self, p: &mut ParserImpl<'_, RuntimeParserConfig>) -> Result<NodeId, Stop> {
        (self.0)(p, Nonterminal::LeftHandSide)
    }

    #[inline(always)]
    fn exponentiation(&self, p: &mut ParserImpl<'_, RuntimeParserConfig>) -> Result<NodeId, Stop> {
        (self.0)(p, Nonterminal::Exponentiation)
    }

    #[inline(always)]
    fn binding(&self, p: &mut ParserImpl<'_, RuntimeParserConfig>) -> Result<NodeId, Stop> {
        (self.0)(p, Nonterminal::Binding)
    }

    #[inline(always)]
    fn statement(&self, p: &mut ParserImpl<'_, RuntimeParserConfig>) -> Result<NodeId, Stop> {
        (self.0)(p, Nonterminal::Statement)
    }

    #[inline(always)]
    fn list_item(&self, p: &mut ParserImpl<'_, RuntimeParserConfig>) -> Result<NodeId, Stop> {
        (self.0)(p, Nonterminal::ListItem)
    }

    #[inline(always)]
    fn body(&self, p: &mut ParserImpl<'_, RuntimeParserConfig>) -> Result<NodeId, Stop> {
        (self.0)(p, Nonterminal::Body)
    }

    #[inline(always)]
    fn class_body(&self, p: &mut ParserImpl<'_, RuntimeParserConfig>) -> Result<NodeId, Stop> {
        (self.0)(p, Nonterminal::ClassBody)
    }

    #[inline(always)]
    fn parameters(&self, p: &mut ParserImpl<'_, RuntimeParserConfig>) -> Result<NodeId, Stop> {
        (self.0)(p, Nonterminal::Params)
    }

    #[inline(always)]
    fn method_parameters(
        &self,
        p: &mut ParserImpl<'_, RuntimeParserConfig>,
        form: MethodForm,
    ) -> Result<NodeId, Stop> {
        (self.0)(p, Nonterminal::MethodParameters(form))
    }
}

impl<F: Fn(&mut ParserImpl<'_, RuntimeParserConfig>, Nonterminal) -> Result<NodeId, Stop>> Patterns<
    RuntimeParserConfig,
> for By<F> {
    #[inline(always)]
    fn binding_pattern(&self, p: &mut ParserImpl<'_, RuntimeParserConfig>) -> Result<NodeId, Stop> {
        parse_binding_pattern(p, self)
    }

    #[inline(always)]
    fn formal_parameters(
        &self,
        p: &mut ParserImpl<'_, RuntimeParserConfig>,
    ) -> Result<NodeId, Stop> {
        parse_formal_parameters(p, self)
    }
}

impl<
    F: Fn(&mut ParserImpl<'_, RuntimeParserConfig>, Nonterminal) -> Result<NodeId, Stop>,
> Sequences<RuntimeParserConfig> for By<F> {
    #[inline(always)]
    fn sequence(&self, p: &mut ParserImpl<'_, RuntimeParserConfig>) -> Result<NodeId, Stop> {
        parse_sequence_expression(p, self)
    }

    #[inline(always)]
    fn item(&self, p: &mut ParserImpl<'_, RuntimeParserConfig>) -> Result<NodeId, Stop> {
        parse_module_item(p, self)
    }
}
