//! Methods of classes (ECMA-262, sections 15.4 to 15.8).

ghost use Rattle.std.specs.Prelude.{◌≡◌, ◌+◌, ◌≤◌, ◌∷◌, [], IfOk, Some};
ghost use Rattle.parse_classes.specs.Prelude.{CanNest, element_flags, form_of_method, MadeHere, method_label, number_of, ReadsMethod, room, Standing};

use js_base::NoMemory;
use laws_classes::forms::ElementHead;
use parse_primary::forms::PropertyName;
use parse_primary::object::parse_method_function;
use parse_shared::nested::{MethodForm, Nested};
use parse_shared::{MethodKind, NodeFlags, NodeId, NodeKind, Op, ParserConfig, ParserImpl, Stop};

/// The parameters and the body of a method, which is asynchronous or not, and a generator or not, behind its name
/// (ECMA-262, sections 15.4, 15.5, 15.6 and 15.8).
pub fn parse_method<C: ParserConfig, N: Nested<C>>(
    p: &mut ParserImpl<'_, C>,
    nested: &N,
    head: ElementHead,
    kind: MethodKind,
    name: PropertyName,
    is_async: bool,
    generator: bool,
) -> Result<NodeId, Stop>
    requires at { Standing p.old }
    requires nests { CanNest (N.can nested.now) (room p.old + 1) }
    requires before { head.start ≤ p.old.prev_token_end }
    ensures { ReadsMethod head kind name is_async generator p.old p.new result }
{
    let function = parse_method_function(p, nested, form_of_method(kind), is_async, generator)?;
    let flags = element_flags(head.is_static, name.computed);
    let node = make_method(p, head.start, kind, flags, name.key, function)?;
    Ok(node)
}

/// Which parameters a method of this kind has.
fn form_of_method(kind: MethodKind) -> MethodForm
    ensures { result ≡ form_of_method kind }
{
    match kind {
        MethodKind::Constructor | MethodKind::Method => MethodForm::Method,
        MethodKind::Get => MethodForm::Getter,
        MethodKind::Set => MethodForm::Setter,
    }
}

/// The flags of an element of a class.
pub(crate) fn element_flags(is_static: bool, computed: bool) -> NodeFlags
    ensures { number_of result ≡ element_flags is_static computed }
{
    NodeFlags {
        computed,
        is_static,
        ..NodeFlags::default()
    }
}

/// The node of a method that began at a place: its name and its function.
fn make_method<C: ParserConfig>(
    p: &mut ParserImpl<'_, C>,
    start: u32,
    kind: MethodKind,
    flags: NodeFlags,
    key: NodeId,
    function: NodeId,
) -> Result<NodeId, NoMemory>
    requires before { start ≤ p.old.prev_token_end }
    ensures { IfOk result (λ id. MadeHere (method_label kind (number_of flags) start p.old.prev_token_end) (Some key ∷ Some function ∷ []) p.old p.new id) }
{
    let span = p.end_span(start);
    let op = Op::Method(kind);
    p.ast.node_of_two(
        NodeKind::MethodDefinition,
        span,
        op,
        flags,
        Some(key),
        Some(function),
    )
}
