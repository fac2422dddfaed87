//! The names that patterns and declarations bind (ECMA-262, section 8.2.1).

ghost use Rattle.std.specs.Prelude.{◌≡◌, ◌++◌, ◌<◌, length, IfOk, OnOk, ℕ, List};
ghost use Rattle.js_grammar.specs.Trees.{Label, Slots};
ghost use Rattle.js_tree.specs.Holding.{Stands};
ghost use Rattle.js_tree.specs.Binding.{Binds};
ghost use Rattle.js_tree.specs.Labels.{kind_of};
ghost use Rattle.js_grammar.specs.BoundNames as bound;
ghost use Rattle.js_tree.specs.Parts as parts;
ghost use Rattle.js_tree.specs.Parts.{below_all, found_at, due_at};

use crate::columns::Columns;
use crate::id::NodeId;
use crate::kind::NodeKind;
use js_base::NoMemory;
use std::alloc::Global;

/// Of which slots of a node its bound names are those.
#[derive(Clone, Copy)]
pub(crate) enum Part {
    /// None binds a name.
    Nothing,
    /// The node itself does.
    Itself,
    /// The first slot alone.
    First,
    /// The second slot alone.
    Second,
    /// All slots.
    Every,
}

impl NodeKind {
    /// Of which slots the bound names of such a node are those.
    fn bound_part(self) -> Part
        ensures { parts.part result ≡ bound.part_of (kind_of self) }
    {
        match self {
            NodeKind::BindingIdentifier => Part::Itself,
            NodeKind::VariableDeclarator
            | NodeKind::AssignmentPattern
            | NodeKind::FormalParameter
            | NodeKind::FunctionDeclaration
            | NodeKind::ClassDeclaration => Part::First,
            NodeKind::BindingProperty | NodeKind::ImportSpecifier => Part::Second,
            NodeKind::VariableDeclaration
            | NodeKind::ArrayPattern
            | NodeKind::ObjectPattern
            | NodeKind::BindingRestElement
            | NodeKind::FormalParameters
            | NodeKind::FormalParameterRest
            | NodeKind::CatchParameter
            | NodeKind::ImportDeclaration
            | NodeKind::ImportDefaultSpecifier
            | NodeKind::ImportNamespaceSpecifier
            | NodeKind::ExportDeclaration
            | NodeKind::ExportDefaultDeclaration => Part::Every,
            _ => Part::Nothing,
        }
    }
}

/// The slots of a part.
fn chosen(part: Part, slots: &[Option<NodeId>]) -> &[Option<NodeId>]
    ensures { result.now ≡ parts.chosen (parts.part part) slots.now }
{
    match part {
        Part::Nothing | Part::Itself => &[],
        Part::First => &slots[..slots.len().min(1)],
        Part::Second => { if slots.len() < 2 { &[] } else { &slots[1..2] } }
        Part::Every => slots,
    }
}

/// Puts the children in slots on the stack, the first on top, but for those whose number isn't below the bound.
pub(crate) fn push_children(
    stack: &mut Vec<NodeId>,
    below: usize,
    slots: &[Option<NodeId>],
) -> Result<(), NoMemory>
    ensures { OnOk result (stack.new.items ≡ stack.old.items ++ below_all below slots.now) }
{
    let mut i = slots.len();
    while i > 0 {
        i -= 1;
        if let Some(child) = slots[i] {
            if child.0 < below {
                stack.push(child)?;
            }
        }
    }
    Ok(())
}

impl Columns {
    /// Notes a node that binds a name, and puts on the stack where the search goes on.
    fn search_node(
        &self,
        found: &mut Vec<NodeId>,
        stack: &mut Vec<NodeId>,
        id: NodeId,
    ) -> Result<(), NoMemory>
        ensures found { OnOk result (found.new.items ≡ found.old.items ++ found_at self.now id) }
        ensures stack { OnOk result (stack.new.items ≡ stack.old.items ++ due_at self.now id) }
    {
        if !self.contains(id) {
            return Ok(());
        }
        let part = self.kind(id).bound_part();
        if let Part::Itself = part {
            found.push(id)?;
        }
        push_children(stack, id.0, chosen(part, self.children(id)))
    }

    /// The nodes that bind the names of a pattern or a declaration, in the order of the text.
    pub(crate) fn bound_names(&self, alloc: Global, id: NodeId) -> Result<Vec<NodeId>, NoMemory>
        requires { id.0 < length self.now }
        ensures { IfOk result (λ ids. (l : Label) (cs : Slots) (rs : List ℕ) → Stands self.now id.0 l cs rs → Binds self.now ids.items l cs rs) }
    {
        let mut found = Vec::new(alloc);
        let mut stack = Vec::new(alloc);
        stack.push(id)?;
        while let Some(at) = stack.pop() {
            self.search_node(&mut found, &mut stack, at)?;
        }
        Ok(found)
    }
}
