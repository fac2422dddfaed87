//! The lines of a tree.

ghost use Rattle.std.specs.Prelude.{◌≡◌, ◌++◌, ◌∷◌, ◌<◌, ◌≤◌, ◌^◌, ◌+◌, [], length, IfOk, OnOk, Some, cond, get_or, drop};
ghost use Rattle.std.specs.Option.{option_copied};
ghost use Rattle.js_grammar.specs.Lines.{op_text, flag_words, words_of, kind_text, label_text, places_text, indent, tree_text};
ghost use Rattle.js_grammar.specs.Trees.{Tree as SeenTree};
ghost use Rattle.js_tree.specs.Labels.{op_of, number_of};
ghost use Rattle.js_tree.specs.Nodes.{node_at, label};
ghost use Rattle.js_tree.specs.Holding.{IsTree};
ghost use Rattle.js_tree.specs.Walking.{text_at, line_at, pending, within, spaced};
ghost use Rattle.js_tree.specs.Walking as walking;

use crate::bits::bits_of;
use crate::columns::Columns;
use crate::flags::NodeFlags;
use crate::id::NodeId;
use crate::op::{
    BigintBase, ClauseWord, DeclarationKind, MethodKind, NumberBase, Op, PropertyKind,
};
use js_base::NoMemory;
use std::alloc::Global;

/// The greatest length of the lines of a tree, in bytes. Indents grow with depth, so a small text may have lines without
/// end; where they would be longer, that is want of memory.
const MAX_LINES_LEN: usize = 2_147_483_648;

/// A slot whose lines are still to be written, and its depth.
#[derive(Clone, Copy)]
pub(crate) struct PendingSlot {
    pub depth: usize,
    pub slot: Option<NodeId>,
}

impl Op {
    /// The text in the lines of a tree; none exactly where the kind tells all.
    pub(crate) fn text(self) -> Option<&'static str>
        ensures { spaced (option_copied result) ≡ op_text (op_of self) }
    {
        match self {
            Op::None => None,
            Op::Binary(operator) => Some(operator.as_str()),
            Op::Logical(operator) => Some(operator.as_str()),
            Op::Unary(operator) => Some(operator.as_str()),
            Op::Update(operator) => Some(operator.as_str()),
            Op::Assignment(operator) => Some(operator.as_str()),
            Op::Declaration(DeclarationKind::Var) => Some("var"),
            Op::Declaration(DeclarationKind::Let) => Some("let"),
            Op::Declaration(DeclarationKind::Const) => Some("const"),
            Op::Property(PropertyKind::Init) => Some("init"),
            Op::Property(PropertyKind::Get) | Op::Method(MethodKind::Get) => Some("get"),
            Op::Property(PropertyKind::Set) | Op::Method(MethodKind::Set) => Some("set"),
            Op::Method(MethodKind::Constructor) => Some("constructor"),
            Op::Method(MethodKind::Method) => Some("method"),
            Op::Number(NumberBase::Decimal) | Op::Bigint(BigintBase::Decimal) => Some("Decimal"),
            Op::Number(NumberBase::Float) => Some("Float"),
            Op::Number(NumberBase::Binary) | Op::Bigint(BigintBase::Binary) => Some("Binary"),
            Op::Number(NumberBase::Octal) | Op::Bigint(BigintBase::Octal) => Some("Octal"),
            Op::Number(NumberBase::Hex) | Op::Bigint(BigintBase::Hex) => Some("Hex"),
            Op::Number(NumberBase::Exponential) => Some("Exponential"),
            Op::Clause(ClauseWord::With) => Some("with"),
            Op::Clause(ClauseWord::Assert) => Some("assert"),
        }
    }

    /// The text in the lines of a tree, without the blank before it; empty exactly where the kind tells all.
    pub fn as_str(self) -> &'static str
        ensures { result.now ≡ drop 1 (op_text (op_of self)) }
    {
        self.text().unwrap_or("")
    }
}

/// The word of a flag, by the number of its bit.
fn flag_word(bit: usize) -> &'static str
    requires { bit < 14 }
    ensures { result.now ≡ get_or flag_words bit [] }
{
    match bit {
        0 => "prefix",
        1 => "optional",
        2 => "computed",
        3 => "shorthand",
        4 => "method",
        5 => "async",
        6 => "generator",
        7 => "delegate",
        8 => "static",
        9 => "await",
        10 => "tail",
        11 => "bare",
        12 => "pure",
        _ => "pife",
    }
}

impl NodeFlags {
    /// How many flags there are.
    pub const COUNT: usize = 14;

    /// The flags as the bits of a number, in their order, the first the lowest.
    pub fn bits(self) -> u16
        ensures { result ≡ number_of self }
    {
        bits_of(self)
    }

    /// The word of a flag in the lines of a tree, by the number of its bit, which is below `COUNT`.
    pub fn word(bit: usize) -> &'static str
        requires { bit < 14 }
        ensures { result.now ≡ get_or flag_words bit [] }
    {
        flag_word(bit)
    }
}

/// Writes a blank and a flag's word, where it is set.
fn write_flag(out: &mut Vec<u8>, is_set: bool, word: &str) -> Result<(), NoMemory>
    ensures { OnOk result (out.new.items ≡ out.old.items ++ cond is_set (32 ∷ word.now) []) }
{
    if is_set {
        out.push(b' ')?;
        out.extend_from_slice(word.as_bytes())?;
    }
    Ok(())
}

/// Writes a blank and the word of each flag that is set.
fn write_flags(out: &mut Vec<u8>, bits: u16) -> Result<(), NoMemory>
    ensures { OnOk result (out.new.items ≡ out.old.items ++ words_of flag_words bits) }
{
    if bits == 0 {
        return Ok(());
    }
    let mut rest = bits;
    for bit in 0..14usize {
        write_flag(out, rest % 2 == 1, flag_word(bit))?;
        rest /= 2;
    }
    Ok(())
}

/// Writes a blank and the op, where there is one.
fn write_op(out: &mut Vec<u8>, op: Op) -> Result<(), NoMemory>
    ensures { OnOk result (out.new.items ≡ out.old.items ++ op_text (op_of op)) }
{
    if let Some(text) = op.text() {
        out.push(b' ')?;
        out.extend_from_slice(text.as_bytes())?;
    }
    Ok(())
}

/// Writes two spaces for each level.
fn write_indent(out: &mut Vec<u8>, depth: usize) -> Result<(), NoMemory>
    ensures { OnOk result (out.new.items ≡ out.old.items ++ indent depth) }
{
    let Some(spaces) = depth.checked_mul(2) else {
        return Err(NoMemory);
    };
    let Some(len) = spaces.checked_add(out.len()) else {
        return Err(NoMemory);
    };
    out.resize(len, b' ')?;
    Ok(())
}

/// Whether a slot is empty or its number below a bound.
fn is_slot_below(slot: Option<NodeId>, below: usize) -> bool
    ensures { result ≡ walking.is_slot_below below slot }
{
    match slot {
        None => true,
        Some(id) => id.0 < below,
    }
}

/// Puts slots on the stack, the first on top, but for those whose number isn't below the bound.
fn push_slots(
    stack: &mut Vec<PendingSlot>,
    depth: usize,
    below: usize,
    slots: &[Option<NodeId>],
) -> Result<(), NoMemory>
    ensures { OnOk result (stack.new.items ≡ stack.old.items ++ pending depth below slots.now) }
{
    let mut i = slots.len();
    while i > 0 {
        i -= 1;
        let slot = slots[i];
        if is_slot_below(slot, below) {
            stack.push(PendingSlot { depth, slot })?;
        }
    }
    Ok(())
}

impl Columns {
    /// Writes the kind of a node and, behind a blank, its span.
    fn write_kind(&self, out: &mut Vec<u8>, id: NodeId) -> Result<(), NoMemory>
        requires { id.0 < length self.now }
        ensures { OnOk result (out.new.items ≡ out.old.items ++ (kind_text (label (node_at self.now id)).kind ++ (32 ∷ places_text (label (node_at self.now id)).span.from (label (node_at self.now id)).span.to))) }
    {
        out.extend_from_slice(self.kind(id).name().as_bytes())?;
        out.push(b' ')?;
        self.span(id).write(out)
    }

    /// Writes what a node is: its kind, its span, its op and its flags.
    fn write_label(&self, out: &mut Vec<u8>, id: NodeId) -> Result<(), NoMemory>
        requires { id.0 < length self.now }
        ensures { OnOk result (out.new.items ≡ out.old.items ++ label_text (label (node_at self.now id))) }
    {
        self.write_kind(out, id)?;
        write_op(out, self.op(id))?;
        if self.has_no_flag(id) {
            return Ok(());
        }
        write_flags(out, bits_of(self.flags(id)))
    }

    /// Writes the text of a slot.
    fn write_text(&self, out: &mut Vec<u8>, slot: Option<NodeId>) -> Result<(), NoMemory>
        ensures { OnOk result (out.new.items ≡ out.old.items ++ text_at self.now slot) }
    {
        let Some(id) = slot else {
            out.push(b'-')?;
            return Ok(());
        };
        if self.contains(id) {
            return self.write_label(out, id);
        }
        Ok(())
    }

    /// Writes the line of a slot.
    fn write_line(&self, out: &mut Vec<u8>, at: PendingSlot) -> Result<(), NoMemory>
        ensures { OnOk result (out.new.items ≡ out.old.items ++ line_at self.now at) }
    {
        write_indent(out, at.depth)?;
        self.write_text(out, at.slot)?;
        out.push(b'\n')?;
        Ok(())
    }

    /// How many bytes the line of a slot has. `scratch` holds its text meanwhile.
    fn line_len(&self, scratch: &mut Vec<u8>, at: PendingSlot) -> Result<usize, NoMemory>
        ensures { IfOk result (λ len. len ≡ length (line_at self.now at)) }
    {
        scratch.clear();
        self.write_text(scratch, at.slot)?;
        let Some(spaces) = at.depth.checked_mul(2) else {
            return Err(NoMemory);
        };
        let Some(len) = spaces.checked_add(scratch.len()) else {
            return Err(NoMemory);
        };
        let Some(len) = len.checked_add(1) else {
            return Err(NoMemory);
        };
        Ok(len)
    }

    /// Puts the slots within a slot on the stack.
    fn enter(&self, stack: &mut Vec<PendingSlot>, at: PendingSlot) -> Result<(), NoMemory>
        ensures { OnOk result (stack.new.items ≡ stack.old.items ++ within self.now at) }
    {
        let Some(id) = at.slot else {
            return Ok(());
        };
        if !self.contains(id) {
            return Ok(());
        }
        let Some(inner) = at.depth.checked_add(1) else {
            return Err(NoMemory);
        };
        push_slots(stack, inner, id.0, self.children(id))
    }

    /// Program's line, whose slots are the first on the stack.
    fn enter_program(&self, stack: &mut Vec<PendingSlot>) -> Result<PendingSlot, NoMemory>
        ensures program { IfOk result (λ at. at ≡ record { depth = 0; slot = Some (record { 0 = 0 }) }) }
        ensures stack { OnOk result (stack.new.items ≡ stack.old.items ++ pending 1 (length self.now) (node_at self.now (record { 0 = 0 })).children) }
    {
        let program = NodeId(0);
        push_slots(stack, 1, self.len(), self.children(program))?;
        Ok(PendingSlot {
            depth: 0,
            slot: Some(program),
        })
    }

    /// How many bytes the lines have, at most `MAX_LINES_LEN`.
    fn lines_len(&self, alloc: Global) -> Result<usize, NoMemory>
        ensures lines { IfOk result (λ len. (t : SeenTree) → IsTree self.now t → len ≡ length (tree_text t)) }
        ensures short { IfOk result (λ len. len ≤ 2 ^ 31) }
    {
        let mut scratch = Vec::new(alloc);
        let mut stack = Vec::new(alloc);
        let program = self.enter_program(&mut stack)?;
        let mut total = self.line_len(&mut scratch, program)?;
        while let Some(at) = stack.pop() {
            let Some(sum) = total.checked_add(self.line_len(&mut scratch, at)?) else {
                return Err(NoMemory);
            };
            if sum > MAX_LINES_LEN {
                return Err(NoMemory);
            }
            total = sum;
            self.enter(&mut stack, at)?;
        }
        if total > MAX_LINES_LEN {
            return Err(NoMemory);
        }
        Ok(total)
    }

    /// The lines of the tree, a node before its own slots.
    pub(crate) fn tree_lines(&self, alloc: Global) -> Result<Vec<u8>, NoMemory>
        ensures { IfOk result (λ bytes. (t : SeenTree) → IsTree self.now t → bytes.items ≡ tree_text t) }
    {
        let mut out = Vec::with_capacity(alloc, self.lines_len(alloc)?)?;
        let mut stack = Vec::new(alloc);
        let program = self.enter_program(&mut stack)?;
        self.write_line(&mut out, program)?;
        while let Some(at) = stack.pop() {
            self.write_line(&mut out, at)?;
            self.enter(&mut stack, at)?;
        }
        Ok(out)
    }
}
