//! Nodes in columns: of each number one entry in each column, and the children of all nodes in one column of slots.

ghost use Rattle.std.specs.Prelude.{◌≡◌, ◌+◌, ◌<◌, ◌≤◌, ◌∷◌, [], ◌++◌, IfOk, OnOk, IsTrue, ◌↔◌, ℕ, length, map, vec_len, OnErr, None, take};
ghost use Rattle.std.specs.Ordering.{nat_cmp};
ghost use Rattle.std.specs.BTreeMap.{get};
ghost use Rattle.std.specs.Option.{option_copied};
ghost use Rattle.js_tree.specs.Names.{kept_name};
ghost use Rattle.js_tree.specs.Rooms.{HasRoom};
ghost use Rattle.js_tree.specs.Rows.{DropsNames, entry_of};
ghost use Rattle.js_tree.specs.Rows as rows;
ghost use Rattle.js_tree.specs.declared.op.Op.TheVariants as op;
ghost use Rattle.std.specs.Vec.{vec_capacity};
ghost use Rattle.js_tree.specs.Nodes.{node_at, no_flags, new_node, empty_program, flags_set, program_node};
ghost use Rattle.js_tree.specs.Holding.{Makes, with_program};

use crate::bits::{bits_of, flags_of};
use crate::flags::NodeFlags;
use crate::id::NodeId;
use crate::kind::NodeKind;
use crate::op::Op;
use js_base::{NoMemory, Span, Text};
use std::alloc::Global;
use std::collections::BTreeMap;
use std::marker::Model;

/// What is kept of a node beside its kind and its name.
#[derive(Clone, Copy)]
pub(crate) struct Entry {
    span: Span,
    /// Where the children begin in the column of slots.
    start: u32,
    /// How many slots there are.
    count: u32,
    /// The flags, each a bit.
    flags: u16,
    op: Op,
}

/// The bytes of a node, its slots aside.
const NODE_SIZE: usize = size_of::<NodeKind>() + size_of::<Entry>();

const _: () = prove!(NODE_SIZE == 21);

/// The nodes made so far, in columns.
#[derive(Drop)]
pub(crate) struct Columns {
    kinds: Vec<NodeKind>,
    entries: Vec<Entry>,
    slots: Vec<Option<NodeId>>,
    /// The names that are kept, by number.
    names: BTreeMap<usize, Text>,
}

impl Model for Columns {
    ghost use Rattle.std.specs.Prelude.{List};
    ghost use Rattle.js_tree.specs.Nodes.{Node};

    ghost Value = { List Node };

    ghost use Rattle.js_tree.specs.Rows.{nodes_of, AreColumns};

    ghost view = { nodes_of };

    ghost invariant = { AreColumns };
}

impl Entry {
    /// Program's, whose children begin at a place in the column of slots.
    fn of_program(span: Span, start: u32, count: u32) -> Entry
        ensures { result ≡ entry_of span start count 0 op.None }
    {
        Entry {
            span,
            start,
            count,
            flags: 0,
            op: Op::None,
        }
    }
}

/// An empty column, with room for so many entries where there is that much memory.
pub(crate) fn column_for<T>(alloc: Global, entries: usize) -> Vec<T>
    ensures { result.items ≡ [] }
{
    match Vec::with_capacity(alloc, entries) {
        Ok(column) => column,
        Err(_) => Vec::new(alloc),
    }
}

/// The slots of a node, at the end of a column that has room for them.
#[inline(always)]
fn put_all(column: &mut Vec<Option<NodeId>>, slots: &[Option<NodeId>])
    requires { vec_len column.old + length slots.now ≤ vec_capacity column.old }
    ensures { column.new.items ≡ column.old.items ++ slots.now }
{
    for i in 0..slots.len() {
        column.push_reserved(slots[i]);
    }
}

/// Makes room for one more node of so many slots.
#[inline(always)]
fn make_room(
    kinds: &mut Vec<NodeKind>,
    entries: &mut Vec<Entry>,
    slots: &mut Vec<Option<NodeId>>,
    children: usize,
) -> Result<(), NoMemory>
    ensures kinds { HasRoom result kinds.old kinds.new 1 }
    ensures entries { HasRoom result entries.old entries.new 1 }
    ensures slots { HasRoom result slots.old slots.new children }
{
    kinds.reserve(1)?;
    entries.reserve(1)?;
    slots.reserve(children)?;
    Ok(())
}

/// A place in the column of slots, or a number of slots. It has to fit 32 bits, else it counts as want of memory.
#[inline(always)]
fn place_of(n: usize) -> Result<u32, NoMemory>
    ensures { IfOk result (λ place. place ≡ n) }
{
    match u32::try_from(n) {
        Ok(place) => Ok(place),
        Err(_) => Err(NoMemory),
    }
}

/// Keeps the name of a number that has none yet, where there is one.
#[inline(always)]
fn keep_name(
    names: &mut BTreeMap<usize, Text>,
    number: usize,
    name: Option<Text>,
) -> Result<(), NoMemory>
    ensures ok { OnOk result ((i : ℕ) → get nat_cmp names.new i ≡ kept_name names.old number name i) }
    ensures err { OnErr result ((i : ℕ) → get nat_cmp names.new i ≡ get nat_cmp names.old i) }
{
    if let Some(name) = name {
        names.insert(number, name)?;
    }
    Ok(())
}

/// How many slots belong to the nodes before this one.
fn slots_before(entries: &[Entry], number: usize) -> usize
    requires { number < length entries.now }
    ensures { result ≡ rows.slots_before entries.now number }
{
    let start = entries[number].start as usize;
    let end = entries[0].start as usize + entries[0].count as usize;
    if start < end { end } else { start }
}

/// Drops the names of the numbers from one on and below another, from which on there are none.
fn drop_names(names: &mut BTreeMap<usize, Text>, first: usize, last: usize)
    requires order { first ≤ last }
    requires none { (i : ℕ) → last ≤ i → get nat_cmp names.old i ≡ None }
    ensures { DropsNames first names.old names.new }
{
    'numbers: for number in first..last {
        let _ = names.remove(&number);
    }
}

impl Columns {
    /// Program's entries alone, with room for so many nodes where there is that much memory.
    pub(crate) fn new(alloc: Global, nodes: usize) -> Result<Self, NoMemory>
        ensures { IfOk result (λ ns. ns ≡ empty_program ∷ []) }
    {
        let mut kinds = column_for(alloc, nodes);
        let mut entries = column_for(alloc, nodes);
        let slots = column_for(alloc, nodes);
        kinds.push(NodeKind::Program)?;
        entries.push(Entry::of_program(Span::empty(0), 0, 0))?;
        Ok(Columns {
            kinds,
            entries,
            slots,
            names: BTreeMap::new(alloc),
        })
    }

    /// One more node. All room is made first, so after `NoMemory` every column is as before.
    #[inline(always)]
    pub(crate) fn append(
        &mut self,
        kind: NodeKind,
        span: Span,
        op: Op,
        flags: NodeFlags,
        name: Option<Text>,
        children: &[Option<NodeId>],
    ) -> Result<NodeId, NoMemory>
        ensures { Makes (new_node kind span op flags name children.now) self.old self.new result }
    {
        let start = place_of(self.slots.len())?;
        let count = place_of(children.len())?;
        let id = NodeId(self.kinds.len());
        make_room(
            &mut self.kinds,
            &mut self.entries,
            &mut self.slots,
            children.len(),
        )?;
        keep_name(&mut self.names, id.0, name)?;
        self.kinds.push_reserved(kind);
        self.entries.push_reserved(Entry {
            span,
            start,
            count,
            flags: bits_of(flags),
            op,
        });
        put_all(&mut self.slots, children);
        Ok(id)
    }

    /// Other flags for one node.
    pub(crate) fn set_flags(&mut self, id: NodeId, flags: NodeFlags)
        requires { id.0 < length self.old }
        ensures { self.new ≡ flags_set self.old id flags }
    {
        self.entries[id.0].flags = bits_of(flags);
    }

    /// Keeps the first nodes, so many, and drops those behind them with their slots and their names.
    pub(crate) fn truncate(&mut self, len: usize)
        requires { 0 < len }
        ensures { self.new ≡ take len self.old }
    {
        let last = self.kinds.len();
        if len >= last {
            return;
        }
        let slots = slots_before(self.entries.as_slice(), len);
        drop_names(&mut self.names, len, last);
        self.kinds.truncate(len);
        self.entries.truncate(len);
        self.slots.truncate(slots);
    }

    /// Program's span and children. All room is made first.
    pub(crate) fn finish(self, span: Span, children: &[Option<NodeId>]) -> Result<Self, NoMemory>
        ensures { IfOk result (λ ns. ns ≡ with_program (program_node span children.now) self) }
    {
        let mut columns = self;
        let start = place_of(columns.slots.len())?;
        let count = place_of(children.len())?;
        columns.slots.extend_from_slice(children)?;
        columns.kinds[0] = NodeKind::Program;
        columns.entries[0] = Entry::of_program(span, start, count);
        let _ = columns.names.remove(&0);
        Ok(columns)
    }

    /// How many nodes there are; there is one at least.
    pub(crate) fn len(&self) -> usize
        ensures len { result ≡ length self.now }
        ensures some { 0 < length self.now }
    {
        self.kinds.len()
    }

    /// Whether a node has the number.
    #[inline]
    pub(crate) fn contains(&self, id: NodeId) -> bool
        ensures { IsTrue result ↔ (id.0 < length self.now) }
    {
        id.0 < self.kinds.len()
    }

    /// What a node is.
    #[inline]
    pub(crate) fn kind(&self, id: NodeId) -> NodeKind
        requires { id.0 < length self.now }
        ensures { result ≡ (node_at self.now id).kind }
    {
        self.kinds[id.0]
    }

    /// The op of a node.
    pub(crate) fn op(&self, id: NodeId) -> Op
        requires { id.0 < length self.now }
        ensures { result ≡ (node_at self.now id).op }
    {
        self.entries[id.0].op
    }

    /// The flags of a node.
    pub(crate) fn flags(&self, id: NodeId) -> NodeFlags
        requires { id.0 < length self.now }
        ensures { result ≡ (node_at self.now id).flags }
    {
        flags_of(self.entries[id.0].flags)
    }

    /// Whether no flag of a node is set.
    #[inline]
    pub(crate) fn has_no_flag(&self, id: NodeId) -> bool
        requires { id.0 < length self.now }
        ensures { IsTrue result → (node_at self.now id).flags ≡ no_flags }
    {
        self.entries[id.0].flags == 0
    }

    /// The span of a node.
    #[inline]
    pub(crate) fn span(&self, id: NodeId) -> Span
        requires { id.0 < length self.now }
        ensures { result ≡ (node_at self.now id).span }
    {
        self.entries[id.0].span
    }

    /// The slots of a node, in order.
    #[inline]
    pub(crate) fn children(&self, id: NodeId) -> &[Option<NodeId>]
        requires { id.0 < length self.now }
        ensures { result.now ≡ (node_at self.now id).children }
    {
        let entry = self.entries[id.0];
        let start = entry.start as usize;
        let count = entry.count as usize;
        &self.slots[start..start + count]
    }

    /// The kinds of all nodes, in the order of their numbers.
    pub(crate) fn kinds(&self) -> &[NodeKind]
        ensures { result.now ≡ map (λ n. n.kind) self.now }
    {
        self.kinds.as_slice()
    }

    /// The name that a node keeps, if it keeps one.
    pub(crate) fn kept_name(&self, id: NodeId) -> Option<&Text>
        requires { id.0 < length self.now }
        ensures { option_copied result ≡ (node_at self.now id).name }
    {
        self.names.get(&id.0)
    }
}
