//! The flags of nodes.

/// The flags of a node; by default none is set.
#[derive(Debug, Clone, Copy, PartialEq, Eq, Default)]
pub struct NodeFlags {
    /// An update whose operator stands before its operand (ECMA-262, section 13.4).
    pub prefix: bool,
    /// A link of a chain with `?.` (13.3).
    pub optional: bool,
    /// A key in brackets (13.2.5, 15.7).
    pub computed: bool,
    /// A property that is a name alone, or a name and its initialiser (13.2.5).
    pub shorthand: bool,
    /// A property that is a method (13.2.5).
    pub method: bool,
    /// A function with `async` (15.8).
    pub is_async: bool,
    /// A function with `*` (15.5).
    pub generator: bool,
    /// `yield *` (15.5).
    pub delegate: bool,
    /// An element of a class with `static` (15.7).
    pub is_static: bool,
    /// `for await` (14.7.5).
    pub is_await: bool,
    /// The last part of a template (12.9.6).
    pub tail: bool,
    /// An import without a clause (16.2.2).
    pub bare: bool,
    /// What a comment marks as free of side effects.
    pub pure: bool,
    /// A function that stands directly in parentheses.
    pub pife: bool,
}
