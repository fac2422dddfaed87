//! What elements of classes are made of, beside their nodes (ECMA-262, section 15.7).

/// How an element of a class begins.
#[derive(Clone, Copy)]
pub struct ElementHead {
    /// The byte offset where it begins.
    pub start: u32,
    /// Whether `static` stands before it.
    pub is_static: bool,
}

/// Which field an element of a class is.
#[derive(Clone, Copy)]
pub enum FieldKind {
    /// A FieldDefinition.
    Property,
    /// A field behind `accessor` (of the proposal of decorators).
    Accessor,
}
