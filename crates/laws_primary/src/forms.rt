//! What operands are made of, beside their nodes (ECMA-262, sections 13.2, 13.3, 15.2, 15.4 and 15.7).

use laws_shared::NodeId;

/// What links go on with.
#[derive(Clone, Copy)]
pub enum LinkBase {
    /// A MemberExpression: a name or an expression in brackets.
    Member,
    /// A CallExpression: these, or arguments.
    Call,
    /// An OptionalChain: these, or `?.`.
    Chain,
}

/// The name of a property.
#[derive(Clone, Copy)]
pub struct PropertyName {
    /// Its node: an IdentifierName, a literal, or the expression that stands in brackets.
    pub key: NodeId,
    /// Whether it is an expression in brackets.
    pub computed: bool,
}

/// A part of a template that was passed.
#[derive(Clone, Copy)]
pub struct PassedPart {
    /// Its TemplateElement.
    pub element: NodeId,
    /// Whether it was the last one.
    pub is_last: bool,
}

/// Where a function stands.
#[derive(Clone, Copy)]
pub enum FunctionForm {
    /// A FunctionDeclaration or its kin, which has a name.
    Declaration,
    /// A FunctionExpression or its kin.
    Expression,
}

/// What a function is made of.
#[derive(Clone, Copy)]
pub struct FunctionParts {
    /// Whether it is asynchronous.
    pub is_async: bool,
    /// Whether it is a generator.
    pub is_generator: bool,
    /// Its name, if it has one.
    pub name: Option<NodeId>,
    /// Its FormalParameters.
    pub parameters: NodeId,
    /// Its FunctionBody.
    pub body: NodeId,
    /// The byte offset where its parameters end.
    pub head_end: u32,
}

/// Which class it is.
#[derive(Clone, Copy)]
pub enum ClassForm {
    /// A ClassDeclaration, which has a name.
    Declaration,
    /// A ClassExpression.
    Expression,
}
