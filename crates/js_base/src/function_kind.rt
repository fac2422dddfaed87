//! Where a function or a declaration of variables stands.

ghost use Rattle.std.specs.Prelude.{◌≡◌, ◌↔◌, IsTrue};
ghost use Rattle.js_base.specs.declared.function_kind.FunctionKind.TheVariants.{Declaration, Expression};

/// What a function is.
#[derive(Debug, Clone, Copy, PartialEq, Eq)]
pub enum FunctionKind {
    /// The constructor of a class (ECMA-262, section 15.7).
    Constructor,
    /// Another method of a class (15.4).
    ClassMethod,
    /// A method of an object (13.2.5, 15.4).
    ObjectMethod,
    /// A declaration (15.2, 15.5, 15.6, 15.8).
    Declaration,
    /// An expression (15.2, 15.5, 15.6, 15.8).
    Expression,
    /// The declaration after `export default`, which needs no name (16.2.3).
    DefaultExport,
}

impl FunctionKind {
    /// Whether the function has to have a name: true for a declaration alone (ECMA-262, section 15.2).
    pub fn is_id_required(self) -> bool
        ensures { IsTrue result ↔ (self ≡ Declaration) }
    {
        matches!(self, FunctionKind::Declaration)
    }

    /// Whether it is an expression.
    pub fn is_expression(self) -> bool
        ensures { IsTrue result ↔ (self ≡ Expression) }
    {
        matches!(self, FunctionKind::Expression)
    }
}

/// Where a declaration of variables stands.
#[derive(Debug, Clone, Copy, PartialEq, Eq)]
pub enum VariableDeclarationParent {
    /// In the head of a `for` (ECMA-262, sections 14.7.4 and 14.7.5).
    For,
    /// In a list of statements, or where one statement stands (14.3).
    Statement,
}
