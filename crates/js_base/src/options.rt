//! Options of a parse.

ghost use Rattle.std.specs.Prelude.{◌≡◌, true, false};

/// What is read, beyond the source type.
#[derive(Debug, Clone, Copy, PartialEq, Eq)]
pub struct ParseOptions {
    /// A `return` may stand outside functions (against ECMA-262, section 14.10).
    pub allow_return_outside_function: bool,
    /// Parentheses have a node of their own (13.2.9).
    pub preserve_parens: bool,
    /// Calls of V8's runtime, as `%DebugPrint(x)`, are read.
    pub allow_v8_intrinsics: bool,
}

impl Default for ParseOptions {
    ghost is_default = { λ o. (o.allow_return_outside_function ≡ false) × (o.preserve_parens ≡ true)
        × (o.allow_v8_intrinsics ≡ false) };

    /// Parentheses are kept, and nothing else is on.
    fn default() -> ParseOptions {
        ParseOptions {
            allow_return_outside_function: false,
            preserve_parens: true,
            allow_v8_intrinsics: false,
        }
    }
}
