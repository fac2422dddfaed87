//! How a text is to be read.

ghost use Rattle.std.specs.Prelude.{◌≡◌, IsTrue, ◌↔◌};
ghost use Rattle.js_base.specs.Sources.{is_goal};
ghost use Rattle.js_base.specs.declared.source_type.Goal.TheVariants.{Script, Module, CommonJs, Unambiguous};

/// The four ways to read a text.
#[derive(Debug, Clone, Copy, PartialEq, Eq)]
enum Goal {
    Script,
    Module,
    CommonJs,
    Unambiguous,
}

/// The goal symbol by which a text is read (ECMA-262, chapter 16); a CommonJS text is the body of a function,
/// and an unambiguous one is a script or a module, as it turns out.
#[derive(Debug, Clone, Copy, PartialEq, Eq)]
pub struct SourceType {
    goal: Goal,
}

impl SourceType {
    /// A script (ECMA-262, section 16.1).
    pub fn script() -> SourceType
        ensures { is_goal result ≡ Script }
    {
        SourceType { goal: Goal::Script }
    }

    /// A module (ECMA-262, section 16.2).
    pub fn module() -> SourceType
        ensures { is_goal result ≡ Module }
    {
        SourceType { goal: Goal::Module }
    }

    /// The body of a CommonJS function.
    pub fn commonjs() -> SourceType
        ensures { is_goal result ≡ CommonJs }
    {
        SourceType {
            goal: Goal::CommonJs,
        }
    }

    /// A script, or a module where that can't be.
    pub fn unambiguous() -> SourceType
        ensures { is_goal result ≡ Unambiguous }
    {
        SourceType {
            goal: Goal::Unambiguous,
        }
    }

    /// Whether the text is read as a script.
    pub fn is_script(self) -> bool
        ensures { IsTrue result ↔ (is_goal self ≡ Script) }
    {
        matches!(self.goal, Goal::Script)
    }

    /// Whether the text is read as a module.
    pub fn is_module(self) -> bool
        ensures { IsTrue result ↔ (is_goal self ≡ Module) }
    {
        matches!(self.goal, Goal::Module)
    }

    /// Whether the text is read as the body of a CommonJS function.
    pub fn is_commonjs(self) -> bool
        ensures { IsTrue result ↔ (is_goal self ≡ CommonJs) }
    {
        matches!(self.goal, Goal::CommonJs)
    }

    /// Whether the text is read as a script, or a module where that can't be.
    pub fn is_unambiguous(self) -> bool
        ensures { IsTrue result ↔ (is_goal self ≡ Unambiguous) }
    {
        matches!(self.goal, Goal::Unambiguous)
    }
}

impl Default for SourceType {
    ghost is_default = { λ s. is_goal s ≡ Module };

    /// A module.
    fn default() -> SourceType {
        SourceType::module()
    }
}
