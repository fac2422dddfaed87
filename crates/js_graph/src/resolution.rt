//! What a name that a module is asked for stands for.

ghost use Rattle.std.specs.Prelude.{◌≡◌, ◌↔◌, IsTrue};

use js_base::Text;

/// What ResolveExport (ECMA-262, 16.2.1.7.2.2) answers.
#[derive(Drop)]
pub enum Resolution {
    /// No binding.
    Null,
    /// This binding and no other.
    Binding(Binding),
    /// More than one binding.
    Ambiguous,
}

/// A ResolvedBinding Record (ECMA-262, 16.2.1.7): a binding of a module.
#[derive(Drop)]
pub struct Binding {
    /// The number of the module.
    pub module: usize,
    /// Its name there.
    pub name: BindingName,
}

/// \[\[BindingName\]\] of a ResolvedBinding Record.
#[derive(Drop)]
pub enum BindingName {
    /// A name of the module.
    Name(Text),
    /// What `export default` exports, which has no name that another module could ask for.
    Default,
    /// The module's namespace object.
    Namespace,
}

impl BindingName {
    /// Whether they are the same.
    fn is_same(&self, other: &BindingName) -> bool
        ensures { IsTrue result ↔ (self.now ≡ other.now) }
    {
        match (self, other) {
            (BindingName::Name(name), BindingName::Name(same)) => name == same,
            (BindingName::Default, BindingName::Default) => true,
            (BindingName::Namespace, BindingName::Namespace) => true,
            _ => false,
        }
    }
}

impl Binding {
    /// Whether they are the same.
    pub(crate) fn is_same(&self, other: &Binding) -> bool
        ensures { IsTrue result ↔ (self.now ≡ other.now) }
    {
        self.module == other.module && self.name.is_same(&other.name)
    }
}
