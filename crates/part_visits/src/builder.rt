//! What the declarations of a module add to its record, kept as long as the module is being read.

ghost use Rattle.std.specs.Prelude.{◌≡◌, ◌≤◌, ◌++◌, ◌∷◌, [], length, take, IfOk, OnOk, OnErr};
ghost use Rattle.js_grammar.specs.ModuleRecords.{record_of_parts, whole};
ghost use Rattle.js_grammar.specs.Modules.{syntax};

use crate::copied::copies;
use crate::part::Part;
use js_base::{NoMemory, SourceType};
use std::alloc::Global;
use std::marker::Model;

/// What the declarations of a module add to its record, as long as it is being read. It is seen as the list of what
/// each visit adds, in the order of the visits.
#[derive(Drop)]
pub struct ModuleRecordBuilder {
    /// Where memory comes from.
    pub alloc: Global,
    visits: Vec<Part>,
}

impl Model for ModuleRecordBuilder {
    ghost use Rattle.std.specs.Prelude.{List};
    ghost use Rattle.js_grammar.specs.ModuleRecords.{Part as Added};

    ghost Value = { List Added };

    ghost view = { λ b. b.visits.items };
}

impl ModuleRecordBuilder {
    /// No visit; it takes no memory. What is kept is the same for every source type.
    pub fn new(alloc: Global, _source_type: SourceType) -> Self
        ensures { result ≡ [] }
    {
        ModuleRecordBuilder {
            alloc,
            visits: Vec::new(alloc),
        }
    }

    /// Keeps a visit. On an error all stays as it was.
    pub fn keep(&mut self, visit: Part) -> Result<(), NoMemory>
        ensures ok { OnOk result (self.new ≡ self.old ++ visit ∷ []) }
        ensures err { OnErr result (self.new ≡ self.old) }
    {
        self.visits.push(visit)?;
        Ok(())
    }

    /// Notes that the text has what modules alone have. It is a visit too, and adds nothing else. The only error is want of
    /// memory; all then stays as it was.
    pub fn set_module_syntax(&mut self) -> Result<(), NoMemory>
        ensures ok { OnOk result (self.new ≡ self.old ++ syntax ∷ []) }
        ensures err { OnErr result (self.new ≡ self.old) }
    {
        self.keep(Part::syntax(self.alloc))
    }

    /// Whether the text has an import or export declaration or `import.meta` so far, or `set_module_syntax` was called.
    #[tactic(auto, using(crate::proofs::PartLemmas::whole_syntax))]
    pub fn has_module_syntax(&self) -> bool
        ensures { result ≡ (record_of_parts self.now).has_module_syntax }
    {
        for visit in &self.visits {
            if visit.is_module_syntax {
                return true;
            }
        }
        false
    }

    /// How many visits are kept.
    pub fn mark(&self) -> usize
        ensures { result ≡ length self.now }
    {
        self.visits.len()
    }

    /// Keeps the first `mark` visits, of which there have to be as many.
    pub fn cut(&mut self, mark: usize)
        requires { mark ≤ length self.old }
        ensures { self.new ≡ take mark self.old }
    {
        self.visits.truncate(mark);
    }

    /// What all visits add together; they stay. The only error is want of memory.
    pub fn whole(&self) -> Result<Part, NoMemory>
        ensures { IfOk result (λ p. p ≡ whole self.now) }
    {
        let visits = copies(self.alloc, &self.visits)?;
        Part::whole(self.alloc, visits)
    }

    /// What all visits add together. The only error is want of memory.
    pub fn into_whole(self) -> Result<Part, NoMemory>
        ensures { IfOk result (λ p. p ≡ whole self) }
    {
        Part::whole(self.alloc, self.visits)
    }
}
