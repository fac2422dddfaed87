//! What is put out for a text.

ghost use Rattle.std.specs.Prelude.{◌≤◌, length, IfOk};
ghost use Rattle.js_base.specs.declared.TheConstants.{MAX_LEN};
ghost use Rattle.js_run.specs.Outputs.{Gives};
ghost use Rattle.js_run.specs.Words.{settings_of};

use crate::lines::diagnostic_lines;
use crate::words::Settings;
use js_base::NoMemory;
use js_parser::Parser;
use std::alloc::Global;

/// What is put out for a text, and whether it is refused.
#[derive(Drop)]
pub struct Answer {
    /// The lines, each with its LF.
    pub output: Vec<u8>,
    /// Whether they are those of diagnostics.
    pub refused: bool,
}

/// Reads a text, and makes what is put out for it: the lines of its tree, or of its diagnostics.
pub fn answer_to(alloc: Global, text: &str, settings: &Settings) -> Result<Answer, NoMemory>
    requires { length text.now ≤ MAX_LEN }
    ensures { IfOk result (λ a. Gives (settings_of settings.now) text.now a.refused a.output.items) }
{
    let parser = Parser::new(alloc, text, settings.goal).with_options(settings.options);
    let parsed = parser.parse()?;
    if parsed.diagnostics.is_empty() {
        let output = parsed.program.tree.tree_lines(alloc)?;
        return Ok(Answer {
            output,
            refused: false,
        });
    }
    let output = diagnostic_lines(alloc, &parsed.diagnostics)?;
    Ok(Answer {
        output,
        refused: true,
    })
}
