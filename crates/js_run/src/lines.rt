//! The lines of diagnostics.

ghost use Rattle.std.specs.Prelude.{◌≡◌, ◌++◌, IfOk, OnOk};
ghost use Rattle.js_grammar.specs.Lines.{related_text, diagnostic_line, diagnostic_text};

use js_base::{Diagnostic, Diagnostics, NoMemory, Span};
use std::alloc::Global;

/// Writes a blank and a related place, where there is one.
fn write_related(out: &mut Vec<u8>, place: Option<Span>) -> Result<(), NoMemory>
    ensures { OnOk result (out.new.items ≡ out.old.items ++ related_text place) }
{
    if let Some(span) = place {
        out.push(b' ')?;
        span.write(out)?;
    }
    Ok(())
}

/// Writes the line of a diagnostic.
fn write_diagnostic(out: &mut Vec<u8>, found: &Diagnostic) -> Result<(), NoMemory>
    ensures { OnOk result (out.new.items ≡ out.old.items ++ diagnostic_line found.now) }
{
    found.span.write(out)?;
    out.push(b' ')?;
    out.extend_from_slice(found.kind.name().as_bytes())?;
    write_related(out, found.first)?;
    write_related(out, found.second)?;
    out.push(b'\n')?;
    Ok(())
}

/// The lines of diagnostics, in their order.
pub fn diagnostic_lines(alloc: Global, found: &Diagnostics) -> Result<Vec<u8>, NoMemory>
    ensures { IfOk result (λ bytes. bytes.items ≡ diagnostic_text found.now) }
{
    let mut out = Vec::new(alloc);
    for i in 0..found.len() {
        if let Some(one) = found.get(i) {
            write_diagnostic(&mut out, one)?;
        }
    }
    Ok(out)
}
