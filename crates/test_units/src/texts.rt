//! Records of texts that are parsed, as rows of plain data.

use crate::rows::is_so;
use js_base::{NoMemory, SourceType};
use js_run::js_parser::Parser;
use std::alloc::Global;

/// A text, and the lines of its record.
type Row = (&'static str, &'static str);

/// Texts that are modules.
static MODULES: [Row; 7] = [
    (
        "(a = import('x'))",
        "syntax no\ndynamic 5..16 request 12..15\n",
    ),
    (
        "import.meta.foo; import.meta.bar",
        "syntax yes\nmeta 0..11\nmeta 17..28\n",
    ),
    (
        "import(import('x'))",
        "syntax no\ndynamic 7..18 request 14..17\ndynamic 0..19 request 7..18\n",
    ),
    (
        "(a, b = import(import.meta.c)) => import(d); import('e')",
        "syntax yes\ndynamic 8..29 request 15..28\ndynamic 34..43 request 41..42\ndynamic 45..56 request 52..55\nmeta 15..26\n",
    ),
    (
        "@(import('a')) class b extends import('c') { [import('d')] = import('e') }",
        "syntax no\ndynamic 2..13 request 9..12\ndynamic 31..42 request 38..41\ndynamic 46..57 request 53..56\ndynamic 61..72 request 68..71\n",
    ),
    (
        "do [x = import(a)] = y; while (import(b), await import(c))",
        "syntax no\ndynamic 8..17 request 15..16\ndynamic 31..40 request 38..39\ndynamic 48..57 request 55..56\n",
    ),
    ("a", "syntax no\n"),
];

/// Texts that are scripts.
static SCRIPTS: [Row; 2] = [
    ("import('x')", "syntax no\ndynamic 0..11 request 7..10\n"),
    ("a", "syntax no\n"),
];

/// Whether nothing is told of the text, and its record has these lines.
fn holds(
    alloc: Global,
    text: &str,
    source_type: SourceType,
    lines: &str,
) -> Result<bool, NoMemory> {
    let parsed = Parser::new(alloc, text, source_type).parse()?;
    let given = parsed.module_record.record_lines(alloc)?;
    Ok(parsed.diagnostics.is_empty() && given.as_slice() == lines.as_bytes())
}

/// The records of modules and of scripts.
#[test]
fn records_of_texts(rt: HostRuntime) {
    for &(text, lines) in &MODULES {
        let given = is_so(holds(rt.alloc(), text, SourceType::module(), lines));
        assert!(rt; given, "at {text}");
    }
    for &(text, lines) in &SCRIPTS {
        let given = is_so(holds(rt.alloc(), text, SourceType::script(), lines));
        assert!(rt; given, "at {text}");
    }
}
