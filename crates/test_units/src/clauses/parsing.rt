//! The call of `js_parser`.

ghost use Rattle.std.specs.Prelude.{◌≡◌, ◌<◌, [], length, true, false, IfOk, IsUtf8};
ghost use Rattle.js_base.specs.declared.TheConstants.{MAX_LEN};
ghost use Rattle.js_grammar.specs.CoreTexts.{CoreSource};
ghost use Rattle.js_grammar.specs.ModuleRecords.{record_of_parts};
ghost use Rattle.js_cursor.specs.js_lex.States.{goal_of};
ghost use Rattle.js_run.specs.js_parser.CoreAnswers.{IsCoreAnswer};
ghost use Rattle.js_run.specs.js_parser.js_core.Kept.{KeepsRight};
ghost use Rattle.js_run.specs.js_parser.js_core.Readings.{read_at};
ghost use Rattle.js_run.specs.js_parser.Recorded.{HasRecord};
ghost use Rattle.js_run.specs.js_parser.Parsed.{options_of, IsReturn, output_of};

use js_base::NoMemory;
use js_cursor::ParserConfig;
use js_run::js_parser::{Parser, ParserReturn};

/// `Parser::parse`.
pub fn parse<C: ParserConfig>(parser: Parser<'_, C>) -> Result<ParserReturn, NoMemory>
    ensures core_headline { IfOk result (λ r. IsUtf8 parser.entry.source_text.now → CoreSource parser.entry.source_text.now → parser.entry.options.preserve_parens ≡ true → IsCoreAnswer parser.entry.source_text.now parser.entry.source_type r.program.source_type parser.entry.options.allow_v8_intrinsics r.program.tree r.diagnostics) }
    ensures kept { IfOk result (λ r. KeepsRight parser.entry.source_text.now (read_at (goal_of parser.entry.source_type)) (options_of parser.entry.options) (C.asks_for_tokens parser.entry.config) (output_of r)) }
    ensures answers { IfOk result (λ r. IsReturn parser.entry.source_text.now parser.entry.source_type r.program.source_type parser.entry.options r.program.tree (output_of r) r.fatal_error) }
    ensures recorded { IfOk result (λ r. HasRecord parser.entry.source_text.now r.program.tree r.diagnostics r.module_record) }
    ensures overlong_record { IfOk result (λ r. MAX_LEN < length parser.entry.source_text.now → r.module_record ≡ record_of_parts []) }
    ensures no_flow { IfOk result (λ r. r.is_flow_language ≡ false) }
{
    parser.parse()
}
