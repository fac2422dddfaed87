//! The public call.

ghost use Rattle.std.specs.Prelude.{◌≡◌, ◌≢◌, ◌<◌, ◌≤◌, [], length, true, false, IfOk, IsUtf8};
ghost use Rattle.js_base.specs.declared.TheConstants.{MAX_LEN};
ghost use Rattle.js_base.specs.declared.source_type.Goal.TheVariants.{Unambiguous};
ghost use Rattle.js_base.specs.Sources.{is_goal};
ghost use Rattle.js_grammar.specs.CoreTexts.{CoreSource};
ghost use Rattle.js_grammar.specs.ModuleRecords.{record_of_parts};
ghost use Rattle.js_cursor.specs.js_lex.States.{goal_of};
ghost use Rattle.js_parser.specs.CoreAnswers.{IsCoreAnswer};
ghost use Rattle.js_core.specs.Kept.{KeepsRight};
ghost use Rattle.js_core.specs.Readings.{read_at};
ghost use Rattle.js_parser.specs.Recorded.{HasRecord};
ghost use Rattle.js_parser.specs.Parsed.{default_options, options_of, IsReturn, IsAnswer, output_of};

use crate::answer::{ParserReturn, overlong, refused, taken};
use js_base::{MAX_LEN, NoMemory, ParseOptions, SourceType};
use js_core::parse_program;
use js_cursor::{
    LexerConfig, NoTokensParserConfig, ParserConfig, ParserImpl, RuntimeParserConfig, Stop,
};
use std::alloc::Global;

/// The parser of one text.
#[derive(Drop)]
pub struct Parser<'a, C: ParserConfig> {
    alloc: Global,
    source_text: &'a str,
    source_type: SourceType,
    options: ParseOptions,
    config: C,
}

impl<'a> Parser<'a, NoTokensParserConfig> {
    /// The parser of a text, by default options, that keeps no tokens; it takes no memory.
    pub fn new(alloc: Global, source_text: &'a str, source_type: SourceType) -> Self
        ensures source_text { result.source_text.now ≡ source_text.now }
        ensures source_type { result.source_type ≡ source_type }
        ensures options { result.options ≡ default_options }
    {
        Parser {
            alloc,
            source_text,
            source_type,
            options: ParseOptions::default(),
            config: NoTokensParserConfig,
        }
    }
}

impl<'a, C: ParserConfig> Parser<'a, C> {
    /// The same with other options.
    pub fn with_options(self, options: ParseOptions) -> Self
        ensures source_text { result.source_text.now ≡ self.entry.source_text.now }
        ensures source_type { result.source_type ≡ self.entry.source_type }
        ensures options { result.options ≡ options }
        ensures config { result.config ≡ self.entry.config }
    {
        Parser { options, ..self }
    }

    /// The same with another config, which may ask for the tokens.
    pub fn with_config<D: ParserConfig>(self, config: D) -> Parser<'a, D>
        ensures source_text { result.source_text.now ≡ self.entry.source_text.now }
        ensures source_type { result.source_type ≡ self.entry.source_type }
        ensures options { result.options ≡ self.entry.options }
        ensures config { result.config ≡ config }
    {
        Parser {
            alloc: self.alloc,
            source_text: self.source_text,
            source_type: self.source_type,
            options: self.options,
            config,
        }
    }

    /// Reads the text. Without diagnostics the tree is the only one that Program derives from the text's lexemes and in which
    /// no early rule is broken that is looked at so far; where something was found, there is none. All this by the
    /// productions that are built, over lexemes of the kinds that are read so far; `laws::law_of_readings` says what it
    /// means for the whole language.
    pub fn parse(self) -> Result<ParserReturn, NoMemory>
        // For a core text, with parentheses kept, at any goal and V8 setting: nothing is found exactly where the text
        // has a reading, which is then the tree, and is the only one.
        ensures core_headline { IfOk result (λ r. IsUtf8 self.entry.source_text.now → CoreSource self.entry.source_text.now → self.entry.options.preserve_parens ≡ true → IsCoreAnswer self.entry.source_text.now self.entry.source_type r.program.source_type self.entry.options.allow_v8_intrinsics r.program.tree r.diagnostics) }
        // Without diagnostics, comments and white space are those of the lexemes of the reading, and so are the tokens,
        // where the config asks for them; where it doesn't, there are none.
        ensures kept { IfOk result (λ r. KeepsRight self.entry.source_text.now (read_at (goal_of self.entry.source_type)) (options_of self.entry.options) (C.asks_for_tokens self.entry.config) (output_of r)) }
        ensures answers { IfOk result (λ r. IsReturn self.entry.source_text.now self.entry.source_type r.program.source_type self.entry.options r.program.tree (output_of r) r.fatal_error) }
        // Without diagnostics the record is that of the tree (16.2.1.7).
        ensures recorded { IfOk result (λ r. HasRecord self.entry.source_text.now r.program.tree r.diagnostics r.module_record) }
        // Of a text that is too long no declaration of a module is read.
        ensures overlong_record { IfOk result (λ r. MAX_LEN < length self.entry.source_text.now → r.module_record ≡ record_of_parts []) }
        ensures no_flow { IfOk result (λ r. r.is_flow_language ≡ false) }
    {
        let source_type = settled(self.source_type);
        if self.source_text.len() > MAX_LEN {
            return overlong(self.alloc, source_type);
        }
        let tokens = self.config.lexer_config().tokens();
        parse_as(
            self.alloc,
            self.source_text,
            source_type,
            self.options,
            tokens,
        )
    }
}

/// How a text is read: an unambiguous one as a script, since what shows a module isn't read yet.
fn settled(source_type: SourceType) -> SourceType
    ensures settled { goal_of result ≡ read_at (goal_of source_type) }
    ensures named { is_goal result ≢ Unambiguous }
{
    if source_type.is_unambiguous() {
        SourceType::script()
    } else {
        source_type
    }
}

/// Reads a text at a named goal.
fn parse_as(
    alloc: Global,
    source_text: &str,
    source_type: SourceType,
    options: ParseOptions,
    tokens: bool,
) -> Result<ParserReturn, NoMemory>
    requires short { length source_text.now ≤ MAX_LEN }
    requires named { is_goal source_type ≢ Unambiguous }
    ensures answer { IfOk result (λ r. IsAnswer source_text.now (goal_of source_type) (options_of options) r.program.tree (output_of r) r.fatal_error) }
    ensures kept { IfOk result (λ r. KeepsRight source_text.now (goal_of source_type) (options_of options) tokens (output_of r)) }
    ensures recorded { IfOk result (λ r. HasRecord source_text.now r.program.tree r.diagnostics r.module_record) }
    ensures no_flow { IfOk result (λ r. r.is_flow_language ≡ false) }
    ensures source_type { IfOk result (λ r. r.program.source_type ≡ source_type) }
{
    let config = RuntimeParserConfig::new(tokens);
    let mut p = ParserImpl::new(alloc, source_text, source_type, options, config)?;
    match parse_program(&mut p) {
        Ok(items) => taken(source_type, p, items),
        Err(Stop::Fatal) => refused(source_type, p),
        Err(Stop::NoMemory) => Err(NoMemory),
    }
}
