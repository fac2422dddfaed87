//! The words of the program.

ghost use Rattle.std.specs.Prelude.{◌≡◌, ◌↔◌, IsTrue, map, string_bytes, codes, MatchResult};
ghost use Rattle.js_run.specs.Words.{settings_of, joined_word, Names, NamesGoal, Sets, IsRefusal, IsSetting};
ghost use Rattle.js_grammar.specs.CommandLine.{goal_word};

use js_base::{ParseOptions, SourceType};
use std::alloc::Global;

/// What is printed of a text that is accepted.
#[derive(Debug, Clone, Copy, PartialEq, Eq)]
pub enum Print {
    /// The tree.
    Tree,
    /// The record of a module.
    Module,
    /// The tokens.
    Tokens,
}

/// What the words set.
#[derive(Debug, Drop, PartialEq, Eq)]
pub struct Settings {
    /// How the text is read.
    pub goal: SourceType,
    /// What is printed of it.
    pub print: Print,
    /// What is admitted besides.
    pub options: ParseOptions,
    /// The number of lines to generate in place of a text that is read.
    pub generate: Option<u32>,
}

/// Why words set nothing.
#[derive(Debug, Drop, PartialEq, Eq)]
pub enum WordsError {
    /// The words are not admitted.
    Usage,
    /// Memory was refused.
    NoMemory,
}

/// The goal that a value names.
fn named_goal(word: &str) -> Option<SourceType>
    ensures { Names goal_word word.now result }
{
    if word == "script" {
        return Some(SourceType::script());
    }
    if word == "module" {
        return Some(SourceType::module());
    }
    if word == "commonjs" {
        return Some(SourceType::commonjs());
    }
    if word == "unambiguous" {
        return Some(SourceType::unambiguous());
    }
    None
}

/// The goal that a word names together with its option.
fn joined_goal(word: &str) -> Option<SourceType>
    ensures { Names joined_word word.now result }
{
    if word == "--goal=script" {
        return Some(SourceType::script());
    }
    if word == "--goal=module" {
        return Some(SourceType::module());
    }
    if word == "--goal=commonjs" {
        return Some(SourceType::commonjs());
    }
    if word == "--goal=unambiguous" {
        return Some(SourceType::unambiguous());
    }
    None
}

/// The goal that these words name, and nothing beside it.
fn goal_of_words(words: &[String]) -> Option<SourceType>
    ensures { NamesGoal (map string_bytes words.now) result }
{
    if words.len() == 1 {
        return joined_goal(words[0].as_str());
    }
    if words.len() == 2 && words[0].as_str() == "--goal" {
        return named_goal(words[1].as_str());
    }
    None
}

/// Whether a word is the option for V8's own functions.
fn is_v8(word: &String) -> bool
    ensures { IsTrue result ↔ (string_bytes word.now ≡ codes "--v8") }
{
    word.as_str() == "--v8"
}

/// What a goal sets, with the option for V8's own functions or without it.
fn set_by(goal: Option<SourceType>, allow_v8: bool) -> Result<Settings, WordsError>
    ensures { IsSetting goal allow_v8 result }
{
    let Some(goal) = goal else {
        return Err(WordsError::Usage);
    };
    Ok(Settings {
        goal,
        print: Print::Tree,
        options: ParseOptions {
            allow_return_outside_function: false,
            preserve_parens: true,
            allow_v8_intrinsics: allow_v8,
        },
        generate: None,
    })
}

/// Reads the words after the program's name.
pub fn read_words(_alloc: Global, words: &Vec<String>) -> Result<Settings, WordsError>
    ensures { MatchResult result (λ s. Sets (map string_bytes words.now.items) (settings_of s)) (IsRefusal (map string_bytes words.now.items)) }
{
    let count = words.len();
    if count > 0 && is_v8(&words[0]) {
        return set_by(goal_of_words(&words[1..]), true);
    }
    if count > 0 && is_v8(&words[count - 1]) {
        return set_by(goal_of_words(&words[..count - 1]), true);
    }
    set_by(goal_of_words(words.as_slice()), false)
}
