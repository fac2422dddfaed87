//! Rows of texts for the lexer and the parser, and how fast these are.
//!
//! Without words it reads rows from standard input, and says how many hold, and which don't. A row is what is asked for, the
//! text, and what has to come, with ` ¦ ` between them. In the text `‹a0›` stands for the character of that number. Lines that
//! begin with `--` are no rows.
//!
//! With a word it reads a text from standard input to its end, and prints what comes of it if the word is asked for; with a
//! number behind the word it does so that often, and prints how long each pass took.
//!
//! What is asked for is one of these:
//!
//! - the goal and the config of a lexer, ` ¦ `, and words for its calls and for what it keeps;
//! - a call of `js_core` by its name, and the word that it takes; or `cover` and the type of what is wanted;
//! - `lex` or `parse`: how much is in the text;
//! - `tokens`, `trivia`, `names`, `record` or `counts`: what the parser keeps beside the tree, the names in it, its module
//!   record, or how much of all this there is; `fatal`: whether a fatal diagnostic ended the parse. Behind the word a goal may stand, `script`, `module` or
//!   `commonjs`, and `v8` behind that.
#![tactic(auto)]

mod answer;
mod called;
mod covered;
mod kept;
mod lexed;
mod pass;
mod row;

use crate::answer::Answer;
use crate::row::{put_answer, row_holds};
use std::alloc::AllocError;
use std::time::Instant;
use std::{env, io};

/// Reads rows, and says how many hold, and which don't.
fn read_rows(rt: &HostRuntime) -> io::Result<()> {
    let mut right = 0u64;
    let mut wrong = 0u64;
    for line in rt.lines(rt.alloc()) {
        let line = line?;
        if line.is_empty() || line.as_str().starts_with("--") {
            continue;
        }
        let mut answer = Answer::new(rt.alloc());
        if row_holds(rt.alloc(), &mut answer, line.as_str()) {
            right = right.saturating_add(1);
        } else {
            println!(rt; "{line}\n    gave: {}", answer.text)?;
            wrong = wrong.saturating_add(1);
        }
    }
    println!(rt; "{right} rows hold, {wrong} do not")
}

/// Prints what comes of a text, if that is not timed, or else how long it took.
fn tell(rt: &HostRuntime, asked: &str, text: &str, is_timed: bool) -> io::Result<()> {
    let start = Instant::now(rt)?;
    let mut answer = Answer::new(rt.alloc());
    put_answer(rt.alloc(), &mut answer, asked, text);
    if answer.failed {
        return Err(AllocError.into());
    }
    if !is_timed {
        return print!(rt; "{}", answer.text);
    }
    let micros = start.elapsed(rt)?.as_micros().max(1);
    let speed = text.len() as u128 / micros;
    println!(rt; "a pass in {micros} microseconds, {speed} MB a second")
}

fn main(rt: HostRuntime) -> io::Result<()> {
    let mut asked = String::new(rt.alloc());
    let mut passes = None;
    for word in env::args(&rt)?.skip(1) {
        match word.as_str().parse::<u32>() {
            Ok(number) => passes = Some(number),
            Err(_) => asked = word,
        }
    }
    if asked.is_empty() {
        return read_rows(&rt);
    }
    let text = io::read_to_string(rt.alloc(), rt.stdin())?;
    for _ in 0..passes.unwrap_or(1) {
        tell(&rt, asked.as_str(), text.as_str(), passes.is_some())?;
    }
    Ok(())
}
