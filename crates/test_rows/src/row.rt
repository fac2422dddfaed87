//! A row, and what comes of what it asks for.

use crate::answer::Answer;
use crate::called::put_called;
use crate::kept::put_parsed;
use crate::lexed::put_lexed;
use crate::pass::put_pass;
use js_base::MAX_LEN;
use std::alloc::Global;

/// Whether a row holds; what came of it is put.
pub(crate) fn row_holds(alloc: Global, out: &mut Answer, row: &str) -> bool {
    let Some((front, want)) = row.rsplit_once(" ¦ ") else {
        return false;
    };
    let Some((asked, written)) = front.rsplit_once(" ¦ ") else {
        return false;
    };
    let mut text = Answer::new(alloc);
    put_spelled(&mut text, written);
    if text.failed {
        return false;
    }
    put_answer(alloc, out, asked, text.text.as_str());
    !out.failed && out.text.as_str().trim_end_matches('\n') == want
}

/// Puts the text that a row's text stands for: `‹a0›` is the character of that number. What is no such number stands for
/// itself.
fn put_spelled(out: &mut Answer, written: &str) {
    for (number, piece) in written.split('‹').enumerate() {
        let mut rest = piece;
        if number != 0 {
            if let Some((c, behind)) = named_character(piece) {
                if out.text.push(c).is_err() {
                    out.fail();
                }
                rest = behind;
            }
        }
        out.put(rest);
    }
}

/// The character of a number before `›`, and what stands behind it.
fn named_character(piece: &str) -> Option<(char, &str)> {
    let (number, rest) = piece.split_once('›')?;
    let Ok(number) = u32::from_str_radix(number, 16) else {
        return None;
    };
    let c = char::from_u32(number)?;
    Some((c, rest))
}

/// Puts what comes of a text for what is asked.
pub(crate) fn put_answer(alloc: Global, out: &mut Answer, asked: &str, text: &str) {
    if text.len() > MAX_LEN {
        return out.put("too long");
    }
    if let Some((reader, words)) = asked.split_once(" ¦ ") {
        return put_lexed(alloc, out, reader, words, text);
    }
    let (word, words) = asked.split_once(' ').unwrap_or((asked, ""));
    match word {
        "lex" => put_pass(alloc, out, text),
        "parse" | "tokens" | "trivia" | "names" | "record" | "counts" | "fatal" => {
            put_parsed(alloc, out, word, words, text)
        }
        _ => put_called(alloc, out, asked, text),
    }
}
