//! The kind of a word (ECMA-262, section 12.7.2).

ghost use Rattle.std.specs.Prelude.{◌≡◌, filter};
ghost use Rattle.js_base.specs.Keywords.{begins_with, first_with_text, keyword_of};
ghost use Rattle.js_base.specs.Texts.{words};

use crate::kind::Kind;
use crate::kind::Kind::{
    Accessor, As, Assert, Async, Await, Break, Case, Catch, Class, Const, Constructor, Continue,
    Debugger, Default, Defer, Delete, Do, Else, Enum, Export, Extends, False, Finally, For, From,
    Function, Get, If, Implements, Import, In, Instanceof, Interface, Let, Meta, New, Null, Of,
    Package, Private, Protected, Public, Return, Satisfies, Set, Source, Static, Super, Switch,
    Target, This, Throw, True, Try, TypeWord, Typeof, Using, Var, Void, While, With, Yield,
};

impl Kind {
    /// The kind of a word of the keyword table (ECMA-262, section 12.7.2), else `Ident`. The text is the decoded one: in
    /// it no escape sequence is left.
    pub fn match_keyword(text: &str) -> Kind
        ensures { result ≡ keyword_of text.now }
    {
        keyword_kind(text.as_bytes())
    }
}

/// The kind of a word of the keyword table (ECMA-262, section 12.7.2), else `Ident`, for a decoded word given by its
/// UTF-8 bytes.
pub fn keyword_kind(word: &[u8]) -> Kind
    ensures { result ≡ keyword_of word.now }
{
    match word.first() {
        Some(first) => find_by_text(words_beginning_with(*first), word),
        None => Kind::Ident,
    }
}

/// The words of the keyword table that begin with a byte.
fn words_beginning_with(first: u8) -> &'static [Kind]
    ensures { result.now ≡ filter (begins_with first) words }
{
    match first {
        b'a' => &[Await, Async, As, Assert, Accessor],
        b'b' => &[Break],
        b'c' => &[Case, Catch, Class, Const, Continue, Constructor],
        b'd' => &[Debugger, Default, Delete, Do, Defer],
        b'e' => &[Else, Enum, Export, Extends],
        b'f' => &[False, Finally, For, Function, From],
        b'g' => &[Get],
        b'i' => &[If, Import, In, Instanceof, Implements, Interface],
        b'l' => &[Let],
        b'm' => &[Meta],
        b'n' => &[New, Null],
        b'o' => &[Of],
        b'p' => &[Package, Private, Protected, Public],
        b'r' => &[Return],
        b's' => &[Super, Switch, Static, Set, Source, Satisfies],
        b't' => &[This, Throw, True, Try, Typeof, Target, TypeWord],
        b'u' => &[Using],
        b'v' => &[Var, Void],
        b'w' => &[While, With],
        b'y' => &[Yield],
        _ => &[],
    }
}

/// The first of some kinds whose text is the word, else `Ident`.
fn find_by_text(kinds: &[Kind], word: &[u8]) -> Kind
    ensures { result ≡ first_with_text kinds.now word.now }
{
    for kind in kinds {
        if kind.to_str().as_bytes() == word {
            return *kind;
        }
    }
    Kind::Ident
}
