//! Laws of the readings of a text.

ghost use Rattle.js_parser.specs.Language.{ReadingsAreValid};
ghost use Rattle.js_parser.specs.SameSource.{ReadingsHaveSources};

/// A reading, which is by the productions that are built, is valid for the text by all productions of the language and
/// all early rules. At the goals script and CommonJS each valid tree is a reading, but for the mark `pure` on its nodes;
/// in a module, where no lexeme of the text begins a production that isn't built, which `import` and `export` do.
pub fn law_of_readings()
    ensures { ReadingsAreValid }
{}

/// Each node of a tree that Program derives from a text, be it by the cover grammar, has there what is read of it: the slice
/// at a name, a private name, a string literal or a big integer is one lexeme of that class (ECMA-262, sections 12.7, 12.9.3
/// and 12.9.4), and that at an element of a template is the inside of one of its parts (12.9.6).
pub fn law_of_sources()
    ensures { ReadingsHaveSources }
{}
