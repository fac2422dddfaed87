//! Laws of the lexemes of a text.

ghost use Rattle.js_grammar.specs.LexicalLaws.{CharacterClasses, Choice, CoreText, Cutting, Joining, Leniency};

/// A part, and another from its end on, are one part together.
pub fn law_of_joining()
    ensures { Joining }
{}

/// A part that is cut behind a lexeme is two parts.
pub fn law_of_cutting()
    ensures { Cutting }
{}

/// A core text has one list of lexemes, the same at every goal.
pub fn law_of_core_texts()
    ensures { CoreText }
{}

/// The classes of characters are those of the standard, by the tables of Unicode.
pub fn law_of_character_classes()
    ensures { CharacterClasses }
{}

/// What may be next at a goal may be next where faults pass that don't stop.
pub fn law_of_leniency()
    ensures { Leniency }
{}

/// Behind a place one lexeme stands, but at a slash and at a right brace.
pub fn law_of_choice()
    ensures { Choice }
{}
