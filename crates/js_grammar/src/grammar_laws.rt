//! Laws about the grammar of the whole language.

ghost use Rattle.js_grammar.specs.CoreReadings.{CoreLines, CoreOmission, CoreDerivations, CoreLexemes, CorePieces, CoreReading};
ghost use Rattle.js_grammar.specs.CoreLaws.{CoreParameters, CoreValidity};
ghost use Rattle.js_grammar.specs.ExportLaws.{DifferByRecord};

/// Each line of the core grammar is the line of the whole one, cut down to core lexemes.
pub fn law_of_core_lines()
    ensures { CoreLines }
{}

/// In core texts the rule by two lexemes for leaving a semicolon out says what the table by right edges says.
pub fn law_of_core_omission()
    ensures { CoreOmission }
{}

/// The lexemes of a core text are core lexemes.
pub fn law_of_core_lexemes()
    ensures { CoreLexemes }
{}

/// The lexemes of a core text are those of its pieces, at every goal.
pub fn law_of_core_pieces()
    ensures { CorePieces }
{}

/// From core lexemes the whole grammar and the core grammar derive the same trees.
pub fn law_of_core_derivations()
    ensures { CoreDerivations }
{}

/// A tree is a reading of a core text exactly where the whole grammar derives it from the text's lexemes.
pub fn law_of_core_readings()
    ensures { CoreReading }
{}

/// What parameters Program is read under makes no difference to core lexemes, but for In and the option for V8's functions.
pub fn law_of_core_parameters()
    ensures { CoreParameters }
{}

/// For a core text the trees that are valid at a goal are the readings by the core grammar.
pub fn law_core()
    ensures { CoreValidity }
{}

/// The exported names of a tree differ exactly where the record of its module has no errors.
pub fn law_of_exported_names()
    ensures { DifferByRecord }
{}
