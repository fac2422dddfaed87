//! Laws of values.

ghost use Rattle.js_json.specs.Counts.{OneForEach};
ghost use Rattle.js_json.specs.Laws.{OneTree};

/// Two trees that have one value are one tree, with whatever texts they are read: the kind, the op, the flags, the span and
/// the slots of every node can be told from the value. That is so of trees that are valid for some texts, and of all that
/// nodes stand for.
pub fn law_of_values()
    ensures { OneTree }
{}

/// As many objects stand in the value of a tree as the tree has nodes, and its lines are one for each of these and one for
/// each empty slot.
pub fn law_of_counts()
    ensures { OneForEach }
{}
