//! The law of labels. The function does nothing: its contract is the law.

ghost use Rattle.json_story.specs.Laws.{LabelsAreAsInAReport};

/// A label as a JSON string is the same text as in a report, since nothing in a word is escaped.
pub fn law_labels()
    ensures { LabelsAreAsInAReport }
{}
