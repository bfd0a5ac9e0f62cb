//! The law of formatted texts. The function does nothing: its contract is the law.

ghost use Rattle.std.specs.Prelude.{◌≡◌, ◌≤◌, ℕ, List, length};
ghost use Rattle.job_tree.specs.Tree.{Tree};
ghost use Rattle.job_reader.specs.Refusals.{Spells, most_bytes};
ghost use Rattle.job_layout.specs.Layout.{comments_of, formatted_text};

/// A law: the formatted text of a job as some text spells it also spells that job, with the same comments before each token,
/// if it is at most as long as a job text may be. So formatting it again returns the same text. The function does nothing when
/// it is called.
pub fn law_formatted()
    ensures again { (text : List ℕ) (job : Tree) → Spells text job → length (formatted_text text job) ≤ most_bytes
        → Spells (formatted_text text job) job }
    ensures kept { (text : List ℕ) (job : Tree) → Spells text job → length (formatted_text text job) ≤ most_bytes
        → comments_of (formatted_text text job) job ≡ comments_of text job }
    ensures same { (text : List ℕ) (job other : Tree) → Spells text job → Spells (formatted_text text job) other
        → formatted_text (formatted_text text job) other ≡ formatted_text text job }
{}
