ghost use Rattle.std.specs.Prelude.{◌≡◌, ◌≤◌, ℕ, List, length};
ghost use Rattle.job_tree.specs.Tree.{Tree};
ghost use Rattle.job_tree.specs.Names.{GivesNamesOnce};
ghost use Rattle.job_tree.specs.Starting.{StartsInNurseries};
ghost use Rattle.job_tree.specs.InRange.{IsInRange};
ghost use Rattle.job_reader.specs.Refusals.{Spells};
ghost use Rattle.job_reader.specs.Canon.{canon};

/// A law: no text spells two jobs. The function does nothing when it is called.
pub fn spells_one_job()
    ensures { (text : List ℕ) (a b : Tree) → Spells text a → Spells text b → a ≡ b }
{}

/// A law: the canonical text of a job that a text spells also spells that job, and is no longer than that text. So reading
/// the result of `write_job` returns the same job. The function does nothing when it is called.
pub fn canonical_text_spells()
    ensures again { (text : List ℕ) (job : Tree) → Spells text job → Spells (canon job) job }
    ensures shortest { (text : List ℕ) (job : Tree) → Spells text job → length (canon job) ≤ length text }
{}

/// A law about each job that a text spells: no name is given twice, its own included; each `start` is directly in the body
/// of a nursery, or in a `repeat` there; its numbers are in their ranges, and it has no more step instances than its format
/// allows. The function does nothing when it is called.
pub fn spelled_jobs_are_sound()
    ensures names { (text : List ℕ) (job : Tree) → Spells text job → GivesNamesOnce job }
    ensures starts { (text : List ℕ) (job : Tree) → Spells text job → StartsInNurseries job }
    ensures in_range { (text : List ℕ) (job : Tree) → Spells text job → IsInRange job }
{}
