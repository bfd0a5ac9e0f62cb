//! The laws of names and functions. The functions here do nothing: their contracts are the laws.

ghost use Rattle.std.specs.Prelude.{◌≡◌, ◌≢◌, ◌∷◌, ℕ, Bool, List, false, true};
ghost use Rattle.job_tree.specs.Tree.{Tree};
ghost use Rattle.job_tree.specs.Words.{is_word, starts_word};
ghost use Rattle.trio_text.specs.Names.{class_text, is_taken, name_text};
ghost use Rattle.trio_text.specs.Program.{IsProgram};
ghost use Rattle.trio_text.specs.Statements.{class_of, raised_class};
ghost use Rattle.trio_text.specs.Tasks.{HasFunctions, tasks_of};
ghost use Rattle.trio_text.specs.Uses.{Known};

/// A law: tasks, scopes, nurseries, events, limiters and channels with different names in the job have different names in its
/// program. The function does nothing when it is called.
pub fn law_names_differ()
    ensures { (one other : List ℕ) → name_text one ≡ name_text other → one ≡ other }
{}

/// A law: no task, and nothing that a step opens, has a name in the program that the program uses for something else: a word of
/// Python, a name that the program uses from it, or a helper. The function does nothing when it is called.
pub fn law_names_free()
    ensures { (name : List ℕ) → is_taken (name_text name) ≡ false }
{}

/// A law: no class of an exception has the name of a task in the program, or of what a step opens. `is_given` says whether one
/// of them has the name of the exception; names begin with a letter. The function does nothing when it is called.
pub fn law_classes_differ()
    ensures { (is_given : Bool) → (exception name : List ℕ) → starts_word name ≡ true → (exception ≡ name → is_given ≡ true)
        → class_text is_given exception ≢ name_text name }
{}

/// A law: exceptions with different names in the job have different classes in its program. The function does nothing when it is
/// called.
pub fn law_exceptions_differ()
    // The classes of the program, for names that begin with a letter.
    ensures own { (known : Known) → (first second : List ℕ) → starts_word first ≡ true → starts_word second ≡ true
        → class_of known first ≡ class_of known second → first ≡ second }
    // The same with those of Trio, for words.
    ensures raised { (known : Known) → (first second : List ℕ) → is_word first ≡ true → is_word second ≡ true
        → raised_class known first ≡ raised_class known second → first ≡ second }
{}

/// A law: a program of a job has a function for the root task and for each task that is started. The function does nothing when
/// it is called.
pub fn law_functions()
    ensures { (job : Tree) (text : List ℕ) → IsProgram job text → HasFunctions (job.name ∷ tasks_of job.steps) text }
{}
