ghost use Rattle.std.specs.Prelude.{◌≡◌, ℕ, List, [], None, length};
ghost use Rattle.job_tree.specs.Tree.{Tree};
ghost use Rattle.job_tokens.specs.declared.token.Token.{Token};
ghost use Rattle.job_reader.specs.Refusals.{Spells, HasTokens};
ghost use Rattle.job_lint.specs.Openings.{openings_of, opening_places, numbered_in};
ghost use Rattle.job_lint.specs.Warnings.{job_warnings};
ghost use Rattle.job_lint.specs.Fitting.{opening_keywords, keywords_of, AllStandAtKeywords};

/// A law: the tokens of a text that spells a job have the opening keywords of its tree, in the same order, and each has a
/// place. The function does nothing when it is called.
pub fn law_keywords_have_places()
    ensures keywords { (text : List ℕ) (job : Tree) (tokens : List Token) → Spells text job → HasTokens text tokens None
        → opening_keywords tokens ≡ keywords_of job.steps [] }
    ensures places { (text : List ℕ) (job : Tree) (tokens : List Token) → Spells text job → HasTokens text tokens None
        → length (opening_places tokens) ≡ openings_of job.steps }
{}

/// A law: each warning of a job is at the place of a keyword that it can be about: the warning of a handler at an `except`,
/// that of a scope at a `scope`, and so on. The function does nothing when it is called.
pub fn law_warnings_stand_at_keywords()
    ensures { (text : List ℕ) (job : Tree) (tokens : List Token) → Spells text job → HasTokens text tokens None
        → AllStandAtKeywords (opening_places tokens) (opening_keywords tokens)
        (job_warnings (numbered_in (opening_places tokens)) job) }
{}
