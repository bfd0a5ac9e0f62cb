ghost use Rattle.std.specs.Prelude.{◌≡◌, ◌++◌, [], IfOk, OnOk};
ghost use Rattle.job_reader.specs.Refusals.{Spells};
ghost use Rattle.job_tokens.specs.Shapes.{word_in};
ghost use Rattle.commands.specs.Names.{AreGiven, first_word, given_after, given_if, given_in, keyword_in, with_name};

use job_reader::{Job, JobKind, Name, read_job, spelled_tokens};
use job_syntax::Keyword;
use job_tokens::Token;
use std::alloc::{AllocError, Global};

/// Returns the names that a job text gives to its job, tasks, scopes, nurseries, events, limiters and channels, in the order of the
/// text. A text that is refused gives none. Returns `AllocError` if memory runs out.
pub fn given_names(alloc: Global, job_text: &[u8]) -> Result<Vec<Name>, AllocError>
    ensures { IfOk result (λ names. AreGiven job_text.now names.items) }
{
    match read_job(alloc, job_text) {
        Ok(job) => {
            let names = names_of_job(alloc, job_text, &job)?;
            Ok(names)
        }
        Err(fault) => match fault.kind {
            JobKind::NoMemory => Err(AllocError),
            _ => Ok(Vec::new(alloc)),
        },
    }
}

// Returns the names that a text gives which spells this job.
fn names_of_job(alloc: Global, job_text: &[u8], job: &Job) -> Result<Vec<Name>, AllocError>
    requires { Spells job_text.now job.now }
    ensures { IfOk result (λ names. AreGiven job_text.now names.items) }
{
    let tokens = spelled_tokens(alloc, job_text, job)?;
    let names = names_in(alloc, tokens.as_slice())?;
    Ok(names)
}

// Returns the names that some tokens give.
fn names_in(alloc: Global, tokens: &[Token]) -> Result<Vec<Name>, AllocError>
    ensures { IfOk result (λ names. names.items ≡ given_in tokens.now) }
{
    let mut names = Vec::new(alloc);
    let mut rest = tokens;
    'tokens: while let Some((token, others)) = rest.split_first() {
        push_given(&mut names, *token, others)?;
        rest = others;
    }
    Ok(names)
}

// Appends the name that comes after this token, if the token is the keyword before a name that is given.
fn push_given(names: &mut Vec<Name>, token: Token, after: &[Token]) -> Result<(), AllocError>
    ensures { OnOk result (names.new.items ≡ names.old.items ++ with_name (given_after token after.now) []) }
{
    let Some(name) = given_after(token, after) else {
        return Ok(());
    };
    names.push(name)?;
    Ok(())
}

/// Returns the name that comes after a token, if the token is a keyword before a name that is given.
pub fn given_after(token: Token, after: &[Token]) -> Option<Name>
    ensures { result ≡ given_after token after.now }
{
    given_if(keyword_in(token), after)
}

// Returns the keyword that a token is, if it is one.
fn keyword_in(token: Token) -> Option<Keyword>
    ensures { result ≡ keyword_in (word_in token.shape) }
{
    Keyword::of(token.shape.word()?)
}

// Returns the name that comes after this keyword.
fn given_if(keyword: Option<Keyword>, after: &[Token]) -> Option<Name>
    ensures { result ≡ given_if keyword after.now }
{
    match keyword {
        Some(Keyword::Job) => first_word(after),
        Some(Keyword::Start) => first_word(after),
        Some(Keyword::Scope) => first_word(after),
        Some(Keyword::Nursery) => first_word(after),
        Some(Keyword::Event) => first_word(after),
        Some(Keyword::Limiter) => first_word(after),
        Some(Keyword::Channel) => first_word(after),
        _ => None,
    }
}

// Returns the word that the first token is, if it is one.
fn first_word(tokens: &[Token]) -> Option<Name>
    ensures { result ≡ first_word tokens.now }
{
    let (token, _) = tokens.split_first()?;
    token.shape.word()
}
