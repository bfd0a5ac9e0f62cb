ghost use Rattle.std.specs.Prelude.{◌≡◌, ◌++◌, ◌∷◌, [], ◌+◌, ◌-◌, length, take, drop, OnOk, IfOk};
ghost use Rattle.std.specs.List.{list_all};
ghost use Rattle.job_tokens.specs.Canon.{token};
ghost use Rattle.job_layout.specs.Spaced.{column_after, start_column, with_gap};
ghost use Rattle.job_layout.specs.Layout.{fits, is_bare};
ghost use Rattle.std.specs.Io.Iter.{u64_saturate};

use crate::spaced::{Gap, SpacedToken, width};
use job_tokens::Shape;
use std::alloc::{AllocError, Global};
use std::marker::Model;

/// The maximum column at which a block on one line may end.
pub(crate) const MAX_COLUMNS: u64 = 80;

// The tokens that are laid out so far. In contracts, it is the list of these tokens.
#[derive(Drop)]
pub(crate) struct Layout {
    tokens: Vec<SpacedToken>,
    // The column at which the last of them ends.
    column: u64,
}

impl Model for Layout {
    ghost use Rattle.std.specs.Prelude.{List, ◌≡◌};
    ghost use Rattle.job_layout.specs.declared.spaced.SpacedToken.{SpacedToken};
    ghost use Rattle.job_layout.specs.Spaced.{column_after};
    ghost use Rattle.std.specs.Io.Iter.{u64_saturate};

    ghost Value = { List SpacedToken };

    ghost view = { λ l. l.tokens.items };

    ghost invariant = { λ l. l.column ≡ u64_saturate (column_after 0 l.tokens.items) };
}

impl Layout {
    // Makes an empty layout. Does not allocate.
    pub(crate) fn new(alloc: Global) -> Layout
        ensures { result ≡ [] }
    {
        Layout {
            tokens: Vec::new(alloc),
            column: 0,
        }
    }

    // Appends a token.
    pub(crate) fn push(&mut self, alloc: Global, gap: Gap, shape: Shape) -> Result<(), AllocError>
        ensures { OnOk result (self.new ≡ self.old ++ with_gap gap shape ∷ []) }
    {
        let next = SpacedToken { gap, shape };
        let column = end_of(alloc, self.column, &next)?;
        self.tokens.push(next)?;
        self.column = column;
        Ok(())
    }

    // Appends tokens.
    pub(crate) fn extend(&mut self, alloc: Global, tokens: &[SpacedToken]) -> Result<(), AllocError>
        ensures { OnOk result (self.new ≡ self.old ++ tokens.now) }
    {
        'tokens: for token in tokens {
            self.push(alloc, token.gap, token.shape)?;
        }
        Ok(())
    }

    // Returns whether these tokens, after the ones so far, end at the maximum column or before.
    pub(crate) fn fits(&self, alloc: Global, tokens: &[SpacedToken]) -> Result<bool, AllocError>
        ensures { IfOk result (λ fit. fit ≡ fits self.now tokens.now) }
    {
        let column = column_after(alloc, self.column, tokens)?;
        Ok(column <= MAX_COLUMNS)
    }

    // Returns whether there is no comment between these tokens, after the ones so far. `bare` says for each token whether there
    // is no comment before it.
    pub(crate) fn is_bare(&self, bare: &[bool], tokens: &[SpacedToken]) -> bool
        ensures { result ≡ is_bare bare.now self.now tokens.now }
    {
        are_bare(bare, self.tokens.len(), tokens.len())
    }

    // Returns the tokens.
    pub(crate) fn into_tokens(self) -> Vec<SpacedToken>
        ensures { result.items ≡ self }
    {
        self.tokens
    }
}

// Returns whether there is no comment before each but the first of `count` tokens after the first `before`.
fn are_bare(bare: &[bool], before: usize, count: usize) -> bool
    ensures { result ≡ list_all (λ b. b) (take (count - 1) (drop (before + 1) bare.now)) }
{
    let (_, from) = bare.split_at(before.min(bare.len()));
    let Some((_, inner)) = from.split_first() else {
        return true;
    };
    let (inner, _) = inner.split_at(count.saturating_sub(1).min(inner.len()));
    are_all_true(inner)
}

fn are_all_true(flags: &[bool]) -> bool
    ensures { result ≡ list_all (λ b. b) flags.now }
{
    flags.iter().all(|flag| *flag)
}

// Returns the column at which the tokens end, if the token before them ends at `column`.
fn column_after(alloc: Global, column: u64, tokens: &[SpacedToken]) -> Result<u64, AllocError>
    ensures { IfOk result (λ end. end ≡ u64_saturate (column_after column tokens.now)) }
{
    let mut end = column;
    let mut rest = tokens;
    'tokens: while let Some((first, others)) = rest.split_first() {
        end = end_of(alloc, end, first)?;
        rest = others;
    }
    Ok(end)
}

// Returns the column at which a token ends, if the token before it ends at `column`.
fn end_of(alloc: Global, column: u64, next: &SpacedToken) -> Result<u64, AllocError>
    ensures { IfOk result (λ end. end ≡ u64_saturate (u64_saturate (start_column column next.now.gap) + length (token next.now.shape))) }
{
    let width = width(alloc, next.shape)? as u64;
    Ok(start_column(column, next.gap).saturating_add(width))
}

// Returns the column at which a token begins, if the token before it ends at `column`.
fn start_column(column: u64, gap: Gap) -> u64
    ensures { result ≡ u64_saturate (start_column column gap) }
{
    match gap {
        Gap::Joined => column,
        Gap::Space => column.saturating_add(1),
        Gap::Line(level) => level.saturating_mul(2),
    }
}
