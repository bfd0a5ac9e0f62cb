ghost use Rattle.std.specs.Prelude.{◌≡◌, ◌++◌, ◌∷◌, [], IfOk, OnOk};
ghost use Rattle.job_edits.specs.declared.change.Piece.TheVariants as piece;
ghost use Rattle.job_edits.specs.Faults.{insertion, insertion_after};
ghost use Rattle.job_edits.specs.Numbers.{set_to};
ghost use Rattle.job_edits.specs.FinerTicks.{finer_changes_at, version_changes, finer_changes, hairs_of, shifts_with, shifts_of, hair_scope, moved_ticks, shifted_at, shifted_or_finer_changes, shifted_changes};

use crate::change::{Change, Piece};
use crate::finer_ticks::{FinerTicks, ticks_of};
use crate::fresh::fresh_word;
use crate::number::Number;
use crate::site::{Moment, Site};
use job_meaning::Clock;
use job_tokens::Token;
use job_tree::Name;
use std::alloc::{AllocError, Global};

/// In which direction a site is moved by a hair.
#[derive(Clone, Copy, Debug, PartialEq, Eq)]
pub enum Hair {
    /// It takes a hair less.
    Earlier,
    /// It takes a hair more.
    Later,
}

/// A site of a job text that is moved by a hair.
#[derive(Clone, Copy)]
pub struct Shift {
    /// The site.
    pub site: Site,
    /// The direction.
    pub hair: Hair,
}

/// Returns each shift of each site, in the order of the sites. A number of ticks is moved in both directions, or only later if
/// it is 0; everything else is moved only later. The only error is that memory runs out.
pub fn shifts(alloc: Global, sites: &[Site]) -> Result<Vec<Shift>, AllocError>
    ensures { IfOk result (λ shifts. shifts.items ≡ shifts_of sites.now) }
{
    let mut shifts = Vec::new(alloc);
    'sites: for site in sites {
        push_shifts(&mut shifts, site)?;
    }
    Ok(shifts)
}

// Appends each shift of a site.
fn push_shifts(shifts: &mut Vec<Shift>, site: &Site) -> Result<(), AllocError>
    ensures { OnOk result (shifts.new.items ≡ shifts.old.items ++ shifts_with site.now (hairs_of site.now.moment)) }
{
    if ticks_of(site.moment) != 0 {
        push_shift(shifts, site, Hair::Earlier)?;
    }
    push_shift(shifts, site, Hair::Later)
}

// Appends one shift of a site.
fn push_shift(shifts: &mut Vec<Shift>, site: &Site, hair: Hair) -> Result<(), AllocError>
    ensures { OnOk result (shifts.new.items ≡ shifts.old.items ++ record { site = site.now; hair = hair } ∷ []) }
{
    let from = site.from;
    let moment = site.moment;
    shifts.push(Shift {
        site: Site { from, moment },
        hair,
    })?;
    Ok(())
}

/// Returns the changes that give a job text finer ticks. If its time is counted by ticks, the text gets format 2; if it is
/// counted by rounds, the first line is not changed. `sites` are all the sites of the text. The only error is that memory runs
/// out.
pub fn finer_changes(
    alloc: Global,
    clock: Clock,
    finer_ticks: FinerTicks,
    sites: &[Site],
) -> Result<Vec<Change>, AllocError>
    ensures { IfOk result (λ changes. changes.items ≡ finer_changes clock finer_ticks sites.now) }
{
    let mut changes = version_changes(alloc, clock)?;
    'sites: for site in sites {
        push_finer_changes(&mut changes, finer_ticks, site)?;
    }
    Ok(changes)
}

/// Returns the name of the scope in which `shifted_changes` puts a hair at a step that is no checkpoint: the first of `hair`,
/// `hair_1` and so on that is not in the job text with these tokens. That there is such a name is tested, not proved. The only
/// error is that memory runs out.
pub fn hair_scope(alloc: Global, tokens: &[Token]) -> Result<Name, AllocError>
    ensures { IfOk result (λ name. name ≡ hair_scope tokens.now) }
{
    fresh_word(alloc, b"hair", tokens)
}

/// Returns the changes that give a job text finer ticks, as `finer_changes` does, and move one of its sites by a hair. `sites`
/// are all the sites of the text. The hair of a `set` or a `close`, and of the end of the block of an `acquire`, is a sleep before
/// it in a shielded scope with the name `scope`, which is `hair_scope` of the text. The only error is that memory runs out.
pub fn shifted_changes(
    alloc: Global,
    clock: Clock,
    finer_ticks: FinerTicks,
    scope: Name,
    shift: &Shift,
    sites: &[Site],
) -> Result<Vec<Change>, AllocError>
    ensures { IfOk result (λ changes. changes.items ≡ shifted_changes clock finer_ticks scope shift.now sites.now) }
{
    let mut changes = version_changes(alloc, clock)?;
    'sites: for site in sites {
        push_shifted_or_finer_changes(&mut changes, finer_ticks, scope, shift, site)?;
    }
    Ok(changes)
}

// Returns the change of the first line to that of format 2 if time is counted by ticks, and no change if it is counted by rounds.
fn version_changes(alloc: Global, clock: Clock) -> Result<Vec<Change>, AllocError>
    ensures { IfOk result (λ changes. changes.items ≡ version_changes clock) }
{
    let mut changes = Vec::new(alloc);
    match clock {
        Clock::ByTicks => {
            push(&mut changes, 9, 10, Piece::Number(2))?;
            Ok(changes)
        }
        Clock::ByRounds => Ok(changes),
    }
}

// Appends the changes of a site, which may be the one that is moved by a hair.
fn push_shifted_or_finer_changes(
    changes: &mut Vec<Change>,
    finer_ticks: FinerTicks,
    scope: Name,
    shift: &Shift,
    site: &Site,
) -> Result<(), AllocError>
    ensures { OnOk result (changes.new.items ≡ changes.old.items ++ shifted_or_finer_changes finer_ticks scope shift.now site.now) }
{
    if site.from == shift.site.from {
        push_shifted(changes, finer_ticks, scope, shift.hair, site)
    } else {
        push_finer_changes(changes, finer_ticks, site)
    }
}

// Appends the changes that make the ticks of a site finer.
fn push_finer_changes(
    changes: &mut Vec<Change>,
    finer_ticks: FinerTicks,
    site: &Site,
) -> Result<(), AllocError>
    ensures { OnOk result (changes.new.items ≡ changes.old.items ++ finer_changes_at finer_ticks site.now.from site.now.moment) }
{
    let moment = site.moment;
    match moment {
        Moment::Sleep(number) | Moment::After(_, number) | Moment::At(_, number) => {
            push_number(changes, number, finer_ticks.ticks(number))
        }
        Moment::Pace { to, .. } => push_repeat(changes, finer_ticks, site.from, to),
        Moment::Checkpoint { .. } | Moment::Start { .. } => Ok(()),
        Moment::Set(_) | Moment::Wait { .. } => Ok(()),
        Moment::Asking(_, _) | Moment::Release(_) | Moment::Close(_) => Ok(()),
    }
}

// Appends the changes that make the ticks of a site finer, and move it by a hair.
fn push_shifted(
    changes: &mut Vec<Change>,
    finer_ticks: FinerTicks,
    scope: Name,
    hair: Hair,
    site: &Site,
) -> Result<(), AllocError>
    ensures { OnOk result (changes.new.items ≡ changes.old.items ++ shifted_at finer_ticks scope hair site.now.from site.now.moment) }
{
    let from = site.from;
    let moment = site.moment;
    match moment {
        Moment::Sleep(number) | Moment::After(_, number) | Moment::At(_, number) => {
            push_number(changes, number, moved_ticks(finer_ticks, number, hair))
        }
        Moment::Checkpoint { to } => { push(changes, from, to, Piece::Sleep(finer_ticks.hair)) }
        Moment::Pace { to, .. } => {
            push_repeat(changes, finer_ticks, from, to)?;
            push_after(changes, to, Piece::ThenSleep(finer_ticks.hair))
        }
        Moment::Start { opening, .. } => {
            push_after(changes, opening, Piece::ThenSleep(finer_ticks.hair))
        }
        Moment::Set(_) | Moment::Release(_) | Moment::Close(_) => {
            let sleep = Piece::ShieldedSleep(scope, finer_ticks.hair);
            push(changes, from, from, sleep)
        }
        Moment::Wait { to, .. } => push_after(changes, to, Piece::ThenSleep(finer_ticks.hair)),
        Moment::Asking(_, _) => push(changes, from, from, Piece::SleepBefore(finer_ticks.hair)),
    }
}

// Appends the changes that repeat a step once for each finer tick of an original tick.
fn push_repeat(
    changes: &mut Vec<Change>,
    finer_ticks: FinerTicks,
    from: usize,
    to: usize,
) -> Result<(), AllocError>
    ensures { OnOk result (changes.new.items
        ≡ changes.old.items ++ (insertion from (piece.OpenRepeat finer_ticks.factor) ∷ insertion_after to piece.Close ∷ [])) }
{
    push(changes, from, from, Piece::OpenRepeat(finer_ticks.factor))?;
    push_after(changes, to, Piece::Close)
}

// Appends the change that puts another number in place of one.
fn push_number(changes: &mut Vec<Change>, number: Number, value: u64) -> Result<(), AllocError>
    ensures { OnOk result (changes.new.items ≡ changes.old.items ++ set_to number value ∷ []) }
{
    push(changes, number.from, number.to, Piece::Number(value))
}

// Appends the change that puts a piece after the byte at a place.
fn push_after(changes: &mut Vec<Change>, at: usize, piece: Piece) -> Result<(), AllocError>
    ensures { OnOk result (changes.new.items ≡ changes.old.items ++ insertion_after at piece ∷ []) }
{
    let after = at.saturating_add(1);
    push(changes, after, after, piece)
}

// Returns a number of ticks in finer ticks, moved by a hair.
fn moved_ticks(finer_ticks: FinerTicks, number: Number, hair: Hair) -> u64
    ensures { result ≡ moved_ticks finer_ticks number hair }
{
    let ticks = finer_ticks.ticks(number);
    match hair {
        Hair::Earlier => ticks.saturating_sub(finer_ticks.hair),
        Hair::Later => ticks.saturating_add(finer_ticks.hair),
    }
}

// Appends a change: this piece in place of the bytes from one place up to another.
fn push(changes: &mut Vec<Change>, from: usize, to: usize, piece: Piece) -> Result<(), AllocError>
    ensures { OnOk result (changes.new.items ≡ changes.old.items ++ record { from = from; to = to; piece = piece } ∷ []) }
{
    changes.push(Change { from, to, piece })?;
    Ok(())
}
