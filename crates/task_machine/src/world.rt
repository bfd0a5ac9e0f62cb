ghost use Rattle.std.specs.Prelude.{◌≡◌, ℕ, ◌+◌, ◌<◌, ◌≤◌, ◌^◌, ◌||◌, ◌&&◌, ◌++◌, true, false, [], ◌∷◌, Some, None, IsSome, IfOk, OnOk};
ghost use Rattle.std.specs.Option.{ForSome, option_map};
ghost use Rattle.std.specs.Borrow.{sem};
ghost use Rattle.cancel_scopes.specs.Sight.{before, is_reached, seen, sight};
ghost use Rattle.cancel_scopes.specs.Tree.{stack_of, is_changed, IsOpen, outer_of, OthersKeep, SameMarks, OtherMarksKeep, after_cancel, own_from, IsInnermost};
ghost use Rattle.cancel_scopes.specs.Tree as tree;
ghost use Rattle.nursery_book.specs.Book.{nursery_at};
ghost use Rattle.job_meaning.specs.Clocks.{tick_of};
ghost use Rattle.task_machine.specs.Labels.{Updates};

use crate::events::{EventState, event_of, lower_event, put_event, take_event};
use crate::labels::{put_label, take_label};
use crate::serving::{Act, ObjectAct};
use crate::task::Task;
use cancel_scopes::{ScopeId, ScopeTree, stacks_are_chains};
use exceptions::Label;
use job_meaning::{Clock, FAR};
use job_tree::Name;
use nursery_book::NurseryBook;
use std::alloc::{AllocError, Global};
use std::collections::VecDeque;

/// What all tasks of a run share: the clock, the moment, the cancel scopes, each with its label, the events, what was done to
/// limiters and channels and not taken yet, the nurseries, and the started tasks that were not taken yet.
///
/// An event is an open scope of the tree too, which is never cancelled and is no shield: so names are found, and blocks are left,
/// as those of scopes are. A limiter or channel stands among the events, and is never set.
///
/// Moments are at most 4,611,686,018,427,387,904 (2 to the 62).
#[derive(Drop)]
pub struct World<'a> {
    pub(crate) clock: Clock,
    // The moment.
    pub(crate) tick: u64,
    pub(crate) scopes: ScopeTree,
    // Indexed by the keys of the scopes.
    pub(crate) labels: Vec<Option<Label>>,
    // Indexed by the keys of the scopes, as far as there is one that is an event.
    pub(crate) events: Vec<Option<EventState>>,
    // The events that were set and not taken yet.
    pub(crate) set: VecDeque<ScopeId>,
    // What was done to limiters and channels and not taken yet.
    pub(crate) acts: VecDeque<ObjectAct>,
    pub(crate) book: NurseryBook,
    pub(crate) started: VecDeque<Task<'a>>,
}

impl<'a> World<'a> {
    ghost use Rattle.task_machine.specs.Acts.{SetsKey, kept_from};
    ghost use Rattle.task_machine.specs.Events.{set_by, set_of, wait_ends};
    ghost use Rattle.task_machine.specs.Labels.{is_sought, is_named, scope_named, home_key, has_label_among, seen_levels};
    ghost use Rattle.task_machine.specs.Worlds.{label_at, event_at, TakesFirst};
    ghost use Rattle.task_machine.specs.Lending.{lends_scopes, lends_book};

    /// Returns a world in moment 0 of a clock, in which nothing is open and nothing was started. Takes no memory.
    pub fn new(alloc: Global, clock: Clock) -> World<'a>
        ensures clock { result.clock ≡ clock }
        ensures tick { result.tick ≡ 0 }
        ensures scopes { (key : ℕ) → stack_of result.scopes key ≡ None }
        ensures labels { (key : ℕ) → label_at result key ≡ None }
        ensures events { (key : ℕ) → event_at result key ≡ None }
        ensures set { result.set.items ≡ [] }
        ensures acts { result.acts.items ≡ [] }
        ensures book { (key : ℕ) → nursery_at result.book key ≡ None }
        ensures unchanged { (key : ℕ) → is_changed result.scopes key ≡ false }
        ensures started { result.started.items ≡ [] }
    {
        World {
            clock,
            tick: 0,
            scopes: ScopeTree::new(alloc),
            labels: Vec::new(alloc),
            events: Vec::new(alloc),
            set: VecDeque::new(alloc),
            acts: VecDeque::new(alloc),
            book: NurseryBook::new(alloc),
            started: VecDeque::new(alloc),
        }
    }

    /// Returns how time is counted.
    pub fn clock(&self) -> Clock
        ensures { result ≡ self.now.clock }
    {
        self.clock
    }

    /// Returns the present moment.
    pub fn now(&self) -> u64
        ensures { result ≡ self.now.tick }
    {
        self.tick
    }

    /// Returns the tick of the present moment.
    pub fn tick(&self) -> u64
        ensures { result ≡ tick_of self.now.clock self.now.tick }
    {
        self.clock.tick_of(self.tick)
    }

    /// Sets the present moment, which must not be earlier than before, and at most 2 to the 62. Nothing else changes.
    pub fn set_now(&mut self, tick: u64)
        requires later { self.old.tick ≤ tick }
        requires bounded { tick ≤ 2 ^ 62 }
        ensures { self.new ≡ record self.old { tick = tick } }
    {
        self.tick = tick;
    }

    /// Returns a reference to the tree of cancel scopes.
    pub fn scopes(&self) -> &ScopeTree
        ensures { result.now ≡ self.now.scopes }
    {
        &self.scopes
    }

    /// Returns a mutable reference to the tree of cancel scopes. Nothing else of the world changes.
    pub fn scopes_mut(&mut self) -> &mut ScopeTree
        ensures* writes_back { sem 𝓛 (lends_scopes self.entry result) }
        ensures value { result.now ≡ self.old.scopes }
    {
        &mut self.scopes
    }

    /// Returns a reference to the book of nurseries.
    pub fn book(&self) -> &NurseryBook
        ensures { result.now ≡ self.now.book }
    {
        &self.book
    }

    /// Returns a mutable reference to the book of nurseries. Nothing else of the world changes.
    pub fn book_mut(&mut self) -> &mut NurseryBook
        ensures* writes_back { sem 𝓛 (lends_book self.entry result) }
        ensures value { result.now ≡ self.old.book }
    {
        &mut self.book
    }

    /// Takes the first of the started tasks that were not taken yet, in the order in which they were started. Returns
    /// `None` exactly if there is none.
    pub fn take_started(&mut self) -> Option<Task<'a>>
        ensures task { TakesFirst self.old.started.items result self.new.started.items }
        ensures rest { self.new ≡ record self.old { started = self.new.started } }
    {
        self.started.pop_front()
    }

    /// Takes the first of the events that were set and not taken yet, in the order in which they were set. An event that was set
    /// twice is among them twice. Returns `None` exactly if there is none.
    pub fn take_set(&mut self) -> Option<ScopeId>
        ensures event { TakesFirst self.old.set.items result self.new.set.items }
        ensures rest { self.new ≡ record self.old { set = self.new.set } }
    {
        self.set.pop_front()
    }

    /// Takes the first of what was done to limiters and channels and not taken yet, in the order in which it was done. Returns `None`
    /// exactly if there is nothing.
    pub fn take_act(&mut self) -> Option<ObjectAct>
        ensures act { TakesFirst self.old.acts.items result self.new.acts.items }
        ensures rest { self.new ≡ record self.old { acts = self.new.acts } }
    {
        self.acts.pop_front()
    }

    /// Returns the label of an open scope, event, limiter or channel, or `None` for what is not open.
    pub fn label_of(&self, id: ScopeId) -> Option<&Label>
        ensures { option_map (λ label. label.now) result ≡ label_at self.now id }
    {
        self.labels.get(id.key())?.as_ref()
    }

    // Notes what is done to the limiter or channel of that label, to be served at the end of the round.
    pub(crate) fn note_act(&mut self, object: Label, act: Act) -> Result<(), AllocError>
        ensures noted { OnOk result (self.new.acts.items ≡ self.old.acts.items ++ record { object = object; act = act } ∷ []) }
        ensures rest { OnOk result (self.new ≡ record self.old { acts = self.new.acts }) }
    {
        self.acts.push_back(ObjectAct { object, act })?;
        Ok(())
    }

    /// Returns the moment from which an open event is set, or `None` while nothing has set it, and for a scope that is no event.
    pub fn set_from(&self, id: ScopeId) -> Option<u64>
        ensures { result ≡ set_of (event_at self.now id) }
    {
        event_of(&self.events, id.key())?
    }

    /// Returns the moment in which a wait for an open event ends that begins now: when the event is set, but a round later at the
    /// earliest, and no later than a `forever` that begins now.
    pub fn wait_ends(&self, event: ScopeId) -> u64
        requires { self.now.tick ≤ 2 ^ 62 }
        ensures { result ≡ wait_ends self.now.clock (event_at self.now event) self.now.tick }
    {
        let set = self.set_by(event, self.tick);
        self.clock.a_round_after(self.tick).max(set)
    }

    // Opens a cancel scope with that label inside another, or as an outermost one. After an error the world can only be
    // dropped.
    pub(crate) fn enter(
        &mut self,
        outer: Option<ScopeId>,
        label: Label,
        shield: bool,
        deadline: Option<u64>,
    ) -> Result<ScopeId, AllocError>
        requires outer { ForSome outer (IsOpen self.old.scopes) }
        requires deadline { ForSome deadline (λ tick. tick < 2 ^ 63) }
        ensures fresh { IfOk result (λ id. stack_of self.old.scopes id ≡ None) }
        ensures opened { IfOk result (λ id. stack_of self.new.scopes id ≡
            Some (record { label = id; shield = shield; from = deadline } ∷ outer_of self.old.scopes outer)) }
        ensures others { IfOk result (OthersKeep self.old.scopes self.new.scopes) }
        ensures marks { SameMarks self.old.scopes self.new.scopes }
        ensures label { IfOk result (λ id. Updates (label_at self.old) (label_at self.new) id (Some label)) }
        ensures no_event { IfOk result (λ id. Updates (event_at self.old) (event_at self.new) id None) }
        ensures rest { self.new ≡ record self.old { scopes = self.new.scopes; labels = self.new.labels; events = self.new.events } }
    {
        let id = self.scopes.open(outer, shield, deadline)?;
        put_label(&mut self.labels, id.key(), label)?;
        // A key is used again after its scope was left.
        take_event(&mut self.events, id.key());
        Ok(id)
    }

    // Opens an event with that label inside a scope, or as an outermost one. Nothing has set it. After an error the world can
    // only be dropped.
    pub(crate) fn enter_event(
        &mut self,
        outer: Option<ScopeId>,
        label: Label,
    ) -> Result<ScopeId, AllocError>
        requires outer { ForSome outer (IsOpen self.old.scopes) }
        ensures fresh { IfOk result (λ id. stack_of self.old.scopes id ≡ None) }
        ensures opened { IfOk result (λ id. stack_of self.new.scopes id ≡
            Some (record { label = id; shield = false; from = None } ∷ outer_of self.old.scopes outer)) }
        ensures others { IfOk result (OthersKeep self.old.scopes self.new.scopes) }
        ensures marks { SameMarks self.old.scopes self.new.scopes }
        ensures label { IfOk result (λ id. Updates (label_at self.old) (label_at self.new) id (Some label)) }
        ensures event { IfOk result (λ id. Updates (event_at self.old) (event_at self.new) id (Some None)) }
        ensures rest { self.new ≡ record self.old { scopes = self.new.scopes; labels = self.new.labels; events = self.new.events } }
    {
        let id = self.enter(outer, label, false, None)?;
        put_event(&mut self.events, id.key())?;
        Ok(id)
    }

    // Closes a cancel scope or event that has no open children. Returns its label and the moment from which it was cancelled, or
    // an event set, or `None` if it never was.
    pub(crate) fn leave(&mut self, id: ScopeId) -> (Label, Option<u64>)
        requires id { IsOpen self.old.scopes id }
        requires innermost { IsInnermost self.old.scopes id }
        requires label { IsSome (label_at self.old id) }
        ensures label { label_at self.old id ≡ Some result.0 }
        ensures from { ForSome (stack_of self.old.scopes id) (λ stack. result.1 ≡ kept_from (event_at self.old id) stack) }
        ensures closed { stack_of self.new.scopes id ≡ None }
        ensures others { OthersKeep self.old.scopes self.new.scopes id }
        ensures marks { OtherMarksKeep self.old.scopes self.new.scopes id }
        ensures taken { Updates (label_at self.old) (label_at self.new) id None }
        ensures no_event { Updates (event_at self.old) (event_at self.new) id None }
        ensures rest { self.new ≡ record self.old { scopes = self.new.scopes; labels = self.new.labels; events = self.new.events } }
    {
        let from = self.scopes.close(id);
        let label = take_label(&mut self.labels, id.key());
        let set = take_event(&mut self.events, id.key());
        (label, set.unwrap_or(from))
    }

    // Cancels a scope in the present moment, which is seen from the next one on.
    pub(crate) fn sign(&mut self, id: ScopeId)
        requires id { IsOpen self.old.scopes id }
        requires tick { self.old.tick + 1 < 2 ^ 63 }
        ensures stacks { (key : ℕ) → stack_of self.new.scopes key
            ≡ option_map (after_cancel id self.old.tick) (stack_of self.old.scopes key) }
        ensures marks { (key : ℕ) → ForSome (stack_of self.old.scopes key) (λ stack. is_changed self.new.scopes key
            ≡ (is_changed self.old.scopes key || before (sight (after_cancel id self.old.tick stack)) (sight stack))) }
        ensures rest { self.new ≡ record self.old { scopes = self.new.scopes } }
    {
        self.scopes.cancel(id, self.tick);
    }

    // Sets an open event in the present moment, which is seen from the next one on. After an error the world can only be dropped.
    pub(crate) fn set(&mut self, id: ScopeId) -> Result<(), AllocError>
        requires event { IsSome (event_at self.old id) }
        requires tick { self.old.tick + 1 < 2 ^ 63 }
        ensures sets { OnOk result (SetsKey id self.old.tick (event_at self.old) (event_at self.new) self.old.set.items self.new.set.items) }
        ensures rest { OnOk result (self.new ≡ record self.old { events = self.new.events; set = self.new.set }) }
    {
        lower_event(&mut self.events, id.key(), self.tick);
        self.set.push_back(id)?;
        Ok(())
    }

    // The innermost scope or nursery of that name, or the innermost event, from this scope outwards.
    pub(crate) fn find(&self, scope: Option<ScopeId>, name: Name, events: bool) -> Option<ScopeId>
        requires { ForSome scope (IsOpen self.now.scopes) }
        ensures { result ≡ scope_named events (label_at self.now) (event_at self.now) name (outer_of self.now.scopes scope) }
    {
        stacks_are_chains(&self.scopes);
        let mut at = scope;
        'outwards: while let Some(id) = at {
            if self.is_sought(id, name, events) {
                return Some(id);
            }
            at = self.scopes.parent(id);
        }
        None
    }

    // Whether an open scope has that name, and is an event, or is none.
    fn is_sought(&self, id: ScopeId, name: Name, events: bool) -> bool
        ensures { result ≡ (is_sought events (event_at self.now id) && is_named name (label_at self.now id)) }
    {
        if self.is_event(id) != events {
            return false;
        }
        self.has_name(id, name)
    }

    // The innermost scope that is no event, from this one outwards.
    pub(crate) fn home(&self, scope: Option<ScopeId>) -> Option<ScopeId>
        requires { ForSome scope (IsOpen self.now.scopes) }
        ensures { result ≡ home_key (event_at self.now) (outer_of self.now.scopes scope) }
    {
        stacks_are_chains(&self.scopes);
        let mut at = scope;
        'outwards: while let Some(id) = at {
            if !self.is_event(id) {
                return Some(id);
            }
            at = self.scopes.parent(id);
        }
        None
    }

    // Whether an open scope is an event.
    fn is_event(&self, id: ScopeId) -> bool
        ensures { result ≡ is_sought true (event_at self.now id) }
    {
        event_of(&self.events, id.key()).is_some()
    }

    // Returns the moment in which a wait for an event ends that began in moment `since`; nothing waits longer than `forever`.
    pub(crate) fn set_by(&self, id: ScopeId, since: u64) -> u64
        requires { since ≤ 2 ^ 62 }
        ensures { result ≡ set_by self.now.clock (event_at self.now id) since }
    {
        let Some(set) = event_of(&self.events, id.key()) else {
            return since;
        };
        let last = self
            .clock
            .wakes_at(FAR.saturating_sub(self.clock.tick_of(since)), since);
        match set {
            Some(from) => from.min(last),
            None => last,
        }
    }

    // Whether the scope's label has that name.
    fn has_name(&self, id: ScopeId, name: Name) -> bool
        ensures { result ≡ is_named name (label_at self.now id) }
    {
        match self.labels.get(id.key()) {
            Some(Some(label)) => name == label.name(),
            Some(None) => false,
            None => false,
        }
    }

    // Whether a task in that scope sees a cancellation now; a task in no scope never does.
    pub(crate) fn sees(&self, scope: Option<ScopeId>) -> bool
        requires { ForSome scope (IsOpen self.now.scopes) }
        ensures { result ≡ seen (outer_of self.now.scopes scope) self.now.tick }
    {
        match scope {
            Some(id) => self.scopes.seen(id, self.tick),
            None => false,
        }
    }

    // The label of an open scope.
    pub(crate) fn label(&self, id: ScopeId) -> &Label
        requires { IsSome (label_at self.now id) }
        ensures { label_at self.now id ≡ Some result.now }
    {
        match self.labels.get(id.key()) {
            Some(Some(label)) => label,
            _ => unreachable!(),
        }
    }

    // Whether a task in that scope, or in none, that has itself cancelled some labels in this moment, sees a cancellation now.
    pub(crate) fn sees_own(&self, scope: Option<ScopeId>, cancelled: &VecDeque<Label>) -> bool
        requires { ForSome scope (IsOpen self.now.scopes) }
        ensures { result
            ≡ seen (seen_levels (label_at self.now) (event_at self.now) cancelled.now.items self.now.tick (outer_of self.now.scopes scope)) self.now.tick }
    {
        if cancelled.front().is_none() {
            return self.sees(scope);
        }
        self.sees_with(scope, cancelled)
    }

    // Whether the scope catches a cancellation that leaves it now, for a task that has itself cancelled some labels in this
    // moment.
    pub(crate) fn catches(&self, id: ScopeId, cancelled: &VecDeque<Label>) -> bool
        requires { IsOpen self.now.scopes id }
        ensures { ForSome (stack_of self.now.scopes id) (λ stack.
            result ≡ tree.catches (seen_levels (label_at self.now) (event_at self.now) cancelled.now.items self.now.tick stack) self.now.tick) }
    {
        if cancelled.front().is_none() {
            return self.scopes.may_catch(id, self.tick);
        }
        if !self.is_cancelled(id, cancelled) {
            return false;
        }
        if self.scopes.is_shielded(id) {
            return true;
        }
        !self.sees_with(self.scopes.parent(id), cancelled)
    }

    // Whether a scope is itself cancelled now, for such a task.
    fn is_cancelled(&self, id: ScopeId, cancelled: &VecDeque<Label>) -> bool
        requires { IsOpen self.now.scopes id }
        ensures { ForSome (stack_of self.now.scopes id) (λ stack.
            result ≡ is_reached (own_from (seen_levels (label_at self.now) (event_at self.now) cancelled.now.items self.now.tick stack)) self.now.tick) }
    {
        stacks_are_chains(&self.scopes);
        if self.scopes.is_cancelled(id, self.tick) {
            return true;
        }
        !self.is_event(id) && self.is_among(id, cancelled)
    }

    // Whether a scope has one of these labels.
    fn is_among(&self, id: ScopeId, cancelled: &VecDeque<Label>) -> bool
        ensures { result ≡ has_label_among (label_at self.now id) cancelled.now.items }
    {
        match self.labels.get(id.key()) {
            Some(Some(label)) => cancelled.contains(label),
            Some(None) => false,
            None => false,
        }
    }

    // Whether such a task, in a scope or in none, sees a cancellation: from the scope outwards, up to and including the first
    // shielded one.
    fn sees_with(&self, scope: Option<ScopeId>, cancelled: &VecDeque<Label>) -> bool
        requires { ForSome scope (IsOpen self.now.scopes) }
        ensures { result
            ≡ seen (seen_levels (label_at self.now) (event_at self.now) cancelled.now.items self.now.tick (outer_of self.now.scopes scope)) self.now.tick }
    {
        stacks_are_chains(&self.scopes);
        let mut inside = scope;
        'outwards: while let Some(id) = inside {
            if self.is_cancelled(id, cancelled) {
                return true;
            }
            if self.scopes.is_shielded(id) {
                return false;
            }
            inside = self.scopes.parent(id);
        }
        false
    }
}
