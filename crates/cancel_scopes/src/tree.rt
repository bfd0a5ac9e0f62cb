ghost use Rattle.std.specs.Prelude.{◌≡◌, ◌≢◌, ℕ, ◌+◌, ◌<◌, ◌^◌, ◌∷◌, ◌||◌, [], length, true, false, Some, None, is_some, IsSome, IfOk, OnErr, MatchOption};
ghost use Rattle.std.specs.Option.{ForSome, option_map};
ghost use Rattle.cancel_scopes.specs.Sight.{before, sight, seen as is_seen, is_reached as reached};
ghost use Rattle.cancel_scopes.specs.Tree.{stack_of, is_changed, IsOpen, outer_of, SameStacks, OthersKeep, SameMarks, OtherMarksKeep, TakesChanged, after_cancel, catches, own_from, own_shield, outer_levels, IsInnermost, IsOwn, IsChain, IsApart};
ghost use Rattle.cancel_scopes.specs.Kept.{IsTree, IsUnder, HasSights, find_in, scope_in, children_at, upward};
ghost use Rattle.slab.specs.Slab.{ContainsKey};

use crate::scope_id::{ScopeId, key_of};
use crate::store::{Scope, Store};
use crate::ticks::{earlier, is_reached};
use slab::Slab;
use std::alloc::{AllocError, Global};
use std::marker::Model;

/// The open cancel scopes, each under its parent.
///
/// A contract sees the stack of each scope, which is the scope itself, its parent, and so on to the outermost one. It
/// also sees whether the effective deadline (`sight`) of the scope was lowered since `take_changed` last returned it.
///
/// The caller must ensure that each id passed is that of an open scope, that a scope is closed after the scopes inside
/// it, that deadlines are below 2 to the 63, and that the tick after the one passed to `cancel` is below 2 to the 63.
#[derive(Drop)]
pub struct ScopeTree {
    store: Store,
}

impl Model for ScopeTree {
    ghost use Rattle.std.specs.Prelude.{vec_len, vec_capacity};
    ghost use Rattle.cancel_scopes.specs.Tree.{Tree};

    ghost Value = { Tree };

    ghost use Rattle.cancel_scopes.specs.Kept.{IsReady, tree_of};

    ghost view = { λ t. tree_of t.store.scopes.slots };

    ghost invariant = { λ t. IsReady t.store.scopes.slots t.store.changed.items (vec_capacity t.store.changed) (vec_len t.store.lowered)
        (vec_capacity t.store.lowered) };
}

impl ScopeTree {
    /// Creates a tree with no scope. Does not allocate.
    pub fn new(alloc: Global) -> ScopeTree
        ensures empty { (key : ℕ) → stack_of result key ≡ None }
        ensures unchanged { (key : ℕ) → is_changed result key ≡ false }
    {
        ScopeTree {
            store: Store {
                scopes: Slab::new(alloc),
                changed: Vec::new(alloc),
                lowered: Vec::new(alloc),
            },
        }
    }

    /// Opens a scope inside `parent`, or as an outermost scope if `parent` is `None`, and returns its id. With `shield`
    /// the scope hides cancellations from outside. With a `deadline` it is cancelled from that tick on. `parent` must be
    /// open, and `deadline` must be below 2 to the 63.
    ///
    /// Returns `AllocError` if memory runs out. Every scope then keeps its stack and its mark.
    pub fn open(
        &mut self,
        parent: Option<ScopeId>,
        shield: bool,
        deadline: Option<u64>,
    ) -> Result<ScopeId, AllocError>
        requires parent_open { ForSome parent (IsOpen self.old) }
        requires deadline { ForSome deadline (λ tick. tick < 2 ^ 63) }
        ensures fresh { IfOk result (λ id. stack_of self.old id ≡ None) }
        ensures opened { IfOk result (λ id. stack_of self.new id ≡
            Some (record { label = id; shield = shield; from = deadline } ∷ outer_of self.old parent)) }
        ensures others { IfOk result (OthersKeep self.old self.new) }
        ensures unmarked { IfOk result (λ id. is_changed self.new id ≡ false) }
        ensures err { OnErr result (SameStacks self.old self.new) }
        ensures marks { SameMarks self.old self.new }
    {
        let parent = key_of(parent);
        self.store.make_room(parent)?;
        let scope = scope_under(&self.store, parent, shield, deadline);
        let key = self.store.scopes.insert_reserved(scope);
        // Each slot still has room in both lists.
        let _capacity = self.store.scopes.capacity();
        self.store.add_child(parent, key);
        Ok(ScopeId { key })
    }

    /// Returns whether the scope is open.
    pub fn is_open(&self, id: ScopeId) -> bool
        ensures { result ≡ is_some (stack_of self.now id) }
    {
        self.store.scopes.contains(id.key)
    }

    /// Returns the scope that directly encloses this one, or `None` if this one is outermost.
    pub fn parent(&self, id: ScopeId) -> Option<ScopeId>
        requires { IsOpen self.now id }
        ensures parent_open { ForSome result (IsOpen self.now) }
        ensures around { ForSome (stack_of self.now id) (λ stack. outer_of self.now result ≡ outer_levels stack) }
    {
        self.store.scopes[id.key].parent
    }

    /// Cancels a scope in a tick. The scope is then cancelled from `tick + 1` on, unless it was already cancelled from an
    /// earlier tick. Each scope whose effective deadline this lowers is marked as changed until `take_changed` returns it
    /// or it is closed. `tick + 1` must be below 2 to the 63. Does not allocate.
    pub fn cancel(&mut self, id: ScopeId, tick: u64)
        requires id { IsOpen self.old id }
        requires tick { tick + 1 < 2 ^ 63 }
        ensures stacks { (key : ℕ) →
            stack_of self.new key ≡ option_map (after_cancel id tick) (stack_of self.old key) }
        ensures marks { (key : ℕ) → ForSome (stack_of self.old key) (λ stack. is_changed self.new key
            ≡ (is_changed self.old key || before (sight (after_cancel id tick stack)) (sight stack))) }
    {
        let scope = &mut self.store.scopes[id.key];
        scope.from = earlier(scope.from, Some(tick + 1));
        self.store.lower_from(id.key, tick + 1);
    }

    /// Returns the tick from which a task in this scope sees a cancellation, or `None` if it never will. It is the
    /// earliest tick from which this scope or an enclosing one is cancelled, up to and including the first scope with a
    /// shield.
    pub fn seen_from(&self, id: ScopeId) -> Option<u64>
        requires { IsOpen self.now id }
        ensures { ForSome (stack_of self.now id) (λ stack. result ≡ sight stack) }
    {
        self.store.scopes[id.key].sight
    }

    /// Returns whether a task in this scope sees a cancellation at `tick`.
    pub fn seen(&self, id: ScopeId, tick: u64) -> bool
        requires { IsOpen self.now id }
        ensures { ForSome (stack_of self.now id) (λ stack. result ≡ is_seen stack tick) }
    {
        is_reached(self.seen_from(id), tick)
    }

    /// Returns whether this scope is itself cancelled at `tick`.
    pub fn is_cancelled(&self, id: ScopeId, tick: u64) -> bool
        requires { IsOpen self.now id }
        ensures { ForSome (stack_of self.now id) (λ stack. result ≡ reached (own_from stack) tick) }
    {
        is_reached(self.store.scopes[id.key].from, tick)
    }

    /// Returns whether this scope has a shield.
    pub fn is_shielded(&self, id: ScopeId) -> bool
        requires { IsOpen self.now id }
        ensures { ForSome (stack_of self.now id) (λ stack. result ≡ own_shield stack) }
    {
        self.store.scopes[id.key].shield
    }

    /// Returns whether this scope catches a `Cancelled` that leaves it at `tick`. It does if it is itself cancelled by
    /// then, and either it has a shield or no cancellation is seen at that tick in the scope that encloses it.
    pub fn may_catch(&self, id: ScopeId, tick: u64) -> bool
        requires { IsOpen self.now id }
        ensures { ForSome (stack_of self.now id) (λ stack. result ≡ catches stack tick) }
    {
        let scope = &self.store.scopes[id.key];
        if !is_reached(scope.from, tick) {
            return false;
        }
        match scope.parent {
            Some(parent) => scope.shield || !self.seen(parent, tick),
            None => true,
        }
    }

    /// Closes a scope that encloses no other open scope. Returns the tick from which it was cancelled, or `None` if it
    /// never was. The scope is no longer marked as changed, so `take_changed` returns neither it nor a scope that is
    /// opened later under the same id, unless a `cancel` marks that one.
    pub fn close(&mut self, id: ScopeId) -> Option<u64>
        requires id { IsOpen self.old id }
        requires innermost { IsInnermost self.old id }
        ensures closed { stack_of self.new id ≡ None }
        ensures others { OthersKeep self.old self.new id }
        ensures from { ForSome (stack_of self.old id) (λ stack. result ≡ own_from stack) }
        ensures unmarked { is_changed self.new id ≡ false }
        ensures marks { OtherMarksKeep self.old self.new id }
    {
        self.store.unmark(id.key);
        let scope = self.store.scopes.remove(id.key);
        self.store.remove_child(key_of(scope.parent), scope.index);
        scope.from
    }

    /// Returns a scope whose effective deadline a `cancel` lowered since this call last returned it, or `None` if no such
    /// scope is left. Each is returned once, in no particular order. Does not allocate, and changes no stack.
    pub fn take_changed(&mut self) -> Option<ScopeId>
        ensures stacks { self.new ≡ record self.old { changed = self.new.changed } }
        ensures taken { MatchOption result ((key : ℕ) → is_changed self.old key ≡ false) (TakesChanged self.old self.new) }
        ensures none { result ≡ None → SameMarks self.old self.new }
    {
        let Some(last) = self.store.changed.last() else {
            return None;
        };
        let key = *last;
        self.store.unmark(key);
        Some(ScopeId { key })
    }
}

/// A law, which does nothing at run time. Each stack begins with the scope that it belongs to. Each scope in a stack is
/// open, and its own stack is the rest of that stack, from the scope on. No scope occurs twice in a stack.
pub fn stacks_are_chains(tree: &ScopeTree)
    ensures own { IsOwn tree.now }
    ensures chain { IsChain tree.now }
    ensures apart { IsApart tree.now }
{
    // The law follows from the invariant of the tree.
    let _scopes = &tree.store;
}

// Returns what the store keeps for a scope that is opened under this parent.
fn scope_under(store: &Store, parent: Option<usize>, shield: bool, from: Option<u64>) -> Scope
    requires tree { IsTree (find_in store.now.scopes.slots) }
    requires sights { HasSights store.now.scopes.slots }
    requires parent { ForSome parent (ContainsKey store.now.scopes) }
    ensures parent { result.parent ≡ parent }
    ensures shield { result.shield ≡ shield }
    ensures from { result.from ≡ from }
    ensures under { IsUnder (find_in store.now.scopes.slots) result.depth result.parent }
    ensures sight { result.sight ≡ sight (record { label = 0; shield = shield; from = from }
        ∷ upward (find_in store.now.scopes.slots) result.depth parent) }
    ensures unmarked { result.listed ≡ None }
    ensures childless { result.children.items ≡ [] }
    ensures index { ForSome parent (λ p. result.index ≡ length (children_at (scope_in store.now.scopes.slots p))) }
{
    let scopes = &store.scopes;
    let children = store.no_children();
    match parent {
        Some(parent) => Scope {
            parent: Some(ScopeId { key: parent }),
            shield,
            from,
            depth: depth_under(scopes, parent),
            sight: if shield {
                from
            } else {
                earlier(from, scopes[parent].sight)
            },
            listed: None,
            children,
            index: scopes[parent].children.len(),
        },
        None => Scope {
            parent: None,
            shield,
            from,
            depth: 0,
            sight: from,
            listed: None,
            children,
            index: 0,
        },
    }
}

// Returns how many scopes enclose one that is opened under this parent.
fn depth_under(scopes: &Slab<Scope>, parent: usize) -> usize
    requires tree { IsTree (find_in scopes.now.slots) }
    requires parent { ContainsKey scopes.now parent }
    ensures { IsUnder (find_in scopes.now.slots) result (Some parent) }
{
    let depth = scopes[parent].depth;
    // Each scope that encloses it is a different open scope.
    prove!(depth < scopes.len());
    depth + 1
}
