ghost use Rattle.std.specs.Prelude.{◌≡◌, ℕ, ◌+◌, ◌*◌, ◌<◌, ◌≤◌, ◌++◌, ◌∷◌, [], false, Some, OnOk, length, vec_len, vec_capacity};
ghost use Rattle.cancel_scopes.specs.Kept.{IsListed, Marks, SameScopes, Family, indices_in, scope_in, own_sight, children_at};
ghost use Rattle.cancel_scopes.specs.Lowering.{Lowering, Lowers, Along, AllRight, Starts, work, below, or_child, lists};
ghost use Rattle.slab.specs.Slab.{ContainsKey, HasRoomFor, get};
ghost use Rattle.std.specs.Option.{ForSome};
ghost use Rattle.cancel_scopes.specs.Children.{HasIndex, SameOutlines, Orphaned, Lost};

use crate::scope_id::ScopeId;
use crate::ticks::before;
use slab::Slab;
use std::alloc::AllocError;

// What the store keeps for a scope.
#[derive(Drop)]
pub(crate) struct Scope {
    pub(crate) parent: Option<ScopeId>,
    pub(crate) shield: bool,
    // The tick from which it is cancelled.
    pub(crate) from: Option<u64>,
    // How many scopes enclose it.
    pub(crate) depth: usize,
    // The effective deadline (`sight`): the tick from which a task in the scope sees a cancellation.
    pub(crate) sight: Option<u64>,
    // Its index in the list of changed scopes, if it is there.
    pub(crate) listed: Option<usize>,
    // The keys of the scopes directly inside it.
    pub(crate) children: Vec<usize>,
    // Its own index among its parent's children.
    pub(crate) index: usize,
}

// The open scopes by their keys. Both lists have room for the key of each slot.
#[derive(Drop)]
pub(crate) struct Store {
    pub(crate) scopes: Slab<Scope>,
    // The scopes whose effective deadline was lowered since `take_changed` last returned them.
    pub(crate) changed: Vec<usize>,
    // Scopes that this call of `cancel` lowered, and whose children it has not visited yet.
    pub(crate) lowered: Vec<usize>,
}

impl Store {
    // Lowers a scope's effective deadline to `tick`, if it is later, and those of the scopes inside it that no shield hides.
    pub(crate) fn lower_from(&mut self, key: usize, tick: u64)
        requires kept { ContainsKey self.old.scopes key }
        requires starts { Starts tick key self.old.scopes.slots self.old.changed.items }
        requires none_lowered { vec_len self.old.lowered ≡ 0 }
        requires changed_room { length self.old.scopes.slots ≤ vec_capacity self.old.changed }
        requires lowered_room { length self.old.scopes.slots ≤ vec_capacity self.old.lowered }
        ensures right { AllRight self.new.scopes.slots }
        ensures listed { IsListed self.new.scopes.slots self.new.changed.items }
        ensures along { Along tick self.old.scopes.slots self.new.scopes.slots }
        ensures none_lowered { vec_len self.new.lowered ≡ 0 }
        ensures changed_room { vec_capacity self.new.changed ≡ vec_capacity self.old.changed }
        ensures lowered_room { vec_capacity self.new.lowered ≡ vec_capacity self.old.lowered }
    {
        if !before(Some(tick), self.scopes[key].sight) {
            return;
        }
        self.lower(key, tick);
        self.lower_below(tick);
    }

    // Lowers the effective deadlines of the scopes inside those that were lowered.
    fn lower_below(&mut self, tick: u64)
        requires state { Lowering tick (below self.old.lowered.items) self.old.scopes.slots self.old.changed.items self.old.lowered.items }
        requires changed_room { length self.old.scopes.slots ≤ vec_capacity self.old.changed }
        requires lowered_room { length self.old.scopes.slots ≤ vec_capacity self.old.lowered }
        ensures right { AllRight self.new.scopes.slots }
        ensures listed { IsListed self.new.scopes.slots self.new.changed.items }
        ensures along { Along tick self.old.scopes.slots self.new.scopes.slots }
        ensures none_lowered { vec_len self.new.lowered ≡ 0 }
        ensures changed_room { vec_capacity self.new.changed ≡ vec_capacity self.old.changed }
        ensures lowered_room { vec_capacity self.new.lowered ≡ vec_capacity self.old.lowered }
    {
        'below: while let Some(parent) = self.lowered.pop() {
            self.lower_children(parent, tick);
        }
    }

    // Lowers the effective deadlines of the children of a scope that was lowered.
    fn lower_children(&mut self, parent: usize, tick: u64)
        requires state { Lowering tick (or_child parent 0 self.old.lowered.items) self.old.scopes.slots self.old.changed.items
            self.old.lowered.items }
        requires parent { own_sight (scope_in self.old.scopes.slots parent) ≡ Some tick }
        requires changed_room { length self.old.scopes.slots ≤ vec_capacity self.old.changed }
        requires lowered_room { length self.old.scopes.slots ≤ vec_capacity self.old.lowered }
        ensures state { Lowering tick (below self.new.lowered.items) self.new.scopes.slots self.new.changed.items self.new.lowered.items }
        ensures along { Along tick self.old.scopes.slots self.new.scopes.slots }
        ensures work { work tick self.new.scopes.slots self.new.lowered.items ≤ work tick self.old.scopes.slots self.old.lowered.items }
        ensures changed_room { vec_capacity self.new.changed ≡ vec_capacity self.old.changed }
        ensures lowered_room { vec_capacity self.new.lowered ≡ vec_capacity self.old.lowered }
    {
        'children: for index in 0..self.scopes[parent].children.len() {
            self.lower_child(parent, index, tick);
        }
    }

    // Lowers the effective deadline of the child at this index, if it has no shield and its effective deadline is later.
    fn lower_child(&mut self, parent: usize, index: usize, tick: u64)
        requires state { Lowering tick (or_child parent index self.old.lowered.items) self.old.scopes.slots self.old.changed.items
            self.old.lowered.items }
        requires parent { own_sight (scope_in self.old.scopes.slots parent) ≡ Some tick }
        requires index { index < length (children_at (scope_in self.old.scopes.slots parent)) }
        requires changed_room { length self.old.scopes.slots ≤ vec_capacity self.old.changed }
        requires lowered_room { length self.old.scopes.slots ≤ vec_capacity self.old.lowered }
        ensures state { Lowering tick (or_child parent (index + 1) self.new.lowered.items) self.new.scopes.slots self.new.changed.items
            self.new.lowered.items }
        ensures along { Along tick self.old.scopes.slots self.new.scopes.slots }
        ensures work { work tick self.new.scopes.slots self.new.lowered.items ≤ work tick self.old.scopes.slots self.old.lowered.items }
        ensures changed_room { vec_capacity self.new.changed ≡ vec_capacity self.old.changed }
        ensures lowered_room { vec_capacity self.new.lowered ≡ vec_capacity self.old.lowered }
    {
        let key = self.scopes[parent].children[index];
        let scope = &self.scopes[key];
        if scope.shield {
            return;
        }
        if before(Some(tick), scope.sight) {
            self.lower(key, tick);
        }
    }

    // Lowers the effective deadline of a scope to `tick`, and marks it as changed.
    fn lower(&mut self, key: usize, tick: u64)
        requires kept { ContainsKey self.old.scopes key }
        requires listed { IsListed self.old.scopes.slots self.old.changed.items }
        requires changed_room { length self.old.scopes.slots ≤ vec_capacity self.old.changed }
        requires lowered_room { vec_len self.old.lowered < vec_capacity self.old.lowered }
        ensures lowers { Lowers tick self.old.scopes.slots self.new.scopes.slots key }
        ensures listed { IsListed self.new.scopes.slots self.new.changed.items }
        ensures lowered { self.new.lowered.items ≡ self.old.lowered.items ++ key ∷ [] }
        ensures changed_room { vec_capacity self.new.changed ≡ vec_capacity self.old.changed }
        ensures lowered_room { vec_capacity self.new.lowered ≡ vec_capacity self.old.lowered }
    {
        let index = self.index_in_list(key);
        let scope = &mut self.scopes[key];
        scope.sight = Some(tick);
        scope.listed = Some(index);
        self.lowered.push_reserved(key);
    }

    // Returns the index of a scope in the list of changed scopes. Appends the scope if it is not in the list.
    fn index_in_list(&mut self, key: usize) -> usize
        requires kept { ContainsKey self.old.scopes key }
        requires listed { IsListed self.old.scopes.slots self.old.changed.items }
        requires room { length self.old.scopes.slots ≤ vec_capacity self.old.changed }
        ensures scopes { self.new.scopes ≡ self.old.scopes }
        ensures lists { lists key (get self.old.scopes key) self.old.changed.items self.new.changed.items result }
        ensures room { vec_capacity self.new.changed ≡ vec_capacity self.old.changed }
        ensures lowered { self.new.lowered ≡ self.old.lowered }
    {
        if let Some(index) = self.scopes[key].listed {
            return index;
        }
        let index = self.changed.len();
        self.changed.push_reserved(key);
        index
    }

    // Removes a scope from the list of changed scopes, if it is there.
    pub(crate) fn unmark(&mut self, key: usize)
        requires kept { ContainsKey self.old.scopes key }
        requires listed { IsListed self.old.scopes.slots self.old.changed.items }
        ensures marks { Marks self.old.scopes.slots self.new.scopes.slots key false }
        ensures lowered { self.new.lowered ≡ self.old.lowered }
        ensures listed { IsListed self.new.scopes.slots self.new.changed.items }
        ensures room { vec_capacity self.new.changed ≡ vec_capacity self.old.changed }
    {
        let Some(index) = self.scopes[key].listed else {
            return;
        };
        let _ = self.changed.swap_remove(index);
        let scope = &mut self.scopes[key];
        scope.listed = None;
        if index < self.changed.len() {
            let moved = self.changed[index];
            let scope = &mut self.scopes[moved];
            scope.listed = Some(index);
        }
    }
}

impl Store {
    // Reserves memory for one more scope, and for its key among its parent's children.
    pub(crate) fn make_room(&mut self, parent: Option<usize>) -> Result<(), AllocError>
        requires parent { ForSome parent (ContainsKey self.old.scopes) }
        ensures same { SameScopes self.old.scopes.slots self.new.scopes.slots }
        ensures marks { (key : ℕ) → indices_in self.new.scopes.slots key ≡ indices_in self.old.scopes.slots key }
        ensures changed { self.new.changed.items ≡ self.old.changed.items }
        ensures lowered { vec_len self.new.lowered ≡ vec_len self.old.lowered }
        ensures room { OnOk result (HasRoomFor self.new.scopes 1) }
        ensures changed_grows { vec_capacity self.old.changed ≤ vec_capacity self.new.changed }
        ensures lowered_grows { vec_capacity self.old.lowered ≤ vec_capacity self.new.lowered }
        ensures changed_room { OnOk result (self.new.scopes.capacity ≤ vec_capacity self.new.changed) }
        ensures lowered_room { OnOk result (self.new.scopes.capacity ≤ vec_capacity self.new.lowered) }
        ensures index { OnOk result (HasIndex self.new.scopes.slots parent) }
    {
        self.scopes.reserve(1)?;
        let capacity = self.scopes.capacity();
        self.changed
            .reserve(capacity.saturating_sub(self.changed.len()))?;
        self.lowered.reserve(capacity)?;
        let Some(parent) = parent else {
            return Ok(());
        };
        let scope = &mut self.scopes[parent];
        scope.children.reserve(1)?;
        Ok(())
    }

    // Returns the empty list of children of a new scope.
    pub(crate) fn no_children(&self) -> Vec<usize>
        ensures { result.items ≡ [] }
    {
        Vec::new(*self.changed.allocator())
    }

    // Appends a scope to its parent's children, where memory is reserved for it.
    pub(crate) fn add_child(&mut self, parent: Option<usize>, key: usize)
        requires parent { HasIndex self.old.scopes.slots parent }
        requires orphan { Orphaned self.old.scopes.slots key parent }
        ensures same { SameOutlines self.old.scopes.slots self.new.scopes.slots }
        ensures family { Family self.new.scopes.slots }
        ensures changed { self.new.changed ≡ self.old.changed }
        ensures lowered { self.new.lowered ≡ self.old.lowered }
        ensures capacity { self.new.scopes.capacity ≡ self.old.scopes.capacity }
    {
        let Some(parent) = parent else {
            return;
        };
        let scope = &mut self.scopes[parent];
        scope.children.push_reserved(key);
    }

    // Removes a child from its parent's children. The last child moves to its index.
    pub(crate) fn remove_child(&mut self, parent: Option<usize>, index: usize)
        requires lost { Lost self.old.scopes.slots parent index }
        ensures same { SameOutlines self.old.scopes.slots self.new.scopes.slots }
        ensures family { Family self.new.scopes.slots }
        ensures changed { self.new.changed ≡ self.old.changed }
        ensures lowered { self.new.lowered ≡ self.old.lowered }
    {
        let Some(parent) = parent else {
            return;
        };
        let scope = &mut self.scopes[parent];
        let _ = scope.children.swap_remove(index);
        if index < scope.children.len() {
            let moved = scope.children[index];
            let scope = &mut self.scopes[moved];
            scope.index = index;
        }
    }
}
