// What an equation sees of the variables' sets, and what a solver keeps of them.
ghost use Rattle.std.specs.Prelude.{◌≡◌, ℕ, ◌<◌, List, [], ◌∷◌, length, slice_get, IfOk, OnOk, OnErr, IfSome, MatchOption, None, IsSome, is_some, option_copied, option_map};
ghost use Rattle.std.specs.FinMap as map;
ghost use Rattle.std.specs.List.{Contains};
ghost use Rattle.infer_sets.specs.Sets.{none, joined};
ghost use Rattle.infer_sets.specs.Numbers.{set_at};
ghost use Rattle.infer_sets.specs.Listed.{HasCount, IsValueAt};
ghost use Rattle.infer_equations.specs.Assignment.{overlaid};
ghost use Rattle.infer_equations.specs.Seen.{Keeps, Stays, solved, sets};
ghost use Rattle.infer_equations.specs.Reading.{Gives};

use crate::copies::copy_all;
use crate::ids::Ids;
use crate::keep::keep_all;
use crate::look::{find_first, find_solved, number_of};
use crate::table::Table;
use infer_sets::{AbsSet, AbsVal, SetId, SetLayer, SetTable};
use lint_values::Memory;
use std::alloc::Global;
use std::marker::Model;
use std::mem;

/// The present sets of the variables, and a note of each reading. Equations read it by `get`, `number`, `join`, `set`,
/// `count` and `value_at`; all else is for solvers. Contracts see the sets of the base, those that were solved over it,
/// those in progress, all sets that have a number, and the list of the variables that were read.
#[derive(Drop)]
pub struct View<'a> {
    alloc: Global,
    base: &'a Ids,
    own: Ids,
    work: Ids,
    layer: SetLayer<'a>,
    noted: Vec<u64>,
}

impl<'a> Model for View<'a> {
    ghost use Rattle.infer_equations.specs.Valued.{valued, AreGiven};
    ghost use Rattle.infer_equations.specs.Seen.{Seen, seen_code};

    ghost Value = { Seen };

    ghost coded = { seen_code };

    ghost view = { λ v. record { base = valued v.layer.sets v.base.now; own = valued v.layer.sets v.own; work = valued v.layer.sets v.work; numbers = v.layer.sets; noted = v.noted.items } };

    ghost invariant = { λ v. AreGiven v.layer.sets v.base.now × AreGiven v.layer.sets v.own × AreGiven v.layer.sets v.work };
}

impl<'a> View<'a> {
    /// The number of the variable's present set: of the empty one where the variable has none. The reading is noted.
    pub fn get(&mut self, var: u64) -> Result<SetId, Memory>
        ensures stays { Stays self.old self.new }
        ensures gives { IfOk result (λ id. Gives (λ a. a var) (λ _. var ∷ []) self.old self.new id) }
    {
        let found = find_first(self.base, &self.own, &self.work, var);
        let id = number_of(self.alloc, found, &mut self.layer)?;
        self.noted.push(var)?;
        Ok(id)
    }

    /// The number of a set. Nothing is noted.
    pub fn number(&mut self, set: AbsSet) -> Result<SetId, Memory>
        ensures stays { Stays self.old self.new }
        ensures gives { IfOk result (λ id. Gives (λ _. set) (λ _. []) self.old self.new id) }
    {
        self.layer.number(set)
    }

    /// The number of the join of two sets. Nothing is noted.
    pub fn join(&mut self, a: SetId, b: SetId, limit: u32) -> Result<SetId, Memory>
        requires first { a < length self.old.numbers }
        requires second { b < length self.old.numbers }
        ensures stays { Stays self.old self.new }
        ensures gives { IfOk result (λ id. Gives (λ _. joined limit (set_at self.old.numbers a) (set_at self.old.numbers b)) (λ _. []) self.old self.new id) }
    {
        self.layer.join(a, b, limit)
    }

    /// The set of a number.
    pub fn set(&self, id: SetId) -> &AbsSet
        requires { id < length self.now.numbers }
        ensures { result.now ≡ set_at self.now.numbers id }
    {
        self.layer.get(id)
    }

    /// How many values the set of a number has: `None` for Uninferable.
    pub fn count(&self, id: SetId) -> Option<usize>
        requires { id < length self.now.numbers }
        ensures { MatchOption result (set_at self.now.numbers id ≡ None) (HasCount (set_at self.now.numbers id)) }
    {
        self.layer.count(id)
    }

    /// The value at a place of the set of a number, the values in ascending order: `None` behind the last, and for
    /// Uninferable. Other sets may be read before the next place is asked for.
    pub fn value_at(&self, id: SetId, place: usize) -> Option<AbsVal>
        requires { id < length self.now.numbers }
        ensures { IsValueAt (set_at self.now.numbers id) place result }
    {
        self.layer.value_at(id, place)
    }
}

impl<'a> View<'a> {
    /// A view of a table, over which nothing was solved.
    pub fn over(alloc: Global, base: &'a Table) -> View<'a>
        ensures base { result.base ≡ base.now }
        ensures own { result.own ≡ map.empty }
        ensures work { result.work ≡ map.empty }
        ensures noted { result.noted ≡ [] }
    {
        View {
            alloc,
            base: &base.ids,
            own: Ids::new(alloc),
            work: Ids::new(alloc),
            layer: SetLayer::over(alloc, &base.sets),
            noted: Vec::new(alloc),
        }
    }

    /// Whether the variable has a set, be it solved or in progress.
    pub fn has(&self, var: u64) -> bool
        ensures { result ≡ is_some (map.get (sets self.now) var) }
    {
        find_first(self.base, &self.own, &self.work, var).is_some()
    }

    /// The number of the variable's set in progress, if it has one.
    pub fn in_progress(&self, var: u64) -> Option<SetId>
        ensures value { option_map (set_at self.now.numbers) result ≡ map.get self.now.work var }
        ensures given { IfSome result (λ id. id < length self.now.numbers) }
    {
        self.work.find(var)
    }

    /// The variable's solved set, if it has one.
    pub fn solved(&self, var: u64) -> Option<&AbsSet>
        ensures { option_copied result ≡ map.get (solved self.now) var }
    {
        match find_solved(self.base, &self.own, var) {
            Some(id) => Some(self.layer.get(id)),
            None => None,
        }
    }

    /// Gives a set to a variable, in place of the one that it had in progress.
    pub fn put(&mut self, var: u64, id: SetId) -> Result<(), Memory>
        requires { id < length self.old.numbers }
        ensures keeps { Keeps self.old self.new }
        ensures ok { OnOk result (self.new.work ≡ map.insert self.old.work var (set_at self.old.numbers id)) }
        ensures err { OnErr result (self.new.work ≡ self.old.work) }
    {
        self.work.put(var, id)
    }

    /// Gives the empty set to a variable, in place of the one that it had in progress.
    pub fn put_empty(&mut self, var: u64) -> Result<(), Memory>
        ensures keeps { Keeps self.old self.new }
        ensures ok { OnOk result (self.new.work ≡ map.insert self.old.work var none) }
        ensures err { OnErr result (self.new.work ≡ self.old.work) }
    {
        let id = self.layer.number(AbsSet::empty(self.alloc))?;
        self.work.put(var, id)
    }

    /// The variables that were read, in order. None is noted from then on.
    pub fn take_noted(&mut self) -> Vec<u64>
        ensures value { result.items ≡ self.old.noted }
        ensures stays { Stays self.old self.new }
        ensures none { self.new.noted ≡ [] }
    {
        mem::replace(&mut self.noted, Vec::new(self.alloc))
    }

    /// Gives up the sets in progress.
    pub fn give_up(&mut self)
        ensures keeps { Keeps self.old self.new }
        ensures none { self.new.work ≡ map.empty }
    {
        self.work = Ids::new(self.alloc);
    }

    /// The sets in progress become solved: those of the listed variables, which are those that are not solved. Where memory
    /// runs out none does. No set is in progress from then on.
    pub fn settle(&mut self, run: &[u64]) -> Result<(), Memory>
        requires apart { (v : ℕ) → Contains run.now v → map.get self.old.own v ≡ None }
        requires stored { (v : ℕ) → IsSome (map.get self.old.work v) → map.get self.old.own v ≡ None → Contains run.now v }
        ensures base { self.new.base ≡ self.old.base }
        ensures ok { OnOk result (self.new.own ≡ overlaid self.old.own self.old.work) }
        ensures err { OnErr result (self.new.own ≡ self.old.own) }
    {
        let mut work = mem::replace(&mut self.work, Ids::new(self.alloc));
        keep_all(&mut self.own, &mut work, run)
    }

    /// A table of the sets that were solved over the base. It borrows nothing.
    pub fn into_table(self) -> Result<Table, Memory>
        ensures { IfOk result (λ t. t ≡ self.entry.own) }
    {
        let mut sets = SetTable::new(self.alloc);
        let mut ids = Ids::new(self.alloc);
        let variables = self.own.variables(self.alloc)?;
        copy_all(
            self.alloc,
            &self.layer,
            &self.own,
            &variables,
            &mut sets,
            &mut ids,
        )?;
        Ok(Table { ids, sets })
    }
}
