// A layer of numbers over a table.
ghost use Rattle.std.specs.Prelude.{◌≡◌, ℕ, ◌<◌, ◌≤◌, ◌++◌, [], OnOk, OnErr, IfOk, length, take, IfSome, MatchOption, None, false};
ghost use Rattle.std.specs.FinMap as map;
ghost use Rattle.infer_sets.specs.Sets.{joined};
ghost use Rattle.infer_sets.specs.Numbers.{set_at, IsNumber, AreApart, has_number, with_set, Grew};
ghost use Rattle.infer_sets.specs.Listed.{HasCount, IsValueAt};
ghost use Rattle.infer_sets.specs.Joins.{AreJoined, joins_of};

use crate::abs_set::AbsSet;
use crate::abs_val::AbsVal;
use crate::set_table::{SetId, SetTable, numbers_tell_sets_apart};
use lint_values::Memory;
use std::alloc::Global;
use std::collections::BTreeMap;
use std::marker::Model;

/// The numbers of a table, and its own behind them; and the joins that were made. Contracts see the list of all sets, and the
/// map of the joins.
#[derive(Drop)]
pub struct SetLayer<'a> {
    alloc: Global,
    base: &'a SetTable,
    own: SetTable,
    joins: BTreeMap<(usize, usize, u32), usize>,
}

impl<'a> Model for SetLayer<'a> {
    ghost use Rattle.std.specs.Prelude.{◌++◌};
    ghost use Rattle.std.specs.FinMap as map;
    ghost use Rattle.infer_sets.specs.Numbers.{AreApart};
    ghost use Rattle.infer_sets.specs.Joins.{Layer, layer_code, AreJoined, joins_of};

    ghost Value = { Layer };

    ghost coded = { layer_code };

    ghost view = { λ l. record { sets = l.base.now ++ l.own; joins = joins_of l.joins.entries } };

    ghost invariant = { λ l. AreApart (l.base.now ++ l.own) × AreJoined (l.base.now ++ l.own) (joins_of l.joins.entries) };
}

impl<'a> SetLayer<'a> {
    /// The numbers of a table, and none behind them.
    pub fn over(alloc: Global, base: &'a SetTable) -> SetLayer<'a>
        ensures { result ≡ record { sets = base.now; joins = map.empty } }
    {
        numbers_tell_sets_apart(base);
        SetLayer {
            alloc,
            base,
            own: SetTable::new(alloc),
            joins: BTreeMap::new(alloc),
        }
    }

    /// The set of a number.
    pub fn get(&self, id: SetId) -> &AbsSet
        requires { id < length self.now.sets }
        ensures { result.now ≡ set_at self.now.sets id }
    {
        let first = self.base.len();
        if id < first {
            return self.base.get(id);
        }
        self.own.get(id - first)
    }

    /// How many values the set of a number has: `None` for Uninferable.
    pub fn count(&self, id: SetId) -> Option<usize>
        requires { id < length self.now.sets }
        ensures { MatchOption result (set_at self.now.sets id ≡ None) (HasCount (set_at self.now.sets id)) }
    {
        self.get(id).count()
    }

    /// The value at a place of the set of a number, the values in ascending order: `None` behind the last, and for Uninferable.
    pub fn value_at(&self, id: SetId, place: usize) -> Option<AbsVal>
        requires { id < length self.now.sets }
        ensures { IsValueAt (set_at self.now.sets id) place result }
    {
        self.get(id).value_at(place)
    }

    /// The remembered number of a join: `None` exactly where this layer has not joined the two, in this order, under that limit.
    pub fn joined(&self, a: SetId, b: SetId, limit: u32) -> Option<SetId>
        ensures value { result ≡ map.get self.now.joins (a, b, limit) }
        ensures right { IfSome result (λ id. IsNumber self.now.sets id (joined limit (set_at self.now.sets a) (set_at self.now.sets b))) }
    {
        self.joins.get(&(a, b, limit)).copied()
    }

    /// The number of the set: the one that it had, or the next.
    pub fn number(&mut self, set: AbsSet) -> Result<SetId, Memory>
        ensures ok { IfOk result (λ id. (self.new.sets ≡ with_set self.old.sets set) × IsNumber self.new.sets id set) }
        ensures grew { Grew self.old.sets self.new.sets }
        ensures joins { self.new.joins ≡ self.old.joins }
        ensures err { OnErr result (self.new ≡ self.old) }
    {
        match self.base.find(&set) {
            Some(id) => Ok(id),
            None => number_behind(self.base, &mut self.own, set),
        }
    }

    /// The number of the join of two sets, which is remembered for the two in this order.
    pub fn join(&mut self, a: SetId, b: SetId, limit: u32) -> Result<SetId, Memory>
        requires first { a < length self.old.sets }
        requires second { b < length self.old.sets }
        ensures ok { IfOk result (λ id. (self.new.sets ≡ with_set self.old.sets (joined limit (set_at self.old.sets a) (set_at self.old.sets b))) × IsNumber self.new.sets id (joined limit (set_at self.old.sets a) (set_at self.old.sets b))) }
        ensures grew { Grew self.old.sets self.new.sets }
        ensures joins { IfOk result (λ id. self.new.joins ≡ map.insert self.old.joins (a, b, limit) id) }
        ensures err { OnErr result (self.new ≡ self.old) }
    {
        match self.joined(a, b, limit) {
            Some(remembered) => Ok(remembered),
            None => self.join_anew(a, b, limit),
        }
    }

    // The join of a pair that is not remembered.
    fn join_anew(&mut self, a: SetId, b: SetId, limit: u32) -> Result<SetId, Memory>
        requires first { a < length self.old.sets }
        requires second { b < length self.old.sets }
        ensures ok { IfOk result (λ id. (self.new.sets ≡ with_set self.old.sets (joined limit (set_at self.old.sets a) (set_at self.old.sets b))) × IsNumber self.new.sets id (joined limit (set_at self.old.sets a) (set_at self.old.sets b))) }
        ensures grew { Grew self.old.sets self.new.sets }
        ensures joins { IfOk result (λ id. self.new.joins ≡ map.insert self.old.joins (a, b, limit) id) }
        ensures err { OnErr result (self.new ≡ self.old) }
    {
        let alloc = self.alloc;
        let set = self.get(a).join(alloc, self.get(b), limit)?;
        self.keep_join(a, b, limit, set)
    }

    // The set is kept, and remembered as the join of the pair.
    fn keep_join(&mut self, a: SetId, b: SetId, limit: u32, set: AbsSet) -> Result<SetId, Memory>
        requires first { a < length self.old.sets }
        requires second { b < length self.old.sets }
        requires right { set ≡ joined limit (set_at self.old.sets a) (set_at self.old.sets b) }
        ensures ok { IfOk result (λ id. (self.new.sets ≡ with_set self.old.sets set) × IsNumber self.new.sets id set) }
        ensures joins { IfOk result (λ id. self.new.joins ≡ map.insert self.old.joins (a, b, limit) id) }
        ensures err { OnErr result (self.new ≡ self.old) }
    {
        match self.base.find(&set) {
            Some(id) => self.remember(a, b, limit, id),
            None => join_behind(
                self.base,
                &mut self.own,
                &mut self.joins,
                set,
                (a, b, limit),
            ),
        }
    }

    // A join is remembered, by the number that its set has.
    fn remember(&mut self, a: SetId, b: SetId, limit: u32, id: SetId) -> Result<SetId, Memory>
        requires first { a < length self.old.sets }
        requires second { b < length self.old.sets }
        requires right { IsNumber self.old.sets id (joined limit (set_at self.old.sets a) (set_at self.old.sets b)) }
        ensures sets { self.new.sets ≡ self.old.sets }
        ensures ok { IfOk result (λ r. (r ≡ id) × (self.new.joins ≡ map.insert self.old.joins (a, b, limit) id)) }
        ensures err { OnErr result (self.new ≡ self.old) }
    {
        self.joins.insert((a, b, limit), id)?;
        Ok(id)
    }
}

// The number of a set that the base has not.
fn number_behind(base: &SetTable, own: &mut SetTable, set: AbsSet) -> Result<SetId, Memory>
    requires { has_number base.now set ≡ false }
    ensures ok { IfOk result (λ id. (base.now ++ own.new ≡ with_set (base.now ++ own.old) set) × IsNumber (base.now ++ own.new) id set) }
    ensures own { OnOk result (own.new ≡ with_set own.old set) }
    ensures err { OnErr result (own.new ≡ own.old) }
{
    let first = base.len();
    if own.len() >= usize::MAX - first {
        return Err(Memory);
    }
    let place = own.number(set)?;
    Ok(first + place)
}

// The number of a set that the base has not, which is remembered for a pair. What is refused is taken back.
fn join_behind(
    base: &SetTable,
    own: &mut SetTable,
    joins: &mut BTreeMap<(usize, usize, u32), usize>,
    set: AbsSet,
    pair: (usize, usize, u32),
) -> Result<SetId, Memory>
    requires { has_number base.now set ≡ false }
    ensures ok { IfOk result (λ id. (base.now ++ own.new ≡ with_set (base.now ++ own.old) set) × IsNumber (base.now ++ own.new) id set) }
    ensures joins { IfOk result (λ id. joins_of joins.new.entries ≡ map.insert (joins_of joins.old.entries) pair id) }
    ensures err { OnErr result (own.new ≡ own.old) }
    ensures joins_err { OnErr result (joins.new.entries ≡ joins.old.entries) }
{
    let had = own.len();
    let id = number_behind(base, own, set)?;
    match joins.insert(pair, id) {
        Ok(_) => Ok(id),
        Err(_) => {
            own.truncate(had);
            Err(Memory)
        }
    }
}

/// Two numbers of a layer are of one set exactly where they are equal, and each remembered number is that of the join.
pub fn layer_tells_sets_apart(layer: &SetLayer)
    ensures apart { AreApart layer.now.sets }
    ensures joined { AreJoined layer.now.sets layer.now.joins }
{
    let _ = &layer.own;
}
