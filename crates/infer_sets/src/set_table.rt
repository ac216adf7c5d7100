// Sets by number.
ghost use Rattle.std.specs.Prelude.{◌≡◌, ℕ, ◌<◌, ◌≤◌, [], OnErr, IfOk, length, take, false, None, Some, MatchOption};
ghost use Rattle.std.specs.List.{position};
ghost use Rattle.infer_sets.specs.Numbers.{set_at, IsNumber, AreApart, Grew, is_same, has_number, with_set};
ghost use Rattle.infer_sets.specs.Listed.{HasCount, IsValueAt};
ghost use Rattle.infer_sets.specs.Digest.{IsDigest};
ghost use Rattle.infer_sets.specs.Slots.{slot_at, live, AreReached, IsFree, Finds};

use crate::abs_set::AbsSet;
use crate::abs_val::AbsVal;
use crate::digest::digest;
use lint_values::Memory;
use std::alloc::Global;
use std::collections::BTreeMap;
use std::marker::Model;

/// The number of a set.
pub type SetId = usize;

/// Sets, each once. Contracts see the list of the sets: a set's number is its place.
#[derive(Debug, Drop)]
pub struct SetTable {
    sets: Vec<AbsSet>,
    slots: BTreeMap<(u64, usize), usize>,
}

impl Model for SetTable {
    ghost use Rattle.std.specs.Prelude.{List};
    ghost use Rattle.infer_sets.specs.Sets.{Set};
    ghost use Rattle.infer_sets.specs.Numbers.{numbers_code, AreApart};
    ghost use Rattle.infer_sets.specs.Slots.{slot_at, AreReached};

    ghost Value = { List Set };

    ghost coded = { numbers_code };

    ghost view = { λ t. t.sets.items };

    ghost invariant = { λ t. AreApart t.sets.items × AreReached t.sets.items (slot_at t.slots.entries) };
}

impl SetTable {
    /// The table with no set.
    pub fn new(alloc: Global) -> SetTable
        ensures { result ≡ [] }
    {
        SetTable {
            sets: Vec::new(alloc),
            slots: BTreeMap::new(alloc),
        }
    }

    /// How many sets have a number: the numbers are those below it.
    pub fn len(&self) -> usize
        ensures { result ≡ length self.now }
    {
        self.sets.len()
    }

    /// The set of a number.
    pub fn get(&self, id: SetId) -> &AbsSet
        requires { id < length self.now }
        ensures { result.now ≡ set_at self.now id }
    {
        &self.sets[id]
    }

    /// How many values the set of a number has: `None` for Uninferable.
    pub fn count(&self, id: SetId) -> Option<usize>
        requires { id < length self.now }
        ensures { MatchOption result (set_at self.now id ≡ None) (HasCount (set_at self.now id)) }
    {
        self.get(id).count()
    }

    /// The value at a place of the set of a number, the values in ascending order: `None` behind the last, and for Uninferable.
    pub fn value_at(&self, id: SetId, place: usize) -> Option<AbsVal>
        requires { id < length self.now }
        ensures { IsValueAt (set_at self.now id) place result }
    {
        self.get(id).value_at(place)
    }

    // The number of the set, if it has one.
    pub(crate) fn find(&self, set: &AbsSet) -> Option<SetId>
        ensures { result ≡ position (λ s. is_same s set.now) self.now }
    {
        seek(&self.sets, &self.slots, digest(set), set)
    }

    /// The number of the set: the one that it had, or the next.
    pub fn number(&mut self, set: AbsSet) -> Result<SetId, Memory>
        ensures ok { IfOk result (λ id. (self.new ≡ with_set self.old set) × IsNumber self.new id set) }
        ensures grew { Grew self.old self.new }
        ensures err { OnErr result (self.new ≡ self.old) }
    {
        match self.find(&set) {
            Some(id) => Ok(id),
            None => self.add(set),
        }
    }

    /// The number of a set that is lent: it is copied only where it had no number.
    pub fn number_copy(&mut self, alloc: Global, set: &AbsSet) -> Result<SetId, Memory>
        ensures ok { IfOk result (λ id. (self.new ≡ with_set self.old set.now) × IsNumber self.new id set.now) }
        ensures grew { Grew self.old self.new }
        ensures err { OnErr result (self.new ≡ self.old) }
    {
        match self.find(set) {
            Some(id) => Ok(id),
            None => self.add(set.copy(alloc)?),
        }
    }

    /// The sets, each at the place of its number.
    pub fn into_vec(self) -> Vec<AbsSet>
        ensures { result.items ≡ self }
    {
        self.sets
    }

    // The next number is that of a set without one.
    fn add(&mut self, set: AbsSet) -> Result<SetId, Memory>
        requires { has_number self.old set ≡ false }
        ensures ok { IfOk result (λ id. (self.new ≡ with_set self.old set) × IsNumber self.new id set) }
        ensures grew { Grew self.old self.new }
        ensures err { OnErr result (self.new ≡ self.old) }
    {
        let id = self.sets.len();
        let digest = digest(&set);
        let probe = first_free(&self.slots, id, digest);
        self.slots.insert((digest, probe), id)?;
        self.sets.push(set)?;
        Ok(id)
    }

    // Takes back the numbers from `len` on.
    pub(crate) fn truncate(&mut self, len: usize)
        ensures { self.new ≡ take len self.old }
    {
        self.sets.truncate(len);
    }
}

// Whether both are one set.
fn same(mine: &AbsSet, other: &AbsSet) -> bool
    ensures { result ≡ is_same mine.now other.now }
{
    mine.is_within(other) && other.is_within(mine)
}

// The number that a slot has, if it is given.
fn live(
    slots: &BTreeMap<(u64, usize), usize>,
    len: usize,
    digest: u64,
    probe: usize,
) -> Option<usize>
    ensures { result ≡ live len (slot_at slots.now.entries digest probe) }
{
    match slots.get(&(digest, probe)).copied() {
        None => None,
        Some(id) => below(id, len),
    }
}

fn below(id: usize, len: usize) -> Option<usize>
    ensures { result ≡ live len (Some id) }
{
    if id < len { Some(id) } else { None }
}

// The number of a set: each probe under its digest is tried, until one is free.
fn seek(
    sets: &[AbsSet],
    slots: &BTreeMap<(u64, usize), usize>,
    digest: u64,
    set: &AbsSet,
) -> Option<SetId>
    requires reached { AreReached sets.now (slot_at slots.now.entries) }
    requires digest { IsDigest set.now digest }
    ensures { Finds sets.now set.now result }
{
    let mut probe = 0;
    while let Some(id) = live(slots, sets.len(), digest, probe) {
        if same(&sets[id], set) {
            return Some(id);
        }
        probe += 1;
    }
    None
}

// The first probe under a digest that is free.
fn first_free(slots: &BTreeMap<(u64, usize), usize>, len: usize, digest: u64) -> usize
    requires { (d : ℕ) → (k : ℕ) → (id : ℕ) → slot_at slots.now.entries d k ≡ Some id → k ≤ id }
    ensures { IsFree (slot_at slots.now.entries) len digest result }
{
    let mut probe = 0;
    while let Some(_) = live(slots, len, digest, probe) {
        probe += 1;
    }
    probe
}

/// Two numbers of a table are of one set exactly where they are equal.
pub fn numbers_tell_sets_apart(table: &SetTable)
    ensures { AreApart table.now }
{
    let _ = &table.sets;
}
