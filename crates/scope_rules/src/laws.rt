// What holds of every tree's scopes.
ghost use Rattle.std.specs.Prelude.{◌≡◌, ℕ, ◌<◌};
ghost use Rattle.tree_nodes.specs.declared.kind.Kind.TheVariants as kinds;
ghost use Rattle.tree_nodes.specs.Trees.{Tree, count_of};
ghost use Rattle.tree_nodes.specs.Shaped.{IsShaped};
ghost use Rattle.scope_rules.specs.Nodes.{kind_of};
ghost use Rattle.scope_rules.specs.Laws.{AreNested, HasOneAnswer, AreInOrder, LeadsOutwards};

/// Each node stands where one step leads, and the scopes around a node are nested in each other up to the module.
pub fn scopes_lie_around_each_other()
    ensures { (t : Tree) → AreNested t }
{}

/// Each name that is read leads to exactly one answer.
pub fn reads_have_one_answer()
    ensures { (t : Tree) → IsShaped t → (n : ℕ) → n < count_of t → kind_of t n ≡ kinds.Name → HasOneAnswer t n }
{}

/// What is asked of a name or an attribute comes in source order.
pub fn binders_and_reads_are_in_source_order()
    ensures { (t : Tree) → AreInOrder t }
{}

/// A read that is local or free leads to a scope around it.
pub fn local_answers_are_around_the_read()
    ensures { (t : Tree) (n : ℕ) → n < count_of t → LeadsOutwards t n }
{}
