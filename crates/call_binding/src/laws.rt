// What holds of each binding.
ghost use Rattle.std.specs.Prelude.{◌≡◌, ℕ, ◌<◌, false, length, slice_get, Some};
ghost use Rattle.call_binding.specs.declared.fate.ParamFate.TheVariants as given;
ghost use Rattle.call_binding.specs.Parameters.{Formals, Actuals, Fates};
ghost use Rattle.call_binding.specs.Rule.{IsBinding};
ghost use Rattle.call_binding.specs.Fates.{fates_of};
ghost use Rattle.call_binding.specs.Laws.{HasOneFate, HasOneKeyFate, HasOneBinding, IsPlainTaken, IsGiven};

/// Each call without `*` and `**` has exactly one binding, which `fates_of` gives.
pub fn calls_have_one_binding()
    ensures one { (f : Formals) (a : Actuals) → a.starred ≡ false → HasOneBinding f a }
    ensures computed { (f : Formals) (a : Actuals) → a.starred ≡ false → IsBinding f a (fates_of f a) }
{}

/// Each parameter has exactly one of: an argument, the receiver, its default, the rest, nothing.
pub fn parameters_have_one_fate()
    ensures { (f : Formals) (a : Actuals) (i : ℕ) → i < length f.params → HasOneFate f a i }
{}

/// Each keyword has exactly one fate.
pub fn keywords_have_one_fate()
    ensures { (f : Formals) (a : Actuals) (j : ℕ) → j < length a.keywords → HasOneKeyFate f a j }
{}

/// The argument that a parameter has is one of the call.
pub fn bound_arguments_are_given()
    ensures { (f : Formals) (a : Actuals) (b : Fates) (i n : ℕ) → IsBinding f a b → slice_get b.params i ≡ Some (given.Arg n) → IsGiven a b i n }
{}

/// Each plain argument is taken once, by a parameter or by `*`, or is surplus.
pub fn plain_arguments_are_taken_once_or_surplus()
    ensures { (f : Formals) (a : Actuals) (b : Fates) (n : ℕ) → IsBinding f a b → n < a.positionals → IsPlainTaken f a b n }
{}
