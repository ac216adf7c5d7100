// What brackets hold.
ghost use Rattle.std.specs.Prelude.{◌≡◌, ℕ, ◌≤◌, ◌++◌, ◌∷◌, [], length, take, drop, OnOk, IfErr};
ghost use Rattle.py_language.specs.Readers.{before};
ghost use Rattle.py_grammar.specs.Expressions.{has_own_comma as has_own_comma_spec, in_parentheses as in_parentheses_spec, in_brackets as in_brackets_spec, in_braces as in_braces_spec, call_arguments as call_arguments_spec, star_parameter as star_parameter_spec};
ghost use Rattle.py_forest.specs.Forests.{trees};
ghost use Rattle.py_forest.specs.declared.fault.Fault.TheVariants.{Memory};

use crate::fault::Fault;
use crate::forest::Forest;
use crate::kinds::is_of_dict;
use py_grammar::Symbol;
use py_line::Line;
use tree_nodes::Kind;

const COMMA: &[Symbol] = &[Symbol::Comma];

const YIELD: &[Symbol] = &[Symbol::YieldWord];

/// Whether round brackets from `start` up to `rest` end with a comma that is not a `yield`'s.
fn has_own_comma(line: &Line, start: usize, rest: usize) -> bool
    ensures { result ≡ has_own_comma_spec (before (drop start line.now) (drop rest line.now)) }
{
    if line.second_is(start, rest, YIELD) {
        false
    } else {
        line.last_but_one_is(start, rest, COMMA)
    }
}

impl Forest {
    /// The trees from `mark` on become what round brackets from `start` up to `rest` hold.
    #[tactic(auto, using(crate::proofs::BracketLaws::parentheses_none, crate::proofs::BracketLaws::parentheses_one, crate::proofs::BracketLaws::parentheses_more, crate::proofs::BracketLaws::as_it_was))]
    pub fn in_parentheses(
        &mut self,
        mark: usize,
        line: &Line,
        start: usize,
        rest: usize,
    ) -> Result<(), Fault>
        ensures ok { OnOk result (trees self.new ≡ take mark (trees self.old) ++ in_parentheses_spec (before (drop start line.now) (drop rest line.now)) (drop mark (trees self.old))) }
        ensures err { IfErr result (λ e. e ≡ Memory) }
    {
        let count = self.len().saturating_sub(mark);
        if count == 0 {
            return self.reduce(Kind::Tuple, mark, line, start, rest);
        }
        if count == 1 {
            if has_own_comma(line, start, rest) {
                return self.reduce(Kind::Tuple, mark, line, start, rest);
            }
            return Ok(());
        }
        if self.is_comprehension(mark) {
            self.reduce(Kind::GeneratorExpression, mark, line, start, rest)
        } else {
            self.reduce(Kind::Tuple, mark, line, start, rest)
        }
    }

    /// The trees from `mark` on become what square brackets hold.
    pub fn in_brackets(
        &mut self,
        mark: usize,
        line: &Line,
        start: usize,
        rest: usize,
    ) -> Result<(), Fault>
        ensures ok { OnOk result (trees self.new ≡ take mark (trees self.old) ++ in_brackets_spec (before (drop start line.now) (drop rest line.now)) (drop mark (trees self.old))) }
        ensures err { IfErr result (λ e. e ≡ Memory) }
    {
        if self.is_comprehension(mark) {
            self.reduce(Kind::ListComprehension, mark, line, start, rest)
        } else {
            self.reduce(Kind::List, mark, line, start, rest)
        }
    }

    /// The trees from `mark` on become what braces hold.
    #[tactic(auto, using(crate::proofs::BracketLaws::braces_none, crate::proofs::BracketLaws::braces_some))]
    pub fn in_braces(
        &mut self,
        mark: usize,
        line: &Line,
        start: usize,
        rest: usize,
    ) -> Result<(), Fault>
        ensures ok { OnOk result (trees self.new ≡ take mark (trees self.old) ++ in_braces_spec (before (drop start line.now) (drop rest line.now)) (drop mark (trees self.old))) }
        ensures err { IfErr result (λ e. e ≡ Memory) }
    {
        if mark >= self.len() {
            return self.reduce(Kind::Dict, mark, line, start, rest);
        }
        if is_of_dict(self.kind(mark)) {
            if self.is_comprehension(mark) {
                self.reduce(Kind::DictComprehension, mark, line, start, rest)
            } else {
                self.reduce(Kind::Dict, mark, line, start, rest)
            }
        } else if self.is_comprehension(mark) {
            self.reduce(Kind::SetComprehension, mark, line, start, rest)
        } else {
            self.reduce(Kind::Set, mark, line, start, rest)
        }
    }

    /// The trees from `mark` on become what the brackets of a call hold.
    #[tactic(auto, using(crate::proofs::BracketLaws::as_it_was))]
    pub fn call_arguments(
        &mut self,
        mark: usize,
        line: &Line,
        start: usize,
        rest: usize,
    ) -> Result<(), Fault>
        ensures ok { OnOk result (trees self.new ≡ take mark (trees self.old) ++ call_arguments_spec (before (drop start line.now) (drop rest line.now)) (drop mark (trees self.old))) }
        ensures err { IfErr result (λ e. e ≡ Memory) }
    {
        if self.is_comprehension(mark) {
            self.reduce(Kind::GeneratorExpression, mark, line, start, rest)
        } else {
            Ok(())
        }
    }

    /// The trees from `mark` on become a parameter with a star.
    #[tactic(auto, using(crate::proofs::BracketLaws::star_none, crate::proofs::BracketLaws::star_one, crate::proofs::BracketLaws::star_more))]
    pub fn star_parameter(
        &mut self,
        mark: usize,
        line: &Line,
        start: usize,
        rest: usize,
    ) -> Result<(), Fault>
        ensures ok { OnOk result (trees self.new ≡ take mark (trees self.old) ++ star_parameter_spec (before (drop start line.now) (drop rest line.now)) (drop mark (trees self.old))) }
        ensures err { IfErr result (λ e. e ≡ Memory) }
    {
        let count = line.count(start, rest);
        if count == 0 {
            self.cut(mark);
            return Ok(());
        }
        if count == 1 {
            return self.reduce(Kind::KeywordOnlyMark, mark, line, start, rest);
        }
        let name = line.second_text(start, rest);
        self.reduce_named(Kind::StarParameter, name, mark, line, start, rest)
    }
}
