// In which order patterns may stand.
ghost use Rattle.std.specs.Prelude.{◌≡◌};
ghost use Rattle.py_grammar.specs.Patterns.{is_star_pattern as is_star_pattern_spec, is_rest as is_rest_spec, is_keyword_pattern as is_keyword_pattern_spec};
ghost use Rattle.parse_pattern.specs.Orders.{seen_behind as seen_behind_spec};

use tree_nodes::Kind;

/// A condition on the order of patterns.
#[derive(Clone, Copy, Debug, PartialEq, Eq)]
pub enum Order {
    /// One star at most.
    OneStar,
    /// Nothing behind what takes the rest of a mapping.
    RestLast,
    /// No plain pattern behind one with a keyword.
    KeywordsLast,
}

/// Whether it is a star.
fn is_star_pattern(kind: Kind) -> bool
    ensures { result ≡ is_star_pattern_spec kind }
{
    matches!(kind, Kind::MatchStar | Kind::MatchStarWildcard)
}

/// Whether it takes the rest of a mapping.
fn is_rest(kind: Kind) -> bool
    ensures { result ≡ is_rest_spec kind }
{
    matches!(kind, Kind::MatchRest)
}

/// Whether it has a keyword.
fn is_keyword_pattern(kind: Kind) -> bool
    ensures { result ≡ is_keyword_pattern_spec kind }
{
    matches!(kind, Kind::MatchKeyword)
}

/// What is seen behind one more tree, where it may stand there.
pub fn seen_behind(order: Order, seen: bool, kind: Kind) -> Option<bool>
    ensures { result ≡ seen_behind_spec order seen kind }
{
    match order {
        Order::OneStar if is_star_pattern(kind) => { if seen { None } else { Some(true) } }
        Order::OneStar => Some(seen),
        Order::RestLast if seen => None,
        Order::RestLast => Some(is_rest(kind)),
        Order::KeywordsLast if is_keyword_pattern(kind) => Some(true),
        Order::KeywordsLast if seen => None,
        Order::KeywordsLast => Some(false),
    }
}
