//! How strongly operators bind.

ghost use Rattle.std.specs.Prelude.{◌≡◌};
ghost use Rattle.query_syntax.specs.Grammar.{rank, left_rank, is_comparison};

use query_tokens::Operator;

/// The level of the grammar whose rule has this operator: 0 for `||` up to 4 for products.
pub(crate) fn rank(operator: Operator) -> u8
    ensures { result ≡ rank operator }
{
    match operator {
        Operator::Or => 0,
        Operator::And => 1,
        Operator::Equal
        | Operator::NotEqual
        | Operator::AtMost
        | Operator::AtLeast
        | Operator::Less
        | Operator::Greater => 2,
        Operator::Plus | Operator::Minus => 3,
        Operator::Times | Operator::Divide | Operator::Remainder | Operator::BitAnd => 4,
    }
}

/// Whether this compares its sides.
pub(crate) fn is_comparison(operator: Operator) -> bool
    ensures { result ≡ is_comparison operator }
{
    rank(operator) == 2
}

/// The level of the left side of this operator.
pub(crate) fn left_rank(operator: Operator) -> u8
    ensures { result ≡ left_rank operator }
{
    if is_comparison(operator) {
        3
    } else {
        rank(operator)
    }
}
