//! What the operators give.

ghost use Rattle.std.specs.Prelude.{◌≡◌};
ghost use Rattle.query_lang.specs.Meaning.{truth, decided, joined};

use query_tokens::Operator;

/// 1 for true and 0 for false.
pub(crate) fn truth(holds: bool) -> u128
    ensures { result ≡ truth holds }
{
    if holds { 1 } else { 0 }
}

/// The operator's value where the left side alone decides.
pub(crate) fn decided(operator: Operator, left: u128) -> Option<u128>
    ensures { result ≡ decided operator left }
{
    match operator {
        Operator::And => if left == 0 { Some(0) } else { None },
        Operator::Or => if left == 0 { None } else { Some(1) },
        _ => None,
    }
}

/// The operator's value where the left side alone does not decide.
pub(crate) fn joined(operator: Operator, left: u128, right: u128) -> Option<u128>
    ensures { result ≡ joined operator left right }
{
    match operator {
        Operator::And | Operator::Or => Some(truth(right != 0)),
        Operator::Equal => Some(truth(left == right)),
        Operator::NotEqual => Some(truth(left != right)),
        Operator::AtMost => Some(truth(left <= right)),
        Operator::AtLeast => Some(truth(left >= right)),
        Operator::Less => Some(truth(left < right)),
        Operator::Greater => Some(truth(left > right)),
        Operator::Plus => left.checked_add(right),
        Operator::Minus => if left < right {
            None
        } else {
            Some(left - right)
        },
        Operator::Times => left.checked_mul(right),
        Operator::Divide => if right == 0 { None } else { Some(left / right) },
        Operator::Remainder => if right == 0 { None } else { Some(left % right) },
        Operator::BitAnd => Some(left & right),
    }
}
