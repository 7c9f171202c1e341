//! Rules on two values.

ghost use Rattle.std.specs.Prelude.{◌≡◌, ◌==◌, false};
ghost use Rattle.std.specs.List.{find};
ghost use Rattle.std.specs.Option.{option_map_or};
ghost use Rattle.rewrite_judge.specs.Rule.{agree};

use ds_base::ItemList;

/// A rule on a variable's value before and after a rewrite.
#[derive(Drop)]
pub struct Rule {
    /// The variable's number.
    pub var: u32,
    pub how: How,
}

/// How the value before is to be to the value after.
#[derive(Drop)]
pub enum How {
    /// Equal.
    Same,
    /// The value after is less by this much: the value before is that value plus this much.
    Less(u128),
    /// The first row whose left number is the value before has the value after on the right. A value
    /// before that no row has on the left breaks the rule.
    Table(PairList),
}

/// Rules, numbered from 0.
pub type RuleList = ItemList<Rule>;

/// The rows of a table: a left and a right number.
pub type PairList = ItemList<(u128, u128)>;

// Whether the two values are as they are to be.
pub fn agree(how: &How, first: u128, second: u128) -> bool
    ensures { result ≡ agree how.now first second }
{
    match how {
        How::Same => first == second,
        How::Less(by) => second <= first && first - second == *by,
        How::Table(rows) => has_row(rows, first, second),
    }
}

// Whether the first row with this number on the left has that one on the right.
fn has_row(rows: &PairList, left: u128, right: u128) -> bool
    ensures { result ≡ option_map_or (λ row. row.1 == right) (find (λ row. row.0 == left) rows.now.items) false }
{
    for i in 0..rows.len() {
        let (from, to) = *rows.get(i);
        if from == left {
            return to == right;
        }
    }
    false
}
