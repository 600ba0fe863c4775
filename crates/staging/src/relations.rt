// The signs of comparisons, told by how two values compare.
ghost use Rattle.std.specs.Prelude.{true, ◌↔◌, ◌≡◌};
ghost use Rattle.xpath.specs.Syntax.{Op};
ghost use Rattle.rule_parts.specs.Kinds.{operator};
ghost use Rattle.staging.specs.Signs.{ByText, Stands};

use rule_parts::kinds::Operator;
use std::cmp::Ordering;

// The sign stands for values that compare like this.
pub fn fits(c: Ordering, o: Operator) -> bool
    ensures { (q : Op) → o ≡ operator q → (result ≡ true) ↔ Stands q c }
{
    match o {
        Operator::Equal => c.is_eq(),
        Operator::Unequal => c.is_ne(),
        Operator::Less => c.is_lt(),
        Operator::LessEqual => c.is_le(),
        Operator::Greater => c.is_gt(),
        Operator::GreaterEqual => c.is_ge(),
    }
}

// The sign compares texts, and not amounts.
pub fn by_text(o: Operator) -> bool
    ensures { (q : Op) → o ≡ operator q → (result ≡ true) ↔ ByText q }
{
    matches!(o, Operator::Equal | Operator::Unequal)
}
