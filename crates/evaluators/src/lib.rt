// The two evaluators of a comparison behind one name: the driver does not know which of them runs.
#![tactic(auto)]

ghost use Rattle.std.specs.Prelude.{◌≡◌, ◌<◌};
ghost use Rattle.lists.specs.Lists.{All};
ghost use Rattle.xpath.specs.Syntax.{XPath, Op, eq};
ghost use Rattle.xpath.specs.Tree.{Tree};
ghost use Rattle.rule_parts.specs.Kinds.{operator};
ghost use Rattle.machine.specs.Shape.{Shape};
ghost use Rattle.evaluators.specs.Evaluators.{PartRoom, Posed, Staged, StagedTo, Compared, ComparedBy, Hit};
ghost use Rattle.evaluators.specs.Powered.{Powered};
ghost use Rattle.evaluators.specs.declared.Evaluator.TheVariants.{Plain, Snippets};

use buckets::buckets;
use equalities::compare_equal;
use group_order::list_groups;
use levels::levels;
use limits::Document;
use machine::Machine;
use rule_parts::kinds::Operator;

#[derive(Clone, Copy)]
pub enum Evaluator {
    Plain,
    Snippets,
}

// By walks from every node. There are no snippets.
fn by_walks(p: &mut [u16], n: usize, m: Machine, o: Operator) -> usize
    requires { Staged o m n p.old × PartRoom n p.old }
    ensures { (P R : XPath) (t : Tree) (q : Op) → Posed q P R t m n p.old → o ≡ operator q → Compared Plain t q P R n p.old p.new result }
{
    plain::compare_paths(p, n, m, o);
    0
}

// Before an equality's snippets: as many powers of two as the ways of the tree ask for, which is handed back, and the nodes of each value.
fn prepare(p: &mut [u16], n: usize) -> usize
    requires { ((t : Tree) × Shape t n p.old) × PartRoom n p.old }
    ensures { Powered n result p.old p.new }
{
    let l = levels(p, n);
    let b = Document::digits(l);
    buckets(p, n);
    b
}

// An equality by all its values, those of the larger groups first. The number of its snippets is handed back.
fn by_groups(p: &mut [u16], n: usize, m: Machine) -> usize
    requires { ((P R : XPath) × (t : Tree) × Posed eq P R t m n p.old) × PartRoom n p.old }
    ensures { (P R : XPath) (t : Tree) → Posed eq P R t m n p.old → Compared Snippets t eq P R n p.old p.new result }
{
    let b = prepare(p, n);
    let mut groups = [0; Document::MAX_NODES];
    let c = list_groups(p, n, &mut groups);
    compare_equal(p, n, b, m, &groups[..c])
}

// An equality by its snippets; any other sign backwards from the ends.
fn by_snippets(p: &mut [u16], n: usize, m: Machine, o: Operator) -> usize
    requires { Staged o m n p.old × PartRoom n p.old }
    ensures { (P R : XPath) (t : Tree) (q : Op) → Posed q P R t m n p.old → o ≡ operator q → Compared Snippets t q P R n p.old p.new result }
{
    match o {
        Operator::Equal => by_groups(p, n, m),
        _ => {
            backward::compare_order(p, n, m, o);
            0
        }
    }
}

// The comparison of two paths at every node. The number of its snippets is handed back.
pub fn compare_paths(e: Evaluator, p: &mut [u16], n: usize, m: Machine, o: Operator) -> usize
    requires { Staged o m n p.old × PartRoom n p.old }
    ensures { (P R : XPath) (t : Tree) (q : Op) → Posed q P R t m n p.old → o ≡ operator q → Compared e t q P R n p.old p.new result }
{
    match e {
        Evaluator::Plain => by_walks(p, n, m, o),
        Evaluator::Snippets => by_snippets(p, n, m, o),
    }
}

// An equality by the values of the nodes in a list. The number of snippets that these yield is handed back.
pub fn compare_values(p: &mut [u16], n: usize, m: Machine, values: &[u16]) -> usize
    requires { ((P R : XPath) × (t : Tree) × Posed eq P R t m n p.old) × PartRoom n p.old × All (λ w. w < n) values.now }
    ensures { (P R : XPath) (t : Tree) → Posed eq P R t m n p.old → ComparedBy values.now t P R n p.old p.new result }
{
    let b = prepare(p, n);
    compare_equal(p, n, b, m, values)
}

// The comparison of the first path with a constant.
pub fn compare_constant(e: Evaluator, p: &mut [u16], n: usize, m: Machine)
    requires { StagedTo m n p.old × PartRoom n p.old }
    ensures { Hit m n p.old p.new }
{
    match e {
        Evaluator::Plain => {
            plain::compare_constant(p, n, m);
        }
        Evaluator::Snippets => {
            backward::compare_constant(p, n, m);
        }
    }
}
