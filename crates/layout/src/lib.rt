// The layout of the scratch: every column and block, where each stands, and reading and writing one word.
// A column has one word for each node: word v of column c stands at c * n + v. The tree's own columns come first; a comparison's part begins behind them and is counted anew from 0.
#![tactic(auto)]

pub mod places;
pub mod words;

use limits::{Rule, Scratch};

// The columns of the tree.
#[derive(Drop)]
pub struct Table;

impl Table {
    // The offset of a node's lines takes two words.
    pub const LOW: usize = 0;

    pub const HIGH: usize = 1;

    pub const LEFT: usize = 2;

    pub const RIGHT: usize = 3;

    pub const PARENT: usize = 4;

    pub const RANK: usize = 5;

    // While the tree is built: the last node so far of a depth.
    pub const LAST: usize = 6;

    // The rank of the node's amount, if its value is a numeral.
    pub const AMOUNT: usize = 11;

    // When the nodes are ranked: a bit for each test, in as many columns as the tests take.
    pub const TESTS: usize = 12;

    pub const COLUMNS: usize = Scratch::TREE_WORDS;

    // The word that stands for none: no node, or no rank. A word of the fixed memory has no room for an Option.
    pub const NONE: usize = Scratch::WORD_VALUES - 1;
}

// The columns of the table that tell where the value of each node lies; they stay when the nodes are ranked.
#[derive(Drop)]
pub struct Values;

impl Values {
    // A note of a node's value: the offset of its bytes in two words, their number, and the blanks around them.
    pub const LOW: usize = 6;

    pub const HIGH: usize = 7;

    pub const LENGTH: usize = 8;

    pub const BLANKS: usize = 9;

    // The next node behind a node that has text.
    pub const NEXT: usize = 10;
}

// The columns of the table that the ranking uses, and nobody behind it: they get the bits of the tests.
#[derive(Drop)]
pub struct Ranking;

impl Ranking {
    // The nodes so far, by rising value.
    pub const ORDER: usize = 12;

    // A node with the same value.
    pub const TWIN: usize = 13;

    // The first and the last node under a node with text that is not blank.
    pub const FIRST_TEXT: usize = 14;

    pub const LAST_TEXT: usize = 15;

    // When the texts are ranked: the key of a node's amount, in three words.
    pub const KEY_LOW: usize = 13;

    pub const KEY_MIDDLE: usize = 14;

    pub const KEY_HIGH: usize = 15;
}

// The columns of a comparison's part; the links and the rank stand in the same columns as in the table.
#[derive(Drop)]
pub struct Part;

impl Part {
    // 1 where the comparison holds, and else 0.
    pub const ANSWER: usize = 0;

    // By rank: 1 for the rank of a node where the first path ends.
    pub const MARK: usize = 1;

    // The positions whose bracketed test holds at the node.
    pub const STAYS: usize = 6;

    // 1 where the node's value is in the relation to the constant.
    pub const HIT: usize = 7;

    // The positions that were come to at the node.
    pub const SEEN: usize = 8;

    // 1 where the walk of a count has found the node.
    pub const FOUND: usize = 9;

    // The work list behind the columns of single words: the nodes of its entries, and their positions. No node has more entries than there are positions.
    pub const NODES: usize = Table::COLUMNS;

    pub const POSITIONS: usize = Part::NODES + Rule::MAX_POSITIONS;

    // The matrices in the same place, a row for each position: the loops of a node, and its settled pairs.
    pub const LOOPS: usize = Table::COLUMNS;

    pub const PAIRS: usize = Part::LOOPS + Rule::MAX_POSITIONS;
}

// The columns of the part that hold the groups of equal values, and what is worked out for one of them.
#[derive(Drop)]
pub struct Groups;

impl Groups {
    // Before the groups: a node's level, 1 for the root, and else one more than that of the parent.
    pub const LEVEL: usize = 8;

    // By rank: the first node that has it.
    pub const FIRST: usize = 9;

    // The next node of equal rank.
    pub const NEXT: usize = 10;

    // Two things in one word. An odd word at a node: it has a node of the group at or below it. 2 or 3 at a block of nodes, which is told by its number: it can have skeleton nodes.
    pub const MARKED: usize = 11;

    // The nodes of a block.
    pub const BLOCK: usize = 16;

    // The positions that at a skeleton node end at a node of the group that is at or below it.
    pub const IN: usize = 12;

    // Those of them that come from the next skeleton node on the left, and on the right.
    pub const LEFTIN: usize = 13;

    pub const RIGHTIN: usize = 14;

    // The positions that end at a node of the group that is neither at nor below it.
    pub const ABOVE: usize = 15;
}

// The columns of the part that order the groups of equal values by their sizes, before one of them is worked on.
#[derive(Drop)]
pub struct Sizes;

impl Sizes {
    // By rank: how many nodes have it.
    pub const SIZE: usize = 12;

    // At the first node of a group: n less the group's size, so that larger groups have smaller keys. None at any other node.
    pub const KEY: usize = 13;

    // By key: the first node that has it.
    pub const FIRST: usize = 14;

    // The next node of equal key.
    pub const NEXT: usize = 15;
}

// The columns of the part that hold the range of the ranks where a path ends.
#[derive(Drop)]
pub struct Sweeps;

impl Sweeps {
    // The least rank where the first path ends; the second path's is in the next column.
    pub const LEAST: usize = 12;

    // One more than the greatest rank, likewise.
    pub const ABOVE: usize = 14;
}

// The blocks at the end of the part, one for each exponent and node. Within a block: the rows that lead down, those that lead up, the snippets, and the upper node.
#[derive(Drop)]
pub struct Blocks;

impl Blocks {
    pub const COLUMN: usize = Scratch::PART_WORDS;

    pub const WORDS: usize = Scratch::WORDS_PER_DIGIT;

    pub const DOWN: usize = 0;

    pub const UP: usize = Rule::MAX_POSITIONS;

    pub const SNIPPETS: usize = 2 * Rule::MAX_POSITIONS;

    pub const UPPER: usize = 3 * Rule::MAX_POSITIONS;
}
