// The limits of document 01, each named with the thing that it limits.
#![tactic(auto)]

ghost use Rattle.std.specs.Prelude.{◌≡◌, ◌<◌, ◌≤◌};
ghost use Rattle.lists.specs.Text.{binary_digits};
ghost use Rattle.limits.specs.Limits.{document_bytes, document_nodes, count_digits, depth_digits, label_bytes, value_bytes, rule_bytes, rule_tests, rule_nesting, comparison_steps, positions, constant_bytes, rule_count, numeral_digits, numeral_decimals, words_per_digit, words_per_node, tree_words, part_words, word_bits, word_values, scratch_words, program_input, program_words, program_marks};

#[derive(Drop)]
pub struct Document {
    pub nodes: usize,
}

#[derive(Drop)]
pub struct Rule {
    pub tests: usize,
}

#[derive(Drop)]
pub struct Numeral {
    pub digits: usize,
}

#[derive(Drop)]
pub struct Scratch {
    pub words: usize,
}

#[derive(Drop)]
pub struct Program {
    pub input: usize,
}

impl Document {
    pub const MAX_BYTES: usize = 1_048_576;

    pub const MAX_NODES: usize = 4096;

    // The digits of N, and of a depth.
    pub const MAX_COUNT_DIGITS: usize = 5;

    pub const MAX_DEPTH_DIGITS: usize = 4;

    pub const MAX_LABEL: usize = 16;

    pub const MAX_VALUE: usize = 255;

    // The number of binary digits of a number of nodes.
    pub fn digits(nodes: usize) -> usize
        requires { (0 < nodes) × (nodes ≤ document_nodes) }
        ensures { result ≡ binary_digits nodes }
    {
        64 - u64::leading_zeros(nodes as u64) as usize
    }
}

impl Rule {
    pub const MAX_BYTES: usize = 1024;

    pub const MAX_TESTS: usize = 64;

    pub const MAX_NESTING: usize = 32;

    pub const MAX_STEPS: usize = 14;

    // The steps and the two starts of a comparison.
    pub const MAX_POSITIONS: usize = Rule::MAX_STEPS + 2;

    pub const MAX_CONSTANT: usize = 32;

    // The number in a test that counts nodes.
    pub const MAX_COUNT: usize = 4096;
}

impl Numeral {
    pub const MAX_DIGITS: usize = 9;

    pub const MAX_DECIMALS: usize = 4;
}

impl Scratch {
    pub const WORDS_PER_DIGIT: usize = 64;

    pub const WORDS_PER_NODE: usize = 128;

    // The first words of each node are the tree's own; a comparison's part has the others.
    pub const TREE_WORDS: usize = 16;

    pub const PART_WORDS: usize = Scratch::WORDS_PER_NODE - Scratch::TREE_WORDS;

    // A word has 16 bits, and so many values.
    pub const WORD_BITS: usize = 16;

    pub const WORD_VALUES: usize = 65536;

    // The words that a document of so many nodes needs.
    pub fn needed(nodes: usize) -> usize
        requires { (0 < nodes) × (nodes ≤ document_nodes) }
        ensures { result ≡ scratch_words nodes }
    {
        let b = Document::digits(nodes);
        nodes * (Scratch::WORDS_PER_DIGIT * b + Scratch::WORDS_PER_NODE)
    }
}

impl Program {
    pub const MAX_INPUT: usize = 65536;

    pub const WORDS: usize = 32768;

    pub const MARKS: usize = 4096;
}

// The constants are the limits that the definitions name: each is tied to its own.
fn document_agrees()
    ensures max_bytes { Document.MAX_BYTES ≡ document_bytes }
    ensures max_nodes { Document.MAX_NODES ≡ document_nodes }
    ensures max_count_digits { Document.MAX_COUNT_DIGITS ≡ count_digits }
    ensures max_depth_digits { Document.MAX_DEPTH_DIGITS ≡ depth_digits }
    ensures max_label { Document.MAX_LABEL ≡ label_bytes }
    ensures max_value { Document.MAX_VALUE ≡ value_bytes }
{}

fn rule_agrees()
    ensures max_bytes { Rule.MAX_BYTES ≡ rule_bytes }
    ensures max_tests { Rule.MAX_TESTS ≡ rule_tests }
    ensures max_nesting { Rule.MAX_NESTING ≡ rule_nesting }
    ensures max_steps { Rule.MAX_STEPS ≡ comparison_steps }
    ensures max_positions { Rule.MAX_POSITIONS ≡ positions }
    ensures max_constant { Rule.MAX_CONSTANT ≡ constant_bytes }
    ensures max_count { Rule.MAX_COUNT ≡ rule_count }
{}

fn numeral_agrees()
    ensures max_digits { Numeral.MAX_DIGITS ≡ numeral_digits }
    ensures max_decimals { Numeral.MAX_DECIMALS ≡ numeral_decimals }
{}

fn scratch_agrees()
    ensures words_per_digit { Scratch.WORDS_PER_DIGIT ≡ words_per_digit }
    ensures words_per_node { Scratch.WORDS_PER_NODE ≡ words_per_node }
    ensures tree_words { Scratch.TREE_WORDS ≡ tree_words }
    ensures part_words { Scratch.PART_WORDS ≡ part_words }
    ensures word_bits { Scratch.WORD_BITS ≡ word_bits }
    ensures word_values { Scratch.WORD_VALUES ≡ word_values }
{}

fn program_agrees()
    ensures max_input { Program.MAX_INPUT ≡ program_input }
    ensures words { Program.WORDS ≡ program_words }
    ensures marks { Program.MARKS ≡ program_marks }
{}
