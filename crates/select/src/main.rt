// The program: a rule, LF and a library document come in on standard input; what the evaluation hands back and the marked nodes go out.
#![tactic(auto)]

ghost use Rattle.std.specs.Prelude.{◌≤◌, ◌≡◌, length, take, IfOk, OnOk, IfSome};
ghost use Rattle.std.specs.Io.KnownBytes.{Appends};
ghost use Rattle.evaluation_spec.specs.Evaluation.{SnippetEvaluation};
ghost use Rattle.evaluation.specs.Outcomes.{outcome_of};
ghost use Rattle.select.specs.Session.{rest, Answered, Session};
ghost use Rattle.select.specs.Printed.{record_lines, node_lines, Prints};

use evaluation::Evaluation;
use limits::Program;
use std::io;
use std::io::{Read, Write};

// What a session answers: what the evaluation hands back, and the marks.
#[derive(Clone, Copy)]
struct Answer {
    record: Evaluation,
    marks: [u8; Program::MARKS],
}

// Evaluates the rule, which ends at `end`, on the document, which begins at `begin`. That `end` lies in the input is said as lending the rule asks for it.
fn evaluate_parts(
    input: &[u8],
    end: usize,
    begin: usize,
    scratch: &mut [u16],
    marks: &mut [u8],
) -> Evaluation
    requires end_value { end ≡ length (take end input.now) }
    requires begin_in_bounds { begin ≤ length input.now }
    ensures { SnippetEvaluation (rest begin input.now) (take end input.now) scratch.old marks.old (outcome_of result) scratch.new marks.new }
{
    evaluation::evaluate_snippets(&input[begin..], &input[..end], scratch, marks)
}

// Evaluates an input; one that is too long counts as a document that is.
fn evaluate_input(input: &[u8], scratch: &mut [u16], marks: &mut [u8]) -> Evaluation
    ensures { Answered input.now scratch.old marks.old (outcome_of result) scratch.new marks.new }
{
    if streams::is_longer(input) {
        return Evaluation {
            number: 1,
            place: 0,
            selected: 0,
            snippets: 0,
        };
    }
    let bounds = streams::split(input);
    evaluate_parts(input, bounds.rule, bounds.document, scratch, marks)
}

// Lends words and marks, all of them 0, so that every mark that is set afterwards is one of a node.
fn session(input: &[u8]) -> Answer
    ensures { Session input.now (outcome_of result.record) result.marks }
{
    let mut scratch = [0u16; Program::WORDS];
    let mut marks = [0u8; Program::MARKS];
    let record = evaluate_input(input, &mut scratch, &mut marks);
    Answer { record, marks }
}

// Reads until the buffer is full or the input ends, and tells how many bytes came.
fn read_full<R: Read>(reader: &mut R, buffer: &mut [u8]) -> io::Result<usize>
    ensures bound { IfOk result (λ n. n ≤ length buffer.new) }
    ensures bytes { IfOk result (λ n. IfSome (R.remaining reader.old) (λ input. take n buffer.new ≡ take (length buffer.new) input)) }
{
    let mut filled = 0;
    while filled < buffer.len() {
        let count = reader.read(&mut buffer[filled..])?;
        if count == 0 {
            break;
        }
        filled += count;
    }
    Ok(filled)
}

// Writes the four lines that are always there.
fn write_record<W: Write>(out: &mut W, outcome: Evaluation) -> io::Result<()>
    ensures { OnOk result (Appends (W.contents out.old) (W.contents out.new) (record_lines (outcome_of outcome))) }
{
    writeln!(out, "number={}", outcome.number)?;
    writeln!(out, "place={}", outcome.place)?;
    writeln!(out, "selected={}", outcome.selected)?;
    writeln!(out, "snippets={}", outcome.snippets)
}

// Writes the lines of the marked nodes, rising.
fn write_nodes<W: Write>(out: &mut W, marks: &[u8]) -> io::Result<()>
    ensures { OnOk result (Appends (W.contents out.old) (W.contents out.new) (node_lines 0 marks.now)) }
{
    let mut node = streams::next_marked(marks, 0);
    while node < marks.len() {
        writeln!(out, "node={node}")?;
        node = streams::next_marked(marks, node + 1);
    }
    Ok(())
}

// Reads one byte more than an input may have, so that a longer one shows, and writes what the session answers.
fn run<R: Read, W: Write>(reader: &mut R, out: &mut W) -> io::Result<()>
    ensures { OnOk result (IfSome (R.remaining reader.old) (λ input. Prints input (W.contents out.old) (W.contents out.new))) }
{
    let mut input = [0u8; Program::MAX_INPUT + 1];
    let length = read_full(reader, &mut input)?;
    let answer = session(&input[..length]);
    write_record(out, answer.record)?;
    write_nodes(out, &answer.marks)
}

// A read or a write that fails ends the program with its error.
fn main(rt: HostRuntime) -> io::Result<()> {
    run(&mut rt.stdin(), &mut rt.stdout())
}
