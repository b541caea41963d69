// Looks up values of short passes. Arguments come in threes, a node file, a history file and a questions file (specs/Questions.antt). One
// line for the history, after the questions file's name, and one a question: its value or its refusal. An unopenable file is empty; of a
// longer one the first 65,536 bytes are read.
#![tactic(auto)]

ghost use Rattle.std.specs.Prelude.{◌<◌, ◌≡◌};
ghost use Rattle.look_up.specs.LookUp.{look_up_of};
ghost use Rattle.look_ups.specs.Questions.{size_of, history_of, pairs_of, answer_of, values_in, values_from};

use answers::LookUpVerdict;
use files::{argument_count, argument_file, say_argument};
use look_up::look_up;
use numbers::{read_numbers, unsigned_at};
use std::rt::{Env, Files};

// Prints an answer. How many values it is, 1 or 0. Here and below a write that fails is passed over.
fn say_answer(rt: &impl Print, verdict: LookUpVerdict) -> usize
    ensures { result ≡ values_in verdict }
{
    match verdict {
        Ok(x) => {
            let _ = println!(rt; "value {x}");
            1
        }
        Err(refusal) => {
            report::say_verdict(rt, Err(refusal));
            0
        }
    }
}

// How many numbers a history file has: 8 bytes each, and at most 2,048, twice what a history of 16 instants and 64 inputs has.
fn size_of(bytes: &[u8]) -> usize
    ensures { result ≡ size_of bytes.now }
{
    (bytes.len() / 8).min(2048)
}

// The answer to a look-up in the history that a file has.
fn looked_up(
    node: &[u8],
    history: &[u8],
    count: usize,
    stream: usize,
    instant: usize,
) -> LookUpVerdict
    ensures { result ≡ look_up_of node.now count (history_of history.now) stream instant }
{
    let mut inputs = [0i64; 2048];
    read_numbers(history, &mut inputs);
    look_up(node, count, &inputs[..size_of(history)], stream, instant)
}

// Asks question i of a questions file and prints its line. How many values its answer is.
#[tactic(auto, unfolding(crate::specs::Questions::pairs_of))]
fn ask(rt: &impl Print, node: &[u8], history: &[u8], questions: &[u8], i: usize) -> usize
    requires { i < pairs_of questions.now }
    ensures { result ≡ values_in (answer_of node.now history.now questions.now i) }
{
    let count = unsigned_at(questions, 0) as usize;
    let stream = unsigned_at(questions, 2 * i + 1) as usize;
    let instant = unsigned_at(questions, 2 * i + 2) as usize;
    let _ = print!(rt; "stream {stream} instant {instant}: ");
    say_answer(rt, looked_up(node, history, count, stream, instant))
}

// How many questions a questions file has: two numbers each, after the first.
#[tactic(auto, unfolding(crate::specs::Questions::pairs_of))]
fn pairs_of(questions: &[u8]) -> usize
    ensures { result ≡ pairs_of questions.now }
{
    (questions.len() / 8).saturating_sub(1) / 2
}

// Asks each question of a questions file. How many of the answers are values.
fn ask_all(rt: &impl Print, node: &[u8], history: &[u8], questions: &[u8]) -> usize
    ensures { result ≡ values_from node.now history.now questions.now 0 (pairs_of questions.now) }
{
    let mut values = 0;
    for i in 0..pairs_of(questions) {
        values += ask(rt, node, history, questions, i);
    }
    values
}

// The three that arguments name. The first line has the count of instants and that of the inputs which were read.
fn ask_three(
    rt: &(impl Env + Files + Print),
    node_number: usize,
    history_number: usize,
    questions_number: usize,
) {
    let mut node = [0u8; 65536];
    let mut history = [0u8; 65536];
    let mut questions = [0u8; 65536];
    say_argument(rt, questions_number);
    let node = argument_file(rt, node_number, &mut node);
    let history = argument_file(rt, history_number, &mut history);
    let questions = argument_file(rt, questions_number, &mut questions);
    let instants = unsigned_at(questions, 0);
    let inputs = size_of(history);
    let _ = println!(rt; "instants {instants} inputs {inputs}");
    ask_all(rt, node, history, questions);
}

// Argument 0 is the program's own name. A last node file and history file without a questions file's name have no question; a last name
// alone is ignored.
fn main(rt: HostRuntime) {
    let threes = argument_count(&rt) / 3;
    for three in 0..threes {
        ask_three(&rt, 3 * three + 1, 3 * three + 2, 3 * three + 3);
    }
}
