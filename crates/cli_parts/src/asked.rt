//! What the program is asked for in place of a command: help, or its version.
ghost use Rattle.std.specs.Prelude.{◌≡◌, ◌⊎◌, IfSome, IsNone, MatchOption, None, Some, string_bytes};
ghost use Rattle.notes.specs.declared.note.Note.TheVariants.{Fine, WriteFault};
ghost use Rattle.cli_parts.specs.declared.help.Question.{Question};
ghost use Rattle.cli_parts.specs.Ending.{note_in};
ghost use Rattle.cli_parts.specs.Help.{asks, asks_nothing};

use crate::arguments::Arguments;
use crate::help::{Question, example_of, question_in, question_of};
use crate::report::print_note;
use crate::status::Ending;
use notes::Note;

// What the program is asked for: by the word in FILE's place, or else by the first of the words that asks.
fn question_to(arguments: &Arguments) -> Option<Question>
    ensures some { IfSome result (λ question. asks (string_bytes arguments.now.file) arguments.now.words.items question) }
    ensures none { result ≡ None → asks_nothing (string_bytes arguments.now.file) arguments.now.words.items }
{
    match question_of(&arguments.file) {
        Some(question) => Some(question),
        None => question_in(&arguments.words),
    }
}

// An example of the command that is named, where help is asked for. It may stand in FILE's place.
fn example_for(arguments: &Arguments, question: Question) -> Option<&'static str> {
    if question == Question::Version {
        return None;
    }
    let named = match arguments.words.first() {
        Some(word) => example_of(word),
        None => None,
    };
    match named {
        Some(example) => Some(example),
        None => example_of(&arguments.file),
    }
}

// Prints the answer, after an example where the words are those of a command. Whether standard output took it.
fn print_answer(rt: &impl Print, arguments: &Arguments, question: Question) -> bool {
    let answer = question.answer();
    match example_for(arguments, question) {
        Some(example) => println!(rt; "Example:\n  {example}\n\n{answer}").is_ok(),
        None => println!(rt; "{answer}").is_ok(),
    }
}

/// Prints the page of help or the version on standard output, where the program is asked for one, and says how that ended: well, or with a
/// write that failed, which standard error names. `None`: nothing is asked, and nothing was printed.
pub fn answer(
    rt: &impl Print,
    errors: &(impl AllocGlobal + Eprint),
    arguments: &Arguments,
) -> Option<Ending>
    ensures asked { IfSome result (λ ending. (question : Question) × asks (string_bytes arguments.now.file) arguments.now.words.items question) }
    ensures ended { IfSome result (λ ending. (note_in ending ≡ Fine) ⊎ (note_in ending ≡ WriteFault)) }
    ensures silent { IsNone result → asks_nothing (string_bytes arguments.now.file) arguments.now.words.items }
{
    let question = question_to(arguments)?;
    if print_answer(rt, arguments, question) {
        return Some(Ending::Noted(Note::Fine));
    }
    print_note(errors, Note::WriteFault);
    Some(Ending::Noted(Note::WriteFault))
}
