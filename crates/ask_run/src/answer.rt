// Questions and their answers.
ghost use Rattle.std.specs.Prelude.{◌≡◌, ◌≢◌, ◌↔◌};
ghost use Rattle.std.specs.Io.KnownBytes.{Appends};
ghost use Rattle.outside.specs.Causes.{Rose};
ghost use Rattle.outside.specs.Bytes.{AppendsFront};
ghost use Rattle.named_matroids.specs.Names.{named_by};
ghost use Rattle.ask_formats.specs.Question.{Question, Asks, MayAsk, MayBeNamed, MayBeSought};
ghost use Rattle.ask_formats.specs.Question.Question.{OverName, OverForm};
ghost use Rattle.ask_formats.specs.Answer.{IsAnswer, IsCutAnswer, Answers};
ghost use Rattle.ask_run.specs.Texts.{texts_of};
ghost use Rattle.ask_run.specs.Questions.{question_of};

use crate::line::matrix_line;
use crate::question::{Asked, asked_in};
use ask_formats::AskStatus;
use dual_form::dual_of;
use field_tables::Field;
use lister::{Line, form_text};
use matroid_theory::Mode;
use named_matroids::MinorItem;
use outside::{Sink, put};
use product_rep::Rep;
use represent::{named_matroids_begin_with_base, represent, represent_minor};

/// Writes the line that answers a question to the sink. The words are those of the command line, without the program's name:
/// `dual`, and a standard representation whose factors agree, which has one to six columns more than rows; or `over`, the order
/// of a field, and a matroid: `name` and its name, of a rank from 1 to 6, or `form` and such a representation, which may have
/// any number of columns up to 16. No memory is taken.
pub fn ask<K: Sink>(words: &[String], sink: &mut K) -> AskStatus
    // Words that ask nothing, and no others, are refused.
    ensures usage { (result ≡ AskStatus.Usage) ↔ ((question : Question) → Asks (texts_of words.now) question → ⊥) }
    ensures usage_alone { result ≡ AskStatus.Usage → sink.new ≡ sink.old }
    ensures write_fault { result ≡ AskStatus.WriteFault →
        Answers (texts_of words.now) (K.held sink.old) (K.held sink.new) IsCutAnswer × Rose (K.faults sink.old) (K.faults sink.new) }
    ensures done { result ≡ AskStatus.Done →
        Answers (texts_of words.now) (K.held sink.old) (K.held sink.new) IsAnswer × (K.faults sink.new ≡ K.faults sink.old) }
    // Nothing else is answered to a question.
    ensures complete { (question : Question) → Asks (texts_of words.now) question →
        (Rose (K.faults sink.old) (K.faults sink.new) → ⊥) → result ≡ AskStatus.Done }
{
    match asked_in(words) {
        Some(asked) => write_line(sink, answer_line(&asked).as_slice()),
        None => AskStatus::Usage,
    }
}

/// The line that answers the question.
fn answer_line(asked: &Asked) -> Line
    requires { MayAsk (question_of asked.now) }
    ensures { IsAnswer (question_of asked.now) result.items }
{
    match asked {
        Asked::Dual(rep) => form_text(&dual_of(rep, Mode::Linear)),
        Asked::OverName(field, item) => name_line(*field, item),
        Asked::OverForm(field, rep) => rep_line(*field, rep),
    }
}

/// The line of the least matrix over the field for the matroid that has a name.
fn name_line(field: Field, item: &MinorItem) -> Line
    requires { MayBeSought (named_by item.now.spelling) }
    ensures { IsAnswer (OverName field (named_by item.now.spelling)) result.items }
{
    item.laws();
    named_matroids_begin_with_base();
    matrix_line(&represent_minor(item.minor(), field))
}

/// The line of the least matrix over the field for the matroid of the representation.
fn rep_line(field: Field, rep: &Rep) -> Line
    requires { MayBeNamed rep.now }
    ensures { IsAnswer (OverForm field rep.now) result.items }
{
    matrix_line(&represent(rep, field))
}

/// Writes a line, and says how that ended.
fn write_line<K: Sink>(sink: &mut K, line: &[u8]) -> AskStatus
    ensures usage { result ≢ AskStatus.Usage }
    ensures write_fault { result ≡ AskStatus.WriteFault →
        AppendsFront (K.held sink.old) (K.held sink.new) line.now × Rose (K.faults sink.old) (K.faults sink.new) }
    ensures done { result ≡ AskStatus.Done →
        Appends (K.held sink.old) (K.held sink.new) line.now × (K.faults sink.new ≡ K.faults sink.old) }
{
    match put(sink, line) {
        Ok(()) => AskStatus::Done,
        Err(_) => AskStatus::WriteFault,
    }
}
