ghost use Rattle.std.specs.Prelude.{◌≡◌, ◌≤◌, length, is_ok};
ghost use Rattle.meaning.specs.Base.{is_some};
ghost use Rattle.language_pieces.specs.Views.{ahead};
ghost use Rattle.language_expressions.specs.Views.{whole_expression};
ghost use Rattle.language_statements.specs.Statements.{step_of, OfExpression};
ghost use Rattle.language.specs.Questions.{reading_words};

use code::code::Code;
use language_expressions::reading::read_expression;
use language_pieces::faults::Fault;
use language_pieces::reader::Reader;
use language_statements::lists::finish;
use language_statements::views::*;

// Whether an expression is left.
// Whether the words are enough depends on the line that is read, so it is said at each call: no type's invariant can.
fn check_expression(reader: Reader, words: &mut [u64]) -> Result<(), Fault>
    requires { reading_words (length reader.line.now) ≤ length words.old }
    ensures { is_ok result ≡ is_some (whole_expression (ahead reader.entry)) }
{
    let (stack, code) = words.split_at_mut(16 * reader.line.len() + 45);
    let mut code = Code::new(code);
    read_expression(reader, stack, &mut code)
}

// Whether a step is whole: its lists and its expression.
pub fn check_step(step: Step, words: &mut [u64]) -> Result<(), Fault>
    requires { OfExpression (λ r. reading_words (length r.line.now) ≤ length words.old) step }
    ensures { is_ok result ≡ is_some (step_of step.entry) }
{
    match step {
        Step::Keep(expression) | Step::Make(_, expression) => check_expression(expression, words),
        Step::Pick(mut names) => finish(&mut names),
        Step::Order(mut keys) => finish(&mut keys),
        Step::Group(mut keys, mut aggregates) => {
            finish(&mut keys)?;
            finish(&mut aggregates)
        }
        Step::Join { .. } | Step::Take(_) | Step::Skip(_) | Step::Unite(_) | Step::Distinct => Ok(
            (),
        ),
    }
}
