// What is read, planned and answered, and why it isn't, is used when the text is gone.
use reference::answering::{Answer, Refusal};
use reference::ask;
use reference_planning::faults::NotSound;
use reference_planning::plan;
use reference_planning::plans::Plan;
use reference_reading::faults::NotAQuestion;
use reference_reading::questions::Question;
use reference_reading::read;
use std::alloc::{AllocError, Global};
use std::test::*;

const TEXT: &str = "table t 0 a num 0\nfrom t\nmake b = a\n";

fn read_once(heap: Global, text: &str) -> Result<Result<Question, NotAQuestion>, AllocError> {
    let text = String::from_str(heap, text)?;
    Ok(read(heap, text.as_bytes()))
}

fn plan_once(
    heap: Global,
    text: &str,
    question: &Question,
    border: u64,
) -> Result<Result<Plan, NotSound>, AllocError> {
    let text = String::from_str(heap, text)?;
    Ok(plan(heap, text.as_bytes(), question, border))
}

fn ask_once(heap: Global, text: &str) -> Result<Result<Answer, Refusal>, AllocError> {
    let text = String::from_str(heap, text)?;
    Ok(ask(heap, text.as_bytes(), &[]))
}

#[test]
fn answers_outlive_the_text(rt: HostRuntime) -> Result<(), Fail> {
    let heap = rt.alloc();
    let Ok(question) = read_once(heap, TEXT)? else {
        return Err(Fail::new("a question wasn't read"));
    };
    let Ok(plan) = plan_once(heap, TEXT, &question, 0)? else {
        return Err(Fail::new("a question wasn't planned"));
    };
    let Ok(answer) = ask_once(heap, TEXT)? else {
        return Err(Fail::new("a question wasn't answered"));
    };
    assert_eq!(rt; question.steps.len(), 1);
    assert_eq!(rt; plan.columns.all.len(), 2);
    assert_eq!(rt; answer.columns.all.len(), 2);
    assert_eq!(rt; answer.rows.len(), 0);
    Ok(())
}

#[test]
fn refusals_outlive_the_text(rt: HostRuntime) -> Result<(), Fail> {
    let heap = rt.alloc();
    let Err(Refusal::NotAQuestion(unread)) = ask_once(heap, "table t 0 a num 0\nkeep a\n")? else {
        return Err(Fail::new("a text without 'from' was read"));
    };
    let Err(Refusal::NotSound(unsound)) = ask_once(heap, "table t 0 a num 0\nfrom t\npick b\n")?
    else {
        return Err(Fail::new("a column that isn't there was picked"));
    };
    assert_eq!(rt; unread.line, 2);
    assert_eq!(rt; unsound.line, 3);
    Ok(())
}
