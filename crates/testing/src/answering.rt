//! Scripts of inputs and answers, `INPUT = ANSWER` a line.
use std::alloc::Global;
use std::test::Fail;

/// A call that scripts make.
pub trait Answers {
    /// Appends the answer to an input.
    fn answer(&self, alloc: Global, told: &mut String, input: &str) -> Result<(), Fail>;
}

/// Appends the line with the call's answer instead of the expected one; `nothing` stands for an
/// empty answer.
fn answer_line(
    alloc: Global,
    told: &mut String,
    call: &impl Answers,
    line: &str,
) -> Result<(), Fail> {
    let (input, _) = line.split_once(" = ").ok_or("a line without an answer")?;
    told.push_str(input)?;
    told.push_str(" = ")?;
    let before = told.len();
    call.answer(alloc, told, input)?;
    if told.len() == before {
        told.push_str("nothing")?;
    }
    told.push('\n')?;
    Ok(())
}

/// The script with the call's answers instead of the expected ones.
pub fn answered(alloc: Global, call: &impl Answers, script: &str) -> Result<String, Fail> {
    let mut told = String::new(alloc);
    for line in script.lines() {
        answer_line(alloc, &mut told, call, line)?;
    }
    Ok(told)
}
