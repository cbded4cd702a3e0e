// Texts that are deep or long.
use crate::tables::*;
use std::alloc::{AllocError, Global};
use std::iter;
use std::test::*;

fn repeat(text: &mut String, part: &str, times: usize) -> Result<(), AllocError> {
    text.extend(iter::repeat_n(part, times))
}

fn one_column(heap: Global) -> Result<PageFile, AllocError> {
    let mut pages = PageFile::new(heap);
    pages.column(&[3, 0])?;
    Ok(pages)
}

#[test]
fn nested_parentheses(rt: HostRuntime) -> Result<(), Fail> {
    let heap = rt.alloc();
    let pages = one_column(heap)?;
    let mut text = String::from_str(heap, "table t 2 x num 0\nfrom t\nkeep ")?;
    repeat(&mut text, "(", 100_000)?;
    text.push_str("x")?;
    repeat(&mut text, ")", 100_000)?;
    pages.expect(&rt, text.as_str(), "3\n")?;
    text.push(')')?;
    pages.expect(
        &rt,
        text.as_str(),
        "ask: not a question: line 3: an operator or the end of the expression expected, ')' found",
    )
}

#[test]
fn nested_nots_and_choices(rt: HostRuntime) -> Result<(), Fail> {
    let heap = rt.alloc();
    let pages = one_column(heap)?;
    let mut text = String::from_str(heap, "table t 2 x num 0\nfrom t\nkeep ")?;
    repeat(&mut text, "not ", 10_001)?;
    text.push_str("x\nmake y = ")?;
    repeat(&mut text, "if x then 1 else ", 10_000)?;
    text.push_str("2")?;
    pages.expect(&rt, text.as_str(), "0,2\n")
}

#[test]
fn long_line(rt: HostRuntime) -> Result<(), Fail> {
    let heap = rt.alloc();
    let pages = one_column(heap)?;
    let mut text = String::from_str(heap, "table t 2 x num 0\nfrom t\nmake y = x")?;
    repeat(&mut text, " + 1 ", 200_000)?;
    pages.expect(&rt, text.as_str(), "3,200003\n0,200000\n")
}
