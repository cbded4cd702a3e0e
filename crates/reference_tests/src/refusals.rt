// Every reason for a refusal: a question on each line, its own lines parted by semicolons, and its message.
use crate::tables::*;
use std::alloc::{AllocError, Global};
use std::fmt::Write;
use std::process::Abort;
use std::test::*;

const NOT_QUESTIONS: &str = "
 => line 1: the text ends without 'from'
# only a note; ; => line 2: the text ends without 'from'
table t 1 x num 0; => line 1: the text ends without 'from'
hello => line 1: 'table' or 'from' expected, 'hello' found
keep x => line 1: 'table' or 'from' expected, 'keep' found
from => line 1: a name expected, the line ends
from take => line 1: a name expected, 'take' found
from 't' => line 1: a name expected, ''t'' found
from t u => line 1: the end of the line expected, 'u' found
from 1t => line 1: '1t' is neither a name nor a number
table t x => line 1: a number expected, 'x' found
table t 1 x int 0 => line 1: 'num' or 'word' expected, 'int' found
table t 1 x num => line 1: a number expected, the line ends
table t 9223372036854775808 => line 1: '9223372036854775808' isn't below 2^63
from t; table t 1 x num 0 => line 2: a step expected, 'table' found
from t; from t => line 2: a step expected, 'from' found
from t; ;  kep x => line 3: a step expected, 'kep' found
from t; keep => line 2: a value expected, the line ends
from t; keep 'abcdefgh' => line 2: ''abcdefgh'' has more than seven bytes
from t; keep 'abc => line 2: a quote isn't closed
from t; keep $ => line 2: '$' has no meaning here
from t; keep \u{7} => line 2: '\\x07' has no meaning here
from t; keep (x => line 2: ')' expected, the line ends
from t; keep x) => line 2: an operator or the end of the expression expected, ')' found
from t; keep if x then y => line 2: 'else' expected, the line ends
from t; keep if x else y => line 2: 'then' expected, 'else' found
from t; keep 1 + if x then 1 else 2 => line 2: a value expected, 'if' found
from t; keep x == not y => line 2: a value expected, 'not' found
from t; keep x < y < z => line 2: an operator or the end of the expression expected, '<' found
from t; keep none x => line 2: '(', 'num' or 'word' expected, 'x' found
from t; make x e => line 2: '=' expected, 'e' found
from t; left t on x = y => line 2: 'join' expected, 't' found
from t; group x n = count => line 2: a name expected, '=' found
from t; group x => line 2: ':' expected, the line ends
from t; group x : n = total x => line 2: 'sum', 'count', 'min', 'max' or 'first' expected, 'total' found
from t; join u of x = y => line 2: 'on' expected, 'of' found
from t; group x : n = count m = count => line 2: ',' or the end of the line expected, 'm' found
";

const TABLES: &str = "table t 1 x num 0 w word 1\ntable s 1 v word 1 y num 0\n";

const UNSOUND: &str = "
from u => line 3: no table 'u'
table t 1 x num 0; from t => line 3: a second table is named 't'
table u 1; from t => line 3: there are no columns
table u 1 x num 0 x num 0; from t => line 3: a second column is named 'x'
table u 1 x num 2; from t => line 3: column 'x' ends behind the file's 2 pages
table u 513 x num 1; from t => line 3: column 'x' ends behind the file's 2 pages
table u 0 x num 3; from t => line 3: column 'x' ends behind the file's 2 pages
from t; keep w => line 4: 'keep' wants a number
from t; keep z => line 4: no column 'z' behind 'from t'
from t; pick x w # two; keep z => line 5: no column 'z' behind 'pick x w'
from t; make z = x + w => line 4: '+' wants numbers
from t; make z = x == w => line 4: '==' wants two values of one type
from t; make z = not w => line 4: 'not' wants a number
from t; make z = if w then 1 else 2 => line 4: 'if' wants a number
from t; make z = if x then 1 else w => line 4: 'else' wants two values of one type
from t; make x = 1 => line 4: a second column is named 'x'
from t; pick => line 4: there are no columns
from t; pick x x => line 4: a second column is named 'x'
from t; join v on x = k => line 4: no table 'v'
from t; join s on x = k => line 4: no column 'k' in table 's'
from t; join s on x = v => line 4: columns 'x' and 'v' differ in type
from t; join t on x = x => line 4: a second column is named 'x'
from t; group x : s = sum w => line 4: 'sum' wants numbers, not the words of column 'w'
from t; group x : x = count => line 4: a second column is named 'x'
from t; order z => line 4: no column 'z' behind 'from t'
from t; unite s => line 4: table 's' has other columns than stand behind 'from t'
";

// A question's text, a line for each part.
fn lines(heap: Global, text: &str) -> Result<String, AllocError> {
    text.chars()
        .map(|c| if c == ';' { '\n' } else { c })
        .collect(heap)
}

// How many cases there are, all of which come to what they say.
fn expect_list(
    rt: &impl Abort,
    pages: &PageFile,
    head: &str,
    verdict: &str,
    list: &str,
) -> Result<usize, Fail> {
    let heap = pages.heap();
    let cases: Vec<(&str, &str)> = list
        .lines()
        .filter_map(|case| case.split_once(" => "))
        .collect(heap)?;
    for (text, reason) in cases.iter() {
        let steps = lines(heap, *text)?;
        let line = format!(in heap; "ask: {verdict}: {reason}")?;
        pages.expect_all(rt, head, &[(steps.as_str(), line.as_str())])?;
    }
    Ok(cases.len())
}

#[test]
fn not_questions(rt: HostRuntime) -> Result<(), Fail> {
    let pages = PageFile::new(rt.alloc());
    assert_eq!(rt;
        expect_list(&rt, &pages, "", "not a question", NOT_QUESTIONS)?,
        37
    );
    Ok(())
}

#[test]
fn unsound_questions(rt: HostRuntime) -> Result<(), Fail> {
    let mut pages = PageFile::new(rt.alloc());
    pages.column(&[1])?;
    pages.column(&[word(b"a")])?;
    assert_eq!(rt; expect_list(&rt, &pages, TABLES, "not sound", UNSOUND)?, 26);
    Ok(())
}

// A table of 65 columns, all on one page.
#[test]
fn too_many_columns(rt: HostRuntime) -> Result<(), Fail> {
    let heap = rt.alloc();
    let mut pages = PageFile::new(heap);
    pages.column(&[1])?;
    let mut text = String::from_str(heap, "table t 1")?;
    for i in 0..65u32 {
        write!(text, " c{i} num 0")?;
    }
    text.push_str("\nfrom t")?;
    pages.expect(
        &rt,
        text.as_str(),
        "ask: not sound: line 1: 65 columns, more than 64",
    )
}
