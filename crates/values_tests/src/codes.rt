ghost use Rattle.std.specs.Prelude.{◌≡◌, ◌+◌, ◌-◌, ◌*◌, ◌≤◌, length};

use code::code::Code;
use code::instruction::Instruction;
use code_columns::named::columns_named;
use code_columns::project::project;
use column_set::ColumnSet;
use expressions::evaluate::evaluate;
use expressions::typing::type_of;
use values::cells::NULL_CELL;
use values::types::{Arithmetic, Kind, Operator};

const NULL: u64 = NULL_CELL;

// late < 20 and day < 2 or none(late), over columns late and day.
const CONDITION: [u64; 20] = [
    4, 0, 0, 20, 12, 0, 4, 1, 0, 2, 12, 0, 14, 0, 4, 0, 17, 0, 15, 0,
];

const A: u64 = 0x8061_0000_0000_0000;

// if late then 'a' else none word, over the same columns.
const CHOICE: [u64; 8] = [4, 0, 1, 0x61_0000_0000_0000, 3, 0, 18, 0];

// The cell of an expression's value on a row.
fn value_on(code: &[u64], late: u64, day: u64) -> u64
    requires { length code.now ≤ 20 }
{
    let mut stack = [0; 10];
    evaluate(code, &[late, day], &mut stack).to_cell()
}

// Each row: the cells of late and day, and of the two expressions.
#[test]
fn values_on_rows(rt: HostRuntime) {
    let table = [
        (5, 1, 1, A),
        (NULL, 1, 1, NULL),
        (40, 2, 0, A),
        (0, 2, 0, NULL),
        (12, NULL, NULL, A),
        (40, NULL, 0, A),
    ];
    for &(late, day, condition, choice) in &table {
        assert_eq!(rt; value_on(&CONDITION, late, day), condition);
        assert_eq!(rt; value_on(&CHOICE, late, day), choice);
    }
}

// The type of an expression over columns of which these are words.
fn type_on(code: &[u64], word_columns: ColumnSet) -> Option<Kind>
    requires { length code.now ≤ 20 }
{
    let mut stack = [0; 10];
    type_of(code, word_columns, &mut stack)
}

#[test]
fn types_and_columns(rt: HostRuntime) {
    let numbers = ColumnSet::empty(2);
    assert_eq!(rt; type_on(&CONDITION, numbers), Some(Kind::Number));
    assert_eq!(rt; type_on(&CHOICE, numbers), Some(Kind::Word));
    assert_eq!(rt; type_on(&CONDITION, ColumnSet::all(2)), None);
    assert_eq!(rt; type_on(&CONDITION, ColumnSet::empty(1)), None);
    let named = columns_named(&CHOICE, 2);
    assert!(rt; columns_named(&CONDITION, 3).len() == 2 && named.contains(0) && !named.contains(1));
}

#[test]
fn projected_code(rt: HostRuntime) {
    let mut code = [4, 2, 4, 5, 6, 0];
    let mut used = ColumnSet::empty(6);
    used.insert(2);
    used.insert(5);
    project(&mut code, used);
    assert!(rt; code == [4, 0, 4, 1, 6, 0]);
}

fn repeat(code: &mut Code, instruction: Instruction, times: usize)
    requires { 2 * (length code.old.instructions + times) ≤ code.old.size }
    ensures length { code.new.size ≡ code.old.size }
    ensures count { length code.new.instructions ≡ length code.old.instructions + times }
{
    for _turn in 0..times {
        code.push(instruction);
    }
}

#[test]
fn deep_nesting(rt: HostRuntime) {
    let mut code_words = [0; 40_004];
    let mut stack = [0; 20_002];
    let mut code = Code::new(&mut code_words);
    repeat(&mut code, Instruction::Column(0), 10_001);
    repeat(
        &mut code,
        Instruction::Operator(Operator::Arithmetic(Arithmetic::Add)),
        10_000,
    );
    repeat(&mut code, Instruction::Not, 1);
    assert_eq!(rt; evaluate(code.words(), &[3], &mut stack).to_cell(), 0);
}
