use std::process::Abort;
use values::cells::NULL_CELL;
use values::types::{Arithmetic, Comparison, Logic, Operator, Truth, Value};

const NULL: u64 = NULL_CELL;

const LARGEST: u64 = 0x7fff_ffff_ffff_ffff;

const A_WORD: u64 = 0x8000_0000_0000_0001;

const ADD: Operator = Operator::Arithmetic(Arithmetic::Add);

const SUBTRACT: Operator = Operator::Arithmetic(Arithmetic::Subtract);

const MULTIPLY: Operator = Operator::Arithmetic(Arithmetic::Multiply);

const DIVIDE: Operator = Operator::Arithmetic(Arithmetic::Divide);

const REMAINDER: Operator = Operator::Arithmetic(Arithmetic::Remainder);

const EQUAL: Operator = Operator::Comparison(Comparison::Equal);

const NOT_EQUAL: Operator = Operator::Comparison(Comparison::NotEqual);

const LESS: Operator = Operator::Comparison(Comparison::Less);

const LESS_OR_EQUAL: Operator = Operator::Comparison(Comparison::LessOrEqual);

const AND: Operator = Operator::Logic(Logic::And);

const OR: Operator = Operator::Logic(Logic::Or);

// Each row: an operator, the cells of two values, and of what it comes to on them.
fn check_table(rt: &impl Abort, table: &[(Operator, u64, u64, u64)]) {
    for &(operator, a, b, expected) in table {
        assert_eq!(rt;
            Value::from_cell(a)
                .apply(operator, Value::from_cell(b))
                .to_cell(),
            expected
        );
    }
}

#[test]
fn truth_tables(rt: HostRuntime) {
    check_table(
        &rt,
        &[
            (AND, 2, 1, 1),
            (AND, 1, 0, 0),
            (AND, 1, NULL, NULL),
            (AND, 0, 1, 0),
            (AND, 0, 0, 0),
            (AND, 0, NULL, 0),
            (AND, NULL, 1, NULL),
            (AND, NULL, 0, 0),
            (AND, NULL, NULL, NULL),
            (OR, 2, 1, 1),
            (OR, 1, 0, 1),
            (OR, 1, NULL, 1),
            (OR, 0, 1, 1),
            (OR, 0, 0, 0),
            (OR, 0, NULL, NULL),
            (OR, NULL, 1, 1),
            (OR, NULL, 0, NULL),
            (OR, NULL, NULL, NULL),
        ],
    );
}

#[test]
fn arithmetic_at_the_limits(rt: HostRuntime) {
    check_table(
        &rt,
        &[
            (ADD, LARGEST, 0, LARGEST),
            (ADD, LARGEST, 1, NULL),
            (ADD, LARGEST, LARGEST, NULL),
            (ADD, 1, NULL, NULL),
            (ADD, 1, A_WORD, NULL),
            (SUBTRACT, 5, 5, 0),
            (SUBTRACT, 5, 6, NULL),
            (SUBTRACT, NULL, 1, NULL),
            (MULTIPLY, LARGEST, 1, LARGEST),
            (MULTIPLY, 0x1_0000_0000, 0x8000_0000, NULL),
            (MULTIPLY, 0x1_0000_0000, 0x4000_0000, 0x4000_0000_0000_0000),
            (MULTIPLY, LARGEST, LARGEST, NULL),
            (DIVIDE, 7, 2, 3),
            (DIVIDE, 7, 0, NULL),
            (DIVIDE, 0, 0, NULL),
            (REMAINDER, 7, 2, 1),
            (REMAINDER, 7, 0, NULL),
        ],
    );
}

#[test]
fn comparisons(rt: HostRuntime) {
    check_table(
        &rt,
        &[
            (EQUAL, 3, 3, 1),
            (EQUAL, 3, 4, 0),
            (EQUAL, A_WORD, A_WORD, 1),
            (EQUAL, NULL, NULL, NULL),
            (EQUAL, 1, A_WORD, NULL),
            (NOT_EQUAL, 3, 3, 0),
            (NOT_EQUAL, A_WORD, A_WORD + 1, 1),
            (NOT_EQUAL, NULL, 3, NULL),
            (LESS, 3, 3, 0),
            (LESS, A_WORD, A_WORD + 1, 1),
            (LESS, 3, NULL, NULL),
            (LESS_OR_EQUAL, 3, 3, 1),
            (LESS_OR_EQUAL, A_WORD + 1, A_WORD, 0),
            (LESS_OR_EQUAL, NULL, 3, NULL),
        ],
    );
}

// Each row: the cells of a value, of its negation, and of the choice between 1 and 2 by it.
#[test]
fn negations_and_choices(rt: HostRuntime) {
    for &(a, not, chosen) in &[
        (7, 0, 1),
        (0, 1, 2),
        (NULL, NULL, NULL),
        (A_WORD, NULL, NULL),
    ] {
        let truth = Truth::from(Value::from_cell(a));
        assert_eq!(rt; Value::from(!truth).to_cell(), not);
        assert_eq!(rt;
            truth.select(Value::number(1), Value::number(2)).to_cell(),
            chosen
        );
    }
}

// Each row: the cells of two values, of their sum, the lesser and the larger, null left out.
#[test]
fn sums_and_bests(rt: HostRuntime) {
    let table = [
        (2, 3, 5, 2, 3),
        (2, NULL, 2, 2, 2),
        (NULL, 3, NULL, 3, 3),
        (LARGEST, 1, NULL, 1, LARGEST),
        (NULL, NULL, NULL, NULL, NULL),
    ];
    for &(a, b, sum, min, max) in &table {
        let (a, b) = (Value::from_cell(a), Value::from_cell(b));
        assert_eq!(rt; a.add_to_sum(b).to_cell(), sum);
        assert!(rt; a.min(b).to_cell() == min && a.max(b).to_cell() == max);
    }
}
