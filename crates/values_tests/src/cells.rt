use values::cells::{NULL_CELL, key_word};
use values::number::{Number, TooLarge};
use values::types::{Kind, Value};
use values::word::{Word, WordTooLong};

const NULL: u64 = NULL_CELL;

const LARGEST: u64 = 0x7fff_ffff_ffff_ffff;

const FIRST_WORD: u64 = 0x8000_0000_0000_0000;

const LAST_WORD: u64 = 0x80ff_ffff_ffff_ffff;

// Each row: a word of a column, and the cells of what it stands for among numbers and among words.
#[test]
fn other_types_are_null(rt: HostRuntime) {
    let table = [
        (0, 0, NULL),
        (LARGEST, LARGEST, NULL),
        (FIRST_WORD, NULL, FIRST_WORD),
        (LAST_WORD, NULL, LAST_WORD),
        (LAST_WORD + 1, NULL, NULL),
        (NULL - 1, NULL, NULL),
        (NULL, NULL, NULL),
    ];
    for &(word, number, text) in &table {
        assert_eq!(rt; Value::number(word).to_cell(), number);
        assert_eq!(rt; Value::from_stored(Kind::Number, word).to_cell(), number);
        assert_eq!(rt; Value::from_stored(Kind::Word, word).to_cell(), text);
    }
}

#[test]
fn keys_and_values_have_one_order(rt: HostRuntime) {
    let ascending = [NULL, 0, 1, LARGEST, FIRST_WORD, LAST_WORD];
    for pair in ascending.windows(2) {
        let (a, b) = (pair[0], pair[1]);
        assert!(rt;
            key_word(a, false) < key_word(b, false) && key_word(b, true) < key_word(a, true)
        );
        let (x, y) = (Value::from_cell(a), Value::from_cell(b));
        assert!(rt; x < y && !(y < x) && x != y && x == Value::from_cell(a));
        assert!(rt; x.is_less(y) && !y.is_less(x) && !x.equals(y) && x.equals(x));
    }
}

#[test]
fn numbers_at_their_limits(rt: HostRuntime) {
    assert!(rt; Number::try_from(LARGEST).is_ok());
    assert_eq!(rt; Number::try_from(FIRST_WORD), Err(TooLarge(FIRST_WORD)));
    let last = LAST_WORD - FIRST_WORD;
    assert!(rt; Word::try_from(last).is_ok());
    assert_eq!(rt; Word::try_from(last + 1), Err(TooLarge(last + 1)));
}

// The number of a word, or that there is no such word.
fn word_number(bytes: &[u8]) -> Result<u64, WordTooLong> {
    Word::try_from(bytes).map(|word| word.number)
}

#[test]
fn words_of_seven_bytes_and_eight(rt: HostRuntime) {
    assert_eq!(rt; word_number(b"Trondhe"), Ok(0x54_726f_6e64_6865));
    assert_eq!(rt; word_number(b"Trondhei"), Err(WordTooLong));
    assert_eq!(rt; word_number(b""), Ok(0));
    let numbers = (word_number(b"ab"), word_number(b"ab\x01"));
    assert!(rt; matches!(numbers, (Ok(a), Ok(b)) if a < b));
}
