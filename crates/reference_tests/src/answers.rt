// Rules that are easily broken: each test fails when its rule is.
use crate::tables::*;
use std::alloc::{AllocError, Global};
use std::test::*;

// Tables a and b, of a key that may be null and a number.
fn keyed(heap: Global) -> Result<PageFile, AllocError> {
    let mut pages = PageFile::new(heap);
    pages.column(&[NULL, 1, 2, NULL])?;
    pages.column(&[10, 11, 12, 13])?;
    pages.column(&[NULL, 1, 1])?;
    pages.column(&[20, 21, 22])?;
    Ok(pages)
}

#[test]
fn null_key_joins_nothing(rt: HostRuntime) -> Result<(), Fail> {
    let pages = keyed(rt.alloc())?;
    pages.expect(
        &rt,
        "table a 4 k num 0 x num 1\ntable b 3 j num 2 y num 3\nfrom a\njoin b on k = j\n",
        "1,11,1,21\n1,11,1,22\n",
    )
}

#[test]
fn left_row_stays_once(rt: HostRuntime) -> Result<(), Fail> {
    let pages = keyed(rt.alloc())?;
    pages.expect(
        &rt,
        "table a 4 k num 0 x num 1\ntable b 3 j num 2 y num 3\nfrom a\nleft join b on k = j\n",
        ",10,,\n1,11,1,21\n1,11,1,22\n2,12,,\n,13,,\n",
    )
}

#[test]
fn nulls_are_one_group(rt: HostRuntime) -> Result<(), Fail> {
    let pages = keyed(rt.alloc())?;
    pages.expect(
        &rt,
        "table a 4 k num 0 x num 1\nfrom a\ngroup k : n = count, s = sum x, l = min x, f = first k\n",
        ",2,23,10,\n1,1,11,11,1\n2,1,12,12,2\n",
    )
}

#[test]
fn large_sum_stays_null(rt: HostRuntime) -> Result<(), Fail> {
    let mut pages = PageFile::new(rt.alloc());
    let quarter = 0x4000_0000_0000_0000;
    pages.column(&[1, 1, 1, 1, 1, 2, 2, 2])?;
    pages.column(&[
        quarter,
        quarter,
        quarter,
        quarter,
        5,
        0x7fff_ffff_ffff_fffe,
        NULL,
        1,
    ])?;
    pages.expect(
        &rt,
        "table t 8 k num 0 x num 1\nfrom t\ngroup k : s = sum x",
        "1,\n2,9223372036854775807\n",
    )
}

#[test]
fn sums_and_bests_leave_nulls_out(rt: HostRuntime) -> Result<(), Fail> {
    let mut pages = PageFile::new(rt.alloc());
    pages.column(&[NULL, 7, NULL, 3])?;
    pages.column(&[NULL, NULL, NULL, NULL])?;
    pages.expect(
        &rt,
        "table t 4 x num 0 y num 1\nfrom t\ngroup : s = sum x, l = min x, m = max x, f = first x, z = sum y, w = max y\n",
        "10,3,7,,0,\n",
    )
}

#[test]
fn order_and_take_stay_apart(rt: HostRuntime) -> Result<(), Fail> {
    let mut pages = PageFile::new(rt.alloc());
    pages.column(&[3, 1, NULL, 2, 1])?;
    pages.column(&[0, 1, 2, 3, 4])?;
    pages.expect_all(
        &rt,
        "table t 5 x num 0 i num 1\nfrom t\n",
        &[
            ("take 2\norder x", "1,1\n3,0\n"),
            ("order x\ntake 2", ",2\n1,1\n"),
            ("order -x", "3,0\n2,3\n1,1\n1,4\n,2\n"),
            ("order -x -i x\nskip 2", "1,4\n1,1\n,2\n"),
            ("order\nskip 4", "1,4\n"),
        ],
    )
}

#[test]
fn unused_column_is_harmless(rt: HostRuntime) -> Result<(), Fail> {
    let mut pages = PageFile::new(rt.alloc());
    pages.column(&[4, 0, 2])?;
    pages.expect(
        &rt,
        "table t 3 x num 0\nfrom t\nmake y = 8 / x\nmake z = y / 0\nkeep x < 4\npick x\n",
        "0\n2\n",
    )
}

#[test]
fn distinct_and_pick_stay_apart(rt: HostRuntime) -> Result<(), Fail> {
    let mut pages = PageFile::new(rt.alloc());
    pages.column(&[1, 1, NULL, 1, NULL])?;
    pages.column(&[1, 2, 3, 1, 3])?;
    pages.expect_all(
        &rt,
        "table t 5 x num 0 y num 1\nfrom t\n",
        &[
            ("pick x\ndistinct", "1\n\n"),
            ("distinct\npick x", "1\n1\n\n"),
        ],
    )
}

// A table of so many rows, 0, 1, 2, .., and its count, largest value and sum.
const SIZES: [(u64, &str); 6] = [
    (0, "0,,0\n"),
    (1, "1,0,0\n"),
    (511, "511,510,130305\n"),
    (512, "512,511,130816\n"),
    (513, "513,512,131328\n"),
    (1024, "1024,1023,523776\n"),
];

#[test]
fn whole_pages_and_one_more(rt: HostRuntime) -> Result<(), Fail> {
    let heap = rt.alloc();
    for (rows, expected) in SIZES {
        let mut pages = PageFile::new(heap);
        pages.counting(rows)?;
        let head = format!(in heap; "table t {rows} x num 0\nfrom t\n")?;
        pages.expect_all(
            &rt,
            head.as_str(),
            &[("group : n = count, m = max x, s = sum x", expected)],
        )?;
    }
    Ok(())
}

#[test]
fn no_rows_print_nothing(rt: HostRuntime) -> Result<(), Fail> {
    let pages = keyed(rt.alloc())?;
    pages.expect_all(
        &rt,
        "table a 4 k num 0 x num 1\ntable e 0 k num 4\n",
        &[
            ("from a\nkeep x < 5", ""),
            ("from a\nkeep none num", ""),
            ("from a\ntake 0", ""),
            ("from a\nskip 4", ""),
            ("from e\ndistinct\norder k", ""),
        ],
    )
}

#[test]
fn cells_of_another_type_are_null(rt: HostRuntime) -> Result<(), Fail> {
    let mut pages = PageFile::new(rt.alloc());
    let seven = word(b"abcdefg");
    pages.column(&[7, seven, NULL, 0x8000_0000_0000_0000, 0x8100_0000_0000_0000])?;
    pages.expect(
        &rt,
        "table t 5 x num 0 y word 0\nfrom t\n",
        "7,\n,'abcdefg'\n,\n,''\n,\n",
    )
}
