use column_set::ColumnSet;

#[test]
fn columns_of_a_set(rt: HostRuntime) {
    let mut set = ColumnSet::empty(64);
    set.insert(63);
    set.insert(5);
    set.insert(0);
    set.insert(17);
    set.remove(17);
    assert!(rt; set.contains(63) && !set.contains(17) && !set.contains(64));
    assert!(rt; set.len() == 3 && set.count_before(63) == 2);
    assert_eq!(rt; set.union(ColumnSet::all(7)).len(), 8);
}

#[test]
fn columns_in_order(rt: HostRuntime) {
    let mut set = ColumnSet::all(3);
    set.remove(1);
    let mut digits = 1u64;
    for column in set.columns() {
        digits = digits.wrapping_mul(100).wrapping_add(column as u64);
    }
    assert_eq!(rt; digits, 10_002);
}
