use desk_tables::KeyRow;

/// Of some rows, the one whose key comes next behind a name in the order of their letters.
pub(crate) fn next_row(rows: &[KeyRow], name: &str) -> Option<KeyRow> {
    let mut next = None;
    for row in rows {
        if name < row.0.text() && comes_first(*row, next) {
            next = Some(*row);
        }
    }
    next
}

/// Whether the key of a row comes before that of another one, if there is one.
fn comes_first(row: KeyRow, other: Option<KeyRow>) -> bool {
    match other {
        Some(other) => row.0.text() < other.0.text(),
        None => true,
    }
}
