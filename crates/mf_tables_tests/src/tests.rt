// What tables answer, sorted and not.
use mf_tables::{Table, rows};

#[test]
fn finds_each_word_and_no_other(rt: HostRuntime) {
    let table: Table<4> = rows![b"" => 9, b"%" => 1, b"%=" => 0, b"int" => 7];
    assert!(rt; table.is_sorted());
    let wanted: [(&[u8], Option<u16>); 7] = [
        (b"", Some(9)),
        (b"%", Some(1)),
        (b"%=", Some(0)),
        (b"int", Some(7)),
        (b"in", None),
        (b"int ", None),
        (b"z", None),
    ];
    for (word, number) in wanted {
        assert_eq!(rt; table.find(word), number);
    }
}

#[test]
fn equal_and_falling_words_are_not_sorted(rt: HostRuntime) {
    let none: Table<0> = rows![];
    let equal: Table<2> = rows![b"a" => 0, b"a" => 1];
    let falling: Table<3> = rows![b"a" => 0, b"c" => 1, b"b" => 2];
    assert!(rt; none.is_sorted());
    assert!(rt; !equal.is_sorted());
    assert!(rt; !falling.is_sorted());
}

#[test]
fn the_first_word_of_a_number_counts(rt: HostRuntime) {
    let table: Table<4> = rows![b"b" => 7, b"a" => 3, b"c" => 7, b"" => 0];
    let wanted: [(u16, Option<&[u8]>); 4] = [
        (7, Some(b"b")),
        (3, Some(b"a")),
        (0, Some(b"")),
        (1, None),
    ];
    for (number, word) in wanted {
        assert_eq!(rt; table.word_of(number), word);
    }
}
