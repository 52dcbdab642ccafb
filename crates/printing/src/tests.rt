// What `read_list` reads of a text, since no clause says it and no program calls it.
use crate::read_list;

fn reads(text: &str, room: &mut [i32], wanted: &[i32]) -> bool {
    read_list(text, room).is_some_and(|numbers| numbers == wanted)
}

#[test]
fn a_list_fills_as_much_of_its_room_as_it_needs(rt: HostRuntime) {
    let mut room = [7; 4];
    assert!(rt; reads("", &mut room, &[]));
    assert!(rt; reads(" \t\n", &mut room, &[]));
    assert_eq!(rt; room, [7; 4]);
    let spaced = "0 -1\t+2\r\n  00000000000000000000003 ";
    assert!(rt; reads(spaced, &mut room, &[0, -1, 2, 3]));
    assert!(rt;
        reads(
            "2147483647 -2147483648",
            &mut room,
            &[2147483647, -2147483648]
        )
    );
    assert_eq!(rt; room, [2147483647, -2147483648, 2, 3]);
}

// As long as its room is, and so longer than a list of a row.
#[test]
fn a_list_may_be_as_long_as_its_room(rt: HostRuntime) {
    let text = "1 2 3 4 5 6 7 8 9 10 11 12 13 14 15 16 17 18 19 20";
    let all = [
        1, 2, 3, 4, 5, 6, 7, 8, 9, 10, 11, 12, 13, 14, 15, 16, 17, 18, 19, 20,
    ];
    let mut room = [7; 20];
    assert!(rt; reads(text, &mut room, &all));
    let mut short = [7; 19];
    assert!(rt; read_list(text, &mut short).is_none());
    assert_eq!(rt; short, [7; 19]);
}

#[test]
fn a_word_that_is_no_number_is_not_read(rt: HostRuntime) {
    let mut room = [7; 4];
    for text in ["x", "1 x", "-", "1;2", "2147483648", "-2147483649"] {
        assert!(rt; read_list(text, &mut room).is_none(), "at {text}");
    }
}
