// What is found by its name.
use reference_reading::names::*;
use reference_reading::spans::*;
use std::test::*;

// Called by bytes of its own.
#[derive(Clone, Copy)]
struct Town<'a>(&'a [u8]);

impl Named for Town<'_> {
    ghost called = { λ town. town.0.now };

    fn name(&self) -> &[u8] {
        self.0
    }
}

// Called by a part of a text.
#[derive(Clone, Copy)]
struct Place(Span);

impl NamedInText for Place {
    ghost called = { λ place. place.0 };

    fn name(&self) -> Span {
        self.0
    }
}

const NAMES: [(&[u8], Option<usize>); 6] = [
    (b"Bergen", Some(0)),
    (b"Hamar", Some(1)),
    (b"", Some(3)),
    (b"Oslo", None),
    (b"Ham", None),
    (b"Hamar ", None),
];

#[test]
fn first_of_a_name(rt: HostRuntime) {
    let towns = [Town(b"Bergen"), Town(b"Hamar"), Town(b"Bergen"), Town(b"")];
    for (name, first) in NAMES {
        assert_eq!(rt; find(&towns, name), first);
        assert_eq!(rt; find(&towns[..0], name), None);
    }
    assert_eq!(rt; towns[1].name(), b"Hamar".as_slice());
}

#[test]
fn first_of_a_name_in_a_text(rt: HostRuntime) {
    let text = b"Hamar Bergen";
    let bergen = Place(Span { start: 6, end: 12 });
    let hamar = Place(Span { start: 0, end: 5 });
    let again = Place(Span { start: 6, end: 12 });
    let nowhere = Place(Span { start: 6, end: 13 });
    let places = [bergen, hamar, again, nowhere];
    for (name, first) in NAMES {
        assert_eq!(rt; find_in_text(text, &places, name), first);
    }
}
