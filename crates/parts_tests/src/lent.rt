use lists::{Change, Lent};

/// The change of a byte to another one.
#[derive(Clone, Copy)]
struct Become {
    byte: u8,
}

impl Change<u8> for Become {
    ghost changed = { λ become _. become.byte };

    fn apply(&self, element: &mut u8) {
        *element = self.byte;
    }
}

#[test]
fn a_list_fills_and_is_cut(rt: HostRuntime) {
    let mut room = [0u8; 3];
    let mut list = Lent::new(&mut room);
    assert!(rt; list.extend(b"ab"));
    assert!(rt; !list.extend(b"cd"));
    assert!(rt; list.push(b'c'));
    assert!(rt; !list.push(b'd'));
    assert!(rt; list.replace(1, b'x'));
    assert!(rt; list.as_slice() == b"axc".as_slice());
    list.truncate(5);
    assert_eq!(rt; list.len(), 3);
    list.truncate(1);
    assert!(rt; !list.replace(1, b'y'));
}

#[test]
fn an_element_is_changed_where_it_lies(rt: HostRuntime) {
    let mut room = [0u8; 3];
    let mut list = Lent::new(&mut room);
    assert!(rt; list.extend(b"ab"));
    assert!(rt; list.change(1, &Become { byte: b'x' }));
    assert!(rt; !list.change(2, &Become { byte: b'y' }));
    assert!(rt; list.as_slice() == b"ax".as_slice());
}
