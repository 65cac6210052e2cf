use pool::{Content, Found, NoRoom, Place, Pool, Put};

#[test]
fn the_shortest_and_the_longest_content(rt: HostRuntime) {
    let mut bytes = [0; 8192];
    let mut places = [Place::NOWHERE; 8];
    let mut pool = Pool::new(&mut bytes, &mut places);
    assert_eq!(rt; pool.put(&[]), Ok(Put { number: 1 }));
    assert_eq!(rt; pool.put(&[7; 4096]), Ok(Put { number: 2 }));
    assert_eq!(rt; pool.put(&[7; 4097]), Err(NoRoom));
    assert_eq!(rt; pool.put(&[]), Ok(Put { number: 1 }));
    assert_eq!(rt; pool.count(), 2);
    assert_eq!(rt; pool.used(), 4096);
    assert_eq!(rt; pool.bytes(2).len(), 4096);
}

#[test]
fn a_content_and_where_it_starts(rt: HostRuntime) {
    let mut bytes = [0; 16];
    let mut places = [Place::NOWHERE; 4];
    let mut pool = Pool::new(&mut bytes, &mut places);
    assert_eq!(rt; pool.put(b"net"), Ok(Put { number: 1 }));
    assert_eq!(rt; pool.put(b"route"), Ok(Put { number: 2 }));
    let route = Content {
        bytes: b"route",
        start: 3,
    };
    assert_eq!(rt; pool.content(2), Some(route));
    assert!(rt; pool.content(0).is_none());
    assert!(rt; pool.content(3).is_none());
    assert_eq!(rt; pool.known(3), 0);
    assert_eq!(rt; pool.find(b"rout"), None);
}

#[test]
fn all_places(rt: HostRuntime) {
    let mut bytes = [0; 4096];
    let mut places = [Place::NOWHERE; 1025];
    let mut pool = Pool::new(&mut bytes, &mut places);
    for i in 0..1024u16 {
        let _ = pool.put(&i.to_be_bytes());
    }
    assert_eq!(rt; pool.count(), 1024);
    assert_eq!(rt; pool.put(b"one more"), Err(NoRoom));
    assert_eq!(rt; pool.put(&[3, 255]), Ok(Put { number: 1024 }));
    assert_eq!(rt; pool.find(&[0, 1]), Some(Found { number: 2 }));
    assert!(rt; pool.holds(1024));
    assert!(rt; !pool.holds(1025));
}

#[test]
fn all_bytes_and_a_cut(rt: HostRuntime) {
    let mut bytes = [0; 65537];
    let mut places = [Place::NOWHERE; 1024];
    let mut pool = Pool::new(&mut bytes, &mut places);
    for i in 0..16u8 {
        let _ = pool.put(&[i; 4096]);
    }
    assert_eq!(rt; pool.used(), 65536);
    assert_eq!(rt; pool.put(&[1]), Err(NoRoom));
    assert_eq!(rt; pool.put(&[]), Ok(Put { number: 17 }));
    pool.cut(18);
    assert_eq!(rt; pool.count(), 17);
    pool.cut(3);
    assert_eq!(rt; pool.used(), 12288);
    assert_eq!(rt; pool.put(&[3; 4096]), Ok(Put { number: 4 }));
}
