use files::{FileStore, Image, Table, copy_all};
use model::Refusal;
use std::array;

/// Gives each file a number, its own above 256.
fn give_all<F: FileStore>(store: &mut F) {
    for file in 0..64 {
        store.set(file, 256 + u16::from(file));
    }
}

#[test]
fn a_full_image(rt: HostRuntime) {
    let mut table = Table::new();
    let mut image = Image::new();
    give_all(&mut table);
    copy_all(&table, &mut image);
    assert_eq!(rt; image.bytes()[0], 64);
    assert!(rt; image.bytes()[190..193] == [63, 1, 63]);
    assert_eq!(rt; image.tell(63), 319);
    let mut again = Image::new();
    assert_eq!(rt; again.fill(image.bytes()), Ok(()));
    assert!(rt; again.bytes()[..] == image.bytes()[..]);
    let mut back = Table::new();
    copy_all(&again, &mut back);
    assert_eq!(rt; back.tell(1), 257);
}

#[test]
fn files_above_63(rt: HostRuntime) {
    let mut table = Table::new();
    let mut image = Image::new();
    table.set(64, 1);
    table.set(255, 1);
    image.set(64, 1);
    image.set(255, 1);
    assert_eq!(rt; table.tell(64), 0);
    assert_eq!(rt; table.tell(255), 0);
    assert_eq!(rt; image.tell(64), 0);
    assert_eq!(rt; image.tell(255), 0);
    assert_eq!(rt; image.bytes()[0], 0);
}

#[test]
fn entries_in_order_and_zeros_behind(rt: HostRuntime) {
    let mut image = Image::new();
    image.set(9, 515);
    image.set(2, 7);
    assert!(rt; image.bytes()[0..8] == [2, 2, 0, 7, 9, 2, 3, 0]);
    image.set(2, 0);
    assert!(rt; image.bytes()[0..8] == [1, 9, 2, 3, 0, 0, 0, 0]);
    assert_eq!(rt; image.tell(2), 0);
    assert_eq!(rt; image.tell(9), 515);
}

/// An image of these first bytes, and zeros.
fn begins(first: &[u8]) -> [u8; 193] {
    array::from_fn(|i| first.get(i).copied().unwrap_or(0))
}

#[test]
fn refused_images(rt: HostRuntime) {
    let mut image = Image::new();
    image.set(5, 1);
    assert_eq!(rt; image.fill(&[0; 192]), Err(Refusal::ImageSize));
    assert_eq!(rt; image.fill(&[255; 194]), Err(Refusal::ImageSize));
    assert_eq!(rt;
        image.fill(&begins(&[2, 9, 0, 1, 2, 0, 1])),
        Err(Refusal::ImageLayout)
    );
    assert_eq!(rt;
        image.fill(&begins(&[1, 9, 0, 0])),
        Err(Refusal::ImageLayout)
    );
    assert_eq!(rt;
        image.fill(&begins(&[1, 64, 0, 1])),
        Err(Refusal::ImageLayout)
    );
    assert_eq!(rt; image.fill(&begins(&[0, 0, 1])), Err(Refusal::ImageLayout));
    assert_eq!(rt; image.fill(&begins(&[65])), Err(Refusal::ImageLayout));
    assert_eq!(rt; image.tell(5), 1);
}
