mod methods;

// Kept: an image has 193 bytes of a fixed layout; the count is its first byte, which is written last.
/// An image while its entries are written.
#[derive(Drop)]
pub struct Draft {
    bytes: [u8; 193],
    at: usize,
    count: u8,
}
