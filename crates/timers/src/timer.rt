// A timer of 8 bits.
#[derive(Clone, Copy, Default)]
pub struct Timer {
    pub count: u8,
}
