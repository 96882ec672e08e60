// A code that a transaction has listed for an item.
#[derive(Clone, Copy, Debug, PartialEq, Eq)]
pub struct Write {
    pub item: u32,
    pub code: u32,
}
