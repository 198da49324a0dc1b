/// A key, and the value at it.
#[derive(Debug, Drop)]
pub struct Entry {
    pub key: Vec<u8>,
    pub value: Vec<u8>,
}
