/// The 4,096 bytes in which files are read and written.
#[derive(Clone, Copy, PartialEq, Eq)]
pub struct Block {
    pub bytes: [u8; 4096],
}
