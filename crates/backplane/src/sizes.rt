// How large a backplane is.

#[derive(Clone, Copy, Debug, PartialEq, Eq)]
pub struct Sizes {
    pub slots: u32,
    // the blocks on each disk
    pub blocks: u32,
    // the log cells
    pub cells: u32,
}
