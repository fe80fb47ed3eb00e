// An array over a backplane, with a code for its checks.
use backplane::Backplane;
use codes::Code;
use layout::header::Header;

// The least length of a work area.
pub const WORK: usize = 10240;

#[derive(Drop)]
pub struct Array<B: Backplane, C: Code> {
    pub backplane: B,
    pub code: C,
    // what cell 0 holds; none while the array is not started
    pub header: Option<Header>,
}
