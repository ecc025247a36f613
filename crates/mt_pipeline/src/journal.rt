//! What a turn has done so far.
use std::alloc::Global;

/// What a turn has done so far: the ports that were picked, in their order, the number of mappings that were opened, and
/// the mappers whose turns moved, each by one.
#[derive(Drop)]
pub(crate) struct Journal {
    pub picks: Vec<u16>,
    pub opened: usize,
    pub moved: Vec<u32>,
}
