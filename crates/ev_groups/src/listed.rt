// An order of painting that is kept.

// All objects, so many levels of them, in the order in which they are painted.
#[derive(Drop)]
pub struct Listed {
    pub levels: usize,
    pub ids: Vec<u64>,
}
