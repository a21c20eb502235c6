// What a summary says: own labels, labels that two or more vertices share, and the most vertices that share one.
#[derive(Clone, Copy, Debug, PartialEq, Eq)]
pub struct Summary {
    pub own: u32,
    pub rings: u32,
    pub largest: u32,
}
