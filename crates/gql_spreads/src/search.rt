/// What is known of a node: nothing yet, its place among the open nodes, or whether it lies on a cycle.
#[derive(Clone, Copy)]
pub enum Mark {
    Fresh,
    Open(usize),
    Done(bool),
}

/// A group of open nodes: where its nodes and the targets of its edges begin, and whether each of its nodes lies on a
/// cycle. They end where those of the next group begin.
#[derive(Clone, Copy)]
pub struct Group {
    pub node: usize,
    pub edge: usize,
    pub cyclic: bool,
}

/// A depth-first search under way: the marks, the open nodes, the targets of their edges that are still to follow, and
/// the groups of open nodes. A group that an edge closes to a cycle swallows those above it.
#[derive(Drop)]
pub struct Search {
    pub marks: Vec<Mark>,
    pub nodes: Vec<usize>,
    pub edges: Vec<usize>,
    pub groups: Vec<Group>,
}
