// What a search for paths works with.

// A link, gone from its first end to its second, or back.
// A flag says which way: an enum for the two ways would say no more where it is tested.
#[derive(Clone, Copy)]
pub struct Arc {
    pub link: usize,
    pub onward: bool,
}

// How a search reached a household: at which level, counted from 1, and by which arc; those of level 1 by none.
#[derive(Clone, Copy)]
pub struct Mark {
    pub level: usize,
    pub arc: Option<Arc>,
}
