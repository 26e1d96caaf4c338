// What a load answers.

#[derive(Clone, Copy, PartialEq, Eq, Debug)]
pub struct Counts {
    pub households: usize,
    pub links: usize,
}
