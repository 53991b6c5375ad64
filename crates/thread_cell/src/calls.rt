/// A client's own calls: of each the place, and the index of its entry in the history there.
#[derive(Drop)]
pub struct OwnCalls {
    pub client: u32,
    pub calls: Vec<(usize, usize)>,
}
