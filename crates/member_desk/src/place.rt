/// Where something stands in a list in order, or before which item it would stand.
#[derive(Clone, Copy, Debug, PartialEq, Eq)]
pub(crate) enum Place {
    At(usize),
    Before(usize),
}
