ghost use Rattle.std.specs.Prelude.{◌≡◌, Some};

use crate::section::Section;
use base_vectors::Id;
use std::marker::PhantomData;

/// A member by its place and its identity.
#[derive(Drop)]
pub struct Peer<N: Section> {
    pub(crate) place: usize,
    pub(crate) id: Id,
    pub(crate) of: PhantomData<N>,
    ghost stands: { N.ids place ≡ Some id },
}
