/// What a request to follow a key at a member, or to follow it no more, is answered.
#[derive(Clone, Copy, Debug, PartialEq, Eq)]
pub enum Followship {
    /// No member runs under the identity.
    Gone,
    /// The member does not declare the key.
    UnknownKey,
    /// The client follows the key from now on.
    Subscribed,
    /// It follows the key already.
    AlreadySubscribed,
    /// The client follows the key no more.
    Unsubscribed,
    /// It did not follow the key.
    NotSubscribed,
}
