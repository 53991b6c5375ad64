use base_bytes::Text;
use base_vectors::Id;
use data_lattice::Replica;
use member_messages::Message;
use member_quorum::Level;
use member_views::View;

/// What a member makes a step for.
#[derive(Drop)]
pub enum Input<T: Replica> {
    /// The operation becomes the member's next record of the key, and so many members are to have it.
    Update { key: Text, op: T::Op, level: Level },
    /// Shows the value of the key, as it is when the entries of so many members are merged.
    Get { key: Text, level: Level },
    /// Takes a message.
    Take { from: Id, message: Message<T> },
    /// Takes a view in place of its own, if its number is greater.
    Install(View),
    /// Sends each other member the own records that it was not sent.
    Flush,
    /// Tells another member the digests of the entries that have records.
    GossipTo(Id),
    /// Marks, or prunes, what is left of members that left, if the member leads its view.
    PruneTick,
    /// Closes the open operation of this number, without a result.
    Timeout(u64),
}
