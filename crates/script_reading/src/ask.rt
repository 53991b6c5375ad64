ghost use Rattle.std.specs.Prelude.{◌≡◌};

use base_bytes::Text;
use base_vectors::Id;
use member_quorum::Level;
use model_kinds::Op;

/// What a member is asked.
#[derive(Drop)]
pub enum Ask {
    /// To change the value of a key, and so many members are to have the change.
    Update { key: Text, op: Op, level: Level },
    /// To show the value of a key, with what so many members have of it.
    Get { key: Text, level: Level },
    /// To send what its peers may lack.
    Flush,
    /// To send another member the digests of its entries.
    Gossip { to: Id },
    /// To mark, or to prune, what is left of members that left, if it leads its view.
    Tick,
    /// To take up the view of this number.
    Install { view: u32 },
}

impl Ask {
    /// An equal question, which takes no memory.
    pub fn copied(&self) -> Ask
        ensures { result ≡ self.now }
    {
        match self {
            Ask::Update { key, op, level } => Ask::Update {
                key: key.copied(),
                op: op.copied(),
                level: *level,
            },
            Ask::Get { key, level } => Ask::Get {
                key: key.copied(),
                level: *level,
            },
            Ask::Flush => Ask::Flush,
            Ask::Gossip { to } => Ask::Gossip { to: *to },
            Ask::Tick => Ask::Tick,
            Ask::Install { view } => Ask::Install { view: *view },
        }
    }
}
