// Tables of items, lent as a list of times and a byte string of ids: their check, and the place of a bound in them.
// The functions with a `requires` are for our own crates, which check a table before they use it.
#![tactic(auto)]

ghost use Rattle.std.specs.Prelude.{◌≡◌};
ghost use Rattle.message.specs.Code as M;
ghost use Rattle.table.specs.Code.{number_of};

pub mod check;
pub mod compare;
pub mod search;

// Why a call is refused, each kind with its number.
#[derive(Clone, Copy, Debug, PartialEq, Eq)]
pub enum Refusal {
    // the id bytes are not 32 for each time, or there are too many items
    TableSize = 1,
    // an item is not above its predecessor, or a time is 2^64 - 1
    TableOrder = 2,
    // the parts or the list limit of a cut are outside their limits
    CutLimits = 3,
    // marks, needed buffer and session do not fit the table or each other
    WrongState = 4,
    // the session is done
    SessionDone = 5,
    // the message is empty or begins with no version that the call takes
    WrongVersion = 6,
    // the message ends inside a range
    Truncated = 7,
    // a varint starts with 80 or passes 2^64 - 1
    BadVarint = 8,
    // a bound has a time or a prefix that it cannot have, or is not above the one before it
    BadBound = 9,
    // a mode is above 2
    BadMode = 10,
    // the needed list that would result has more ids than its buffer holds
    NeededFull = 11,
    // the message to be written is longer than the out buffer
    NoRoom = 12,
    // the bytes of the tree are not those of a tree over these places, or no place of it is free
    WrongTree = 13,
    // the byte limit is below 4,096
    ByteLimit = 14,
    // the session is not done
    SessionOpen = 15,
    // an id of the batch is not on the needed list, or its item is already in the table
    NotDue = 16,
    // the table's buffers cannot hold the merge, or it has too many items
    TableFull = 17,
    // the label of the table is not that of the session
    OtherTable = 18,
}

impl Refusal {
    // Its number.
    pub fn number(self) -> u64
        ensures { result ≡ number_of self }
    {
        self as u64
    }
}

impl From<message::Refusal> for Refusal {
    ghost from_gives = { λ k r. number_of r ≡ M.number_of k };

    fn from(refusal: message::Refusal) -> Refusal {
        match refusal {
            message::Refusal::WrongVersion => Refusal::WrongVersion,
            message::Refusal::Truncated => Refusal::Truncated,
            message::Refusal::BadVarint => Refusal::BadVarint,
            message::Refusal::BadBound => Refusal::BadBound,
            message::Refusal::BadMode => Refusal::BadMode,
            message::Refusal::NoRoom => Refusal::NoRoom,
        }
    }
}
