//! The words of NR-NR dual connectivity (TS 37.340): numbers, identities, nodes and links, records,
//! flights, events and lines. It holds data and COUNT arithmetic, and no behaviour of a node.
#![tactic(auto)]

mod answers;
mod events;
mod flights;
mod identities;
mod lists;
mod nodes;
mod numbers;
mod records;

pub use answers::{Answer, Refusal, Status, Word};
pub use events::{Event, Header, Line, Note};
pub use flights::Flight;
pub use identities::{DrbId, Gen, Tag, teid_of, teid_parts};
pub use lists::{Memory, Octets, Seq};
pub use nodes::{Alg, Cell, Class, Dir, KeyName, LegSet, LinkId, Node, Shape, Side, Want};
pub use numbers::{SnLen, infer, sn_of, window};
pub use records::{Item, Plan, Rec, RecKind, StatusTransfer};
