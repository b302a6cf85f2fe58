//! The value that is read of a reply.
use arrayvec::ArrayVec;
use gw_base::{Condition, Ident};
use sale_reply::ReplyResult;

/// What a till reads of a reply.
#[derive(Drop)]
pub struct ReplySeen {
    /// The `MessageCategory` of the reply's own header.
    pub category: Ident<40>,
    pub result: ReplyResult,
    /// The `ErrorCondition`.
    pub condition: Option<Condition>,
    /// The `TransactionID` in `POITransactionID`; for a TransactionStatus that of the repeated reply.
    pub transaction: Option<ArrayVec<u8, 80>>,
    /// The `AuthorizedAmount` or `ReversedAmount` in minor units; for a TransactionStatus that of the repeated reply.
    pub minor: Option<u64>,
}
