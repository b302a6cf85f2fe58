//! The members of a reply by their paths, each stated once.
//!
//! A path is names divided by points, from the body of the reply on.

pub(crate) const RESULT: &str = "Response.Result";

/// The result's path in a fault follows the category's name, which begins that of the body.
pub(crate) const RESULT_FROM_CATEGORY: &str = "Response.Response.Result";

pub(crate) const CONDITION: &str = "Response.ErrorCondition";

pub(crate) const TRANSACTION: &str = "POIData.POITransactionID.TransactionID";

/// Of a payment.
pub(crate) const PAID_AMOUNT: &str = "PaymentResult.AmountsResp.AuthorizedAmount";

/// Of a reversal.
pub(crate) const REVERSED_AMOUNT: &str = "ReversedAmount";

/// Of a status: the category of the reply that it repeats.
pub(crate) const REPEATED_CATEGORY: &str = "RepeatedMessageResponse.MessageHeader.MessageCategory";

/// Of a status: the object that has the repeated body.
pub(crate) const REPEATED_BODY: &str = "RepeatedMessageResponse.RepeatedResponseMessageBody";
