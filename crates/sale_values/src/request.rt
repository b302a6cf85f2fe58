//! What tills ask.
use crate::{Header, Outputs, Period, Texts};
use gw_base::{Ident, Key, Text};

/// A Payment request.
#[derive(Clone, Drop)]
pub struct PaymentAsk {
    /// The till's `TransactionID`.
    pub transaction: Ident<80>,
    /// The till's `TimeStamp` of the transaction.
    pub stamp: Ident<35>,
    /// Three capital letters.
    pub currency: [u8; 3],
    /// The `RequestedAmount` in minor units, 1 to 999,999,999,999.
    pub amount: u64,
    /// The `PaymentType`; an absent one means `Normal`.
    pub kind: Option<Text>,
}

/// A Reversal request.
#[derive(Clone, Copy, PartialEq, Eq)]
pub struct ReversalAsk {
    /// The `TransactionID` of the original's `POITransactionID`.
    pub transaction: Ident<80>,
    /// The `ReversedAmount` in minor units; an absent one means the original's amount.
    pub amount: Option<u64>,
}

/// nexo's `MessageReference`: another message, by its `ServiceID`, `SaleID` and `POIID`.
#[derive(Clone, Copy, PartialEq, Eq)]
pub struct Reference {
    pub service: Ident<10>,
    /// Absent, it is that of the header beside it.
    pub sale: Option<Ident<40>>,
    /// Absent, it is that of the header beside it.
    pub poi: Option<Ident<40>>,
}

impl Reference {
    ghost use Rattle.std.specs.Prelude.{◌≡◌};
    ghost use Rattle.sale_values.specs.Key.{key_of};

    /// The key that the reference names in a message with this header.
    pub fn key(&self, header: &Header) -> Key
        ensures { result ≡ key_of header.now self.now }
    {
        Key {
            sale: self.sale.unwrap_or(header.sale),
            poi: self.poi.unwrap_or(header.poi),
            service: self.service,
        }
    }
}

/// One output of a Display request.
#[derive(Clone, Drop)]
pub struct Output {
    /// Where it is to be shown, such as `CustomerDisplay`.
    pub device: Ident<40>,
    /// nexo's `InfoQualify`.
    pub qualify: Ident<40>,
    /// The `ResponseRequiredFlag`; true where it is absent.
    pub required: bool,
    /// The texts of `OutputText`, where it is there.
    pub texts: Option<Texts>,
}

/// A request, by its category.
#[derive(Clone, Drop)]
pub enum SaleRequest {
    Login,
    Logout,
    Payment(PaymentAsk),
    Reversal(ReversalAsk),
    Abort(Reference),
    /// A TransactionStatus; without a reference it asks for the last transaction.
    Status(Option<Reference>),
    Reconciliation(Period),
    Display(Outputs),
    /// A Print by its `DocumentQualifier`.
    Print(Ident<40>),
    Diagnosis,
}

/// A message of a till.
#[derive(Clone, Drop)]
pub enum Incoming {
    Request(Header, SaleRequest),
    /// A response or a notification, which gets no reply.
    Silent,
}
