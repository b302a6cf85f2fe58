//! The tables of members, as the reader goes through them.
ghost use Rattle.std.specs.Prelude.{◌≡◌};
ghost use Rattle.sale_msg.specs.Table.{header_rows, rows_of, part_rows};
ghost use Rattle.sale_msg.specs.inner.RowValue.{IsTableOf};

use crate::{Category, paths};

/// Whether a member may be absent.
#[derive(Clone, Copy, PartialEq, Eq)]
pub(crate) enum Presence {
    Required,
    Optional,
    /// It may, where the class is `Device` or the type `Notification`.
    ByHeader,
}

/// What a member is to be.
#[derive(Clone, Copy, PartialEq, Eq)]
pub(crate) enum Form {
    Object,
    Text,
    /// Text of 1 to so many printable ASCII bytes.
    Ident(usize),
    /// Text of 1 to 40 ASCII letters.
    Letters,
    /// Text that begins `3.`.
    Version,
    Class,
    /// The type of a message under `SaleToPOIRequest`: `Request` or `Notification`.
    RequestKind,
    Kind,
    /// Text of three capital letters.
    Currency,
    Amount,
    Flag,
    Period,
    /// An object, or a list of 1 to 16 objects.
    Outputs,
    /// A list of objects, each with a text as its `Text`.
    Texts,
}

/// The member that a message is in: `SaleToPOIRequest` or `SaleToPOIResponse`.
#[derive(Clone, Copy, PartialEq, Eq)]
pub enum Envelope {
    Request,
    Response,
}

/// One row of a table.
#[derive(Clone, Copy)]
pub(crate) struct MemberRow {
    /// Where the member is looked for: in the member of the row of this number, from 1 on, or, at 0, in the table's object.
    pub parent: usize,
    /// The names that lead to it from there.
    pub names: &'static [&'static str],
    /// The member's path within the table's object: names divided by points.
    pub within: &'static str,
    /// The path in a fault.
    pub path: &'static str,
    pub presence: Presence,
    pub form: Form,
}

/// Rows of members whose path in a fault is their own.
macro_rules! rows {
    ($($path:ident $parent:literal [$($name:literal)*] $presence:ident $form:expr,)*) => {
        [$(MemberRow {
            parent: $parent,
            names: &[$($name),*],
            within: paths::$path,
            path: paths::$path,
            presence: Presence::$presence,
            form: $form,
        }),*]
    };
}

/// Rows of the members of an object within the body: a fault has their whole path.
macro_rules! part_rows {
    ($($within:ident $path:ident $parent:literal [$($name:literal)*] $presence:ident $form:expr,)*) => {
        [$(MemberRow {
            parent: $parent,
            names: &[$($name),*],
            within: paths::$within,
            path: paths::$path,
            presence: Presence::$presence,
            form: $form,
        }),*]
    };
}

/// The rows of the header, in which the two envelopes differ by the form of the type alone.
macro_rules! header {
    ($message_type:expr) => {
        rows! {
            HEADER 0 ["MessageHeader"] Required Form::Object,
            HEADER_VERSION 1 ["ProtocolVersion"] Optional Form::Version,
            HEADER_CLASS 1 ["MessageClass"] Required Form::Class,
            HEADER_CATEGORY 1 ["MessageCategory"] Required Form::Letters,
            HEADER_TYPE 1 ["MessageType"] Required $message_type,
            HEADER_SERVICE 1 ["ServiceID"] ByHeader Form::Ident(10),
            HEADER_DEVICE 1 ["DeviceID"] Optional Form::Ident(10),
            HEADER_SALE 1 ["SaleID"] Required Form::Ident(40),
            HEADER_POI 1 ["POIID"] Required Form::Ident(40),
        }
    };
}

const REQUEST_HEADER: [MemberRow; 9] = header!(Form::RequestKind);

const RESPONSE_HEADER: [MemberRow; 9] = header!(Form::Kind);

// A header may lack its ServiceID in a message of class `Device`; every body but those of Display and Print asks for it
// again, since its request is found by it.
const LOGIN: [MemberRow; 2] = rows! {
    HEADER_SERVICE 0 ["MessageHeader" "ServiceID"] Required Form::Ident(10),
    LOGIN 0 ["LoginRequest"] Required Form::Object,
};

const LOGOUT: [MemberRow; 2] = rows! {
    HEADER_SERVICE 0 ["MessageHeader" "ServiceID"] Required Form::Ident(10),
    LOGOUT 0 ["LogoutRequest"] Required Form::Object,
};

const DIAGNOSIS: [MemberRow; 2] = rows! {
    HEADER_SERVICE 0 ["MessageHeader" "ServiceID"] Required Form::Ident(10),
    DIAGNOSIS 0 ["DiagnosisRequest"] Required Form::Object,
};

const PAYMENT: [MemberRow; 12] = rows! {
    HEADER_SERVICE 0 ["MessageHeader" "ServiceID"] Required Form::Ident(10),
    PAYMENT 0 ["PaymentRequest"] Required Form::Object,
    PAYMENT_SALE_DATA 2 ["SaleData"] Required Form::Object,
    PAYMENT_SALE 3 ["SaleTransactionID"] Required Form::Object,
    PAYMENT_SALE_ID 4 ["TransactionID"] Required Form::Ident(80),
    PAYMENT_SALE_STAMP 4 ["TimeStamp"] Required Form::Ident(35),
    PAYMENT_TRANSACTION 2 ["PaymentTransaction"] Required Form::Object,
    PAYMENT_AMOUNTS 7 ["AmountsReq"] Required Form::Object,
    PAYMENT_CURRENCY 8 ["Currency"] Required Form::Currency,
    PAYMENT_AMOUNT 8 ["RequestedAmount"] Required Form::Amount,
    PAYMENT_DATA 2 ["PaymentData"] Optional Form::Object,
    PAYMENT_TYPE 11 ["PaymentType"] Optional Form::Text,
};

const REVERSAL: [MemberRow; 7] = rows! {
    HEADER_SERVICE 0 ["MessageHeader" "ServiceID"] Required Form::Ident(10),
    REVERSAL 0 ["ReversalRequest"] Required Form::Object,
    REVERSAL_ORIGINAL 2 ["OriginalPOITransaction"] Required Form::Object,
    REVERSAL_POI 3 ["POITransactionID"] Required Form::Object,
    REVERSAL_POI_ID 4 ["TransactionID"] Required Form::Ident(80),
    REVERSAL_REASON 2 ["ReversalReason"] Required Form::Text,
    REVERSAL_AMOUNT 2 ["ReversedAmount"] Optional Form::Amount,
};

const ABORT: [MemberRow; 7] = rows! {
    HEADER_SERVICE 0 ["MessageHeader" "ServiceID"] Required Form::Ident(10),
    ABORT 0 ["AbortRequest"] Required Form::Object,
    ABORT_REFERENCE 2 ["MessageReference"] Required Form::Object,
    ABORT_SERVICE 3 ["ServiceID"] Required Form::Ident(10),
    ABORT_SALE 3 ["SaleID"] Optional Form::Ident(40),
    ABORT_POI 3 ["POIID"] Optional Form::Ident(40),
    ABORT_REASON 2 ["AbortReason"] Optional Form::Text,
};

const STATUS: [MemberRow; 3] = rows! {
    HEADER_SERVICE 0 ["MessageHeader" "ServiceID"] Required Form::Ident(10),
    STATUS 0 ["TransactionStatusRequest"] Required Form::Object,
    STATUS_REFERENCE 2 ["MessageReference"] Optional Form::Object,
};

const STATUS_REFERENCE: [MemberRow; 3] = part_rows! {
    SERVICE STATUS_SERVICE 0 ["ServiceID"] Required Form::Ident(10),
    SALE STATUS_SALE 0 ["SaleID"] Optional Form::Ident(40),
    POI STATUS_POI 0 ["POIID"] Optional Form::Ident(40),
};

const RECONCILIATION: [MemberRow; 3] = rows! {
    HEADER_SERVICE 0 ["MessageHeader" "ServiceID"] Required Form::Ident(10),
    RECONCILIATION 0 ["ReconciliationRequest"] Required Form::Object,
    RECONCILIATION_TYPE 2 ["ReconciliationType"] Required Form::Period,
};

const DISPLAY: [MemberRow; 2] = rows! {
    DISPLAY 0 ["DisplayRequest"] Required Form::Object,
    DISPLAY_OUTPUT 1 ["DisplayOutput"] Required Form::Outputs,
};

const OUTPUT: [MemberRow; 6] = part_rows! {
    OUTPUT_DEVICE DISPLAY_DEVICE 0 ["Device"] Required Form::Ident(40),
    OUTPUT_QUALIFY DISPLAY_QUALIFY 0 ["InfoQualify"] Required Form::Ident(40),
    OUTPUT_FLAG DISPLAY_FLAG 0 ["ResponseRequiredFlag"] Optional Form::Flag,
    OUTPUT_CONTENT DISPLAY_CONTENT 0 ["OutputContent"] Required Form::Object,
    OUTPUT_FORMAT DISPLAY_FORMAT 4 ["OutputFormat"] Required Form::Text,
    OUTPUT_TEXTS DISPLAY_TEXTS 4 ["OutputText"] Optional Form::Texts,
};

const PRINT: [MemberRow; 3] = rows! {
    PRINT 0 ["PrintRequest"] Required Form::Object,
    PRINT_OUTPUT 1 ["PrintOutput"] Required Form::Object,
    PRINT_QUALIFIER 2 ["DocumentQualifier"] Required Form::Ident(40),
};

/// The table of the header.
pub(crate) fn header_table(envelope: Envelope) -> &'static [MemberRow]
    ensures { IsTableOf result.now (header_rows envelope) }
{
    match envelope {
        Envelope::Request => &REQUEST_HEADER,
        Envelope::Response => &RESPONSE_HEADER,
    }
}

/// The table of the category's body.
pub(crate) fn body_table(category: Category) -> &'static [MemberRow]
    ensures { IsTableOf result.now (rows_of category) }
{
    match category {
        Category::Login => &LOGIN,
        Category::Logout => &LOGOUT,
        Category::Payment => &PAYMENT,
        Category::Reversal => &REVERSAL,
        Category::Abort => &ABORT,
        Category::TransactionStatus => &STATUS,
        Category::Reconciliation => &RECONCILIATION,
        Category::Display => &DISPLAY,
        Category::Print => &PRINT,
        Category::Diagnosis => &DIAGNOSIS,
    }
}

/// The table of each object within the category's body that has its own.
pub(crate) fn part_table(category: Category) -> &'static [MemberRow]
    ensures { IsTableOf result.now (part_rows category) }
{
    match category {
        Category::TransactionStatus => &STATUS_REFERENCE,
        Category::Display => &OUTPUT,
        _ => &[],
    }
}
