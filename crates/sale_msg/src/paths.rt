//! The members of a till's message by their paths, each stated once: the tables and faults have them. The reader looks for
//! a few by their names.
//!
//! A path is names divided by points, from the body object on: the object in which the header and a body are. The members
//! of an object within a body that has a table of its own have a path from that object on too.

/// The envelope of requests, and the path of a message that has no envelope.
pub(crate) const REQUEST: &str = "SaleToPOIRequest";

/// The envelope of responses.
pub(crate) const RESPONSE: &str = "SaleToPOIResponse";

// The header.

pub(crate) const HEADER: &str = "MessageHeader";

pub(crate) const HEADER_VERSION: &str = "MessageHeader.ProtocolVersion";

pub(crate) const HEADER_CLASS: &str = "MessageHeader.MessageClass";

pub(crate) const HEADER_CATEGORY: &str = "MessageHeader.MessageCategory";

pub(crate) const HEADER_TYPE: &str = "MessageHeader.MessageType";

pub(crate) const HEADER_SERVICE: &str = "MessageHeader.ServiceID";

pub(crate) const HEADER_DEVICE: &str = "MessageHeader.DeviceID";

pub(crate) const HEADER_SALE: &str = "MessageHeader.SaleID";

pub(crate) const HEADER_POI: &str = "MessageHeader.POIID";

// Bodies.

pub(crate) const LOGIN: &str = "LoginRequest";

pub(crate) const LOGOUT: &str = "LogoutRequest";

pub(crate) const DIAGNOSIS: &str = "DiagnosisRequest";

pub(crate) const PAYMENT: &str = "PaymentRequest";

pub(crate) const PAYMENT_SALE_DATA: &str = "PaymentRequest.SaleData";

pub(crate) const PAYMENT_SALE: &str = "PaymentRequest.SaleData.SaleTransactionID";

pub(crate) const PAYMENT_SALE_ID: &str = "PaymentRequest.SaleData.SaleTransactionID.TransactionID";

pub(crate) const PAYMENT_SALE_STAMP: &str = "PaymentRequest.SaleData.SaleTransactionID.TimeStamp";

pub(crate) const PAYMENT_TRANSACTION: &str = "PaymentRequest.PaymentTransaction";

pub(crate) const PAYMENT_AMOUNTS: &str = "PaymentRequest.PaymentTransaction.AmountsReq";

pub(crate) const PAYMENT_CURRENCY: &str = "PaymentRequest.PaymentTransaction.AmountsReq.Currency";

pub(crate) const PAYMENT_AMOUNT: &str =
    "PaymentRequest.PaymentTransaction.AmountsReq.RequestedAmount";

pub(crate) const PAYMENT_DATA: &str = "PaymentRequest.PaymentData";

pub(crate) const PAYMENT_TYPE: &str = "PaymentRequest.PaymentData.PaymentType";

pub(crate) const REVERSAL: &str = "ReversalRequest";

pub(crate) const REVERSAL_ORIGINAL: &str = "ReversalRequest.OriginalPOITransaction";

pub(crate) const REVERSAL_POI: &str = "ReversalRequest.OriginalPOITransaction.POITransactionID";

pub(crate) const REVERSAL_POI_ID: &str =
    "ReversalRequest.OriginalPOITransaction.POITransactionID.TransactionID";

pub(crate) const REVERSAL_REASON: &str = "ReversalRequest.ReversalReason";

pub(crate) const REVERSAL_AMOUNT: &str = "ReversalRequest.ReversedAmount";

pub(crate) const ABORT: &str = "AbortRequest";

pub(crate) const ABORT_REFERENCE: &str = "AbortRequest.MessageReference";

pub(crate) const ABORT_SERVICE: &str = "AbortRequest.MessageReference.ServiceID";

pub(crate) const ABORT_SALE: &str = "AbortRequest.MessageReference.SaleID";

pub(crate) const ABORT_POI: &str = "AbortRequest.MessageReference.POIID";

pub(crate) const ABORT_REASON: &str = "AbortRequest.AbortReason";

pub(crate) const STATUS: &str = "TransactionStatusRequest";

pub(crate) const STATUS_REFERENCE: &str = "TransactionStatusRequest.MessageReference";

pub(crate) const STATUS_SERVICE: &str = "TransactionStatusRequest.MessageReference.ServiceID";

pub(crate) const STATUS_SALE: &str = "TransactionStatusRequest.MessageReference.SaleID";

pub(crate) const STATUS_POI: &str = "TransactionStatusRequest.MessageReference.POIID";

pub(crate) const RECONCILIATION: &str = "ReconciliationRequest";

pub(crate) const RECONCILIATION_TYPE: &str = "ReconciliationRequest.ReconciliationType";

pub(crate) const DISPLAY: &str = "DisplayRequest";

pub(crate) const DISPLAY_OUTPUT: &str = "DisplayRequest.DisplayOutput";

pub(crate) const DISPLAY_DEVICE: &str = "DisplayRequest.DisplayOutput.Device";

pub(crate) const DISPLAY_QUALIFY: &str = "DisplayRequest.DisplayOutput.InfoQualify";

pub(crate) const DISPLAY_FLAG: &str = "DisplayRequest.DisplayOutput.ResponseRequiredFlag";

pub(crate) const DISPLAY_CONTENT: &str = "DisplayRequest.DisplayOutput.OutputContent";

pub(crate) const DISPLAY_FORMAT: &str = "DisplayRequest.DisplayOutput.OutputContent.OutputFormat";

pub(crate) const DISPLAY_TEXTS: &str = "DisplayRequest.DisplayOutput.OutputContent.OutputText";

pub(crate) const PRINT: &str = "PrintRequest";

pub(crate) const PRINT_OUTPUT: &str = "PrintRequest.PrintOutput";

pub(crate) const PRINT_QUALIFIER: &str = "PrintRequest.PrintOutput.DocumentQualifier";

// From a reference on.

pub(crate) const SERVICE: &str = "ServiceID";

pub(crate) const SALE: &str = "SaleID";

pub(crate) const POI: &str = "POIID";

// From an output on, and from one of its texts on.

pub(crate) const OUTPUT_DEVICE: &str = "Device";

pub(crate) const OUTPUT_QUALIFY: &str = "InfoQualify";

pub(crate) const OUTPUT_FLAG: &str = "ResponseRequiredFlag";

pub(crate) const OUTPUT_CONTENT: &str = "OutputContent";

pub(crate) const OUTPUT_FORMAT: &str = "OutputContent.OutputFormat";

pub(crate) const OUTPUT_TEXTS: &str = "OutputContent.OutputText";

pub(crate) const TEXT: &str = "Text";

// The names of the members that are looked for by themselves, and not row by row: no path is split for them.

pub(crate) const HEADER_CLASS_NAMES: &[&str] = &["MessageHeader", "MessageClass"];

pub(crate) const HEADER_TYPE_NAMES: &[&str] = &["MessageHeader", "MessageType"];

pub(crate) const SERVICE_NAMES: &[&str] = &["ServiceID"];

pub(crate) const SALE_NAMES: &[&str] = &["SaleID"];

pub(crate) const POI_NAMES: &[&str] = &["POIID"];

pub(crate) const OUTPUT_DEVICE_NAMES: &[&str] = &["Device"];

pub(crate) const OUTPUT_QUALIFY_NAMES: &[&str] = &["InfoQualify"];

pub(crate) const OUTPUT_FLAG_NAMES: &[&str] = &["ResponseRequiredFlag"];

pub(crate) const OUTPUT_TEXTS_NAMES: &[&str] = &["OutputContent", "OutputText"];

pub(crate) const TEXT_NAMES: &[&str] = &["Text"];
