//! What the bodies of requests ask.
ghost use Rattle.std.specs.Prelude.{◌≡◌, Some, IfOk, codes, map};
ghost use Rattle.std.specs.Option.{option_and_then};
ghost use Rattle.json_text.specs.Tree.{Tree, string_of};
ghost use Rattle.json_text.specs.ValueOf.{value_of};
ghost use Rattle.sale_values.specs.Names.{period_name};
ghost use Rattle.sale_msg.specs.Flaw.{AreMet, IsMet, HasFound, MayHaveFound};
ghost use Rattle.sale_msg.specs.Grammar.{Asks, IsPayment, IsReversal, IsReference, IsReferenceAt};
ghost use Rattle.sale_msg.specs.Category.{category_of};
ghost use Rattle.sale_msg.specs.Path.{text_at};
ghost use Rattle.sale_msg.specs.Table.{abort_rows, payment_rows, print_rows, reconciliation_rows, reversal_rows, rows_of, status_reference_rows};
ghost use Rattle.sale_msg.specs.inner.RowValue.{AreFound, IsBodyFound, member_value};
ghost use Rattle.sale_msg.specs.declared.table.Form.{Form};

use crate::check::RowMembers;
use crate::members::{
    amount, amount_or_none, currency, ident, ident_or_none, member, period, text_or_none,
};
use crate::outputs::outputs;
use crate::path::find_under;
use crate::tabled_objects::{STATUS_REFERENCE, parts};
use crate::{Category, paths};
use gw_base::Ident;
use json_text::Json;
use sale_values::{PaymentAsk, Period, Reference, ReversalAsk, SaleRequest};
use std::alloc::{AllocError, Global};

// The numbers of the rows that are read, in the table of each category.

const PAYMENT_SALE_ID: usize = 5;

const PAYMENT_SALE_STAMP: usize = 6;

const PAYMENT_CURRENCY: usize = 9;

const PAYMENT_AMOUNT: usize = 10;

const PAYMENT_TYPE: usize = 12;

const REVERSAL_POI_ID: usize = 5;

const REVERSAL_AMOUNT: usize = 7;

const ABORT_SERVICE: usize = 4;

const ABORT_SALE: usize = 5;

const ABORT_POI: usize = 6;

const RECONCILIATION_TYPE: usize = 3;

const PRINT_QUALIFIER: usize = 3;

/// What a Payment asks.
pub(crate) fn payment(alloc: Global, found: &RowMembers<'_>) -> Result<PaymentAsk, AllocError>
    requires { (body : Tree) × AreFound payment_rows body (map member_value found.now.items) }
    ensures { (body : Tree) → AreFound payment_rows body (map member_value found.now.items) → IfOk result (IsPayment body) }
{
    let payment_type = text_or_none(alloc, member(found, PAYMENT_TYPE))?;
    Ok(PaymentAsk {
        transaction: ident(member(found, PAYMENT_SALE_ID)),
        stamp: ident(member(found, PAYMENT_SALE_STAMP)),
        currency: currency(member(found, PAYMENT_CURRENCY)),
        amount: amount(member(found, PAYMENT_AMOUNT)),
        kind: payment_type,
    })
}

/// What a Reversal asks.
pub(crate) fn reversal(found: &RowMembers<'_>) -> ReversalAsk
    requires { (body : Tree) × AreFound reversal_rows body (map member_value found.now.items) }
    ensures { (body : Tree) → AreFound reversal_rows body (map member_value found.now.items) → IsReversal body result }
{
    ReversalAsk {
        transaction: ident(member(found, REVERSAL_POI_ID)),
        amount: amount_or_none(member(found, REVERSAL_AMOUNT)),
    }
}

/// The reference that has these members.
fn reference(service: Option<&Json>, sale: Option<&Json>, poi: Option<&Json>) -> Reference
    requires service { HasFound (Form.Ident 10) (member_value service) }
    requires sale { MayHaveFound (Form.Ident 40) (member_value sale) }
    requires poi { MayHaveFound (Form.Ident 40) (member_value poi) }
    ensures service { option_and_then string_of (member_value service.entry) ≡ Some result.service }
    ensures sale { option_and_then string_of (member_value sale.entry) ≡ result.sale }
    ensures poi { option_and_then string_of (member_value poi.entry) ≡ result.poi }
{
    Reference {
        service: ident(service),
        sale: ident_or_none(sale),
        poi: ident_or_none(poi),
    }
}

/// The reference that an object is.
#[tactic(auto, unfolding(crate::specs::Flaw::IsMet, crate::specs::Path::tree_at))]
fn reference_in(object: &Json) -> Reference
    requires { AreMet status_reference_rows (value_of object.now) }
    ensures { IsReference (value_of object.now) result }
{
    reference(
        find_under(object, paths::SERVICE_NAMES),
        find_under(object, paths::SALE_NAMES),
        find_under(object, paths::POI_NAMES),
    )
}

/// The type that a Reconciliation asks for.
pub(crate) fn reconciliation(found: &RowMembers<'_>) -> Period
    requires { (body : Tree) × AreFound reconciliation_rows body (map member_value found.now.items) }
    ensures { (body : Tree) → AreFound reconciliation_rows body (map member_value found.now.items)
        → text_at (codes "ReconciliationRequest.ReconciliationType") body ≡ Some (period_name result) }
{
    period(member(found, RECONCILIATION_TYPE))
}

/// The qualifier of a Print.
pub(crate) fn qualifier(found: &RowMembers<'_>) -> Ident<40>
    requires { (body : Tree) × AreFound print_rows body (map member_value found.now.items) }
    ensures { (body : Tree) → AreFound print_rows body (map member_value found.now.items)
        → text_at (codes "PrintRequest.PrintOutput.DocumentQualifier") body ≡ Some result }
{
    ident(member(found, PRINT_QUALIFIER))
}

/// The reference of an Abort.
pub(crate) fn abort(found: &RowMembers<'_>) -> Reference
    requires { (body : Tree) × AreFound abort_rows body (map member_value found.now.items) }
    ensures { (body : Tree) → AreFound abort_rows body (map member_value found.now.items)
        → IsReferenceAt (codes "AbortRequest.MessageReference") body (Some result) }
{
    reference(
        member(found, ABORT_SERVICE),
        member(found, ABORT_SALE),
        member(found, ABORT_POI),
    )
}

/// The reference of a TransactionStatus, where it has one.
pub(crate) fn status(found: &RowMembers<'_>) -> Option<Reference>
    requires { (body : Tree) × IsBodyFound Category.TransactionStatus body (map member_value found.now.items) }
    ensures { (body : Tree) → AreFound (rows_of Category.TransactionStatus) body (map member_value found.now.items)
        → IsReferenceAt (codes "TransactionStatusRequest.MessageReference") body result }
{
    match member(found, STATUS_REFERENCE) {
        None => None,
        Some(object) => Some(reference_in(object)),
    }
}

/// What the body of a request of this category asks.
pub(crate) fn request(
    alloc: Global,
    category: Category,
    found: &RowMembers<'_>,
) -> Result<SaleRequest, AllocError>
    requires { (body : Tree) × IsBodyFound category body (map member_value found.now.items) }
    ensures { (body : Tree) → IsBodyFound category body (map member_value found.now.items)
        → IfOk result (λ request. (category_of request ≡ category) × Asks body request) }
{
    let request = match category {
        Category::Login => SaleRequest::Login,
        Category::Logout => SaleRequest::Logout,
        Category::Payment => SaleRequest::Payment(payment(alloc, found)?),
        Category::Reversal => SaleRequest::Reversal(reversal(found)),
        Category::Abort => SaleRequest::Abort(abort(found)),
        Category::TransactionStatus => SaleRequest::Status(status(found)),
        Category::Reconciliation => SaleRequest::Reconciliation(reconciliation(found)),
        Category::Display => SaleRequest::Display(outputs(alloc, parts(category, found))?),
        Category::Print => SaleRequest::Print(qualifier(found)),
        Category::Diagnosis => SaleRequest::Diagnosis,
    };
    Ok(request)
}
