//! The text that names a transaction of a terminal.
ghost use Rattle.std.specs.Prelude.{◌≡◌, length};
ghost use Rattle.gw_base.specs.Digits.{digits};
ghost use Rattle.gw_base.specs.Transaction.{ExampleTransactionTexts, TransactionTextsDiffer, transaction_text};

use arrayvec::ArrayVec;
use itoa::Buffer;

/// The text that names a transaction: its trace number in six digits, its receipt number in four, and the slot of its
/// Intent, with dashes between.
#[tactic(auto, unfolding(crate::specs::Transaction::transaction_text))]
pub fn transaction_text(trace: u32, receipt: u16, slot: u32) -> ArrayVec<u8, 24>
    ensures { result.items ≡ transaction_text trace receipt slot }
{
    // 6 and 4 digits, up to 10 of a slot, and two dashes: 22 bytes at most.
    let mut text = ArrayVec::new();
    text.try_extend_from_slice(&last_digits::<6>(u64::from(trace)))
        .unwrap();
    text.push(b'-');
    text.try_extend_from_slice(&last_digits::<4>(u64::from(receipt)))
        .unwrap();
    text.push(b'-');
    text.try_extend_from_slice(Buffer::new().format(slot).as_bytes())
        .unwrap();
    text
}

/// The last digits of a number, with leading zeros.
fn last_digits<const N: usize>(value: u64) -> [u8; N]
    ensures { result ≡ digits N value }
{
    let mut cells = [b'0'; N];
    fill_digits(value, &mut cells);
    cells
}

fn fill_digits(value: u64, cells: &mut [u8])
    ensures { cells.new ≡ digits (length cells.old) value }
{
    let mut rest = value;
    for index in (0..cells.len()).rev() {
        cells[index] = b'0' + (rest % 10) as u8;
        rest /= 10;
    }
}

/// Transactions whose numbers lie within their limits have one text only where they have the same numbers.
pub fn law_transaction_texts()
    ensures { TransactionTextsDiffer }
{}

/// Examples of the law, which are computed: the greatest numbers, those of an approval, and a decline.
pub fn law_transaction_examples()
    ensures { ExampleTransactionTexts }
{}
