//! Laws of what is asked of terminals, and of the texts of entries.
ghost use Rattle.xlate.specs.Ask.{CommandsHaveDigits};
ghost use Rattle.xlate.specs.Example.{ExampleCommands, ExampleNumbers, ExampleTexts};
ghost use Rattle.xlate.specs.Text.{TextIdentifiesEntry};

use gw_base::law_transaction_texts;

/// Of records within their limits, the command of an Intent can be written.
pub fn law_commands()
    ensures { CommandsHaveDigits }
{}

/// Of approved entries, equal texts have equal number, receipt and slot.
pub fn law_texts()
    ensures { TextIdentifiesEntry }
{
    law_transaction_texts();
}

/// Examples of the laws, which are computed: their premises hold of a payment, its reversal and its approvals, and those of
/// `law_transaction_texts` of the greatest numbers.
pub fn law_examples()
    ensures commands { ExampleCommands }
    ensures texts { ExampleTexts }
    ensures numbers { ExampleNumbers }
{}
