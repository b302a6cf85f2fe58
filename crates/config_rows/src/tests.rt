//! Rows of configuration documents, in the forms that `documents` and `setups` say.
use crate::documents::{check_lengths, check_no_toml, check_numbers, check_rows, check_sizes};
use crate::setups::{check_setup, check_setups};
use gw_config::ConfigFault;
use std::test::Fail;

/// What comes before a terminal with the keys that it has to have.
const BEFORE_TERMINAL: &str = "\
%[[terminal]]
poi = 'T1'
address = 'a'
currency = 'EUR'
";

/// What takes the place of the keys that a document has to have before its terminals.
const HEADS: &str = "\
listen = 'l'
journal = 'j'
> accepted

> config missing listen

listen = 7
> config wrong listen

listen = ''
> config wrong listen

listen = 'l'
> config missing journal

listen = 'l'
journal = true
> config wrong journal

listen = 'l'
journal = ['j']
> config wrong journal

listen = 'l'
journal = ''
> config wrong journal

journal = 7
> config missing listen";

/// What comes after the keys that a document has to have before its terminals.
const AFTER_HEAD: &str = "\
listen = 'l'
journal = 'j'
%[[terminal]]
poi = 'T1'
address = 'a'
currency = 'EUR'
";

/// Keys of the document that may be absent, and unknown ones.
const KEYS: &str = r#"name = ''
> config wrong name

name = ' ~'
> accepted

name = 'Käse'
> config wrong name

name = "\u007F"
> config wrong name

name = 1979-05-27
> config wrong name

line = 0
> accepted

line = 8
> accepted

line = 9
> config wrong line

line = -1
> config wrong line

line = '2'
> config wrong line

wait = 1
> accepted

wait = 3600
> accepted

wait = 0
> config wrong wait

wait = 3601
> config wrong wait

wait = 60.0
> config wrong wait

slots = 2
> accepted

slots = 1_000_000
> accepted

slots = 1
> config wrong slots

slots = 1000001
> config wrong slots

slots = 4294967298
> config wrong slots

slots = '2'
> config wrong slots

zebra = 1
ant = 2
> config wrong ant

POI = 1
> config wrong POI

line = 9
ant = 2
> config wrong line"#;

/// The fault lines of keys of the document.
#[test]
fn heads(rt: HostRuntime) -> Result<(), Fail> {
    check_rows(&rt, rt.alloc(), BEFORE_TERMINAL, HEADS)?;
    check_rows(&rt, rt.alloc(), AFTER_HEAD, KEYS)
}

/// What takes the terminal's place.
const IN_PLACE_OF_TERMINAL: &str = "\
listen = 'l'
journal = 'j'
%";

/// What may be in its place.
const TERMINALS: &str = r#"> config missing terminal

terminal = []
> config wrong terminal

terminal = 'T1'
> config wrong terminal

terminal = ['T1']
> config wrong terminal

[terminal]
poi = 'T1'
> config wrong terminal

[[terminal]]
> config missing terminal.poi

[[terminal]]
poi = 1
> config wrong terminal.poi

[[terminal]]
poi = ''
> config wrong terminal.poi

[[terminal]]
poi = 'Ä'
> config wrong terminal.poi

[[terminal]]
poi = "\u001F"
> config wrong terminal.poi

[[terminal]]
poi = 'T1'
> config missing terminal.address

[[terminal]]
poi = 'T1'
address = 1
> config wrong terminal.address

[[terminal]]
poi = 'T1'
address = ''
> config wrong terminal.address

[[terminal]]
poi = 'T1'
address = 'a'
> config missing terminal.currency

[[terminal]]
poi = 'T1'
address = 'a'
currency = 978
> config wrong terminal.currency

[[terminal]]
poi = 'T1'
address = 'a'
currency = 'eur'
> config wrong terminal.currency

[[terminal]]
poi = 'T1'
address = 'a'
currency = 'JPY'
> config wrong terminal.currency

[[terminal]]
poi = 'T1'
address = 'a'
currency = 'EURO'
> config wrong terminal.currency"#;

/// The fault lines of what takes the terminal's place.
#[test]
fn terminals(rt: HostRuntime) -> Result<(), Fail> {
    check_rows(&rt, rt.alloc(), IN_PLACE_OF_TERMINAL, TERMINALS)
}

/// What comes after the terminal.
const AFTER_TERMINAL: &str = "\
listen = 'l'
journal = 'j'
[[terminal]]
poi = 'T1'
address = 'a'
currency = 'EUR'
%";

/// More of its keys, and other terminals.
const MORE: &str = "\
password = '999999'
> accepted

password = '12345'
> config wrong terminal.password

password = '1234567'
> config wrong terminal.password

password = '12345a'
> config wrong terminal.password

password = 123456
> config wrong terminal.password

config = 0
none = 255
> accepted

config = 255
none = 0
> accepted

config = 256
> config wrong terminal.config

config = -1
> config wrong terminal.config

config = '186'
> config wrong terminal.config

none = 256
> config wrong terminal.none

none = -1
> config wrong terminal.none

none = 131.0
> config wrong terminal.none

answer = 1
command = 3600
> accepted

answer = 60
command = 1
> accepted

answer = 0
> config wrong terminal.answer

answer = 61
> config wrong terminal.answer

answer = true
> config wrong terminal.answer

command = 0
> config wrong terminal.command

command = 3601
> config wrong terminal.command

command = [180]
> config wrong terminal.command

pin = 1
> config wrong terminal.pin

[[terminal]]
poi = 'T1'
address = 'b'
currency = 'CHF'
> config twice T1

[[terminal]]
poi = ' ~'
address = 'b'
currency = 'CHF'
> accepted

[[terminal]]
poi = 'T1'
> config missing terminal.address

zebra = 1
[[terminal]]
poi = 'T2'
address = 'b'
currency = 'CHF'
ant = 1
> config wrong terminal.ant

zebra = 1
[[terminal]]
poi = 'T1'
address = 'b'
currency = 'CHF'
> config twice T1";

/// A whole document with unknown keys in it and in its terminal.
const UNKNOWN_KEYS: &str = "\
listen = 'l'
journal = 'j'
zoo = 1
[[terminal]]
poi = 'T1'
address = 'a'
currency = 'EUR'
ant = 1
> config wrong zoo";

/// The fault lines of what comes after the terminal.
#[test]
fn after_terminals(rt: HostRuntime) -> Result<(), Fail> {
    check_rows(&rt, rt.alloc(), AFTER_TERMINAL, MORE)?;
    check_rows(&rt, rt.alloc(), "%", UNKNOWN_KEYS)
}

/// A document whose terminal has this currency.
const CURRENCY: &str = "\
listen = 'l'
journal = 'j'
[[terminal]]
poi = 'T1'
address = 'a'
currency = '%'
";

/// Its setup, in which absent keys have their defaults.
const CURRENCY_SETUP: &str = "\
listen l
journal j
name GATEWAY
line 0
wait 60
slots 1000000
poi T1
address a
currency %
password 000000
config 0
none 131
answer 5
command 180
";

/// The code of each currency, and its name.
const CURRENCIES: &str = "\
EUR Eur
CHF Chf
GBP Gbp
USD Usd
DKK Dkk
SEK Sek
NOK Nok
PLN Pln
CZK Czk";

/// The code of each currency.
#[test]
fn currencies(rt: HostRuntime) -> Result<(), Fail> {
    check_setups(&rt, rt.alloc(), CURRENCY, CURRENCY_SETUP, CURRENCIES)
}

const NAME: &str = "\
listen = 'l'
journal = 'j'
name = '%'
[[terminal]]
poi = 'T1'
address = 'a'
currency = 'EUR'
";

const LISTEN: &str = "\
listen = '%'
journal = 'j'
[[terminal]]
poi = 'T1'
address = 'a'
currency = 'EUR'
";

const JOURNAL: &str = "\
listen = 'l'
journal = '%'
[[terminal]]
poi = 'T1'
address = 'a'
currency = 'EUR'
";

const NAMES: &str = "\
1 accepted
40 accepted
41 config wrong name
255 config wrong name
256 config wrong name";

const LISTENS: &str = "\
1 accepted
40 accepted
41 accepted
255 accepted
256 config wrong listen";

const JOURNALS: &str = "\
1 accepted
40 accepted
41 accepted
255 accepted
256 config wrong journal";

/// A document that ends with a comment.
const COMMENT: &str = "\
listen = 'l'
journal = 'j'
[[terminal]]
poi = 'T1'
address = 'a'
currency = 'EUR'
#%";

/// Documents of the greatest size, and of one byte more.
const DOCUMENTS: &str = "65536 accepted\n65537 config long";

/// Texts at their limits and one byte beyond: of one byte, of the most, and of one more.
#[test]
fn lengths(rt: HostRuntime) -> Result<(), Fail> {
    check_lengths(&rt, rt.alloc(), NAME, NAMES)?;
    check_lengths(&rt, rt.alloc(), LISTEN, LISTENS)?;
    check_lengths(&rt, rt.alloc(), JOURNAL, JOURNALS)?;
    check_sizes(&rt, rt.alloc(), COMMENT, DOCUMENTS)
}

const POI: &str = "\
listen = 'l'
journal = 'j'
[[terminal]]
poi = '%'
address = 'a'
currency = 'EUR'
";

const ADDRESS: &str = "\
listen = 'l'
journal = 'j'
[[terminal]]
poi = 'T1'
address = '%'
currency = 'EUR'
";

const POIS: &str = "\
1 accepted
40 accepted
41 config wrong terminal.poi
255 config wrong terminal.poi
256 config wrong terminal.poi";

const ADDRESSES: &str = "\
1 accepted
40 accepted
41 accepted
255 accepted
256 config wrong terminal.address";

/// Texts of a terminal at their limits and one byte beyond: of one byte, of the most, and of one more.
#[test]
fn terminal_lengths(rt: HostRuntime) -> Result<(), Fail> {
    check_lengths(&rt, rt.alloc(), POI, POIS)?;
    check_lengths(&rt, rt.alloc(), ADDRESS, ADDRESSES)
}

/// A terminal with a number.
const NUMBERED: &str = "\
[[terminal]]
poi = 'T%'
address = 'a'
currency = 'EUR'
";

/// The greatest number of terminals and one more.
#[test]
fn terminal_numbers(rt: HostRuntime) -> Result<(), Fail> {
    check_numbers(
        &rt,
        rt.alloc(),
        IN_PLACE_OF_TERMINAL,
        NUMBERED,
        "32 accepted\n33 config wrong terminal",
    )
}

/// Text that is no TOML, and bytes that are no text.
const NO_TOML: [&[u8]; 4] = [
    b"listen",
    b"listen = 1\nlisten = 2\n",
    b"listen = 'l\xFF'\n",
    b"# \xED\xA0\x80\n",
];

/// Text that is no TOML, bytes that are no text, and the line of an offset.
#[test]
fn no_toml(rt: HostRuntime) -> Result<(), Fail> {
    for document in &NO_TOML {
        check_no_toml(&rt, rt.alloc(), document);
    }
    let line = ConfigFault::NotToml { at: 17 }.line(rt.alloc())?;
    assert_eq!(rt; line.as_slice(), b"config not-toml 17".as_slice());
    Ok(())
}

/// The document examples/gateway.toml, byte for byte, as tools/check-configuration sees.
const EXAMPLE: &str =
    r#"# A gateway for one terminal, with as many keys as a usual one has. Those that are absent have their defaults.
listen = "127.0.0.1:7000"
journal = "gateway.jrn"
line = 2
[[terminal]]
poi = "T1"
address = "127.0.0.1:20007"
currency = "EUR"
password = "123456"
config = 186
"#;

/// Its setup.
const EXAMPLE_SETUP: &str = "\
listen 127.0.0.1:7000
journal gateway.jrn
name GATEWAY
line 2
wait 60
slots 1000000
poi T1
address 127.0.0.1:20007
currency Eur
password 123456
config 186
none 131
answer 5
command 180
";

/// The usual document, as it lies among the examples, and the least one.
#[test]
fn setups(rt: HostRuntime) -> Result<(), Fail> {
    check_setup(&rt, rt.alloc(), EXAMPLE, EXAMPLE_SETUP)?;
    check_setups(&rt, rt.alloc(), CURRENCY, CURRENCY_SETUP, "EUR Eur")
}
