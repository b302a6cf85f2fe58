//! A played terminal, which a site feeds with what the gateway sends to it.
ghost use Rattle.std.specs.Prelude.{◌≡◌, ◌++◌, ◌||◌, ◌∷◌, [], List, Some, IfOk, OnErr};
ghost use Rattle.gw_base.specs.Setup.{IsPt};
ghost use Rattle.pt_core.specs.Serving.{heard_by_terminal, next_terminal};
ghost use Rattle.pt_core.specs.History.{Setting, Met, NewLink, Chunk, sent_on_link, book_after, has_cut, terminal_after};

use crate::account::Account;
use crate::book::Book;
use crate::laws::law_met;
use crate::play::Plays;
use gw_base::{Bytes, Pt};
use std::alloc::{AllocError, Global};
use std::marker::Model;
use zvt_apdu::ApduReader;

/// What the terminal does at the bytes of one call.
#[derive(Clone, Debug, Drop)]
pub struct Answer {
    /// What it sends, perhaps nothing.
    pub bytes: Bytes,
    /// Whether it cuts the connection after that.
    pub cut: bool,
}

/// A terminal that reacts to each whole command at once.
///
/// Contracts see it as its account and what waits on its connection; the history of a terminal is all the links and bytes
/// that it met, the newest first.
#[derive(Debug, Drop)]
pub struct Terminal {
    none: u8,
    plays: Plays,
    /// How many plays are used up.
    used: usize,
    book: Book,
    reader: ApduReader,
    /// It has cut the present link, and hears no more on it.
    is_cut: bool,
}

impl Model for Terminal {
    ghost use Rattle.std.specs.Prelude.{◌≡◌, drop, None, Some, if◌then◌else◌};
    ghost use Rattle.zvt_apdu.specs.Decode.{DecodedApdu, decode_apdu};
    ghost use Rattle.pt_core.specs.Serving.{AccountValue, TerminalValue};

    ghost Value = { TerminalValue };

    ghost view = { λ t. record {
      account = record { none = t.none; plays = drop t.used t.plays; book = t.book };
      connection = if t.is_cut then None else Some t.reader;
    } };

    ghost invariant = { λ t. decode_apdu t.reader ≡ DecodedApdu.Incomplete };
}

impl Terminal {
    /// A terminal that has met nothing yet. It says by the setup's result code that it has no transaction.
    pub fn new(alloc: Global, setup: &Pt, outcomes: Plays) -> Result<Terminal, AllocError>
        requires { IsPt setup.now }
        ensures { IfOk result (λ terminal. terminal ≡ terminal_after (record { none = setup.now.none; plays = outcomes }) []) }
    {
        law_met();
        Ok(Terminal {
            none: setup.none,
            plays: outcomes,
            used: 0,
            book: Book::of(Vec::new(alloc)),
            reader: ApduReader::new(alloc)?,
            is_cut: false,
        })
    }

    /// A new link. What is left of the old one is dropped.
    pub fn on_link(&mut self)
        ensures added { (setting : Setting) (met : List Met) → self.old ≡ terminal_after setting met
            → self.new ≡ terminal_after setting (NewLink ∷ met) }

        // The account stays, and nothing waits on the new link.
        ensures link { self.new ≡ record self.old { connection = Some [] } }
    {
        law_met();
        self.reader.clear();
        self.is_cut = false;
    }

    /// Bytes on the present link: what is sent for the commands that they complete.
    ///
    /// Without memory nothing is heard.
    pub fn on_bytes(&mut self, alloc: Global, bytes: &[u8]) -> Result<Answer, AllocError>
        // After all that was met, the bytes do what the table says.
        ensures added { IfOk result (λ done. (setting : Setting) (met : List Met) → self.old ≡ terminal_after setting met
            → self.new ≡ terminal_after setting (Chunk bytes.now ∷ met)) }
        ensures sent { IfOk result (λ done. (setting : Setting) (met : List Met) → self.old ≡ terminal_after setting met
            → sent_on_link setting (Chunk bytes.now ∷ met) ≡ sent_on_link setting met ++ done.bytes) }
        ensures cut { IfOk result (λ done. (setting : Setting) (met : List Met) → self.old ≡ terminal_after setting met
            → has_cut setting (Chunk bytes.now ∷ met) ≡ (has_cut setting met || done.cut)) }
        ensures err { OnErr result (self.new ≡ self.old) }

        // What is remembered and sent, by what was remembered before and the bytes.
        ensures next { IfOk result (λ done. self.new ≡ next_terminal self.old bytes.now) }
        ensures bytes { IfOk result (λ done. done.bytes ≡ (heard_by_terminal self.old self.old.connection bytes.now).bytes) }
        ensures cuts { IfOk result (λ done. done.cut ≡ (heard_by_terminal self.old self.old.connection bytes.now).cut) }
    {
        law_met();
        self.hear(alloc, bytes)
    }

    fn hear(&mut self, alloc: Global, bytes: &[u8]) -> Result<Answer, AllocError>
        ensures err { OnErr result (self.new ≡ self.old) }
        ensures next { IfOk result (λ done. self.new ≡ next_terminal self.old bytes.now) }
        ensures bytes { IfOk result (λ done. done.bytes ≡ (heard_by_terminal self.old self.old.connection bytes.now).bytes) }
        ensures cuts { IfOk result (λ done. done.cut ≡ (heard_by_terminal self.old self.old.connection bytes.now).cut) }
    {
        let mut out = Vec::new(alloc);
        if self.is_cut {
            return Ok(Answer {
                bytes: Bytes::new(out),
                cut: false,
            });
        }
        // The entries are lent to the account and given back, so that none is copied.
        let mut account = Account {
            none: self.none,
            plays: &self.plays,
            used: self.used,
            entries: self.book.take(alloc),
        };
        let heard = account.hear(&mut self.reader, bytes, &mut out);
        self.used = account.used;
        self.book = Book::of(account.entries);
        match heard {
            Ok(cut) => {
                self.is_cut = cut;
                Ok(Answer {
                    bytes: Bytes::new(out),
                    cut,
                })
            }
            Err(error) => Err(error),
        }
    }

    /// The book.
    pub fn book(&self) -> &Book
        ensures booked { (setting : Setting) (met : List Met) → self.now ≡ terminal_after setting met
            → result.now ≡ book_after setting met }

        // It is the account's.
        ensures account { result.now ≡ self.now.account.book }
    {
        &self.book
    }
}
