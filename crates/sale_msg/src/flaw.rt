//! What is wrong with a member.
use gw_base::Ident;
use sale_values::{Header, SaleFault};

/// Why an object doesn't meet a table, with the path of the member.
#[derive(Clone, Copy, PartialEq, Eq)]
pub(crate) enum Flaw {
    Missing(Ident<100>),
    Wrong(Ident<100>),
}

impl Flaw {
    ghost use Rattle.std.specs.Prelude.{◌≡◌};
    ghost use Rattle.sale_msg.specs.Grammar.{fault_of, path_of};

    /// The path.
    pub(crate) fn path(self) -> Ident<100>
        ensures { result ≡ path_of self }
    {
        match self {
            Flaw::Missing(path) => path,
            Flaw::Wrong(path) => path,
        }
    }

    /// The fault of a request with this header.
    pub(crate) fn fault(self, header: Header) -> SaleFault
        ensures { result ≡ fault_of header self }
    {
        match self {
            Flaw::Missing(path) => SaleFault::Missing { header, path },
            Flaw::Wrong(path) => SaleFault::Wrong { header, path },
        }
    }
}
