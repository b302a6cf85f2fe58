//! Why a message is no message of a till.
use crate::Header;
use gw_base::Ident;
use std::error::Error;
use std::fmt;

/// Why a message is refused, with the path of the member in question: names divided by points.
///
/// A path has its bytes in place: a fault takes no memory, so it can be reported where memory is refused.
#[derive(Clone, Copy, PartialEq, Eq, Debug)]
pub enum SaleFault {
    /// No header was read.
    NoHeader { path: Ident<100> },
    /// A required member is absent.
    Missing { header: Header, path: Ident<100> },
    /// A member is of another form.
    Wrong { header: Header, path: Ident<100> },
    /// The category isn't one of this profile.
    Unserved { header: Header },
}

impl fmt::Display for SaleFault {
    fn fmt<W: fmt::Write>(&self, f: &mut fmt::Formatter<W>) -> fmt::Result {
        match self {
            SaleFault::NoHeader { path } => write!(f, "no header: {path}"),
            SaleFault::Missing { path, .. } => write!(f, "{path} is missing"),
            SaleFault::Wrong { path, .. } => write!(f, "{path} is of another form"),
            SaleFault::Unserved { header } => write!(f, "{} is not served", header.category),
        }
    }
}

impl Error for SaleFault {}
