//! The words of a program: `LISTEN GATEWAY [SOCKETS]`.
use std::net::SocketAddr;

/// What a program does.
#[derive(Clone, Copy, Debug)]
pub(crate) struct Route {
    /// Where tills come; nothing where the word is no address.
    pub(crate) listen: Option<SocketAddr>,
    /// Where the gateway listens.
    pub(crate) gateway: SocketAddr,
    /// After how many sockets it ends.
    pub(crate) sockets: u64,
}

/// An IP address and a port. To look a name up can take seconds.
fn address(word: &str) -> Option<SocketAddr> {
    word.parse::<SocketAddr>().ok()
}

/// The number that a word spells in decimal digits, without sign or leading zeros.
fn number(word: &str) -> Option<u64> {
    // `parse` takes both, and a number has one spelling.
    if word.starts_with('+') || word.len() > 1 && word.starts_with('0') {
        return None;
    }
    word.parse().ok()
}

/// What these words say.
fn route_of(listen: &str, gateway: &str, sockets: Option<u64>) -> Option<Route> {
    Some(Route {
        listen: address(listen),
        gateway: address(gateway)?,
        sockets: sockets?,
    })
}

/// What the words say, if they are those of a program.
pub(crate) fn read(words: &[String]) -> Option<Route> {
    match words {
        [listen, gateway] => route_of(listen.as_str(), gateway.as_str(), Some(u64::MAX)),
        [listen, gateway, sockets] => {
            route_of(listen.as_str(), gateway.as_str(), number(sockets.as_str()))
        }
        _ => None,
    }
}
