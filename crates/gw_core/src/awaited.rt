//! How many Acks and Nacks of a terminal are awaited.
ghost use Rattle.std.specs.Prelude.{◌≡◌};
ghost use Rattle.gw_owes.specs.Awaited.{one_less_awaited, one_more_awaited};

/// One more is awaited, once a command was sent; the greatest count stays.
pub(crate) fn one_more(awaited: u32) -> u32
    ensures { result ≡ one_more_awaited awaited }
{
    if awaited == u32::MAX {
        awaited
    } else {
        awaited + 1
    }
}

/// One less is awaited, once an Ack or a Nack was heard; the greatest count stays, and so does 0.
pub(crate) fn one_less(awaited: u32) -> u32
    ensures { result ≡ one_less_awaited awaited }
{
    if awaited == u32::MAX {
        awaited
    } else {
        awaited.saturating_sub(1)
    }
}
