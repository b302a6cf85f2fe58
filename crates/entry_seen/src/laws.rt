//! The law of what a till reads in the reply to a resolved entry, and its example.
ghost use Rattle.entry_seen.specs.Example.{ExampleReplies};
ghost use Rattle.entry_seen.specs.ReplyRead.{RepliesSayRecords};

use sale_seen::law_reply_read;

/// An entry that is resolved has one reply, in which a till reads the result, condition, number, receipt and amount of its
/// records.
pub fn law_replies()
    ensures { RepliesSayRecords }
{
    law_reply_read();
}

/// An example of the law, which is computed: its premises hold of a payment of which less was approved than was asked for.
pub fn law_example()
    ensures { ExampleReplies }
{}
