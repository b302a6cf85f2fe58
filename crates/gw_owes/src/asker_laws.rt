//! Laws of the till of what a terminal serves. The function does nothing: its contract is the law.
ghost use Rattle.gw_owes.specs.AskerLaws.{EachGoneIsForgotten, EachItemKeepsTill, EachLinkKeepsTill, EachLinkSendsIts, EachSendIsToIts, EachServedKeepsTill, ExampleTill, GoneLeavesRest};

/// What a terminal serves belongs to the till that asked for it. A terminal that begins to serve something was ready, and has the till
/// whose request that is, which comes now or is the first that waits for it. It keeps that till whatever is asked, sent, lost or late, until what it serves is over, so that what it serves
/// before and after an item it serves for the same till; only once that till is gone it has none before. What an item of a terminal or an
/// event of its link owes any till goes to the terminal's till, or to the one whose request the item is about. An example, which is computed.
pub fn law_askers()
    ensures kept { EachItemKeepsTill }
    ensures served { EachServedKeepsTill }
    ensures links { EachLinkKeepsTill }
    ensures gone { EachGoneIsForgotten }
    ensures gone_item { GoneLeavesRest }
    ensures sends { EachSendIsToIts }
    ensures link_sends { EachLinkSendsIts }
    ensures example { ExampleTill }
{}
