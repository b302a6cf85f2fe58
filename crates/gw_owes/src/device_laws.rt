//! Laws of device requests. Each function does nothing: its contract is the law.
ghost use Rattle.gw_owes.specs.DeviceLaws.{EachLinkLeavesNumber, EachRequestCounts, EachRunCounts, EachShownIsRequested, EachTillGoneLeavesNumber, NoLinkRequests, OnlyShownIsRequested, PrintedIsWithin};

/// While a terminal serves a payment, a reversal or an end of day whose till is there, an intermediate status becomes a device request
/// that the till shows it by its code, and a line or a block one that it prints its lines: one, to that till, with the SaleID, the POIID
/// and the ServiceID of what is served, and with the number of those that were owed before in the run. The terminal serves what it
/// served, and nothing else is owed. No other item owes a device request, and no event of a link does; nothing else changes the number,
/// nor does a till that is gone. After 9,999,999,999 it is 0 again: along a run it is that of the device requests that were owed. The
/// lines are at most 400, and have at most 12,000 bytes together.
pub fn law_device_requests()
    ensures exactly { EachShownIsRequested }
    ensures only { OnlyShownIsRequested }
    ensures links { NoLinkRequests }
    ensures counted { EachRequestCounts }
    ensures lost { EachLinkLeavesNumber }
    ensures gone { EachTillGoneLeavesNumber }
    ensures along { EachRunCounts }
    ensures fits { PrintedIsWithin }
{
    zvt_msg::law_read_fits();
}
