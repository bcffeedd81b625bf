//! Laws about bundles, for every input.
ghost use Rattle.smap_tool.specs.BundleLaws.{FirstRows, HeaderIsComputed, OneBeginning, OneHeader};
ghost use Rattle.smap_tool.specs.BundleLaws.{TraceIsUnread};

/// A line is a header in at most one way, and so is the beginning of an input: the one that `header_in`
/// computes; and what the shortest inputs are answered.
pub fn bundle_headers()
    ensures computed { HeaderIsComputed }
    ensures one { OneHeader }
    ensures beginning { OneBeginning }
    ensures rows { FirstRows }
{}

/// Where reading a bundle gives up, nothing was read after the line `trace`.
pub fn trace_is_unread()
    ensures { TraceIsUnread }
{}
