//! What holds of the structs that cross to C, and of calls as they were in version 0.1.
ghost use Rattle.std.specs.Prelude.{false, true};
ghost use Rattle.smap_c.specs.Order.{BuilderOrder, BytesOrder, CountsOrder, FaultOrder, FrameOrder};
ghost use Rattle.smap_c.specs.Order.{LimitsOrder, ListedOrder, MapOrder, MappingOrder, NumbersOrder};
ghost use Rattle.smap_c.specs.Order.{OwnerOrder, ScriptsOrder, TraceCountsOrder};
ghost use Rattle.smap_c.specs.Traces.{AsksByBool};

/// The fields of each struct lie in the order in which C declares them.
pub fn fields_in_order()
    ensures fault { FaultOrder }
    ensures limits { LimitsOrder }
    ensures counts { CountsOrder }
    ensures mapping { MappingOrder }
    ensures listed { ListedOrder }
    ensures frame { FrameOrder }
    ensures trace_counts { TraceCountsOrder }
    ensures numbers { NumbersOrder }
{}

/// The same of the handles, whose pointer lies in what they own.
pub fn handles_in_order()
    ensures map { MapOrder × OwnerOrder }
    ensures bytes { BytesOrder × OwnerOrder }
    ensures scripts { ScriptsOrder × OwnerOrder }
    ensures builder { BuilderOrder × OwnerOrder }
{}

/// A caller that passes whether to hide, as a `bool`, gets what it got when the parameter was one.
pub fn hide_may_be_a_bool()
    ensures shown { AsksByBool 0 false }
    ensures hidden { AsksByBool 1 true }
{}
