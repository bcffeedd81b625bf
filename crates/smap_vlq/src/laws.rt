//! Laws about numbers and segments. The functions do nothing: a law is the contract of one.
ghost use Rattle.smap_vlq.specs.Laws.{HasOneShortest, NoneBeginsAnother, NumberIsSpelled};
ghost use Rattle.smap_vlq.specs.Laws.{NumberFaultIsDecided, SegmentIsSpelled, SegmentFaultIsFirst};
ghost use Rattle.smap_vlq.specs.Laws.{CountIsWrong, SegmentFaultIsDecided};

/// Each number has exactly one shortest encoding, which `spell` writes; every other encoding of it is
/// longer, and no encoding of a number is a prefix of another one.
pub fn unique_shortest_spelling()
    ensures one_shortest { HasOneShortest }
    ensures none_begins_another { NoneBeginsAnother }
{}

/// `read_number` reads exactly the encodings of numbers, and refuses every other string with the fault that
/// its first byte that isn't a continuation digit has.
pub fn numbers_are_spelled()
    ensures number { NumberIsSpelled }
    ensures fault { NumberFaultIsDecided }
{}

/// `read_segment` reads exactly the strings that are 1, 4 or 5 numbers with nothing between them, and
/// refuses every other string with its first fault.
pub fn segments_are_spelled()
    ensures segment { SegmentIsSpelled }
    ensures fault { SegmentFaultIsDecided }
    ensures first_fault { SegmentFaultIsFirst }
    ensures count { CountIsWrong }
{}
