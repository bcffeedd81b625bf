//! Reading a segment byte by byte, for a mappings string that comes in pieces.
ghost use Rattle.std.specs.Prelude.{◌≡◌, ◌-◌, List, ℕ, [], ◌∷◌, ◌++◌, take, length, replicate, pos};
ghost use Rattle.smap_vlq.specs.Segment.{fields_in};
ghost use Rattle.smap_vlq.specs.Pieces.{StandsFor};

use crate::digit::digit_value;
use crate::number::{NumberFault, Unsigned, signed};
use crate::segment::{Fields, SegmentFault, is_field_count};
use arrayvec::ArrayVec;

/// Reads a segment byte by byte, and stores none of its bytes: only the first five numbers, how many there
/// are, the unsigned value of an unfinished number, and the first fault.
#[derive(Drop)]
pub struct SegmentReader {
    numbers: ArrayVec<i32, 5>,
    /// How many numbers have ended. It stays at 255.
    count: u8,
    unsigned: Unsigned,
    /// Whether a digit came since the last number ended.
    begun: bool,
    fault: Option<NumberFault>,
}

impl SegmentReader {
    /// A reader before the first byte of a segment.
    pub fn new() -> SegmentReader
        ensures { StandsFor result [] }
    {
        SegmentReader {
            numbers: ArrayVec::new(),
            count: 0,
            unsigned: Unsigned::of_no_digits(),
            begun: false,
            fault: None,
        }
    }

    /// Takes the next byte of the segment. A fault is answered by [`SegmentReader::end`].
    pub fn byte(&mut self, byte: u8)
        ensures { (text : List ℕ) → StandsFor self.old text → StandsFor self.new (text ++ byte ∷ []) }
    {
        if self.fault.is_some() {
            return;
        }
        let Some(digit) = digit_value(byte) else {
            self.fault = Some(NumberFault::Character);
            return;
        };
        let unsigned = self.unsigned.with_digit(digit);
        if digit >= 32 {
            self.unsigned = unsigned;
            self.begun = true;
            return;
        }
        match signed(unsigned.total) {
            Ok(number) => {
                self.unsigned = Unsigned::of_no_digits();
                self.begun = false;
                keep(&mut self.numbers, number);
                self.count = self.count.saturating_add(1);
            }
            Err(fault) => self.fault = Some(fault),
        }
    }

    /// Ends the segment, and answers what [`read_segment`](crate::read_segment) answers for the bytes since
    /// `new` or the last `end`. The reader is then ready for the next segment.
    ///
    /// # Errors
    ///
    /// Those of `read_segment`.
    pub fn end(&mut self) -> Result<Fields, SegmentFault>
        ensures answers { (text : List ℕ) → StandsFor self.old text → result ≡ fields_in text }
        ensures again { StandsFor self.new [] }
    {
        let answer = self.fields();
        *self = SegmentReader::new();
        answer
    }

    /// The fields of the bytes so far, or their first fault.
    fn fields(&self) -> Result<Fields, SegmentFault>
        ensures { (text : List ℕ) → StandsFor self.now text → result ≡ fields_in text }
    {
        if let Some(fault) = self.fault {
            return Err(SegmentFault::Number(self.count.saturating_add(1), fault));
        }
        if self.begun {
            return Err(SegmentFault::Number(self.count.saturating_add(1), NumberFault::Unfinished));
        }
        if self.count == 0 {
            return Err(SegmentFault::Empty);
        }
        if !is_field_count(self.count as usize) {
            return Err(SegmentFault::Count(self.count));
        }
        Ok(Fields {
            numbers: padded(&self.numbers),
            count: self.count,
        })
    }
}

/// Keeps a number, if it is one of the first five.
fn keep(numbers: &mut ArrayVec<i32, 5>, number: i32)
    ensures { numbers.new.items ≡ take 5 (numbers.old.items ++ number ∷ []) }
{
    if !numbers.is_full() {
        numbers.push(number);
    }
}

/// The numbers, followed by zeros up to five.
fn padded(numbers: &ArrayVec<i32, 5>) -> [i32; 5]
    ensures { result ≡ numbers.now.items ++ replicate (5 - length numbers.now.items) (pos 0) }
{
    let mut places = [0; 5];
    let numbers = numbers.as_slice();
    for place in 0..numbers.len() {
        places[place] = numbers[place];
    }
    places
}
