//! Where a fault is in nested index maps: the index of a section at each level.
ghost use Rattle.std.specs.Prelude.{◌≡◌, ◌≤◌, ◌<◌, ◌↔◌, ◌∷◌, length, nat_eq, Some, IsSome, IfSome};
ghost use Rattle.std.specs.Cmp.{partial_equiv_from_equiv};
ghost use Rattle.std.specs.Cmp.Lexicographic.{nat_list_eq_equiv, pointwise};
ghost use Rattle.smap_shape.specs.Limits.{max_level};
ghost use Rattle.smap_record.specs.Faults.{outside};
ghost use Rattle.smap_record.specs.Messages.{path_text};

use arrayvec::ArrayVec;
use itoa::Buffer;
use smap_shape::MAX_LEVEL;
use std::fmt;
use std::marker::Model;

/// As many indices as there are levels of index maps.
const DEPTH: usize = MAX_LEVEL as usize;

/// The indices of sections from the outermost to the innermost, at most eight, each from 0 in its own
/// array. An empty path is outside of sections. `Display` joins the indices with dots.
#[derive(Drop)]
pub struct Path {
    numbers: ArrayVec<usize, DEPTH>,
}

impl Model for Path {
    ghost use Rattle.std.specs.Prelude.{ℕ, ◌≤◌, List, length};
    ghost use Rattle.smap_shape.specs.Limits.{max_level};

    ghost Value = { List ℕ };

    ghost view = { λ p. p.numbers.items };

    ghost invariant = { λ p. length p.numbers.items ≤ max_level };
}

impl Path {
    /// The path of these indices; none for more than eight.
    pub fn new(numbers: &[usize]) -> Option<Path>
        ensures few { IsSome result ↔ (length numbers.now ≤ max_level) }
        ensures numbers { IfSome result (λ p. p ≡ numbers.now) }
    {
        match ArrayVec::try_from(numbers) {
            Ok(numbers) => Some(Path { numbers }),
            Err(_) => None,
        }
    }

    /// The indices, from the outermost to the innermost.
    pub fn numbers(&self) -> &[usize]
        ensures numbers { result.now ≡ self.now }
        ensures few { length self.now ≤ max_level }
    {
        let numbers = &self.numbers;
        numbers.as_slice()
    }

    /// The empty path.
    pub fn outside() -> Path
        ensures { result ≡ outside }
    {
        Path {
            numbers: ArrayVec::new(),
        }
    }

    /// The path with the index of one more section before it.
    pub(crate) fn within(self, k: usize) -> Path
        requires { length self < max_level }
        ensures { result ≡ k ∷ self }
    {
        let Path { mut numbers } = self;
        numbers.insert(0, k);
        Path { numbers }
    }
}

impl PartialEq for Path {
    ghost eq = { λ a b. pointwise nat_eq a b };

    ghost laws = { partial_equiv_from_equiv nat_list_eq_equiv };

    fn eq(&self, other: &Path) -> bool {
        self.numbers() == other.numbers()
    }
}

impl Eq for Path {
    ghost laws = { nat_list_eq_equiv };
}

impl fmt::Debug for Path {
    fn fmt<W: fmt::Write>(&self, f: &mut fmt::Formatter<W>) -> fmt::Result {
        f.debug_list().entries(self.numbers()).finish()
    }
}

/// Joins the indices from the outermost to the innermost with dots, as in `0.2`; writes nothing for the empty
/// path.
impl fmt::Display for Path {
    ghost output = { λ path. Some (path_text path) };

    fn fmt<W: fmt::Write>(&self, f: &mut fmt::Formatter<W>) -> fmt::Result {
        let numbers = self.numbers();
        if numbers.is_empty() {
            return Ok(());
        }
        write!(f, "{}", Buffer::new().format(numbers[0]))?;
        for number in &numbers[1..] {
            write!(f, ".{}", Buffer::new().format(*number))?;
        }
        Ok(())
    }
}
