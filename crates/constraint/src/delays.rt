// The list of a delay: at most eight numbers, which clauses see as a list.
ghost use Rattle.std.specs.Prelude.{◌≡◌, ◌<◌, ◌≤◌, ◌++◌, ◌∷◌, [], length, nat_le};
ghost use Rattle.std.specs.List.{list_all};
ghost use Rattle.constraint.specs.declared.Counter.TheVariants.{Pending};
ghost use Rattle.constraint.specs.Meaning as m;

use std::marker::Model;

// Behind the last number the array has zeros, so that equal lists are equal values, which `==` compares; an `ArrayVec` is not copied, as records are.
#[derive(Clone, Copy, Debug, PartialEq, Eq)]
pub struct Delays {
    numbers: [u8; 8],
    count: u64,
}

impl Model for Delays {
    ghost use Rattle.std.specs.Prelude.{List, ℕ};

    ghost Value = { List ℕ };

    ghost use Rattle.constraint.specs.Fields.{numbers_shown, IsPadded, fields, fields_back};

    ghost view = { numbers_shown };

    ghost invariant = { IsPadded };

    ghost inverse = { fields };

    ghost inverse_ok = { fields_back };
}

impl Delays {
    // No number yet.
    pub fn new() -> Self
        ensures { result ≡ [] }
    {
        Delays {
            numbers: [0; 8],
            count: 0,
        }
    }

    // The numbers, in order.
    #[inline(always)]
    pub fn as_slice(&self) -> &[u8]
        ensures { result.now ≡ self.now }
    {
        &self.numbers[..self.len()]
    }

    #[inline(always)]
    pub fn len(&self) -> usize
        ensures value { result ≡ length self.now }
        ensures few { result ≤ 8 }
    {
        self.count as usize
    }

    #[inline(always)]
    pub fn is_full(&self) -> bool
        ensures { result ≡ nat_le 8 (length self.now) }
    {
        8 <= self.count
    }

    // Puts a number behind the others, where there is room.
    #[inline(always)]
    pub fn push(&mut self, n: u8)
        requires { length self.old < 8 }
        ensures { self.new ≡ self.old ++ n ∷ [] }
    {
        self.numbers[self.count as usize] = n;
        self.count += 1;
    }

    // Whether there are one to eight numbers, each 1 to 32.
    #[inline(always)]
    pub fn in_limits(&self) -> bool
        ensures { result ≡ m.parameter_fits (Pending self.now) }
    {
        1 <= self.len() && self.len() <= 8 && all_in_limits(self.as_slice())
    }
}

// Whether each number is 1 to 32.
fn all_in_limits(numbers: &[u8]) -> bool
    ensures { result ≡ list_all m.delay_fits numbers.now }
{
    numbers.iter().all(|&n| 1 <= n && n <= 32)
}
