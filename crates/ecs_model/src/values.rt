//! The values of facts.

ghost use Rattle.std.specs.Prelude.{◌≡◌, ◌≤◌, length, replicate, pos};

use std::marker::Model;

/// How many numbers a value has at most.
pub const MOST_NUMBERS: usize = 8;

/// The value of a fact: up to eight numbers, one for each field of its component.
#[derive(Clone, Copy, Debug)]
pub struct Value {
    /// Those after the count are zero.
    numbers: [i128; MOST_NUMBERS],
    count: usize,
}

impl Model for Value {
    ghost use Rattle.std.specs.Prelude.{List, ℤ, ◌++◌, length, take, replicate, pos, ◌-◌};
    ghost use Rattle.ecs_model.specs.Values.{IsFilledUp, given_back};

    ghost Value = { List ℤ };

    ghost view = { λ v. take v.count v.numbers };

    ghost invariant = { λ v. IsFilledUp v.numbers v.count };

    ghost inverse = { λ ns. record { numbers = ns ++ replicate (8 - length ns) (pos 0); count = length ns } };

    ghost inverse_ok = { λ v h i. record {
      numbers = (given_back v.numbers v.count h).0 i;
      count = (given_back v.numbers v.count h).1 i;
    } };
}

impl Value {
    /// The value with these numbers.
    pub fn new(numbers: &[i128]) -> Value
        requires { length numbers.now ≤ 8 }
        ensures { result ≡ numbers.now }
    {
        let mut all = [0; MOST_NUMBERS];
        all[..numbers.len()].copy_from_slice(numbers);
        Value {
            numbers: all,
            count: numbers.len(),
        }
    }

    /// The value that a new fact has: a zero for each field.
    pub fn zeros(count: usize) -> Value
        requires { count ≤ 8 }
        ensures { result ≡ replicate count (pos 0) }
    {
        Value {
            numbers: [0; MOST_NUMBERS],
            count,
        }
    }

    /// The numbers, in the order of the fields.
    pub fn as_slice(&self) -> &[i128]
        ensures numbers { result.now ≡ self.now }
        ensures few { length result.now ≤ 8 }
    {
        &self.numbers[..self.count]
    }
}

impl PartialEq for Value {
    ghost use Rattle.std.specs.Cmp.{partial_equiv_from_equiv, int_eq_equiv};
    ghost use Rattle.std.specs.Cmp.Lexicographic.{lists_equiv, pointwise};
    ghost use Rattle.std.specs.Ordering.{int_eq};

    ghost eq = { pointwise int_eq };

    ghost laws = { partial_equiv_from_equiv (lists_equiv int_eq_equiv) };

    fn eq(&self, other: &Value) -> bool {
        self.as_slice() == other.as_slice()
    }
}

impl Eq for Value {
    ghost use Rattle.std.specs.Cmp.{int_eq_equiv};
    ghost use Rattle.std.specs.Cmp.Lexicographic.{lists_equiv};

    ghost laws = { lists_equiv int_eq_equiv };
}
