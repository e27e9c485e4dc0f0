//! The places of numbers in a list.
ghost use Rattle.std.specs.Prelude.{◌≡◌, ◌==◌, ℕ, IfOk, if◌then◌else◌};
ghost use Rattle.ssa_text.specs.Text.{place_at, place_in};

use bits_core::Memory;
use std::alloc::Global;
use std::marker::Model;

/// The places of numbers in a list, from 1 on, and 0 of each other number.
#[derive(Drop)]
pub(crate) struct Places {
    at: Vec<u64>,
}

impl Model for Places {
    ghost use Rattle.std.specs.Prelude.{ℕ, List};

    ghost Value = { List ℕ };

    ghost view = { λ p. p.at.items };
}

impl Places {
    pub(crate) fn of(&self, number: u32) -> u64
        ensures { result ≡ place_at self.now number }
    {
        match self.at.get(number as usize) {
            Some(place) => *place,
            None => 0,
        }
    }

    fn note(&mut self, number: u32, place: u64) -> Result<(), Memory>
        ensures { IfOk result (λ _. (x : ℕ) → place_at self.new x ≡ (if number == x then place else place_at self.old x)) }
    {
        let index = number as usize;
        if self.at.len() <= index {
            self.at.resize(index + 1, 0)?;
        }
        self.at[index] = place;
        Ok(())
    }
}

/// The places of these numbers. The first one of two that are equal has the place.
pub(crate) fn places_of(alloc: Global, numbers: &[u32]) -> Result<Places, Memory>
    ensures { IfOk result (λ places. (x : ℕ) → place_at places x ≡ place_in x numbers.now) }
{
    let mut places = Places {
        at: Vec::new(alloc),
    };
    let mut left = numbers.len();
    while left > 0 {
        left -= 1;
        places.note(numbers[left], left as u64 + 1)?;
    }
    Ok(places)
}
