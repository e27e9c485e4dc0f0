//! What the variables of a function hold.

use crate::value::expr_word;
use bits_core::{Width, Word};
use cmeaning::{CFunction, Expr};
use std::alloc::{AllocError, Global};

/// The variables of a function, each with the word that it holds, none where it was never assigned.
#[derive(Drop)]
pub struct Variables<'a> {
    /// The function whose variables they are: the parameters first, then the locals.
    pub f: &'a CFunction,
    pub words: Vec<Option<Word>>,
    pub ghost all: { length words.items ≡ length f.now.params + length f.now.locals },
    /// Each word is as wide as its variable.
    pub ghost wide: { AreWide (widths_in f.now) words.items },
}

ghost use Rattle.std.specs.Prelude.{◌≡◌, ◌+◌, length};
ghost use Rattle.cmeaning.specs.Do.{widths_in};
ghost use Rattle.cvalue.specs.Held.{AreWide};

impl<'a> Variables<'a> {
    ghost use Rattle.std.specs.Prelude.{◌≡◌, ◌<◌, IfOk, None, Some, true};
    ghost use Rattle.pcode_model.specs.Spaces.{put};
    ghost use Rattle.cmeaning.specs.Do.{widths_in};
    ghost use Rattle.cmeaning.specs.Shape.{shape_of, is_right};
    ghost use Rattle.cmeaning.specs.Value.{value_of, width_of};
    ghost use Rattle.cvalue.specs.Held.{env_of, number_in, IsWide};

    #[tactic(auto, using(crate::proofs::Words::none_held, crate::proofs::Words::none_wide))]
    /// Of a function that has assigned none yet.
    pub fn new(alloc: Global, f: &'a CFunction) -> Result<Variables<'a>, AllocError>
        ensures unassigned { IfOk result (λ x. env_of x.words.items ≡ λ v. None) }
        ensures function { IfOk result (λ x. x.f.now ≡ f.now) }
    {
        let count = f.params.as_slice().len() + f.locals.as_slice().len();
        let words = Vec::from_elem(alloc, None, count)?;
        Ok(Variables { f, words })
    }

    /// The width of a variable that there is.
    pub fn width(&self, v: u32) -> Width
        requires { 0 < widths_in self.now.f.now v }
        ensures { result.bytes ≡ widths_in self.now.f.now v }
    {
        let v = v as usize;
        match self.f.params.get(v) {
            Some(p) => p.width,
            None => match self.f.locals.get(v - self.f.params.len()) {
                Some(x) => x.width,
                None => unreachable!(),
            },
        }
    }

    /// The word that a variable holds.
    pub fn word(&self, v: u32) -> Option<Word>
        ensures value { number_in result ≡ env_of self.now.words.items v }
        ensures width { IsWide (widths_in self.now.f.now v) result }
    {
        match self.words.get(v as usize) {
            None => None,
            Some(w) => *w,
        }
    }

    #[tactic(auto, using(crate::proofs::Words::env_set, crate::proofs::Words::wide_set, crate::proofs::Words::inside))]
    /// A variable that there is takes a word of its width.
    pub fn assign(&mut self, v: usize, word: Word)
        requires { word.width.bytes ≡ widths_in self.old.f.now v }
        ensures value { env_of self.new.words.items ≡ put (env_of self.old.words.items) v (Some word.value) }
        ensures function { self.new.f.now ≡ self.old.f.now }
    {
        self.words[v] = Some(word);
    }

    /// The value of an expression that obeys the rules of a valid tree, where it has one.
    pub fn value(&self, e: &Expr) -> Option<Word>
        requires { is_right (shape_of (widths_in self.now.f.now) e.now) ≡ true }
        ensures value { number_in result ≡ value_of (widths_in self.now.f.now) (env_of self.now.words.items) e.now }
        ensures width { IsWide (width_of (widths_in self.now.f.now) e.now) result }
    {
        expr_word(self, e)
    }
}
