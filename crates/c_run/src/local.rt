//! The state of a run, but for its place.

use bits_core::Word;
use cvalue::Variables;
use run_world::{ByteMap, End, Log, OffsetMap};

#[derive(Drop)]
pub struct Local<'a> {
    pub variables: Variables<'a>,
    /// The bytes of the register space that the last answer left; the others are 0.
    pub left: OffsetMap,
    pub memory: ByteMap,
    pub log: Log,
}

impl<'a> Local<'a> {
    ghost use Rattle.std.specs.Prelude.{List};
    ghost use Rattle.cmeaning.specs.Do.{assigned, ends, widths_in, with_word};
    ghost use Rattle.machine.specs.Trace.{Undefined};
    ghost use Rattle.cvalue.specs.Held.{IsWide, number_in};
    ghost use Rattle.run_world.specs.Meaning.{end_of};
    ghost use Rattle.run_world.specs.declared.entry.Answer.{Answer as AnAnswer};
    ghost use Rattle.c_run.specs.States.{Becomes, local_of};

    /// The run ends.
    pub fn finish(&mut self, end: End)
        ensures { (answers : List AnAnswer)
            → Becomes answers self.old self.new (ends (end_of end) (local_of answers self.old)) }
    {
        self.log.end = Some(end);
    }

    /// A variable that there is takes a word of its width, if there is one; else the run ends Undefined.
    pub fn assign(&mut self, v: u32, word: Option<Word>)
        requires { IsWide (widths_in self.old.variables.f.now v) word }
        ensures { (answers : List AnAnswer)
            → Becomes answers self.old self.new (with_word (number_in word) (local_of answers self.old)
            (λ n. assigned v n (local_of answers self.old))) }
    {
        match word {
            Some(word) => self.variables.assign(v as usize, word),
            None => self.finish(End::Undefined),
        }
    }
}
