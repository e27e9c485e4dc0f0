// What is asked for, as far as it is built.
ghost use Rattle.std.specs.Prelude.{◌≡◌, IfOk, map, string_bytes};
ghost use Rattle.std.specs.Option.{option_map};
ghost use Rattle.pipeline.specs.Request.{asked_by, form_of, wanted_of};

use bits_core::Memory;
use outside::Words;
use std::alloc::Global;
use words::{Request, Stage, read_words};

/// The texts that are built.
#[derive(Clone, Copy, Debug, PartialEq, Eq)]
pub enum Form {
    /// The C function.
    C,
    /// The C function of the plain lowering.
    Plain,
    /// The listing in its canonical form.
    Listing,
}

/// What is wanted.
#[derive(Clone, Copy, Debug, PartialEq, Eq)]
pub enum Wanted<'a> {
    /// A text of the file, or of the standard input where there is none.
    Text { form: Form, file: Option<&'a str> },
    /// The numbers of the generated listing with this number.
    Numbers(u32),
}

// The SSA text isn't built.
fn built_form(stage: Stage) -> Option<Form>
    ensures { result ≡ form_of stage }
{
    match stage {
        Stage::C => Some(Form::C),
        Stage::Ssa => None,
        Stage::Plain => Some(Form::Plain),
        Stage::Listing => Some(Form::Listing),
    }
}

/// What the words ask for. None where they are refused or ask for what isn't built, the SSA text. Fails where there is no
/// memory to read them.
pub fn asked_for(alloc: Global, words: &Words) -> Result<Option<Wanted<'_>>, Memory>
    ensures { IfOk result (λ wanted. option_map wanted_of wanted ≡ asked_by (map string_bytes words.now)) }
{
    match read_words(alloc, words.as_slice())? {
        Some(Request::Text { stage, file }) => match built_form(stage) {
            Some(form) => Ok(Some(Wanted::Text { form, file })),
            None => Ok(None),
        },
        Some(Request::Numbers(number)) => Ok(Some(Wanted::Numbers(number))),
        None => Ok(None),
    }
}
