// What a call comes to.
ghost use Rattle.std.specs.Prelude.{◌≡◌, ◌≤◌, true, false, is_some, IfErr, IfOk, length, map, string_bytes, Some};
ghost use Rattle.pcode_model.specs.Limits.{max_input};
ghost use Rattle.statuses.specs.Answer.{answer_of};
ghost use Rattle.listing_again.specs.Again.{IsCanonicalOf};
ghost use Rattle.pipeline.specs.declared.request.Form.TheVariants as form;
ghost use Rattle.pipeline.specs.Cause.{AreCounted, Because, CauseAt, IsConverted, IsRefusal, ShowsAt};
ghost use Rattle.pipeline.specs.Request.{Prints, asked_by, reads_input, reads_shelf, wanted_of};
ghost use Rattle.pipeline.specs.Table.{Came, FileCame, sources};
ghost use Rattle.words.specs.Request.{text_in};

use crate::generated::generated_numbers;
use crate::message::refusal_line;
use crate::passes::decompile;
use crate::request::{Form, Wanted, asked_for};
use bits_core::Memory;
use listing_again::canonical_text;
use outside::{Bytes, ReadEnd, Shelf, Source, Words, read_all};
use pcode_model::{MAX_INPUT, Text};
use refusals::Refusal;
use statuses::{Outcome, read_file};
use std::alloc::Global;

/// What the words and the input or the file that they name come to.
pub fn work_out<S: Source, H: Shelf>(
    alloc: Global,
    words: &Words,
    input: &mut S,
    shelf: &mut H,
) -> Outcome
    ensures because { Because (asked_by (map string_bytes words.now)) (Came (sources (S.told input.old) (H.told shelf.old)) (sources (S.told input.new) (H.told shelf.new))) (answer_of result) }
    ensures input_stays { reads_input (asked_by (map string_bytes words.now)) ≡ false → input.new ≡ input.old }
    ensures shelf_stays { reads_shelf (asked_by (map string_bytes words.now)) ≡ false → shelf.new ≡ shelf.old }
    ensures input_later { (S.told input.old).faults ≤ (S.told input.new).faults }
    ensures shelf_later { (H.told shelf.old).faults ≤ (H.told shelf.new).faults }
{
    match asked_for(alloc, words) {
        Ok(Some(wanted)) => made(alloc, &wanted, input, shelf),
        Ok(None) => Outcome::BadArguments,
        Err(_) => Outcome::Memory,
    }
}

// What is wanted comes to this.
fn made<S: Source, H: Shelf>(
    alloc: Global,
    wanted: &Wanted<'_>,
    input: &mut S,
    shelf: &mut H,
) -> Outcome
    ensures because { Because (Some (wanted_of wanted.now)) (Came (sources (S.told input.old) (H.told shelf.old)) (sources (S.told input.new) (H.told shelf.new))) (answer_of result) }
    ensures input_stays { reads_input (Some (wanted_of wanted.now)) ≡ false → input.new ≡ input.old }
    ensures shelf_stays { reads_shelf (Some (wanted_of wanted.now)) ≡ false → shelf.new ≡ shelf.old }
    ensures input_later { (S.told input.old).faults ≤ (S.told input.new).faults }
    ensures shelf_later { (H.told shelf.old).faults ≤ (H.told shelf.new).faults }
{
    match *wanted {
        Wanted::Text { form, file } => read(alloc, form, file, input, shelf),
        Wanted::Numbers(number) => counted(alloc, number),
    }
}

fn counted(alloc: Global, number: u32) -> Outcome
    ensures { AreCounted number (answer_of result) }
{
    match generated_numbers(alloc, number) {
        Ok(text) => Outcome::Shown(text),
        Err(Memory) => Outcome::Memory,
    }
}

// What the file comes to, or the input where there is none.
fn read<S: Source, H: Shelf>(
    alloc: Global,
    form: Form,
    file: Option<&str>,
    input: &mut S,
    shelf: &mut H,
) -> Outcome
    ensures because { Because (Some (Prints form (text_in file.entry))) (Came (sources (S.told input.old) (H.told shelf.old)) (sources (S.told input.new) (H.told shelf.new))) (answer_of result) }
    ensures input_stays { is_some file.entry ≡ true → input.new ≡ input.old }
    ensures shelf_stays { is_some file.entry ≡ false → shelf.new ≡ shelf.old }
    ensures input_later { (S.told input.old).faults ≤ (S.told input.new).faults }
    ensures shelf_later { (H.told shelf.old).faults ≤ (H.told shelf.new).faults }
{
    match fetch(alloc, file, input, shelf) {
        Ok(bytes) => converted(alloc, form, bytes.as_slice()),
        Err(ReadEnd::Fault) => Outcome::ReadFault,
        Err(ReadEnd::TooLong) => Outcome::TooLong,
        Err(ReadEnd::Memory) => Outcome::Memory,
    }
}

// The bytes of the file, or of the input where there is none.
fn fetch<S: Source, H: Shelf>(
    alloc: Global,
    file: Option<&str>,
    input: &mut S,
    shelf: &mut H,
) -> Result<Bytes, ReadEnd>
    ensures came { FileCame (text_in file.entry) (sources (S.told input.old) (H.told shelf.old)) (sources (S.told input.new) (H.told shelf.new)) result }
    ensures short { IfOk result (λ bytes. length bytes ≤ max_input) }
    ensures input_stays { is_some file.entry ≡ true → input.new ≡ input.old }
    ensures shelf_stays { is_some file.entry ≡ false → shelf.new ≡ shelf.old }
    ensures input_later { (S.told input.old).faults ≤ (S.told input.new).faults }
    ensures shelf_later { (H.told shelf.old).faults ≤ (H.told shelf.new).faults }
{
    match file {
        None => read_all(alloc, input, MAX_INPUT as u32),
        Some(name) => read_file(alloc, shelf, name, MAX_INPUT as u32),
    }
}

fn converted(alloc: Global, form: Form, bytes: &[u8]) -> Outcome
    requires { length bytes.now ≤ max_input }
    ensures { IsConverted form bytes.now (answer_of result) }
{
    match text_of(alloc, form, bytes) {
        Ok(text) => Outcome::Shown(text),
        Err(refusal) => refused(alloc, &refusal),
    }
}

fn text_of(alloc: Global, form: Form, bytes: &[u8]) -> Result<Text, Refusal>
    requires { length bytes.now ≤ max_input }
    ensures text { IfOk result (λ text. ShowsAt form bytes.now text.items) }
    ensures refused { IfErr result (CauseAt form bytes.now) }
{
    match form {
        Form::C => decompile(alloc, bytes),
        Form::Plain => decompile(alloc, bytes),
        Form::Listing => canonical(alloc, bytes),
    }
}

fn canonical(alloc: Global, bytes: &[u8]) -> Result<Text, Refusal>
    requires { length bytes.now ≤ max_input }
    ensures text { IfOk result (λ text. IsCanonicalOf bytes.now text.items) }
    ensures refused { IfErr result (CauseAt form.Listing bytes.now) }
{
    match canonical_text(alloc, bytes) {
        Ok(text) => Ok(text),
        Err(fault) => Err(Refusal::from(fault)),
    }
}

fn refused(alloc: Global, refusal: &Refusal) -> Outcome
    ensures { IsRefusal refusal.now (answer_of result) }
{
    if matches!(refusal, Refusal::Memory) {
        return Outcome::Memory;
    }
    match refusal_line(alloc, refusal) {
        Ok(line) => Outcome::Refused(line),
        Err(_) => Outcome::Memory,
    }
}
