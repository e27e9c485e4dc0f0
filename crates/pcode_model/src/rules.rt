//! The check of a listing's ops against the profile of operations.

ghost use Rattle.std.specs.Prelude.{◌≡◌, ◌<◌, ◌^◌, length, IfErr, IfOk, None, Option, Some};
ghost use Rattle.pcode_model.specs.Step.{size_out, varnode_at};
ghost use Rattle.pcode_model.specs.declared.rules.OpFault.{OpFault};
ghost use Rattle.pcode_model.specs.Rules.{HasFewOps, all_are, any_leaves, any_wide, binary_sized, breaks, compares, destination_leaves, first_bad, first_bad_in, first_bad_of, first_broken, first_broken_of, has_operands, has_output, input_ranges, inputs_stand, is_analysis, is_constant, is_destination, is_float, is_in_first_ram, is_left_out, is_out_of_space, is_too_wide, leaves_space, names_address, names_ram, operands_of, output_is_constant, output_leaves, output_wide, sizes_fit, spaces_stand, unary_sized};

use crate::listing::{Instruction, Listing, Op, Place, SpaceKind, Varnode};
use crate::opcode::Opcode;
use crate::ranges::{is_kind, leaves, number_of};
use bits_core::{Binary, Unary};

/// Which rule an op breaks.
#[derive(Clone, Copy, Debug, PartialEq, Eq)]
pub enum OpWhy {
    /// A floating point operation.
    FloatOp,
    /// An operation that a decompiler's analysis adds.
    AnalysisOp,
    /// Another operation outside the profile.
    OtherOp,
    /// The number of inputs, or whether there is an output.
    Arity,
    /// A space where the operation asks for another, or an output in the constant space.
    BadSpace,
    /// A size over 16 bytes.
    TooWide,
    /// A range that leaves its space, or a destination that isn't in it.
    OutOfSpace,
    /// Sizes that the operation doesn't take.
    SizeRule,
}

/// The first op that breaks a rule.
#[derive(Clone, Copy, Debug, PartialEq, Eq)]
pub struct OpFault {
    pub place: Place,
    pub why: OpWhy,
}

/// Whether an operation has an output.
#[derive(Clone, Copy, Debug, PartialEq, Eq)]
pub enum Output {
    Has,
    Lacks,
    May,
}

/// How many inputs an operation has, and whether it has an output.
#[derive(Clone, Copy, Debug, PartialEq, Eq)]
pub struct Operands {
    pub least: usize,
    pub most: usize,
    pub output: Output,
}

impl Operands {
    fn exactly(inputs: usize, output: Output) -> Operands
        ensures { result ≡ record { least = inputs; most = inputs; output = output } }
    {
        Operands {
            least: inputs,
            most: inputs,
            output,
        }
    }
}

impl Opcode {
    ghost use Rattle.pcode_model.specs.Rules.{is_analysis, is_float, is_left_out, operands_of};

    /// Whether it is a floating point operation.
    pub fn is_float(&self) -> bool
        ensures { result ≡ is_float self.now }
    {
        matches!(self, Opcode::Float(_) | Opcode::FloatConversion(_))
    }

    /// Whether it is an operation that a decompiler's analysis adds.
    pub fn is_analysis(&self) -> bool
        ensures { result ≡ is_analysis self.now }
    {
        matches!(self, Opcode::Analysis(_))
    }

    /// Whether it is another operation outside the profile.
    pub fn is_left_out(&self) -> bool
        ensures { result ≡ is_left_out self.now }
    {
        matches!(self, Opcode::LeftOut(_))
    }

    /// How many inputs it has, and whether it has an output.
    pub fn operands(&self) -> Operands
        ensures { result ≡ operands_of self.now }
    {
        match self {
            Opcode::Unary(_) => Operands::exactly(1, Output::Has),
            Opcode::Binary(_) | Opcode::Divide(_) | Opcode::Load => Operands::exactly(
                2,
                Output::Has,
            ),
            Opcode::Store => Operands::exactly(3, Output::Lacks),
            Opcode::CBranch => Operands::exactly(2, Output::Lacks),
            Opcode::CallOther => Operands {
                least: 1,
                most: 16,
                output: Output::May,
            },
            _ => Operands::exactly(1, Output::Lacks),
        }
    }
}

impl Output {
    ghost use Rattle.pcode_model.specs.Rules.{has_output};

    fn fits(self, out: Option<Varnode>) -> bool
        ensures { result ≡ has_output self out }
    {
        match self {
            Output::Has => out.is_some(),
            Output::Lacks => out.is_none(),
            Output::May => true,
        }
    }
}

fn has_operands(operands: Operands, out: Option<Varnode>, inputs: usize) -> bool
    ensures { result ≡ has_operands operands out inputs }
{
    operands.least <= inputs && (inputs <= operands.most && operands.output.fits(out))
}

/// The varnode at an index; an empty constant past the last one.
fn varnode_at(varnodes: &[Varnode], index: usize) -> Varnode
    ensures { result ≡ varnode_at varnodes.now index }
{
    match varnodes.get(index) {
        Some(varnode) => *varnode,
        None => Varnode {
            space: 0,
            offset: 0,
            size: 0,
        },
    }
}

fn is_constant(varnode: Varnode) -> bool
    ensures { result ≡ is_constant varnode }
{
    varnode.space == 0
}

fn output_is_constant(out: Option<Varnode>) -> bool
    ensures { result ≡ output_is_constant out }
{
    match out {
        None => false,
        Some(varnode) => is_constant(varnode),
    }
}

fn names_ram(listing: &Listing, varnode: Varnode) -> bool
    ensures { result ≡ names_ram listing.now varnode }
{
    is_constant(varnode) && is_kind(SpaceKind::Ram, listing.spaces.as_slice(), varnode.offset)
}

fn is_in_first_ram(listing: &Listing, varnode: Varnode) -> bool
    ensures { result ≡ is_in_first_ram listing.now varnode }
{
    varnode.space as usize == number_of(SpaceKind::Ram, listing.spaces.as_slice())
}

fn is_destination(listing: &Listing, varnode: Varnode) -> bool
    ensures { result ≡ is_destination listing.now varnode }
{
    is_constant(varnode) || is_in_first_ram(listing, varnode)
}

fn inputs_stand(listing: &Listing, code: &Opcode, inputs: &[Varnode]) -> bool
    ensures { result ≡ inputs_stand listing.now code.now inputs.now }
{
    let first = varnode_at(inputs, 0);
    match code {
        Opcode::Load | Opcode::Store => names_ram(listing, first),
        Opcode::Branch | Opcode::CBranch => is_destination(listing, first),
        Opcode::Call => is_in_first_ram(listing, first),
        Opcode::CallOther => is_constant(first),
        Opcode::Binary(Binary::Subpiece) => is_constant(varnode_at(inputs, 1)),
        _ => true,
    }
}

fn spaces_stand(listing: &Listing, op: &Op) -> bool
    ensures { result ≡ spaces_stand listing.now op.now }
{
    !output_is_constant(op.out) && inputs_stand(listing, &op.code, op.inputs.as_slice())
}

fn names_address(code: &Opcode, inputs: &[Varnode]) -> bool
    ensures { result ≡ names_address code.now inputs.now }
{
    match code {
        Opcode::Branch | Opcode::CBranch | Opcode::Call => !is_constant(varnode_at(inputs, 0)),
        _ => false,
    }
}

fn input_ranges<'a>(code: &Opcode, inputs: &'a [Varnode]) -> &'a [Varnode]
    ensures { result.now ≡ input_ranges code.now inputs.now }
{
    if names_address(code, inputs) {
        match inputs {
            [] => inputs,
            [_, rest @ ..] => rest,
        }
    } else {
        inputs
    }
}

fn any_wide(varnodes: &[Varnode]) -> bool
    ensures { result ≡ any_wide varnodes.now }
{
    for varnode in varnodes {
        if varnode.size > 16 {
            return true;
        }
    }
    false
}

fn output_wide(out: Option<Varnode>) -> bool
    ensures { result ≡ output_wide out }
{
    match out {
        None => false,
        Some(varnode) => varnode.size > 16,
    }
}

fn is_too_wide(op: &Op) -> bool
    ensures { result ≡ is_too_wide op.now }
{
    any_wide(input_ranges(&op.code, op.inputs.as_slice())) || output_wide(op.out)
}

fn leaves_space(listing: &Listing, varnode: Varnode) -> bool
    ensures { result ≡ leaves_space listing.now varnode }
{
    !is_constant(varnode)
        && leaves(
            listing.spaces.as_slice(),
            u64::from(varnode.space),
            varnode.offset,
            varnode.size,
        )
}

fn any_leaves(listing: &Listing, varnodes: &[Varnode]) -> bool
    ensures { result ≡ any_leaves listing.now varnodes.now }
{
    for varnode in varnodes {
        if leaves_space(listing, *varnode) {
            return true;
        }
    }
    false
}

fn output_leaves(listing: &Listing, out: Option<Varnode>) -> bool
    ensures { result ≡ output_leaves listing.now out }
{
    match out {
        None => false,
        Some(varnode) => leaves_space(listing, varnode),
    }
}

fn destination_leaves(listing: &Listing, code: &Opcode, inputs: &[Varnode]) -> bool
    ensures { result ≡ destination_leaves listing.now code.now inputs.now }
{
    let first = varnode_at(inputs, 0);
    names_address(code, inputs)
        && leaves(
            listing.spaces.as_slice(),
            u64::from(first.space),
            first.offset,
            1,
        )
}

fn is_out_of_space(listing: &Listing, op: &Op) -> bool
    ensures { result ≡ is_out_of_space listing.now op.now }
{
    destination_leaves(listing, &op.code, op.inputs.as_slice())
        || (any_leaves(listing, input_ranges(&op.code, op.inputs.as_slice()))
            || output_leaves(listing, op.out))
}

fn unary_sized(op: Unary, input: u32, output: u32) -> bool
    ensures { result ≡ unary_sized op input output }
{
    match op {
        Unary::Copy | Unary::Negate | Unary::Complement => input == output,
        Unary::ZeroExtend | Unary::SignExtend => input < output,
        Unary::CountOnes | Unary::CountLeadingZeros => true,
        Unary::BoolNegate => input == 1 && output == 1,
    }
}

fn all_are(size: u32, first: u32, second: u32, output: u32) -> bool
    ensures { result ≡ all_are size first second output }
{
    first == size && (second == size && output == size)
}

fn compares(first: u32, second: u32, output: u32) -> bool
    ensures { result ≡ compares first second output }
{
    first == second && output == 1
}

fn binary_sized(op: Binary, first: u32, second: u32, output: u32) -> bool
    ensures { result ≡ binary_sized op first second output }
{
    match op {
        Binary::Piece => u64::from(output) == u64::from(first) + u64::from(second),
        Binary::Subpiece => true,
        Binary::Add
        | Binary::Subtract
        | Binary::Multiply
        | Binary::And
        | Binary::Or
        | Binary::Xor => { all_are(output, first, second, output) }
        Binary::Left | Binary::Right | Binary::SignedRight => first == output,
        Binary::BoolAnd | Binary::BoolOr | Binary::BoolXor => all_are(1, first, second, output),
        _ => compares(first, second, output),
    }
}

fn sizes_fit(code: &Opcode, output: u32, inputs: &[Varnode]) -> bool
    ensures { result ≡ sizes_fit code.now output inputs.now }
{
    let first = varnode_at(inputs, 0).size;
    let second = varnode_at(inputs, 1).size;
    match code {
        Opcode::Unary(op) => unary_sized(*op, first, output),
        Opcode::Binary(op) => binary_sized(*op, first, second, output),
        Opcode::Divide(_) => all_are(output, first, second, output),
        Opcode::CBranch => second == 1,
        _ => true,
    }
}

fn size_out(out: Option<Varnode>) -> u32
    ensures { result ≡ size_out out }
{
    match out {
        None => 0,
        Some(varnode) => varnode.size,
    }
}

impl OpWhy {
    ghost use Rattle.pcode_model.specs.Rules.{breaks};

    /// Whether an op breaks this rule.
    fn is_broken(self, listing: &Listing, op: &Op) -> bool
        ensures { result ≡ breaks listing.now op.now self }
    {
        match self {
            OpWhy::FloatOp => op.code.is_float(),
            OpWhy::AnalysisOp => op.code.is_analysis(),
            OpWhy::OtherOp => op.code.is_left_out(),
            OpWhy::Arity => !has_operands(op.code.operands(), op.out, op.inputs.len()),
            OpWhy::BadSpace => !spaces_stand(listing, op),
            OpWhy::TooWide => is_too_wide(op),
            OpWhy::OutOfSpace => is_out_of_space(listing, op),
            OpWhy::SizeRule => !sizes_fit(&op.code, size_out(op.out), op.inputs.as_slice()),
        }
    }
}

/// The rules in their order.
const RULES: [OpWhy; 8] = [
    OpWhy::FloatOp,
    OpWhy::AnalysisOp,
    OpWhy::OtherOp,
    OpWhy::Arity,
    OpWhy::BadSpace,
    OpWhy::TooWide,
    OpWhy::OutOfSpace,
    OpWhy::SizeRule,
];

fn first_broken_of(listing: &Listing, op: &Op, rules: &[OpWhy]) -> Option<OpWhy>
    ensures { result ≡ first_broken_of listing.now op.now rules.now }
{
    for why in rules {
        if why.is_broken(listing, op) {
            return Some(*why);
        }
    }
    None
}

fn first_broken(listing: &Listing, op: &Op) -> Option<OpWhy>
    ensures { result ≡ first_broken listing.now op.now }
{
    first_broken_of(listing, op, &RULES)
}

fn check_instruction(listing: &Listing, instruction: &Instruction) -> Result<(), OpFault>
    requires { length instruction.now.ops < 2 ^ 32 }
    ensures ok { IfOk result (λ _. (rest : Option OpFault) → first_bad_of listing.now instruction.now.address 0 instruction.now.ops rest ≡ rest) }
    ensures bad { IfErr result (λ fault. (rest : Option OpFault) → first_bad_of listing.now instruction.now.address 0 instruction.now.ops rest ≡ Some fault) }
{
    let mut index = 0u32;
    for op in instruction.ops.as_slice() {
        if let Some(why) = first_broken(listing, op) {
            let place = Place {
                address: instruction.address,
                index,
            };
            return Err(OpFault { place, why });
        }
        index += 1;
    }
    Ok(())
}

/// Checks each op of the listing. The fault is that of the first op in listing order that breaks a rule, with the first
/// rule that it breaks. It takes no memory.
pub fn check_ops(listing: &Listing) -> Result<(), OpFault>
    requires { HasFewOps listing.now.code }
    ensures ok { IfOk result (λ _. first_bad listing.now ≡ None) }
    ensures bad { IfErr result (λ fault. first_bad listing.now ≡ Some fault) }
{
    for instruction in listing.code.as_slice() {
        check_instruction(listing, instruction)?;
    }
    Ok(())
}
