//! The listing of one function: its spaces, prototypes, fixed bytes and code.

ghost use Rattle.std.specs.Prelude.{◌≡◌, ◌<◌, length, None};
ghost use Rattle.std.specs.Option.{option_copied};
ghost use Rattle.pcode_model.specs.Rules.{past_first};
ghost use Rattle.pcode_model.specs.Spaces.{kind_of};
ghost use Rattle.pcode_model.specs.Step.{callee_at, proto_at, proto_of, size_out, varnode_at};

use crate::callees::Callees;
use crate::inputs::Inputs;
use crate::opcode::Opcode;
use sqlite_items::Items;

/// A name of the listing: a letter or `_`, then at most 63 letters, digits or `_`, as ASCII codes.
pub type Name = Items<u8>;

pub type Bytes = Items<u8>;
/// A text: bytes that are all ASCII.
pub type Text = Vec<u8>;

pub type Spaces = Items<Space>;

pub type Varnodes = Items<Varnode>;

pub type Storages = Items<Storage>;

pub type Protos = Items<Proto>;

pub type Functions = Items<Function>;

pub type Fixeds = Items<Fixed>;

pub type Ops = Items<Op>;

pub type Instructions = Items<Instruction>;

#[derive(Clone, Copy, Debug, PartialEq, Eq)]
pub enum SpaceKind {
    Constant,
    Ram,
    Register,
    Unique,
}

/// An address space. Its offsets have `size` bytes, so it has 256 to the power `size` bytes.
#[derive(Drop)]
pub struct Space {
    pub name: Name,
    pub kind: SpaceKind,
    /// Bytes of an offset, 1 to 8.
    pub size: u8,
    /// Whether the byte at a word's offset is its most significant one.
    pub big: bool,
    /// Bytes of a word of the space, 1 to 8: the offset of a LOAD or STORE counts these.
    pub word: u8,
}

/// A range of a space: `size` bytes at a byte offset. In the constant space, space 0, the value `offset` itself.
#[derive(Clone, Copy, Debug, Default, PartialEq, Eq)]
pub struct Varnode {
    /// The number of the space: 0 is the constant space, and declared spaces count from 1 in their order.
    pub space: u8,
    pub offset: u64,
    /// Bytes, at least 1.
    pub size: u32,
}

/// One p-code operation.
#[derive(Drop)]
pub struct Op {
    pub code: Opcode,
    pub out: Option<Varnode>,
    pub inputs: Inputs,
}

/// A machine instruction: where it stands, its length in bytes, and its ops in order.
#[derive(Drop)]
pub struct Instruction {
    pub address: u64,
    pub length: u32,
    pub ops: Ops,
}

/// A place of the code: an op of the instruction at an address, or index 0 of one without ops.
#[derive(Clone, Copy, Debug, PartialEq, Eq)]
pub struct Place {
    pub address: u64,
    pub index: u32,
}

/// Where a prototype passes an argument.
#[derive(Clone, Copy, Debug, PartialEq, Eq)]
pub enum Storage {
    /// A range of the register space.
    At(Varnode),
    /// So many bytes above the stack pointer as the callee is entered, and the argument's size in bytes.
    Stack { offset: u32, size: u32 },
}

/// How a function is called.
#[derive(Drop)]
pub struct Proto {
    pub name: Name,
    pub args: Storages,
    /// The result's range of the register space, where there is a result.
    pub gives: Option<Varnode>,
    /// Bytes by which the stack pointer stands higher after a call.
    pub pop: u32,
    /// Ranges of the register space that a call leaves as they are.
    pub keep: Varnodes,
}

/// A function by its name, its address in the first ram space, and its prototype's number.
#[derive(Drop)]
pub struct Function {
    pub name: Name,
    pub address: u64,
    pub proto: u32,
    /// False for a callee that is declared never to return.
    pub returns: bool,
}

/// Read-only bytes of a ram space.
#[derive(Drop)]
pub struct Fixed {
    pub space: u8,
    pub offset: u64,
    pub bytes: Bytes,
}

/// The whole listing. `spaces` has the constant space at 0 and then the declared ones.
#[derive(Drop)]
pub struct Listing {
    /// 1 or 2: the version of the text that the listing was written in.
    pub version: u8,
    pub spaces: Spaces,
    /// The stack pointer, a range of the register space.
    pub stack: Option<Varnode>,
    pub protos: Protos,
    pub func: Function,
    pub callees: Callees,
    pub fixed: Fixeds,
    pub code: Instructions,
}

impl Op {
    /// The input of that number, counted from 0; an empty constant past the last one.
    pub fn input(&self, number: usize) -> Varnode
        ensures { result ≡ varnode_at self.now.inputs number }
    {
        match self.inputs.as_slice().get(number) {
            Some(varnode) => *varnode,
            None => Varnode {
                space: 0,
                offset: 0,
                size: 0,
            },
        }
    }

    /// The inputs but the first one.
    pub fn past_first(&self) -> &[Varnode]
        ensures { result.now ≡ past_first self.now.inputs }
    {
        match self.inputs.as_slice() {
            [] => &[],
            [_, rest @ ..] => rest,
        }
    }

    /// Bytes of the output, 0 where there is none.
    pub fn size_out(&self) -> u32
        ensures { result ≡ size_out self.now.out }
    {
        match self.out {
            Some(varnode) => varnode.size,
            None => 0,
        }
    }
}

impl Listing {
    /// The kind of the space with that number. A number past the last space is read as the constant space.
    pub fn space_kind(&self, number: u8) -> SpaceKind
        ensures { result ≡ kind_of self.now number }
    {
        match self.spaces.get(usize::from(number)) {
            Some(space) => space.kind,
            None => SpaceKind::Constant,
        }
    }

    /// The prototype with that number.
    pub fn proto_at(&self, number: u32) -> &Proto
        requires { number < length self.now.protos }
        ensures { result.now ≡ proto_at self.now number }
    {
        &self.protos.as_slice()[number as usize]
    }

    /// The prototype of the function itself, which each callee has that isn't declared.
    pub fn own_proto(&self) -> &Proto
        requires { self.now.func.proto < length self.now.protos }
        ensures { result.now ≡ proto_of self.now None }
    {
        self.proto_at(self.func.proto)
    }

    /// The callee that is declared at an address.
    pub fn callee_at(&self, address: u64) -> Option<&Function>
        ensures { option_copied result ≡ callee_at self.now address }
    {
        self.callees.at(address)
    }
}
