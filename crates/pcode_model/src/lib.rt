//! The listing of one function's raw p-code, and what its run is.
#![tactic(auto)]

pub mod atoms;
pub mod callees;
pub mod flow;
pub mod frame;
pub mod inputs;
pub mod limits;
pub mod listing;
pub mod opcode;
pub mod ranges;
pub mod rules;
pub mod storage;
pub mod tables;

pub use atoms::{Atom, Atoms};
pub use callees::Callees;
pub use flow::{Block, Exit, Flow, FlowWhy, Numbers, Places, Turn};
pub use frame::{Frame, FrameAccess, FrameVariable, OffsetFact};
pub use inputs::Inputs;
pub use limits::{MAX_ATOMS, MAX_BLOCKS, MAX_INPUT};
pub use listing::{
    Bytes, Fixed, Fixeds, Function, Functions, Instruction, Instructions, Listing, Name, Op, Ops,
    Place, Proto, Protos, Space, SpaceKind, Spaces, Storage, Storages, Text, Varnode, Varnodes,
};
pub use opcode::{AnalysisOp, FloatConversion, LeftOutOp, Opcode};
pub use rules::{OpFault, OpWhy, check_ops};
pub use storage::ParamStorage;
pub use tables::{Case, Cases, Table, TableAt, Tables};
