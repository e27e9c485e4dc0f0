//! What a body mentions, by first appearance.

ghost use Rattle.std.specs.Prelude.{◌≡◌, ◌+◌, IfOk};
ghost use Rattle.cmeaning.specs.Mentions.{Variable, Callee, LabelLine};
ghost use Rattle.naming.specs.First.{noted, none_noted, variable_number, label_number};

use crate::firsts::{Addresses, Numbers, behind};
use bits_core::Memory;
use std::alloc::Global;

/// The variables that are no parameters, the addresses of callees, and the labels. Parameters come first among variables.
#[derive(Drop)]
pub struct Order {
    /// How many parameters there are.
    pub params: u32,
    pub variables: Numbers,
    pub callees: Addresses,
    pub labels: Numbers,
}

impl Order {
    pub(crate) fn new(alloc: Global, params: u32) -> Order
        ensures { result ≡ none_noted params }
    {
        Order {
            params,
            variables: Numbers::new(alloc),
            callees: Addresses::new(alloc),
            labels: Numbers::new(alloc),
        }
    }

    pub(crate) fn with_variable(self, v: u32) -> Result<Order, Memory>
        ensures { IfOk result (λ o. o ≡ noted self (Variable v)) }
    {
        if v < self.params {
            return Ok(self);
        }
        let variables = self.variables.with(v)?;
        Ok(Order { variables, ..self })
    }

    pub(crate) fn with_callee(self, address: u64) -> Result<Order, Memory>
        ensures { IfOk result (λ o. o ≡ noted self (Callee address)) }
    {
        let callees = self.callees.with(address)?;
        Ok(Order { callees, ..self })
    }

    pub(crate) fn with_label(self, n: u32) -> Result<Order, Memory>
        ensures { IfOk result (λ o. o ≡ noted self (LabelLine n)) }
    {
        let labels = self.labels.with(n)?;
        Ok(Order { labels, ..self })
    }

    /// The number of a variable.
    pub(crate) fn variable(&self, v: u32) -> Result<u32, Memory>
        ensures { IfOk result (λ n. n ≡ variable_number self.now v) }
    {
        if v < self.params {
            return Ok(v);
        }
        let place = self.variables.place(v)?;
        behind(self.params, place as usize)
    }

    /// The number of a label.
    pub(crate) fn label(&self, n: u32) -> Result<u32, Memory>
        ensures { IfOk result (λ m. m ≡ label_number self.now n) }
    {
        let place = self.labels.place(n)?;
        behind(1, place as usize)
    }
}
