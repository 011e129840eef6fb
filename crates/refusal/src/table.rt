//! The number and the layer of each fault.
ghost use Rattle.std.specs.Prelude.{◌≡◌};
ghost use Rattle.refusal.specs.Faults.{number, layer};

use crate::kinds::{Fault, Refusal};

// Numbers and no enums: a report prints both, and no code tells layers apart. A table reads like the one in the documents.
#[derive(Clone, Copy)]
struct Row {
    number: u8,
    layer: u8,
}

impl Fault {
    // One line to a fault.
    #[rattlefmt::skip]
    fn row(self) -> Row
        ensures number { result.number ≡ number self }
        ensures layer { result.layer ≡ layer self }
    {
        match self {
            Fault::Cut => Row { number: 1, layer: 1 },
            Fault::Tag => Row { number: 2, layer: 1 },
            Fault::Length => Row { number: 3, layer: 1 },
            Fault::Value => Row { number: 4, layer: 2 },
            Fault::Count => Row { number: 5, layer: 2 },
            Fault::Tail => Row { number: 6, layer: 1 },
            Fault::Sizes => Row { number: 7, layer: 3 },
            Fault::Shelf => Row { number: 8, layer: 4 },
            Fault::Trail => Row { number: 9, layer: 4 },
            Fault::End => Row { number: 10, layer: 4 },
            Fault::Allowance => Row { number: 11, layer: 4 },
            Fault::Room => Row { number: 12, layer: 0 },
        }
    }

    /// The number by which reports name the fault.
    pub fn number(self) -> u8
        ensures value { result ≡ number self }
    {
        self.row().number
    }

    /// The layer of the bench that raises the fault.
    pub fn layer(self) -> u8
        ensures value { result ≡ layer self }
    {
        self.row().layer
    }
}

impl Refusal {
    /// The refusal of `fault` at `place`.
    pub const fn new(fault: Fault, place: usize) -> Self
        ensures value { result ≡ record { fault = fault; place = place } }
    {
        Refusal { fault, place }
    }
}
