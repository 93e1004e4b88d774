//! A gate through a parameter.
use std::cell::Cell;
use std::test::Fail;
use work_pool::{Gate, OpenGate};

// A gate that adds up what it was asked.
#[derive(Drop)]
struct Counts {
    sum: Cell<u64>,
}

impl Gate for Counts {
    fn ask(&self, worker: u32, take: u64) {
        let asked = (10 * worker as u64).wrapping_add(take);
        self.sum.set(self.sum.get().wrapping_add(asked));
    }
}

// Asks as caller 7 before call 3.
fn ask_once<G: Gate>(gate: &G) {
    gate.ask(7, 3);
}

#[test]
fn a_gate_is_asked_with_the_caller_and_its_call(rt: HostRuntime) -> Result<(), Fail> {
    ask_once(&OpenGate);
    let counts = Counts { sum: Cell::new(0) };
    ask_once(&counts);
    assert_eq!(rt; counts.sum.get(), 73);
    Ok(())
}
