// What is wrong with a record expression.
use laws::Fault;

// The fault, with what a refusal says in detail.
#[derive(Clone, Copy, Debug, PartialEq, Eq)]
pub struct RecordFault {
    pub fault: Fault,
    pub detail: u64,
}
