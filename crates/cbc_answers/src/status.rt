/// How a run ended. The program's exit status is the number in this order, from 0.
#[derive(Clone, Copy, Debug, PartialEq, Eq)]
pub enum Status {
    /// Every query is decided.
    Decided,
    /// The tree that was checked isn't accepted.
    NotHeld,
    /// The words or the text were refused.
    Refused,
    /// Some query is undecided.
    Undecided,
    /// A file could not be read.
    ReadFault,
    /// The output took not all that was due.
    WriteFault,
    /// Memory ran out.
    Memory,
}
