// What ends a walk before its end.

// The reason, which scalable mode has its own of; FPD, as it was read by then; and the host address of the entry concerned.
#[derive(Clone, Copy, Debug, PartialEq, Eq)]
pub struct Stop<R> {
    pub reason: R,
    pub fpd: bool,
    pub at: u64,
}
